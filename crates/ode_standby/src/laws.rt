//! What a standby makes of a stream, and of the frames of its primary: laws, each carried by the contract of a function that does nothing.
ghost use Rattle.std.specs.Prelude.{ℕ, List as Items};
ghost use Rattle.ode_standby.specs.Courses.{Course};
ghost use Rattle.ode_standby.specs.Endings.{HasOneEnding};
ghost use Rattle.ode_standby.specs.Pieces.{LeavesJoin, NextIsKept, PiecesJoin, StopsJoin};
ghost use Rattle.ode_standby.specs.Primary.{NothingStops, StopsLeaveSome, TakesShipped};

use ode_host::Host;
use ode_keep::Keep;

/// What is taken of a stream piece by piece is what is taken of it as one, and so is what stops a standby; behind it the records tell the
/// next number.
pub fn pieces_are_one_stream()
    ensures taken { PiecesJoin }
    ensures stopped { StopsJoin }
    ensures next { NextIsKept }
{}

/// What a stop leaves in a piece is what one in the whole stream does.
pub fn stops_in_pieces_are_stops_in_one_stream<H: Host, K: Keep<H>>(keeper: &K, host: &H)
    ensures { LeavesJoin K.means (H.view host.now) }
{}

/// Bytes of a stream are taken up to one place, or stop a standby at one place and with one error, and not both. So each error comes
/// exactly where its cause stands, but for want of memory and a fault of the disk.
pub fn streams_end_once()
    ensures { (most : ℕ) (c : Course) (bytes : Items ℕ) → HasOneEnding most c bytes }
{}

/// A standby that takes a front of the frames that its primary shipped, from where it is on and with earlier ones among them, is where the
/// primary was behind the last that is whole; nothing stops it.
pub fn standbys_follow_their_primaries()
    ensures takes { TakesShipped }
    ensures goes_on { NothingStops }
{}

/// A stop meanwhile leaves the records of the primary behind some frame, whole, and none from before the standby began.
pub fn stops_leave_records_of_the_primary<H: Host, K: Keep<H>>(keeper: &K, host: &H)
    ensures { StopsLeaveSome K.means (H.view host.now) }
{}
