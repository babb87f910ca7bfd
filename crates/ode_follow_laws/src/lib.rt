//! A standby that follows what a run shipped holds what the run settled: a law, carried by the contract of a function that does nothing.
#![tactic(auto)]

ghost use Rattle.std.specs.Prelude.{◌≤◌, ℕ, List as Items, Option, length};
ghost use Rattle.ode_follow_laws.specs.Standing.{HoldsSome, IsStanding};
ghost use Rattle.ode_host.specs.declared.status.Status.{Status};
ghost use Rattle.ode_keep.specs.Entries.{Entries};
ghost use Rattle.ode_keep.specs.declared.limits.TheConstants.{MAX_PAGED_BYTES};
ghost use Rattle.ode_language.specs.Languages.{ode};
ghost use Rattle.ode_machine.specs.Runs.{trace};
ghost use Rattle.ode_script.specs.Cutting.{Ending};
ghost use Rattle.ode_standby.specs.Courses.{Course, IsStopped, IsTaken};
ghost use Rattle.ode_standby.specs.Primary.{GoOn, IsBehind, IsFront, ShippedFrom};
ghost use Rattle.ode_standby.specs.Taking.{LeavesSome};
ghost use Rattle.ode_standby.specs.declared.error.ShipError.{ShipError};
ghost use Rattle.ode_trace.specs.Shipping.{IsShippedSoFar, ShippedAs};
ghost use Rattle.ode_transact.specs.Logging.{AreOf};
ghost use Rattle.ode_value.specs.Language.{ListWorld};

use ode_host::Host;
use ode_keep::Keep;
use ode_number_laws::runs_count_up;
use ode_ship_laws::{kept_transactions_are_shipped, shipped_records_hold_their_worlds};
use ode_standby::{standbys_follow_their_primaries, stops_leave_records_of_the_primary};

/// What a run over records of a world shipped is what a standby asks of frames, and so is what a stopped one had shipped. A standby that is
/// where the run was behind some of its transactions, and is fed a front of these frames from there on, earlier ones among them, is never
/// stopped by the stream; it comes to where the run was behind the last frame that is whole, and so holds the world there; and a stop leaves
/// the world behind some transaction, none before those that it had.
pub fn standbys_hold_what_was_settled<H: Host, K: Keep<H>, G: Host, L: Keep<G>>(
    primary: &K,
    host: &H,
    standby: &L,
    other: &G,
)
    ensures shipped { (w : ListWorld) (entries : Entries) (script text : Items ℕ) (ending : Ending) (left : Option (Items ℕ)) (status : Status)
        → AreOf ode entries w → (run : ShippedAs K.means (trace ode w script) ending w entries text left (H.view host.now) status) → ShippedFrom MAX_PAGED_BYTES entries run.frames }
    ensures partly { (w : ListWorld) (entries : Entries) (script text image out : Items ℕ) → AreOf ode entries w
        → (run : IsShippedSoFar K.means (trace ode w script) w entries text image out) → ShippedFrom MAX_PAGED_BYTES entries run.frames }
    ensures goes_on { (w : ListWorld) (entries : Entries) (script text : Items ℕ) (ending : Ending) (left : Option (Items ℕ)) (status : Status)
        → AreOf ode entries w → (run : ShippedAs K.means (trace ode w script) ending w entries text left (H.view host.now) status)
        → (j : ℕ) (places bytes : Items ℕ) (c d : Course) (error : ShipError) → IsBehind run.frames entries j c → GoOn run.frames j places → IsFront run.frames places bytes
        → IsStopped MAX_PAGED_BYTES c d bytes error → ⊥ }
    ensures follows { (w : ListWorld) (entries : Entries) (script text : Items ℕ) (ending : Ending) (left : Option (Items ℕ)) (status : Status)
        → AreOf ode entries w → (run : ShippedAs K.means (trace ode w script) ending w entries text left (H.view host.now) status)
        → (j : ℕ) (places bytes rest : Items ℕ) (c d : Course) → IsBehind run.frames entries j c → GoOn run.frames j places → IsFront run.frames places bytes
        → IsTaken MAX_PAGED_BYTES c d bytes rest → IsStanding w (trace ode w script) run.frames entries j places bytes rest d }
    ensures stops { (w : ListWorld) (entries : Entries) (script text : Items ℕ) (ending : Ending) (left : Option (Items ℕ)) (status : Status)
        → AreOf ode entries w → (run : ShippedAs K.means (trace ode w script) ending w entries text left (H.view host.now) status)
        → (j : ℕ) (places bytes : Items ℕ) (c : Course) (image out : Items ℕ) → IsBehind run.frames entries j c → GoOn run.frames j places → IsFront run.frames places bytes
        → LeavesSome L.means MAX_PAGED_BYTES c bytes (G.view other.now) image out → HoldsSome L.means w (trace ode w script) (length run.frames) j image }
{
    runs_count_up();
    kept_transactions_are_shipped();
    shipped_records_hold_their_worlds();
    standbys_follow_their_primaries();
    stops_leave_records_of_the_primary(standby, other);
}
