//! The modes that keep a copy of a file: one ships what it settles, the other follows.
ghost use Rattle.std.specs.Prelude.{◌≡◌, ◌≢◌, ℕ, List as Items, IsTrue, Some};
ghost use Rattle.ode_schema.specs.Parts.{AreAligned, AreFit};
ghost use Rattle.ode_gate.specs.declared.places.TheConstants.{FORMAT};
ghost use Rattle.ode_host.specs.Causes.{RoseIf};
ghost use Rattle.ode_host.specs.Host.{HostCalls, LeavesOnly};
ghost use Rattle.ode_keep.specs.Entries.{Entries};
ghost use Rattle.ode_language.specs.Languages.{ode};
ghost use Rattle.ode_machine.specs.Runs.{trace};
ghost use Rattle.ode_pagemap.specs.Holding.{is_live};
ghost use Rattle.ode_paging.specs.Meaning.{PagesMeanIn};
ghost use Rattle.ode_script.specs.Cutting.{ending_of, pieces};
ghost use Rattle.ode_trace.specs.Shipping.{ShippedAs};
ghost use Rattle.ode_ends.specs.Resting.{DiskHas, resting_parts};
ghost use Rattle.ode_ends.specs.Statuses.{IsEnding, IsRunStatus};
ghost use Rattle.ode_value.specs.Language.{ListWorld};
ghost use Rattle.ode_begin.specs.Claims.{RunsNone};
ghost use Rattle.ode_top.specs.Claims.{ShipsWorld};
ghost use Rattle.ode_top.specs.Following.{FollowsStream, IsFollowEnding, IsFollowStatus, IsFollowed, IsFollowedSoFar, Says, from_world, status_of};
ghost use Rattle.ode_begin.specs.Opening.{OpensTo};
ghost use Rattle.ode_top.specs.Stops.{ShipsSoFar};

use ode_begin::{damaged, end_with, files_of_worlds_are_opened, open_to_run, refuse};
use ode_good_runs::runs_stay_good;
use ode_host::{Host, Source, Status};
use ode_language_laws::language_has_sound_rules;
use ode_opened::Opened;
use ode_pagemap::PageMap;
use ode_ship_laws::held_worlds_tell_their_next_number;
use ode_standby::{Followed, ShipError, Standby, follow, followed_line, stopped_line};
use ode_start_laws::opened_files_are_at_rest;
use ode_trace::ship_script;
use std::alloc::Global;

// A run over an opened file that ships what it settles.
fn ship_opened<H: Host, S: Source>(
    alloc: Global,
    script: &mut S,
    host: &mut H,
    opened: Opened<PageMap>,
) -> Status
    requires live { IsTrue (is_live opened.keeper) }
    requires fit { AreFit (resting_parts opened) }
    requires aligned { AreAligned (resting_parts opened) }
    ensures shipped { (w : ListWorld) (bytes text : Items ℕ) (entries : Entries) → S.left script.old ≡ Some bytes → OpensTo w opened (H.view host.old) → (H.view host.old).text ≡ Some text
        → DiskHas (PagesMeanIn FORMAT) entries (H.view host.old)
        → IsEnding result → ShippedAs (PagesMeanIn FORMAT) (trace ode w bytes) (ending_of (pieces bytes)) w entries text (S.left script.new) (H.view host.new) result }
    ensures any_moment { (w : ListWorld) (bytes text : Items ℕ) (entries : Entries) → S.left script.old ≡ Some bytes → OpensTo w opened (H.view host.old) → (H.view host.old).text ≡ Some text
        → DiskHas (PagesMeanIn FORMAT) entries (H.view host.old) → LeavesOnly (H.view host.old) (H.view host.new) (ShipsSoFar (trace ode w bytes) w entries text) }
    ensures answers { (w : ListWorld) → OpensTo w opened (H.view host.old) → IsRunStatus result }
    ensures not_usage { result ≢ Status.Usage }
    ensures leaves { HostCalls (result ≡ Status.DiskFault) (result ≡ Status.WriteFault) (H.view host.old) (H.view host.new) }
    ensures reads { RoseIf (result ≡ Status.ReadFault) (S.faults script.old) (S.faults script.new) }
{
    runs_stay_good();
    language_has_sound_rules();
    opened_files_are_at_rest(&opened, host);
    match ship_script(alloc, script, host, opened) {
        Ok(status) => status,
        Err(key) => damaged(alloc, host, key),
    }
}

/// A run that ships what it settles begins as any run.
pub(crate) fn ship<H: Host, S: Source>(alloc: Global, script: &mut S, host: &mut H) -> Status
    ensures world { ShipsWorld (S.left script.old) (S.left script.new) (H.view host.old) (H.view host.new) result }
    ensures no_world { RunsNone (S.left script.old) (S.left script.new) (H.view host.old) (H.view host.new) result }
    ensures not_usage { result ≢ Status.Usage }
    ensures leaves { HostCalls (result ≡ Status.DiskFault) (result ≡ Status.WriteFault) (H.view host.old) (H.view host.new) }
    ensures reads { RoseIf (result ≡ Status.ReadFault) (S.faults script.old) (S.faults script.new) }
{
    files_of_worlds_are_opened();
    match open_to_run(alloc, host) {
        Ok(opened) => ship_opened(alloc, script, host, opened),
        Err(why) => refuse(alloc, host, why),
    }
}

// Says what stands in a stream and stops a standby.
fn say_stop<H: Host>(alloc: Global, host: &mut H, error: &ShipError) -> Status
    requires { IsFollowEnding (status_of (Followed.Stopped error.now)) }
    ensures says { Says H.view (Followed.Stopped error.now) host.old host.new result }
{
    match stopped_line(alloc, error) {
        Ok(Some(line)) => end_with(host, line.as_slice(), Status::Refused),
        Ok(None) | Err(_) => Status::Memory,
    }
}

// Says why a standby doesn't go on, where the stream is why, or a record.
fn stopped<H: Host>(alloc: Global, host: &mut H, error: ShipError) -> Status
    ensures says { Says H.view (Followed.Stopped error) host.old host.new result }
{
    match error {
        ShipError::Memory => Status::Memory,
        ShipError::DiskFault => Status::DiskFault,
        ShipError::Damaged { key } => damaged(alloc, host, key),
        ShipError::BadFrame { .. } | ShipError::Gap { .. } | ShipError::TooLarge { .. } => {
            say_stop(alloc, host, &error)
        }
    }
}

// Says what following a stream came to.
fn say_followed<H: Host>(alloc: Global, host: &mut H, followed: Followed) -> Status
    ensures says { Says H.view followed host.old host.new result }
{
    match followed {
        Followed::Ended {
            applied,
            skipped,
            rest,
        } => match followed_line(alloc, applied, skipped, rest) {
            Ok(line) => end_with(host, line.as_slice(), Status::Ok),
            Err(_) => Status::Memory,
        },
        Followed::Long => Status::LongScript,
        Followed::ReadFault => Status::ReadFault,
        Followed::Stopped(error) => stopped(alloc, host, error),
    }
}

// A stream is followed over an opened file.
fn follow_opened<H: Host, S: Source>(
    alloc: Global,
    script: &mut S,
    host: &mut H,
    opened: Opened<PageMap>,
) -> Status
    requires live { IsTrue (is_live opened.keeper) }
    ensures followed { (w : ListWorld) (stream text : Items ℕ) (entries : Entries) → S.left script.old ≡ Some stream → OpensTo w opened (H.view host.old) → (H.view host.old).text ≡ Some text
        → DiskHas (PagesMeanIn FORMAT) entries (H.view host.old)
        → IsFollowEnding result → IsFollowed stream (from_world entries w) text (S.left script.new) (H.view host.new) result }
    ensures any_moment { (w : ListWorld) (stream text : Items ℕ) (entries : Entries) → S.left script.old ≡ Some stream → OpensTo w opened (H.view host.old) → (H.view host.old).text ≡ Some text
        → DiskHas (PagesMeanIn FORMAT) entries (H.view host.old)
        → LeavesOnly (H.view host.old) (H.view host.new) (IsFollowedSoFar stream (from_world entries w) (H.view host.old)) }
    ensures answers { (w : ListWorld) → OpensTo w opened (H.view host.old) → IsFollowStatus result }
    ensures not_usage { result ≢ Status.Usage }
    ensures leaves { HostCalls (result ≡ Status.DiskFault) (result ≡ Status.WriteFault) (H.view host.old) (H.view host.new) }
    ensures reads { RoseIf (result ≡ Status.ReadFault) (S.faults script.old) (S.faults script.new) }
{
    held_worlds_tell_their_next_number();
    let mut standby = Standby::start(alloc, opened);
    let followed = follow(script, host, &mut standby);
    say_followed(alloc, host, followed)
}

// A stream is followed over a file, which is migrated where it is of the first format. No entry of its queue runs.
pub(crate) fn follow_stream<H: Host, S: Source>(
    alloc: Global,
    script: &mut S,
    host: &mut H,
) -> Status
    ensures world { FollowsStream (S.left script.old) (S.left script.new) (H.view host.old) (H.view host.new) result }
    ensures no_world { RunsNone (S.left script.old) (S.left script.new) (H.view host.old) (H.view host.new) result }
    ensures not_usage { result ≢ Status.Usage }
    ensures leaves { HostCalls (result ≡ Status.DiskFault) (result ≡ Status.WriteFault) (H.view host.old) (H.view host.new) }
    ensures reads { RoseIf (result ≡ Status.ReadFault) (S.faults script.old) (S.faults script.new) }
{
    files_of_worlds_are_opened();
    match open_to_run(alloc, host) {
        Ok(opened) => follow_opened(alloc, script, host, opened),
        Err(why) => refuse(alloc, host, why),
    }
}
