//! A new file, and a run of a script.
ghost use Rattle.std.specs.Prelude.{◌≡◌, ◌≢◌, ℕ, List as Items, Some, IsTrue};
ghost use Rattle.ode_schema.specs.Parts.{AreAligned, AreFit};
ghost use Rattle.ode_host.specs.Causes.{RoseIf};
ghost use Rattle.ode_host.specs.Host.{HostCalls, LeavesOnly};
ghost use Rattle.ode_language.specs.Languages.{ode};
ghost use Rattle.ode_machine.specs.Moments.{IsAfterSome};
ghost use Rattle.ode_machine.specs.Runs.{trace};
ghost use Rattle.ode_pagemap.specs.Holding.{is_live};
ghost use Rattle.ode_ends.specs.Resting.{resting_parts};
ghost use Rattle.ode_ends.specs.Statuses.{IsEnding, IsRunStatus};
ghost use Rattle.ode_value.specs.Language.{ListWorld};
ghost use Rattle.ode_top.specs.Answers.{IsMachineRun};
ghost use Rattle.ode_begin.specs.Claims.{RunsNone};
ghost use Rattle.ode_top.specs.Claims.{Initialises, RunsWorld};
ghost use Rattle.ode_begin.specs.Holds.{Holds};
ghost use Rattle.ode_begin.specs.Opening.{OpensTo};

use ode_begin::{damaged, end_with, files_of_worlds_are_opened, open_to_run, refuse};
use ode_good_runs::runs_stay_good;
use ode_host::{Host, Source, Status};
use ode_language_laws::language_has_sound_rules;
use ode_make::{InitError, initialise};
use ode_opened::Opened;
use ode_pagemap::PageMap;
use ode_start_laws::opened_files_are_at_rest;
use ode_trace::run_script;
use std::alloc::Global;

/// Makes a database.
pub(crate) fn init<H: Host>(host: &mut H) -> Status
    ensures claims { Initialises (H.view host.old) (H.view host.new) result }
    ensures leaves { HostCalls (result ≡ Status.DiskFault) (result ≡ Status.WriteFault) (H.view host.old) (H.view host.new) }
{
    runs_stay_good();
    language_has_sound_rules();
    match initialise(host) {
        Ok(()) => end_with(host, b"ready\n", Status::Ok),
        Err(InitError::FileExists) => end_with(host, b"file exists\n", Status::BadFile),
        Err(InitError::DiskFault) => Status::DiskFault,
    }
}

// A run over an opened file.
fn run_opened<H: Host, S: Source>(
    alloc: Global,
    script: &mut S,
    host: &mut H,
    opened: Opened<PageMap>,
) -> Status
    requires live { IsTrue (is_live opened.keeper) }
    requires fit { AreFit (resting_parts opened) }
    requires aligned { AreAligned (resting_parts opened) }
    ensures ran { (w : ListWorld) (bytes text : Items ℕ) → S.left script.old ≡ Some bytes → OpensTo w opened (H.view host.old) → (H.view host.old).text ≡ Some text
        → IsEnding result → IsMachineRun bytes w text (S.left script.new) (H.view host.new) result }
    ensures any_moment { (w : ListWorld) (bytes text : Items ℕ) → S.left script.old ≡ Some bytes → OpensTo w opened (H.view host.old) → (H.view host.old).text ≡ Some text
        → LeavesOnly (H.view host.old) (H.view host.new) (IsAfterSome Holds (trace ode w bytes) w text) }
    ensures answers { (w : ListWorld) → OpensTo w opened (H.view host.old) → IsRunStatus result }
    ensures not_usage { result ≢ Status.Usage }
    ensures leaves { HostCalls (result ≡ Status.DiskFault) (result ≡ Status.WriteFault) (H.view host.old) (H.view host.new) }
    ensures reads { RoseIf (result ≡ Status.ReadFault) (S.faults script.old) (S.faults script.new) }
{
    runs_stay_good();
    language_has_sound_rules();
    opened_files_are_at_rest(&opened, host);
    match run_script(alloc, script, host, opened) {
        Ok(status) => status,
        Err(key) => damaged(alloc, host, key),
    }
}

// A run begins with the opening, which begins with a sync, so that what it reads is what a stop leaves.
pub(crate) fn run<H: Host, S: Source>(alloc: Global, script: &mut S, host: &mut H) -> Status
    ensures world { RunsWorld (S.left script.old) (S.left script.new) (H.view host.old) (H.view host.new) result }
    ensures no_world { RunsNone (S.left script.old) (S.left script.new) (H.view host.old) (H.view host.new) result }
    ensures not_usage { result ≢ Status.Usage }
    ensures leaves { HostCalls (result ≡ Status.DiskFault) (result ≡ Status.WriteFault) (H.view host.old) (H.view host.new) }
    ensures reads { RoseIf (result ≡ Status.ReadFault) (S.faults script.old) (S.faults script.new) }
{
    files_of_worlds_are_opened();
    match open_to_run(alloc, host) {
        Ok(opened) => run_opened(alloc, script, host, opened),
        Err(why) => refuse(alloc, host, why),
    }
}
