//! The call of the whole program.
ghost use Rattle.std.specs.Prelude.{◌≡◌, ◌≢◌, ◌↔◌, ◌++◌, ℕ, List as Items, IsTrue, None, Some};
ghost use Rattle.ode_begin.specs.Answers.{IsIdle, IsRunOf, SaidFront};
ghost use Rattle.ode_begin.specs.Claims.{RunsNone};
ghost use Rattle.ode_begin.specs.Holds.{Holds};
ghost use Rattle.ode_begin.specs.Opening.{OpensTo};
ghost use Rattle.ode_begin.specs.Words.{bytes_of};
ghost use Rattle.ode_schema.specs.Parts.{AreAligned, AreFit};
ghost use Rattle.ode_host.specs.Causes.{RoseIf};
ghost use Rattle.ode_host.specs.Host.{HostCalls, LeavesOnly};
ghost use Rattle.ode_interleaved_laws.specs.Serial.{runs_serially, serial_run};
ghost use Rattle.ode_language.specs.Languages.{ode};
ghost use Rattle.ode_machine.specs.Moments.{IsAfterSome};
ghost use Rattle.ode_pagemap.specs.Holding.{is_live};
ghost use Rattle.ode_run_laws.specs.Settled.{settled_of};
ghost use Rattle.ode_script.specs.Cutting.{ending_of, pieces};
ghost use Rattle.ode_sessions.specs.Running.{MultiWorld, items_from};
ghost use Rattle.ode_sessions.specs.Speaking.{spoken};
ghost use Rattle.ode_sessions.specs.Usage.{multi_word, usage_line};
ghost use Rattle.ode_ends.specs.Statuses.{IsEnding, IsRunStatus};
ghost use Rattle.ode_transact.specs.Resting.{resting_parts};
ghost use Rattle.ode_value.specs.Language.{ListWorld};

use crate::run::run_sessions;
use crate::serial::sessions_settle_serially;
use crate::usage::{USAGE, multi_word};
use ode_begin::{damaged, end_with, files_of_worlds_are_opened, open_to_run, refuse};
use ode_good_runs::runs_stay_good;
use ode_host::{Host, Source, Status};
use ode_language_laws::language_has_sound_rules;
use ode_opened::Opened;
use ode_pagemap::PageMap;
use ode_start_laws::opened_files_are_at_rest;
use std::alloc::Global;

// A run of sessions over an opened file.
fn run_opened<H: Host, S: Source>(
    alloc: Global,
    script: &mut S,
    host: &mut H,
    opened: Opened<PageMap>,
) -> Status
    requires live { IsTrue (is_live opened.keeper) }
    requires fit { AreFit (resting_parts opened) }
    requires aligned { AreAligned (resting_parts opened) }
    ensures ran { (w : ListWorld) (bytes text : Items ℕ) → S.left script.old ≡ Some bytes → OpensTo w opened (H.view host.old) → (H.view host.old).text ≡ Some text
        → IsEnding result → IsRunOf (items_from w bytes) (ending_of (pieces bytes)) w text (S.left script.new) (H.view host.new) result }
    ensures any_moment { (w : ListWorld) (bytes text : Items ℕ) → S.left script.old ≡ Some bytes → OpensTo w opened (H.view host.old) → (H.view host.old).text ≡ Some text
        → LeavesOnly (H.view host.old) (H.view host.new) (IsAfterSome Holds (items_from w bytes) w text) }
    ensures answers { (w : ListWorld) → OpensTo w opened (H.view host.old) → IsRunStatus result }
    ensures not_usage { result ≢ Status.Usage }
    ensures leaves { HostCalls (result ≡ Status.DiskFault) (result ≡ Status.WriteFault) (H.view host.old) (H.view host.new) }
    ensures reads { RoseIf (result ≡ Status.ReadFault) (S.faults script.old) (S.faults script.new) }
{
    runs_stay_good();
    language_has_sound_rules();
    opened_files_are_at_rest(&opened, host);
    match run_sessions(alloc, script, host, opened) {
        Ok(status) => status,
        Err(key) => damaged(alloc, host, key),
    }
}

// A run begins with the opening, which begins with a sync, so that what it reads is what a stop leaves.
fn run<H: Host, S: Source>(alloc: Global, script: &mut S, host: &mut H) -> Status
    ensures world { MultiWorld (S.left script.old) (S.left script.new) (H.view host.old) (H.view host.new) result }
    ensures no_world { RunsNone (S.left script.old) (S.left script.new) (H.view host.old) (H.view host.new) result }
    ensures not_usage { result ≢ Status.Usage }
    ensures leaves { HostCalls (result ≡ Status.DiskFault) (result ≡ Status.WriteFault) (H.view host.old) (H.view host.new) }
    ensures reads { RoseIf (result ≡ Status.ReadFault) (S.faults script.old) (S.faults script.new) }
{
    files_of_worlds_are_opened();
    match open_to_run(alloc, host) {
        Ok(opened) => run_opened(alloc, script, host, opened),
        Err(why) => refuse(alloc, host, why),
    }
}

/// Runs a script of sessions on the file that the words name: each piece is a statement of one of 64 sessions, whose transactions are open
/// side by side. What settles is what the transactions do one after another, each whole, in the order of settling.
pub fn run_multi<H: Host, S: Source>(
    alloc: Global,
    words: &Vec<String>,
    script: &mut S,
    host: &mut H,
) -> Status
    // On a file that holds a world the text, the status and the world that the file then holds are the machine's; where the run is cut
    // short, or stops at any moment, the file holds the world after some of the settled transactions, never fewer than the printed ones.
    ensures world { (file : Items ℕ) → multi_word (bytes_of words.now.items) ≡ Some file
        → MultiWorld (S.left script.old) (S.left script.new) (H.view host.old) (H.view host.new) result }
    // What these items settle is what whole transactions do one after another, each with all statements of its session, with drains where
    // no session is open.
    ensures serial { (image script : Items ℕ) (w : ListWorld) → Holds image w → settled_of (items_from w script) ≡ runs_serially ode w (serial_run ode spoken w script) }
    // On a file that breaks a rule it says which, and changes nothing.
    ensures no_world { (file : Items ℕ) → multi_word (bytes_of words.now.items) ≡ Some file
        → RunsNone (S.left script.old) (S.left script.new) (H.view host.old) (H.view host.new) result }

    // Wrong words are answered with the usage line, and change nothing.
    ensures usage { result ≡ Status.Usage ↔ ((multi_word (bytes_of words.now.items) ≡ None) × (result ≢ Status.WriteFault)) }
    ensures usage_cut { result ≡ Status.WriteFault → multi_word (bytes_of words.now.items) ≡ None → (text : Items ℕ)
        → (H.view host.old).text ≡ Some text → SaidFront usage_line text (H.view host.new) }
    ensures said { result ≡ Status.Usage → (text : Items ℕ) → (H.view host.old).text ≡ Some text → (H.view host.new).text ≡ Some (text ++ usage_line) }
    ensures unused { multi_word (bytes_of words.now.items) ≡ None → IsIdle result (H.view host.old) (H.view host.new) }
    ensures unread { multi_word (bytes_of words.now.items) ≡ None → S.left script.new ≡ S.left script.old }

    // A fault is answered wherever its count rose, and nowhere else, so a call that failed is never taken for good.
    ensures leaves { HostCalls (result ≡ Status.DiskFault) (result ≡ Status.WriteFault) (H.view host.old) (H.view host.new) }
    ensures reads { RoseIf (result ≡ Status.ReadFault) (S.faults script.old) (S.faults script.new) }
{
    sessions_settle_serially();
    match multi_word(words) {
        Some(_) => run(alloc, script, host),
        None => end_with(host, USAGE, Status::Usage),
    }
}
