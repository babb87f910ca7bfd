//! The call of the whole program.
ghost use Rattle.std.specs.Prelude.{◌≡◌, ◌≢◌, ◌⊎◌, ◌↔◌, ◌++◌, ◌≤◌, ℕ, List as Items, Option, Some, None, IfOk, IsErrOf, IsTrue};
ghost use Rattle.ode_keeper.specs.Holding as of_either;
ghost use Rattle.ode_keeper.specs.Holding.{KeeperHolds};
ghost use Rattle.ode_schema.specs.Parts.{AreAligned, AreFit};
ghost use Rattle.ode_dump.specs.Dumping.{AreRecords};
ghost use Rattle.ode_host.specs.Causes.{RoseIf};
ghost use Rattle.ode_gen.specs.Generating.{gen_limit};
ghost use Rattle.ode_host.specs.Host.{HostCalls, LeavesCut, LeavesOnly, Looks, Spares, Stands, Tells};
ghost use Rattle.ode_keep.specs.Entries.{Entries};
ghost use Rattle.ode_language.specs.Languages.{ode};
ghost use Rattle.ode_machine.specs.Moments.{IsAfterSome};
ghost use Rattle.ode_open.specs.Opening.{IsRefused};
ghost use Rattle.ode_passes.specs.Answers.{OnBroken};
ghost use Rattle.ode_pagemap.specs.Holding.{is_live};
ghost use Rattle.ode_questions.specs.declared.asked.Asked.{Asked};
ghost use Rattle.ode_ends.specs.Resting.{resting_parts};
ghost use Rattle.ode_ends.specs.Statuses.{IsEnding, IsRunStatus};
ghost use Rattle.ode_value.specs.Language.{ListWorld};
ghost use Rattle.ode_begin.specs.Answers.{BreaksRule, IsIdle, SaidFront};
ghost use Rattle.ode_top.specs.Answers.{AreAnswered, AreAnsweredInPart, Asks, IsGenStatus, IsGenerated, ReadsScript, SaysRecords, counts_line, gen_items, mode_text, usage_line};
ghost use Rattle.ode_begin.specs.Words.{bytes_of};
ghost use Rattle.ode_top.specs.Calls.{call_of};
ghost use Rattle.ode_begin.specs.Claims.{RunsNone};
ghost use Rattle.ode_top.specs.Claims.{Generates, Initialises, Inspects, Questions, RunsWorld, ShipsWorld};
ghost use Rattle.ode_top.specs.Following.{FollowsStream};
ghost use Rattle.ode_begin.specs.Holds.{Holds};
ghost use Rattle.ode_begin.specs.Opening.{OpensTo};
ghost use Rattle.ode_top.specs.Opening.{OpensAsIs};
ghost use Rattle.ode_begin.specs.Stops.{IsCut};

use crate::call::{Mode, call_of};
use crate::copying::{follow_stream, ship};
use crate::running::{init, run};
use ode_begin::{damaged, end_with, files_of_worlds_are_opened, open_to_run, refuse};
use ode_dump::{check_text, dump_text, tallied_records_decode};
use ode_gen::{TextSource, gen_line, gen_script, generated_scripts_end};
use ode_good_runs::runs_stay_good;
use ode_heap::Heap;
use ode_host::{Host, Source, Status};
use ode_keeper::Keeper;
use ode_language_laws::language_has_sound_rules;
use ode_open::{OpenError, open_base};
use ode_opened::Opened;
use ode_pagemap::PageMap;
use ode_passes::OpenError as ReadError;
use ode_questions::{Asked, answer_script};
use ode_start_laws::opened_files_are_at_rest;
use ode_trace::{Tally, run_quietly};
use ode_value::List;
use std::alloc::Global;

const USAGE: &[u8] =
    b"usage: ode (init|run|check|dump|query|same|ship|follow) FILE | ode gen FILE N\n";

// The questions of a script over an opened file, of which nothing changes.
fn ask_opened<H: Host, S: Source>(
    alloc: Global,
    asked: Asked,
    script: &mut S,
    host: &mut H,
    opened: Opened<Keeper>,
) -> Status
    requires live { IsTrue (of_either.is_live opened.keeper) }
    requires fit { AreFit (resting_parts opened) }
    ensures answered { (image : Items ℕ) (w : ListWorld) (bytes text : Items ℕ) → S.left script.old ≡ Some bytes → OpensAsIs image w opened (H.view host.old)
        → (H.view host.old).text ≡ Some text → IsEnding result → AreAnswered asked bytes image w text (S.left script.new) (H.view host.new) result }
    ensures cut { (image : Items ℕ) (w : ListWorld) (bytes text : Items ℕ) → S.left script.old ≡ Some bytes → OpensAsIs image w opened (H.view host.old)
        → (H.view host.old).text ≡ Some text → IsCut result → AreAnsweredInPart asked bytes image w text (H.view host.new) }
    ensures answers { (image : Items ℕ) (w : ListWorld) → OpensAsIs image w opened (H.view host.old) → IsRunStatus result }
    ensures not_usage { result ≢ Status.Usage }
    ensures spares { Spares (H.view host.old) (H.view host.new) }
    ensures leaves { HostCalls (result ≡ Status.DiskFault) (result ≡ Status.WriteFault) (H.view host.old) (H.view host.new) }
    ensures reads { RoseIf (result ≡ Status.ReadFault) (S.faults script.old) (S.faults script.new) }
{
    opened_files_are_at_rest(&opened, host);
    let Opened {
        keeper,
        classes,
        ..
    } = opened;
    let mut heap = Heap::new(keeper);
    match answer_script(alloc, asked, script, host, &classes, &mut heap) {
        Ok(status) => status,
        Err(key) => damaged(alloc, host, key),
    }
}

// The questions of a script over a file, which is opened as it is: it isn't migrated, and no entry of its queue runs.
fn ask<H: Host, S: Source>(alloc: Global, asked: Asked, script: &mut S, host: &mut H) -> Status
    ensures world { Questions asked (S.left script.old) (S.left script.new) (H.view host.old) (H.view host.new) result }
    ensures no_world { RunsNone (S.left script.old) (S.left script.new) (H.view host.old) (H.view host.new) result }
    ensures not_usage { result ≢ Status.Usage }
    ensures leaves { HostCalls (result ≡ Status.DiskFault) (result ≡ Status.WriteFault) (H.view host.old) (H.view host.new) }
    ensures reads { RoseIf (result ≡ Status.ReadFault) (S.faults script.old) (S.faults script.new) }
{
    files_of_worlds_are_opened();
    match open_base(alloc, host) {
        Ok(opened) => ask_opened(alloc, asked, script, host, opened),
        Err(why) => refuse(alloc, host, why),
    }
}

// Whether a run ended by itself.
fn has_ended(status: Status) -> bool
    ensures { IsTrue result ↔ IsEnding status }
{
    matches!(
        status,
        Status::Ok | Status::Refused | Status::LongStatement | Status::LongScript
    )
}

// Says what the run of a number's script came to, which ended by itself.
fn say_counts<H: Host>(
    alloc: Global,
    host: &mut H,
    number: u32,
    tally: &Tally,
    status: Status,
) -> Status
    requires { IsEnding status }
    ensures status { (result ≡ status) ⊎ ((result ≡ Status.Memory) ⊎ (result ≡ Status.WriteFault)) }
    ensures said { result ≡ status → (text : Items ℕ) → (H.view host.old).text ≡ Some text
        → (H.view host.new).text ≡ Some (text ++ counts_line number tally.now) }
    ensures stands { (file : Items ℕ) → Stands file (H.view host.old) → Stands file (H.view host.new) }
    ensures any_moment { (file text : Items ℕ) → Stands file (H.view host.old) → (H.view host.old).text ≡ Some text
        → LeavesOnly (H.view host.old) (H.view host.new) (LeavesCut file text (counts_line number tally.now)) }
    ensures leaves { HostCalls (result ≡ Status.DiskFault) (result ≡ Status.WriteFault) (H.view host.old) (H.view host.new) }
{
    match gen_line(
        alloc,
        number,
        tally.pieces,
        tally.settled,
        tally.refused,
        tally.bytes,
    ) {
        Ok(line) => end_with(host, line.as_slice(), status),
        Err(_) => Status::Memory,
    }
}

// A run of a number's script over an opened file. What it prints is the line behind it.
fn gen_opened<H: Host>(alloc: Global, host: &mut H, opened: Opened<PageMap>, number: u32) -> Status
    requires live { IsTrue (is_live opened.keeper) }
    requires fit { AreFit (resting_parts opened) }
    requires aligned { AreAligned (resting_parts opened) }
    ensures ran { (w : ListWorld) (text : Items ℕ) → OpensTo w opened (H.view host.old) → (H.view host.old).text ≡ Some text
        → IsEnding result → IsGenerated number w text (H.view host.new) result }
    ensures any_moment { (w : ListWorld) (text : Items ℕ) → OpensTo w opened (H.view host.old) → (H.view host.old).text ≡ Some text
        → LeavesOnly (H.view host.old) (H.view host.new) (IsAfterSome Holds (gen_items number w) w text) }
    ensures answers { (w : ListWorld) (text : Items ℕ) → number ≤ gen_limit → OpensTo w opened (H.view host.old) → (H.view host.old).text ≡ Some text → IsGenStatus result }
    ensures not_usage { result ≢ Status.Usage }
    ensures not_read { result ≢ Status.ReadFault }
    ensures leaves { HostCalls (result ≡ Status.DiskFault) (result ≡ Status.WriteFault) (H.view host.old) (H.view host.new) }
{
    runs_stay_good();
    language_has_sound_rules();
    generated_scripts_end();
    opened_files_are_at_rest(&opened, host);
    let script = match gen_script(alloc, number) {
        Ok(script) => script,
        Err(_) => return Status::Memory,
    };
    let mut source = TextSource::new(script);
    let mut tally = Tally::new();
    match run_quietly(alloc, &mut source, host, opened, &mut tally) {
        Ok(status) => {
            if has_ended(status) {
                say_counts(alloc, host, number, &tally, status)
            } else {
                status
            }
        }
        Err(key) => damaged(alloc, host, key),
    }
}

// A run of a number's script, which begins with the opening.
fn generate<H: Host>(alloc: Global, host: &mut H, number: u32) -> Status
    ensures world { number ≤ gen_limit → Generates number (H.view host.old) (H.view host.new) result }
    ensures no_world { (left : Option (Items ℕ)) → RunsNone left left (H.view host.old) (H.view host.new) result }
    ensures not_usage { result ≢ Status.Usage }
    ensures not_read { result ≢ Status.ReadFault }
    ensures leaves { HostCalls (result ≡ Status.DiskFault) (result ≡ Status.WriteFault) (H.view host.old) (H.view host.new) }
{
    files_of_worlds_are_opened();
    match open_to_run(alloc, host) {
        Ok(opened) => gen_opened(alloc, host, opened, number),
        Err(why) => refuse(alloc, host, why),
    }
}

// The text of a mode, of the records of an opened file.
fn text_of<H: Host>(
    alloc: Global,
    host: &mut H,
    mode: Mode,
    opened: Opened<Keeper>,
) -> Result<List<u8>, ReadError>
    requires live { IsTrue (of_either.is_live opened.keeper) }
    ensures text { IfOk result (λ text. (entries : Entries) → KeeperHolds opened.keeper (H.view host.old) entries
        → text ≡ mode_text mode opened.classes entries) }
    ensures broken { OnBroken result ((entries : Entries) → KeeperHolds opened.keeper (H.view host.old) entries → AreRecords entries → ⊥) }
    ensures looks { Looks (H.view host.old) (H.view host.new) }
    ensures cause { RoseIf (IsErrOf result ReadError.DiskFault) (H.view host.old).disk_faults (H.view host.new).disk_faults }
{
    let Opened {
        mut keeper,
        classes,
        ..
    } = opened;
    match mode {
        Mode::Check => check_text(alloc, &mut keeper, host),
        Mode::Dump => dump_text(alloc, &mut keeper, host, &classes),
        Mode::Init | Mode::Run | Mode::Ask(_) | Mode::Ship | Mode::Follow | Mode::Gen(_) => Ok(
            List::new(alloc),
        ),
    }
}

// The text of a mode, of the records of a file, or why the file isn't opened.
fn read_text<H: Host>(alloc: Global, host: &mut H, mode: Mode) -> Result<List<u8>, OpenError>
    ensures text { IfOk result (λ text. (image : Items ℕ) → Tells (H.view host.old) image → SaysRecords mode image text) }
    ensures rules { IfOk result (λ _. (image : Items ℕ) → Tells (H.view host.old) image → BreaksRule image → ⊥) }
    ensures answer { (image : Items ℕ) → Tells (H.view host.old) image → IsRefused image result }
    ensures looks { Looks (H.view host.old) (H.view host.new) }
    ensures cause { RoseIf (IsErrOf result OpenError.DiskFault) (H.view host.old).disk_faults (H.view host.new).disk_faults }
{
    tallied_records_decode();
    let opened = open_base(alloc, host)?;
    let text = text_of(alloc, host, mode, opened)?;
    Ok(text)
}

// Says what the records of a file are, or which rule it breaks.
fn inspect<H: Host>(alloc: Global, host: &mut H, mode: Mode) -> Status
    ensures claims { Inspects mode (H.view host.old) (H.view host.new) result }
    ensures leaves { HostCalls (result ≡ Status.DiskFault) (result ≡ Status.WriteFault) (H.view host.old) (H.view host.new) }
{
    match read_text(alloc, host, mode) {
        Ok(text) => end_with(host, text.as_slice(), Status::Ok),
        Err(why) => refuse(alloc, host, why),
    }
}

/// Does what the words ask for: `init FILE` makes a database in the host's file, `run FILE` runs the script on it, `check FILE` counts its
/// records, `dump FILE` prints them, `query FILE` and `same FILE` answer the questions of the script over it, which are queries and comparisons
/// of events, `ship FILE` runs the script and prints frames of what it changes, `follow FILE` applies the frames that the script is, and
/// `gen FILE N` runs the script that a number gives, and says what it came to. Wrong words and `init` take no memory.
pub fn run_ode<H: Host, S: Source>(
    alloc: Global,
    words: &Vec<String>,
    script: &mut S,
    host: &mut H,
) -> Status
    // A run on a file that holds a world is the machine's; where it is cut short, or stops at any moment, the file holds the
    // world after some of the machine's settled transactions, never fewer than the printed ones.
    ensures world { Asks Mode.Run (bytes_of words.now.items)
        → RunsWorld (S.left script.old) (S.left script.new) (H.view host.old) (H.view host.new) result }
    // On a file that breaks a rule it says which, and changes nothing.
    ensures no_world { Asks Mode.Run (bytes_of words.now.items)
        → RunsNone (S.left script.old) (S.left script.new) (H.view host.old) (H.view host.new) result }
    // `init` makes a database, or leaves a file in use as it was.
    ensures init { Asks Mode.Init (bytes_of words.now.items) → Initialises (H.view host.old) (H.view host.new) result }
    // `check` and `dump` say what a file's records are, or which rule it breaks, and change nothing.
    ensures check { Asks Mode.Check (bytes_of words.now.items) → Inspects Mode.Check (H.view host.old) (H.view host.new) result }
    ensures dump { Asks Mode.Dump (bytes_of words.now.items) → Inspects Mode.Dump (H.view host.old) (H.view host.new) result }
    // `query` and `same` answer a script's questions over the world that a file holds, or say which rule it breaks, and change nothing.
    ensures questions { (asked : Asked) → Asks (Mode.Ask asked) (bytes_of words.now.items)
        → Questions asked (S.left script.old) (S.left script.new) (H.view host.old) (H.view host.new) result }
    ensures unasked { (asked : Asked) → Asks (Mode.Ask asked) (bytes_of words.now.items)
        → RunsNone (S.left script.old) (S.left script.new) (H.view host.old) (H.view host.new) result }
    // `ship` runs a script as `run` would, but prints a frame of changes in place of each settled transaction's text, and no refusal.
    ensures ships { Asks Mode.Ship (bytes_of words.now.items)
        → ShipsWorld (S.left script.old) (S.left script.new) (H.view host.old) (H.view host.new) result }
    ensures unshipped { Asks Mode.Ship (bytes_of words.now.items)
        → RunsNone (S.left script.old) (S.left script.new) (H.view host.old) (H.view host.new) result }
    // `follow` applies the frames of a stream, up to the first that stops it, and says what it came to.
    ensures followed { Asks Mode.Follow (bytes_of words.now.items)
        → FollowsStream (S.left script.old) (S.left script.new) (H.view host.old) (H.view host.new) result }
    ensures unfollowed { Asks Mode.Follow (bytes_of words.now.items)
        → RunsNone (S.left script.old) (S.left script.new) (H.view host.old) (H.view host.new) result }
    // `gen` runs a number's script as `run` would, but says only what it came to.
    ensures generated { (number : ℕ) → Asks (Mode.Gen number) (bytes_of words.now.items) → Generates number (H.view host.old) (H.view host.new) result }
    ensures gen_no_world { (number : ℕ) → Asks (Mode.Gen number) (bytes_of words.now.items)
        → RunsNone (S.left script.old) (S.left script.new) (H.view host.old) (H.view host.new) result }
    // The other modes leave the script unread.
    ensures unread { ¬ ReadsScript (bytes_of words.now.items) → S.left script.new ≡ S.left script.old }

    // Wrong words are answered with the usage line, and change nothing.
    ensures usage { result ≡ Status.Usage ↔ ((call_of (bytes_of words.now.items) ≡ None) × (result ≢ Status.WriteFault)) }
    ensures usage_cut { result ≡ Status.WriteFault → call_of (bytes_of words.now.items) ≡ None → (text : Items ℕ)
        → (H.view host.old).text ≡ Some text → SaidFront usage_line text (H.view host.new) }
    ensures said { result ≡ Status.Usage → (text : Items ℕ) → (H.view host.old).text ≡ Some text → (H.view host.new).text ≡ Some (text ++ usage_line) }
    ensures unused { call_of (bytes_of words.now.items) ≡ None → IsIdle result (H.view host.old) (H.view host.new) }

    // A fault is answered wherever its count rose, and nowhere else, so a call that failed is never taken for good.
    ensures leaves { HostCalls (result ≡ Status.DiskFault) (result ≡ Status.WriteFault) (H.view host.old) (H.view host.new) }
    ensures reads { RoseIf (result ≡ Status.ReadFault) (S.faults script.old) (S.faults script.new) }
{
    match call_of(words) {
        Some(call) => match call.mode {
            Mode::Init => init(host),
            Mode::Run => run(alloc, script, host),
            Mode::Check => inspect(alloc, host, Mode::Check),
            Mode::Dump => inspect(alloc, host, Mode::Dump),
            Mode::Ask(asked) => ask(alloc, asked, script, host),
            Mode::Ship => ship(alloc, script, host),
            Mode::Follow => follow_stream(alloc, script, host),
            Mode::Gen(number) => generate(alloc, host, number),
        },
        None => end_with(host, USAGE, Status::Usage),
    }
}
