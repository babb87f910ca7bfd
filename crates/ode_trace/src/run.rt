//! A run of a script, piece by piece.
ghost use Rattle.std.specs.Prelude.{◌≡◌, ◌≢◌, ◌≤◌, ◌⊎◌, ◌++◌, ℕ, Bool, List as Items, IsErrOf, IsTrue, OnOk, Ok, Some, length, true};
ghost use Rattle.ode_schema.specs.Parts.{AreAligned, AreFit};
ghost use Rattle.ode_engine.specs.Serving.{IsLive, StandsFor, settlings};
ghost use Rattle.ode_good_laws.specs.Well.{IsWell};
ghost use Rattle.ode_host.specs.Causes.{RoseIf};
ghost use Rattle.ode_host.specs.Host.{HostCalls, LeavesCut, LeavesOnly, Printed, Stands};
ghost use Rattle.ode_keep.specs.Entries.{Entries};
ghost use Rattle.ode_language.specs.Languages.{ode};
ghost use Rattle.ode_machine.specs.Commands.{command, finish};
ghost use Rattle.ode_machine.specs.Moments.{IsAfterSome};
ghost use Rattle.ode_machine.specs.Runs.{Item, final, piece_stretch, status_at, stretch_of, text_of, trace};
ghost use Rattle.ode_machine.specs.Sessions.{Session};
ghost use Rattle.ode_script.specs.Cutting.{End, ending_of, pieces};
ghost use Rattle.ode_trace.specs.Hearing.{heard_items};
ghost use Rattle.ode_trace.specs.Running.{Carries, Commands, Runs, Serves};
ghost use Rattle.ode_ends.specs.Endings.{Begins, EndsWith, RanAs};
ghost use Rattle.ode_ends.specs.Statuses.{IsEnding, IsRunStatus, ended_by, status_in, status_of_script};
ghost use Rattle.ode_trace.specs.Unread.{unread};
ghost use Rattle.ode_trace.specs.Tallies.{Counts, count_pieces, settled_in, tally_of, was_refused, with_refusal};
ghost use Rattle.ode_transact.specs.Errors.{OnDamaged};
ghost use Rattle.ode_transact.specs.Logging.{DiskHas, HasGrown, Logs};
ghost use Rattle.ode_transact.specs.Output.{heard};
ghost use Rattle.ode_transact.specs.Resting.{HoldsBy, IsAtRest, resting_parts};
ghost use Rattle.ode_value.specs.Language.{ListWorld};
ghost use Rattle.ode_value.specs.Limits.{statement_limit};
ghost use Rattle.ode_value.specs.Texts.{refused_line};

use crate::tally::Tally;
use ode_ends::{ended_by, say, status_at_end, status_of_script};
use ode_engine::{Done, Engine, EngineError};
use ode_host::{Host, Source, Status};
use ode_keep::Roomy;
use ode_language::{Piece as Read, ReadStop, read_piece};
use ode_opened::Opened;
use ode_script::{Piece, Reader, refusal_line};
use ode_value::{Boxed, Key, Refusal};
use std::alloc::Global;

// A refusal is counted, and its line is printed, or in a quiet run nothing of it.
fn refuse<H: Host>(
    alloc: Global,
    host: &mut H,
    quiet: bool,
    tally: &mut Tally,
    line: u64,
    refusal: &Refusal,
) -> Result<(), EngineError>
    ensures counted { OnOk result (tally.new ≡ with_refusal (refused_line line refusal.now) tally.old) }
    ensures printed { OnOk result (Printed (heard quiet (refused_line line refusal.now)) (H.view host.old) (H.view host.new)) }
    ensures any_moment { (file text : Items ℕ) → Stands file (H.view host.old) → (H.view host.old).text ≡ Some text
        → LeavesOnly (H.view host.old) (H.view host.new) (LeavesCut file text (heard quiet (refused_line line refusal.now))) }
    ensures stands { (file : Items ℕ) → Stands file (H.view host.old) → Stands file (H.view host.new) }
    ensures sound { OnDamaged result ⊥ }
    ensures leaves { HostCalls (IsErrOf result EngineError.DiskFault) (IsErrOf result EngineError.WriteFault) (H.view host.old) (H.view host.new) }
{
    let refused = refusal_line(alloc, line, refusal)?;
    let text = refused.as_slice();
    tally.refuse(text);
    say(host, quiet, text)
}

// What a piece without a statement is answered with.
fn unread(stop: ReadStop) -> Result<Done, EngineError>
    ensures { result ≡ unread stop }
{
    match stop {
        ReadStop::Memory => Err(EngineError::Memory),
        ReadStop::Refused(refusal) => Ok(Done::Refused(refusal)),
    }
}

// A piece is read, and carried out by the engine.
#[tactic(auto, unfolding(ode_value::specs::Limits::statement_limit))]
pub(crate) fn command_piece<H: Host, K: Roomy<H> + Drop>(
    alloc: Global,
    host: &mut H,
    engine: &mut Engine<K>,
    text: &[u8],
) -> Result<Done, EngineError>
    requires live { IsLive K.live engine.old }
    requires short { length text.now ≤ statement_limit }
    ensures commands { (session : Session) → StandsFor H.view K.holds K.live ode session engine.old host.old
        → Commands H.view K.holds K.live K.means session (command ode session text.now) engine.old result engine.new host.old host.new }
    ensures logs { (session : Session) (entries : Entries) → StandsFor H.view K.holds K.live ode session engine.old host.old → DiskHas K.means entries (H.view host.old)
        → OnOk result (Logs K.means ode session.world entries (settlings (command ode session text.now)) engine.old.log engine.new.log (H.view host.new)) }
    ensures grown { HasGrown engine.old.log engine.new.log }
    ensures leaves { HostCalls (IsErrOf result EngineError.DiskFault) (IsErrOf result EngineError.WriteFault) (H.view host.old) (H.view host.new) }
    ensures live { OnOk result (IsLive K.live engine.new) }
    ensures quiet { engine.new.quiet ≡ engine.old.quiet }
{
    match read_piece(alloc, text) {
        Ok(Read::Statement(statement)) => {
            let statement = Boxed::new(alloc, statement)?;
            engine.command(host, statement.get())
        }
        Ok(Read::Change(change)) => engine.change(host, &change),
        Err(stop) => unread(stop),
    }
}

// Carries out one piece, and counts it. The line of a refusal is printed, unless the engine is quiet.
fn carry_out<H: Host, K: Roomy<H> + Drop>(
    alloc: Global,
    host: &mut H,
    engine: &mut Engine<K>,
    tally: &mut Tally,
    line: u64,
    text: &[u8],
) -> Result<(), EngineError>
    requires live { IsLive K.live engine.old }
    requires short { length text.now ≤ statement_limit }
    ensures carries { (session : Session) → StandsFor H.view K.holds K.live ode session engine.old host.old
        → Carries H.view K.holds K.live K.means session (piece_stretch ode session line text.now) engine.old tally.old result engine.new tally.new host.old host.new }
    ensures leaves { HostCalls (IsErrOf result EngineError.DiskFault) (IsErrOf result EngineError.WriteFault) (H.view host.old) (H.view host.new) }
    ensures live { OnOk result (IsLive K.live engine.new) }
    ensures quiet { engine.new.quiet ≡ engine.old.quiet }
{
    let done = command_piece(alloc, host, engine, text)?;
    tally.take_piece();
    match &done {
        Done::Settled(count) => {
            tally.settle(*count);
            Ok(())
        }
        Done::Refused(refusal) => refuse(alloc, host, engine.quiet, tally, line, refusal),
    }
}

// How many transactions an answer of the engine settled.
fn settled_in(done: &Done) -> u32
    ensures { result ≡ settled_in done.now }
{
    match done {
        Done::Settled(count) => *count,
        Done::Refused(_) => 0,
    }
}

// The end of the input: an open transaction is aborted.
fn end_script<H: Host, K: Roomy<H> + Drop>(
    host: &mut H,
    engine: &mut Engine<K>,
    tally: &mut Tally,
) -> Result<Status, Key>
    requires live { IsLive K.live engine.old }
    ensures ends { (session : Session) (text : Items ℕ) → Serves H.view K.holds K.live session engine.old host.old text → IsEnding (status_in result)
        → EndsWith K.means (H.view host.new) (final session.world (stretch_of (finish session)).1) (text ++ text_of (heard_items engine.old.quiet (stretch_of (finish session)).1)) }
    ensures stated { IsEnding (status_in result) → status_in result ≡ status_at End (was_refused tally.new) }
    ensures counts { (session : Session) → StandsFor H.view K.holds K.live ode session engine.old host.old → IsEnding (status_in result) → (taken : ℕ) (before : Items Item)
        → Counts tally.old engine.old.counted taken before → Counts tally.new engine.new.counted taken (before ++ (stretch_of (finish session)).1) }
    ensures any_moment { (session : Session) (text : Items ℕ) → Serves H.view K.holds K.live session engine.old host.old text
        → LeavesOnly (H.view host.old) (H.view host.new) (IsAfterSome (HoldsBy ode K.means) (heard_items engine.old.quiet (stretch_of (finish session)).1) session.world text) }
    ensures statuses { IsRunStatus (status_in result) ⊎ (status_in result ≡ Status.BadFile) }
    ensures answers { (session : Session) → StandsFor H.view K.holds K.live ode session engine.old host.old → IsRunStatus (status_in result) }
    ensures leaves { HostCalls (status_in result ≡ Status.DiskFault) (status_in result ≡ Status.WriteFault) (H.view host.old) (H.view host.new) }
    ensures reads { status_in result ≢ Status.ReadFault }
{
    match engine.finish(host) {
        Ok(done) => {
            tally.settle(settled_in(&done));
            Ok(status_at_end(tally.was_refused()))
        }
        Err(error) => ended_by(error),
    }
}

// The pieces of a script, in whatever chunks it comes. The bytes that the engine counts aren't in the tally yet.
fn run_pieces<H: Host, K: Roomy<H> + Drop, S: Source>(
    alloc: Global,
    source: &mut S,
    host: &mut H,
    engine: &mut Engine<K>,
    tally: &mut Tally,
) -> Result<Status, Key>
    requires live { IsLive K.live engine.old }
    ensures ran { (quiet : Bool) (w : ListWorld) (all : Items Item) (script text : Items ℕ) → S.left source.old ≡ Some script
        → Runs H.view K.holds K.live quiet (pieces script) all w text (pieces script) engine.old host.old tally.old
        → IsEnding (status_in result) → RanAs K.means (heard_items quiet all) (ending_of (pieces script)) w text (S.left source.new) (H.view host.new) (status_in result) }
    ensures counts { (quiet : Bool) (w : ListWorld) (all : Items Item) (script text : Items ℕ) → S.left source.old ≡ Some script
        → Runs H.view K.holds K.live quiet (pieces script) all w text (pieces script) engine.old host.old tally.old
        → IsEnding (status_in result) → Counts tally.new engine.new.counted (count_pieces (pieces script)) all }
    ensures any_moment { (quiet : Bool) (w : ListWorld) (all : Items Item) (script text : Items ℕ) → S.left source.old ≡ Some script
        → Runs H.view K.holds K.live quiet (pieces script) all w text (pieces script) engine.old host.old tally.old
        → LeavesOnly (H.view host.old) (H.view host.new) (IsAfterSome (HoldsBy ode K.means) (heard_items quiet all) w text) }
    ensures statuses { IsRunStatus (status_in result) ⊎ (status_in result ≡ Status.BadFile) }
    ensures answers { (session : Session) → StandsFor H.view K.holds K.live ode session engine.old host.old → IsRunStatus (status_in result) }
    ensures leaves { HostCalls (status_in result ≡ Status.DiskFault) (status_in result ≡ Status.WriteFault) (H.view host.old) (H.view host.new) }
    ensures reads { RoseIf (status_in result ≡ Status.ReadFault) (S.faults source.old) (S.faults source.new) }
{
    let mut reader = Reader::new(alloc);
    'pieces: loop {
        let (text, line) = match reader.read_statement(source) {
            Ok(Piece::Statement { text, line }) => (text, line),
            Ok(Piece::End) => return end_script(host, engine, tally),
            Err(error) => return Ok(status_of_script(error)),
        };
        match carry_out(alloc, host, engine, tally, line, text.as_slice()) {
            Ok(()) => {}
            Err(error) => return ended_by(error),
        }
    }
}

// A run over an opened file, which tells all that it prints or is quiet, and is counted.
fn run_opened<H: Host, K: Roomy<H> + Drop, S: Source>(
    alloc: Global,
    source: &mut S,
    host: &mut H,
    opened: Opened<K>,
    quiet: bool,
    tally: &mut Tally,
) -> Result<Status, Key>
    requires live { IsTrue (K.live opened.keeper) }
    requires fit { AreFit (resting_parts opened) }
    requires aligned { AreAligned (resting_parts opened) }
    ensures ran { (w : ListWorld) (script text : Items ℕ) → S.left source.old ≡ Some script → Begins H.view K.holds K.live w opened host.old text
        → IsEnding (status_in result) → RanAs K.means (heard_items quiet (trace ode w script)) (ending_of (pieces script)) w text (S.left source.new) (H.view host.new) (status_in result) }
    ensures tallied { (w : ListWorld) (script text : Items ℕ) → S.left source.old ≡ Some script → Begins H.view K.holds K.live w opened host.old text
        → IsEnding (status_in result) → tally.new ≡ tally_of (pieces script) (trace ode w script) }
    ensures any_moment { (w : ListWorld) (script text : Items ℕ) → S.left source.old ≡ Some script → Begins H.view K.holds K.live w opened host.old text
        → LeavesOnly (H.view host.old) (H.view host.new) (IsAfterSome (HoldsBy ode K.means) (heard_items quiet (trace ode w script)) w text) }
    ensures statuses { IsRunStatus (status_in result) ⊎ (status_in result ≡ Status.BadFile) }
    ensures answers { (w : ListWorld) → IsWell ode w → IsAtRest H.view K.holds K.live ode w opened host.old → IsRunStatus (status_in result) }
    ensures leaves { HostCalls (status_in result ≡ Status.DiskFault) (status_in result ≡ Status.WriteFault) (H.view host.old) (H.view host.new) }
    ensures reads { RoseIf (status_in result ≡ Status.ReadFault) (S.faults source.old) (S.faults source.new) }
{
    *tally = Tally::new();
    let mut engine = Engine::start(alloc, opened, quiet);
    match engine.drain(host) {
        Ok(ran) => {
            tally.settle(ran);
            let ended = run_pieces(alloc, source, host, &mut engine, tally);
            tally.add_bytes(engine.counted());
            ended
        }
        Err(error) => ended_by(error),
    }
}

/// Runs a script over an opened file: first the entries of the queue run, and then piece by piece, in whatever chunks the script comes.
/// It answers the key of a record where the file has something else than what was written to it, which no file that holds a world has.
pub fn run_script<H: Host, K: Roomy<H> + Drop, S: Source>(
    alloc: Global,
    source: &mut S,
    host: &mut H,
    opened: Opened<K>,
) -> Result<Status, Key>
    requires live { IsTrue (K.live opened.keeper) }
    requires fit { AreFit (resting_parts opened) }
    requires aligned { AreAligned (resting_parts opened) }
    // Where the run ends by itself, its status, its text and the world that the file then holds are the machine's.
    ensures ran { (w : ListWorld) (script text : Items ℕ) → S.left source.old ≡ Some script → Begins H.view K.holds K.live w opened host.old text
        → IsEnding (status_in result) → RanAs K.means (trace ode w script) (ending_of (pieces script)) w text (S.left source.new) (H.view host.new) (status_in result) }
    // A stop leaves the world after some of the settled transactions, and a front of the text up to the next one.
    ensures any_moment { (w : ListWorld) (script text : Items ℕ) → S.left source.old ≡ Some script → Begins H.view K.holds K.live w opened host.old text
        → LeavesOnly (H.view host.old) (H.view host.new) (IsAfterSome (HoldsBy ode K.means) (trace ode w script) w text) }
    ensures statuses { IsRunStatus (status_in result) ⊎ (status_in result ≡ Status.BadFile) }
    // Over a file that holds a world it ends as the machine does, by a fault, or for want of memory.
    ensures answers { (w : ListWorld) → IsWell ode w → IsAtRest H.view K.holds K.live ode w opened host.old → IsRunStatus (status_in result) }
    // A fault is told exactly where its count rose, whatever the file holds.
    ensures leaves { HostCalls (status_in result ≡ Status.DiskFault) (status_in result ≡ Status.WriteFault) (H.view host.old) (H.view host.new) }
    ensures reads { RoseIf (status_in result ≡ Status.ReadFault) (S.faults source.old) (S.faults source.new) }
{
    let mut tally = Tally::new();
    run_opened(alloc, source, host, opened, false, &mut tally)
}

/// Runs a script over an opened file as `run_script` does, but prints nothing, and counts what the run comes to.
pub fn run_quietly<H: Host, K: Roomy<H> + Drop, S: Source>(
    alloc: Global,
    source: &mut S,
    host: &mut H,
    opened: Opened<K>,
    tally: &mut Tally,
) -> Result<Status, Key>
    requires live { IsTrue (K.live opened.keeper) }
    requires fit { AreFit (resting_parts opened) }
    requires aligned { AreAligned (resting_parts opened) }
    // Where the run ends by itself, its status and the world that the file then holds are the machine's, and nothing was printed.
    ensures ran { (w : ListWorld) (script text : Items ℕ) → S.left source.old ≡ Some script → Begins H.view K.holds K.live w opened host.old text
        → IsEnding (status_in result) → RanAs K.means (heard_items true (trace ode w script)) (ending_of (pieces script)) w text (S.left source.new) (H.view host.new) (status_in result) }
    // And the counts are those of the machine's run.
    ensures tallied { (w : ListWorld) (script text : Items ℕ) → S.left source.old ≡ Some script → Begins H.view K.holds K.live w opened host.old text
        → IsEnding (status_in result) → tally.new ≡ tally_of (pieces script) (trace ode w script) }
    // A stop leaves the world after some of the settled transactions, and the text as it was.
    ensures any_moment { (w : ListWorld) (script text : Items ℕ) → S.left source.old ≡ Some script → Begins H.view K.holds K.live w opened host.old text
        → LeavesOnly (H.view host.old) (H.view host.new) (IsAfterSome (HoldsBy ode K.means) (heard_items true (trace ode w script)) w text) }
    ensures statuses { IsRunStatus (status_in result) ⊎ (status_in result ≡ Status.BadFile) }
    // Over a file that holds a world it ends as the machine does, by a fault, or for want of memory.
    ensures answers { (w : ListWorld) → IsWell ode w → IsAtRest H.view K.holds K.live ode w opened host.old → IsRunStatus (status_in result) }
    // A fault is told exactly where its count rose, whatever the file holds.
    ensures leaves { HostCalls (status_in result ≡ Status.DiskFault) (status_in result ≡ Status.WriteFault) (H.view host.old) (H.view host.new) }
    ensures reads { RoseIf (status_in result ≡ Status.ReadFault) (S.faults source.old) (S.faults source.new) }
{
    run_opened(alloc, source, host, opened, true, tally)
}
