//! A run of a script that ships what it settles: frames in place of texts.
ghost use Rattle.std.specs.Prelude.{◌≡◌, ◌≢◌, ◌≤◌, ◌⊎◌, ◌||◌, [], ℕ, Bool, List as Items, IfOk, IsErrOf, IsTrue, None, Ok, OnOk, Some, is_err, length, option_map, true, unwrap_or};
ghost use Rattle.std.specs.List.{AllByRecursion};
ghost use Rattle.ode_schema.specs.Parts.{AreAligned, AreFit};
ghost use Rattle.ode_engine.specs.Serving.{IsLive, StandsFor, session_after, settlings};
ghost use Rattle.ode_good_laws.specs.Well.{IsWell};
ghost use Rattle.ode_host.specs.Causes.{RoseIf};
ghost use Rattle.ode_host.specs.Host.{HostCalls, LeavesOnly, Printed, Stands};
ghost use Rattle.ode_keep.specs.Entries.{Entries};
ghost use Rattle.ode_language.specs.Languages.{ode};
ghost use Rattle.ode_machine.specs.Commands.{after, command, finish};
ghost use Rattle.ode_machine.specs.Runs.{Item, status_at, stretch_of, trace};
ghost use Rattle.ode_machine.specs.Sessions.{Session};
ghost use Rattle.ode_script.specs.Cutting.{End, ending_of, pieces};
ghost use Rattle.ode_ship.specs.Frames.{FitsFrame};
ghost use Rattle.ode_ends.specs.Endings.{Begins};
ghost use Rattle.ode_trace.specs.Shipping.{HasShipped, IsShippedSoFar, LeavesFrames, ShippedAs, Ships, ShipsOn, is_refused, shipped};
ghost use Rattle.ode_ends.specs.Statuses.{IsEnding, IsRunStatus, status_in};
ghost use Rattle.ode_transact.specs.Errors.{OnDamaged};
ghost use Rattle.ode_transact.specs.Logging.{DiskHas, IsBounded};
ghost use Rattle.ode_transact.specs.Resting.{IsAtRest, resting_parts};
ghost use Rattle.ode_value.specs.Draining.{drain};
ghost use Rattle.ode_value.specs.Language.{ListWorld};
ghost use Rattle.ode_value.specs.Limits.{drain_limit, statement_limit};
ghost use Rattle.ode_value.specs.Pasts.{lists};

use crate::run::command_piece;
use ode_ends::{ended_by, say, status_at_end, status_of_script};
use ode_engine::{Done, Engine, EngineError};
use ode_host::{Host, Source, Status};
use ode_keep::Roomy;
use ode_opened::Opened;
use ode_script::{Piece, Reader};
use ode_ship::frame;
use ode_transact::Kept;
use ode_value::Key;
use std::alloc::Global;

// The frames of what was kept are printed, one behind the other.
fn print_frames<H: Host>(alloc: Global, host: &mut H, kept: &[Kept]) -> Result<(), EngineError>
    requires bounded { AllByRecursion IsBounded kept.now }
    ensures printed { OnOk result (Printed (shipped kept.now) (H.view host.old) (H.view host.new)) }
    ensures fits { OnOk result (AllByRecursion FitsFrame kept.now) }
    ensures any_moment { (file text : Items ℕ) → Stands file (H.view host.old) → (H.view host.old).text ≡ Some text
        → LeavesOnly (H.view host.old) (H.view host.new) (LeavesFrames file text kept.now) }
    ensures stands { (file : Items ℕ) → Stands file (H.view host.old) → Stands file (H.view host.new) }
    ensures sound { OnDamaged result ⊥ }
    ensures leaves { HostCalls (IsErrOf result EngineError.DiskFault) (IsErrOf result EngineError.WriteFault) (H.view host.old) (H.view host.new) }
{
    for (number, batch) in kept {
        let bytes = frame(alloc, *number, batch)?;
        say(host, false, bytes.as_slice())?;
    }
    Ok(())
}

// What the engine kept is taken out of its log, and shipped.
fn ship<H: Host, K: Roomy<H> + Drop>(
    alloc: Global,
    host: &mut H,
    engine: &mut Engine<K>,
) -> Result<(), EngineError>
    requires bounded { AllByRecursion IsBounded (unwrap_or engine.old.log []) }
    ensures printed { OnOk result (Printed (shipped (unwrap_or engine.old.log [])) (H.view host.old) (H.view host.new)) }
    ensures fits { OnOk result (AllByRecursion FitsFrame (unwrap_or engine.old.log [])) }
    ensures any_moment { (file text : Items ℕ) → Stands file (H.view host.old) → (H.view host.old).text ≡ Some text
        → LeavesOnly (H.view host.old) (H.view host.new) (LeavesFrames file text (unwrap_or engine.old.log [])) }
    ensures stands { (file : Items ℕ) → Stands file (H.view host.old) → Stands file (H.view host.new) }
    ensures taken { engine.new ≡ record engine.old { log = option_map (λ _. []) engine.old.log } }
    ensures sound { OnDamaged result ⊥ }
    ensures leaves { HostCalls (IsErrOf result EngineError.DiskFault) (IsErrOf result EngineError.WriteFault) (H.view host.old) (H.view host.new) }
{
    let kept = engine.take_log();
    print_frames(alloc, host, kept.as_slice())
}

// Whether a piece was refused.
fn is_refused(done: &Done) -> bool
    ensures { result ≡ is_refused done.now }
{
    matches!(done, Done::Refused(_))
}

// A piece is carried out, and what it settles is shipped; of a refusal nothing is printed. Whether it was refused.
fn ship_piece<H: Host, K: Roomy<H> + Drop>(
    alloc: Global,
    host: &mut H,
    engine: &mut Engine<K>,
    text: &[u8],
) -> Result<bool, EngineError>
    requires live { IsLive K.live engine.old }
    requires empty { engine.old.log ≡ Some [] }
    requires quiet { engine.old.quiet ≡ true }
    requires short { length text.now ≤ statement_limit }
    // It was refused where the machine refuses it.
    ensures refused { (session : Session) → StandsFor H.view K.holds K.live ode session engine.old host.old → IfOk result (λ refused. refused ≡ is_err (command ode session text.now)) }
    ensures ships { (session : Session) (entries : Entries) → StandsFor H.view K.holds K.live ode session engine.old host.old → DiskHas K.means entries (H.view host.old)
        → Ships H.view K.holds K.live K.means session (session_after session (command ode session text.now)) (settlings (command ode session text.now)) entries result engine.new host.old host.new }
    ensures live { OnOk result (IsLive K.live engine.new) }
    ensures empty { OnOk result (engine.new.log ≡ Some []) }
    ensures quiet { OnOk result (engine.new.quiet ≡ true) }
    ensures leaves { HostCalls (IsErrOf result EngineError.DiskFault) (IsErrOf result EngineError.WriteFault) (H.view host.old) (H.view host.new) }
{
    let done = command_piece(alloc, host, engine, text)?;
    ship(alloc, host, engine)?;
    Ok(is_refused(&done))
}

// The end of the input: an open transaction is aborted, and what settles is shipped.
fn ship_rest<H: Host, K: Roomy<H> + Drop>(
    alloc: Global,
    host: &mut H,
    engine: &mut Engine<K>,
) -> Result<(), EngineError>
    requires live { IsLive K.live engine.old }
    requires empty { engine.old.log ≡ Some [] }
    requires quiet { engine.old.quiet ≡ true }
    ensures ships { (session : Session) (entries : Entries) → StandsFor H.view K.holds K.live ode session engine.old host.old → DiskHas K.means entries (H.view host.old)
        → Ships H.view K.holds K.live K.means session (finish session).0 (finish session).1 entries result engine.new host.old host.new }
    ensures leaves { HostCalls (IsErrOf result EngineError.DiskFault) (IsErrOf result EngineError.WriteFault) (H.view host.old) (H.view host.new) }
{
    engine.finish(host)?;
    ship(alloc, host, engine)
}

// The end of the input, and the status that the run ends with.
fn ship_end<H: Host, K: Roomy<H> + Drop>(
    alloc: Global,
    host: &mut H,
    engine: &mut Engine<K>,
    refused: bool,
) -> Result<Status, Key>
    requires live { IsLive K.live engine.old }
    requires empty { engine.old.log ≡ Some [] }
    requires quiet { engine.old.quiet ≡ true }
    ensures ends { (session : Session) (entries : Entries) → StandsFor H.view K.holds K.live ode session engine.old host.old → DiskHas K.means entries (H.view host.old) → IsEnding (status_in result)
        → HasShipped K.means session.world entries (finish session).1 (H.view host.old) (H.view host.new) }
    ensures stated { IsEnding (status_in result) → status_in result ≡ status_at End refused }
    ensures any_moment { (session : Session) (entries : Entries) (text : Items ℕ) → StandsFor H.view K.holds K.live ode session engine.old host.old → DiskHas K.means entries (H.view host.old)
        → (H.view host.old).text ≡ Some text → LeavesOnly (H.view host.old) (H.view host.new) (IsShippedSoFar K.means (stretch_of (finish session)).1 session.world entries text) }
    ensures statuses { IsRunStatus (status_in result) ⊎ (status_in result ≡ Status.BadFile) }
    ensures answers { (session : Session) → StandsFor H.view K.holds K.live ode session engine.old host.old → IsRunStatus (status_in result) }
    ensures leaves { HostCalls (status_in result ≡ Status.DiskFault) (status_in result ≡ Status.WriteFault) (H.view host.old) (H.view host.new) }
    ensures reads { status_in result ≢ Status.ReadFault }
{
    match ship_rest(alloc, host, engine) {
        Ok(()) => Ok(status_at_end(refused)),
        Err(error) => ended_by(error),
    }
}

// Whether a piece was refused, so far or now.
fn either(so_far: bool, now: bool) -> bool
    ensures { result ≡ (so_far || now) }
{
    so_far || now
}

// The pieces of a script, in whatever chunks it comes.
fn ship_pieces<H: Host, K: Roomy<H> + Drop, S: Source>(
    alloc: Global,
    source: &mut S,
    host: &mut H,
    engine: &mut Engine<K>,
) -> Result<Status, Key>
    requires live { IsLive K.live engine.old }
    requires empty { engine.old.log ≡ Some [] }
    requires quiet { engine.old.quiet ≡ true }
    ensures shipped { (w : ListWorld) (entries : Entries) (all : Items Item) (script text : Items ℕ) → S.left source.old ≡ Some script
        → ShipsOn H.view K.holds K.live K.means (pieces script) all w entries text (pieces script) Bool.false engine.old host.old
        → IsEnding (status_in result) → ShippedAs K.means all (ending_of (pieces script)) w entries text (S.left source.new) (H.view host.new) (status_in result) }
    ensures any_moment { (w : ListWorld) (entries : Entries) (all : Items Item) (script text : Items ℕ) → S.left source.old ≡ Some script
        → ShipsOn H.view K.holds K.live K.means (pieces script) all w entries text (pieces script) Bool.false engine.old host.old
        → LeavesOnly (H.view host.old) (H.view host.new) (IsShippedSoFar K.means all w entries text) }
    ensures statuses { IsRunStatus (status_in result) ⊎ (status_in result ≡ Status.BadFile) }
    ensures answers { (session : Session) → StandsFor H.view K.holds K.live ode session engine.old host.old → IsRunStatus (status_in result) }
    ensures leaves { HostCalls (status_in result ≡ Status.DiskFault) (status_in result ≡ Status.WriteFault) (H.view host.old) (H.view host.new) }
    ensures reads { RoseIf (status_in result ≡ Status.ReadFault) (S.faults source.old) (S.faults source.new) }
{
    let mut reader = Reader::new(alloc);
    let mut refused = false;
    'pieces: loop {
        let text = match reader.read_statement(source) {
            Ok(Piece::Statement { text, .. }) => text,
            Ok(Piece::End) => return ship_end(alloc, host, engine, refused),
            Err(error) => return Ok(status_of_script(error)),
        };
        match ship_piece(alloc, host, engine, text.as_slice()) {
            Ok(now) => refused = either(refused, now),
            Err(error) => return ended_by(error),
        }
    }
}

// The entries of the queue run, and are shipped.
fn ship_drain<H: Host, K: Roomy<H> + Drop>(
    alloc: Global,
    host: &mut H,
    engine: &mut Engine<K>,
) -> Result<(), EngineError>
    requires live { IsLive K.live engine.old }
    requires closed { engine.old.running ≡ None }
    requires empty { engine.old.log ≡ Some [] }
    requires quiet { engine.old.quiet ≡ true }
    ensures ships { (session : Session) (entries : Entries) → StandsFor H.view K.holds K.live ode session engine.old host.old → DiskHas K.means entries (H.view host.old)
        → Ships H.view K.holds K.live K.means session (after session.world (drain lists drain_limit session.world)).0 (drain lists drain_limit session.world) entries result engine.new host.old host.new }
    ensures live { OnOk result (IsLive K.live engine.new) }
    ensures empty { OnOk result (engine.new.log ≡ Some []) }
    ensures quiet { OnOk result (engine.new.quiet ≡ true) }
    ensures leaves { HostCalls (IsErrOf result EngineError.DiskFault) (IsErrOf result EngineError.WriteFault) (H.view host.old) (H.view host.new) }
{
    engine.drain(host)?;
    ship(alloc, host, engine)
}

/// Runs a script over an opened file as `run_script` does, but prints one frame in place of the text of each settled transaction, and nothing
/// of refusals.
pub fn ship_script<H: Host, K: Roomy<H> + Drop, S: Source>(
    alloc: Global,
    source: &mut S,
    host: &mut H,
    opened: Opened<K>,
) -> Result<Status, Key>
    requires live { IsTrue (K.live opened.keeper) }
    requires fit { AreFit (resting_parts opened) }
    requires aligned { AreAligned (resting_parts opened) }
    // Where the run ends by itself, its status is the machine's, and it printed the frames of what the machine settles: the numbers are the
    // machine's, and the changes leave its worlds one behind the other. The file then stands for the records behind them.
    ensures shipped { (w : ListWorld) (entries : Entries) (script text : Items ℕ) → S.left source.old ≡ Some script → Begins H.view K.holds K.live w opened host.old text
        → DiskHas K.means entries (H.view host.old) → IsEnding (status_in result)
        → ShippedAs K.means (trace ode w script) (ending_of (pieces script)) w entries text (S.left source.new) (H.view host.new) (status_in result) }
    // A stop leaves the world after some of the settled transactions, and a front of the frames of these.
    ensures any_moment { (w : ListWorld) (entries : Entries) (script text : Items ℕ) → S.left source.old ≡ Some script → Begins H.view K.holds K.live w opened host.old text
        → DiskHas K.means entries (H.view host.old) → LeavesOnly (H.view host.old) (H.view host.new) (IsShippedSoFar K.means (trace ode w script) w entries text) }
    ensures statuses { IsRunStatus (status_in result) ⊎ (status_in result ≡ Status.BadFile) }
    // Over a file that holds a world it ends as the machine does, by a fault, or for want of memory.
    ensures answers { (w : ListWorld) → IsWell ode w → IsAtRest H.view K.holds K.live ode w opened host.old → IsRunStatus (status_in result) }
    // A fault is told exactly where its count rose, whatever the file holds.
    ensures leaves { HostCalls (status_in result ≡ Status.DiskFault) (status_in result ≡ Status.WriteFault) (H.view host.old) (H.view host.new) }
    ensures reads { RoseIf (status_in result ≡ Status.ReadFault) (S.faults source.old) (S.faults source.new) }
{
    let mut engine = Engine::start(alloc, opened, true);
    engine.keep_log();
    match ship_drain(alloc, host, &mut engine) {
        Ok(()) => ship_pieces(alloc, source, host, &mut engine),
        Err(error) => ended_by(error),
    }
}
