//! A run of a script of sessions, piece by piece.
ghost use Rattle.std.specs.Prelude.{◌≡◌, ◌≢◌, ◌≤◌, ◌⊎◌, ◌++◌, ℕ, List as Items, IfOk, IsErrOf, IsTrue, OnOk, Some, false, length, true};
ghost use Rattle.ode_language.specs.Texts.{HasText};
ghost use Rattle.ode_schema.specs.Parts.{AreAligned, AreFit};
ghost use Rattle.ode_good_laws.specs.Well.{IsWell};
ghost use Rattle.ode_host.specs.Causes.{RoseIf};
ghost use Rattle.ode_host.specs.Host.{HostCalls, LeavesCut, LeavesOnly, Printed, Stands};
ghost use Rattle.ode_language.specs.Languages.{ode};
ghost use Rattle.ode_machine.specs.Conversation.{reply_stretch, spoken_stretch};
ghost use Rattle.ode_machine.specs.Interleaving.{Interleaved, finish, step};
ghost use Rattle.ode_machine.specs.Moments.{IsAfterSome};
ghost use Rattle.ode_machine.specs.Runs.{Item, final, status_at, text_of};
ghost use Rattle.ode_script.specs.Cutting.{End, ending_of, pieces};
ghost use Rattle.ode_sessions.specs.Running.{Speaks, SpeaksPiece, SpeaksSoFar, items_from};
ghost use Rattle.ode_steps.specs.Serving.{IsLive, StandsFor};
ghost use Rattle.ode_sessions.specs.Speaking.{spoken};
ghost use Rattle.ode_ends.specs.Endings.{Begins, EndsWith, RanAs};
ghost use Rattle.ode_ends.specs.Statuses.{IsEnding, IsRunStatus, status_in};
ghost use Rattle.ode_transact.specs.Errors.{OnDamaged};
ghost use Rattle.ode_transact.specs.Items.{items_of};
ghost use Rattle.ode_transact.specs.Resting.{HoldsBy, IsAtRest, resting_parts};
ghost use Rattle.ode_value.specs.Language.{ListWorld};
ghost use Rattle.ode_value.specs.Limits.{statement_limit};

use crate::lines::{answer_line, no_session_line};
use crate::speaking::{Spoken, read_spoken};
use ode_ends::{ended_by, say, status_at_end, status_of_script};
use ode_host::{Host, Source, Status};
use ode_keep::Roomy;
use ode_opened::Opened;
use ode_script::{Piece, Reader, refusal_line};
use ode_steps::Sessions;
use ode_transact::EngineError;
use ode_value::{Boxed, Key, Statement};
use std::alloc::Global;

// The line of a piece that is refused or put off is printed.
fn refuse<H: Host>(host: &mut H, line: &[u8]) -> Result<bool, EngineError>
    ensures was { IfOk result (λ was. was ≡ true) }
    ensures printed { OnOk result (Printed line.now (H.view host.old) (H.view host.new)) }
    ensures any_moment { (file said : Items ℕ) → Stands file (H.view host.old) → (H.view host.old).text ≡ Some said
        → LeavesOnly (H.view host.old) (H.view host.new) (LeavesCut file said line.now) }
    ensures stands { (file : Items ℕ) → Stands file (H.view host.old) → Stands file (H.view host.new) }
    ensures sound { OnDamaged result ⊥ }
    ensures leaves { HostCalls (IsErrOf result EngineError.DiskFault) (IsErrOf result EngineError.WriteFault) (H.view host.old) (H.view host.new) }
{
    say(host, false, line)?;
    Ok(true)
}

// A statement of a session is carried out. The line of a refusal is printed, and that of a step that is put off.
fn carry_step<H: Host, K: Roomy<H> + Drop>(
    alloc: Global,
    host: &mut H,
    sessions: &mut Sessions<K>,
    line: u64,
    session: u32,
    statement: Statement,
) -> Result<bool, EngineError>
    requires live { IsLive K.live sessions.old }
    requires text { HasText ode statement }
    ensures carries { (m : Interleaved) → StandsFor H.view K.holds K.live ode m sessions.old host.old
        → SpeaksPiece H.view K.holds K.live K.means m (reply_stretch m line (step ode m session statement)) result sessions.new host.old host.new }
    ensures leaves { HostCalls (IsErrOf result EngineError.DiskFault) (IsErrOf result EngineError.WriteFault) (H.view host.old) (H.view host.new) }
    ensures live { OnOk result (IsLive K.live sessions.new) }
{
    let statement = Boxed::new(alloc, statement)?;
    let answer = sessions.step(host, session, statement.get())?;
    let put_off = answer_line(alloc, line, answer)?;
    match put_off {
        Some(text) => refuse(host, text.as_slice()),
        None => Ok(false),
    }
}

// Carries out one piece; whether it was refused or put off.
#[tactic(auto, unfolding(ode_value::specs::Limits::statement_limit))]
fn carry_out<H: Host, K: Roomy<H> + Drop>(
    alloc: Global,
    host: &mut H,
    sessions: &mut Sessions<K>,
    line: u64,
    text: &[u8],
) -> Result<bool, EngineError>
    requires live { IsLive K.live sessions.old }
    requires short { length text.now ≤ statement_limit }
    ensures carries { (m : Interleaved) → StandsFor H.view K.holds K.live ode m sessions.old host.old
        → SpeaksPiece H.view K.holds K.live K.means m (spoken_stretch ode spoken m line (spoken text.now)) result sessions.new host.old host.new }
    ensures leaves { HostCalls (IsErrOf result EngineError.DiskFault) (IsErrOf result EngineError.WriteFault) (H.view host.old) (H.view host.new) }
    ensures live { OnOk result (IsLive K.live sessions.new) }
{
    let said = read_spoken(alloc, text)?;
    match said {
        Spoken::Says { session, statement } => carry_step(
            alloc, host, sessions, line, session, statement,
        ),
        Spoken::NoSession => {
            let text = no_session_line(alloc, line)?;
            refuse(host, text.as_slice())
        }
        Spoken::Unread(why) => {
            let text = refusal_line(alloc, line, &why)?;
            refuse(host, text.as_slice())
        }
    }
}

// The end of the input: the open sessions are aborted.
fn end_script<H: Host, K: Roomy<H> + Drop>(
    host: &mut H,
    sessions: &mut Sessions<K>,
    refused: bool,
) -> Result<Status, Key>
    requires live { IsLive K.live sessions.old }
    ensures ends { (m : Interleaved) (text : Items ℕ) → Speaks H.view K.holds K.live m sessions.old host.old text → IsEnding (status_in result)
        → EndsWith K.means (H.view host.new) (final m.world (items_of (finish m))) (text ++ text_of (items_of (finish m))) }
    ensures stated { IsEnding (status_in result) → status_in result ≡ status_at End refused }
    ensures any_moment { (m : Interleaved) (text : Items ℕ) → Speaks H.view K.holds K.live m sessions.old host.old text
        → LeavesOnly (H.view host.old) (H.view host.new) (IsAfterSome (HoldsBy ode K.means) (items_of (finish m)) m.world text) }
    ensures statuses { IsRunStatus (status_in result) ⊎ (status_in result ≡ Status.BadFile) }
    ensures answers { (m : Interleaved) → StandsFor H.view K.holds K.live ode m sessions.old host.old → IsRunStatus (status_in result) }
    ensures leaves { HostCalls (status_in result ≡ Status.DiskFault) (status_in result ≡ Status.WriteFault) (H.view host.old) (H.view host.new) }
    ensures reads { status_in result ≢ Status.ReadFault }
{
    match sessions.finish(host) {
        Ok(_) => Ok(status_at_end(refused)),
        Err(error) => ended_by(error),
    }
}

// The pieces of a script, in whatever chunks it comes.
fn run_pieces<H: Host, K: Roomy<H> + Drop, S: Source>(
    alloc: Global,
    source: &mut S,
    host: &mut H,
    sessions: &mut Sessions<K>,
) -> Result<Status, Key>
    requires live { IsLive K.live sessions.old }
    ensures ran { (w : ListWorld) (all : Items Item) (script text : Items ℕ) → S.left source.old ≡ Some script
        → SpeaksSoFar H.view K.holds K.live (pieces script) all w text (pieces script) sessions.old host.old false
        → IsEnding (status_in result) → RanAs K.means all (ending_of (pieces script)) w text (S.left source.new) (H.view host.new) (status_in result) }
    ensures any_moment { (w : ListWorld) (all : Items Item) (script text : Items ℕ) → S.left source.old ≡ Some script
        → SpeaksSoFar H.view K.holds K.live (pieces script) all w text (pieces script) sessions.old host.old false
        → LeavesOnly (H.view host.old) (H.view host.new) (IsAfterSome (HoldsBy ode K.means) all w text) }
    ensures statuses { IsRunStatus (status_in result) ⊎ (status_in result ≡ Status.BadFile) }
    ensures answers { (m : Interleaved) → StandsFor H.view K.holds K.live ode m sessions.old host.old → IsRunStatus (status_in result) }
    ensures leaves { HostCalls (status_in result ≡ Status.DiskFault) (status_in result ≡ Status.WriteFault) (H.view host.old) (H.view host.new) }
    ensures reads { RoseIf (status_in result ≡ Status.ReadFault) (S.faults source.old) (S.faults source.new) }
{
    let mut reader = Reader::new(alloc);
    let mut refused = false;
    'pieces: loop {
        let (text, line) = match reader.read_statement(source) {
            Ok(Piece::Statement { text, line }) => (text, line),
            Ok(Piece::End) => return end_script(host, sessions, refused),
            Err(error) => return Ok(status_of_script(error)),
        };
        match carry_out(alloc, host, sessions, line, text.as_slice()) {
            Ok(was) => refused = refused || was,
            Err(error) => return ended_by(error),
        }
    }
}

/// Runs a script of sessions over an opened file: first the entries of the queue run, and then piece by piece, in whatever chunks the script
/// comes. It answers the key of a record where the file has something else than what was written to it, which no file that holds a world has.
pub(crate) fn run_sessions<H: Host, K: Roomy<H> + Drop, S: Source>(
    alloc: Global,
    source: &mut S,
    host: &mut H,
    opened: Opened<K>,
) -> Result<Status, Key>
    requires live { IsTrue (K.live opened.keeper) }
    requires fit { AreFit (resting_parts opened) }
    requires aligned { AreAligned (resting_parts opened) }
    // Where the run ends by itself, its status, its text and the world that the file then holds are the machine's.
    ensures ran { (w : ListWorld) (script text : Items ℕ) → S.left source.old ≡ Some script → Begins H.view K.holds K.live w opened host.old text
        → IsEnding (status_in result) → RanAs K.means (items_from w script) (ending_of (pieces script)) w text (S.left source.new) (H.view host.new) (status_in result) }
    // A stop leaves the world after some of the settled transactions, and a front of the text up to the next one.
    ensures any_moment { (w : ListWorld) (script text : Items ℕ) → S.left source.old ≡ Some script → Begins H.view K.holds K.live w opened host.old text
        → LeavesOnly (H.view host.old) (H.view host.new) (IsAfterSome (HoldsBy ode K.means) (items_from w script) w text) }
    ensures statuses { IsRunStatus (status_in result) ⊎ (status_in result ≡ Status.BadFile) }
    // Over a file that holds a world it ends as the machine does, by a fault, or for want of memory.
    ensures answers { (w : ListWorld) → IsWell ode w → IsAtRest H.view K.holds K.live ode w opened host.old → IsRunStatus (status_in result) }
    // A fault is told exactly where its count rose, whatever the file holds.
    ensures leaves { HostCalls (status_in result ≡ Status.DiskFault) (status_in result ≡ Status.WriteFault) (H.view host.old) (H.view host.new) }
    ensures reads { RoseIf (status_in result ≡ Status.ReadFault) (S.faults source.old) (S.faults source.new) }
{
    let mut sessions = Sessions::start(alloc, opened);
    match sessions.drain(host) {
        Ok(_) => run_pieces(alloc, source, host, &mut sessions),
        Err(error) => ended_by(error),
    }
}
