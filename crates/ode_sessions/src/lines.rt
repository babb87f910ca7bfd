//! The lines of pieces that no session may say, and of steps that are refused or put off.
ghost use Rattle.std.specs.Prelude.{◌≡◌, ◌++◌, IfOk, OnOk};
ghost use Rattle.ode_machine.specs.Conversation.{busy_line, no_session_line, owned_text};
ghost use Rattle.ode_sessions.specs.Lines.{answer_line};

use ode_machine::Owned;
use ode_script::refusal_line;
use ode_steps::Answer;
use ode_value::List;
use std::alloc::{AllocError, Global};

// What is held: `#1`, `numbers`, `queue` or `all`.
fn put_owned(alloc: Global, out: &mut Vec<u8>, on: Owned) -> Result<(), AllocError>
    ensures { OnOk result (out.new.items ≡ out.old.items ++ owned_text on) }
{
    match on {
        Owned::Object(id) => {
            let number = format!(in alloc; "#{id}")?;
            out.extend_from_slice(number.as_bytes())
        }
        Owned::Numbers => out.extend_from_slice(b"numbers"),
        Owned::Queue => out.extend_from_slice(b"queue"),
        Owned::All => out.extend_from_slice(b"all"),
    }
}

// `busy LINE session S on #N`
fn busy_line(alloc: Global, line: u64, session: u32, on: Owned) -> Result<List<u8>, AllocError>
    ensures { IfOk result (λ text. text ≡ busy_line line session on) }
{
    let mut text = Vec::new(alloc);
    let front = format!(in alloc; "busy {line} session {session} on ")?;
    text.extend_from_slice(front.as_bytes())?;
    put_owned(alloc, &mut text, on)?;
    text.extend_from_slice(b"\n")?;
    Ok(List::from_vec(text))
}

/// `refused LINE no session`
pub(crate) fn no_session_line(alloc: Global, line: u64) -> Result<List<u8>, AllocError>
    ensures { IfOk result (λ text. text ≡ no_session_line line) }
{
    let text = format!(in alloc; "refused {line} no session\n")?;
    Ok(List::from_vec(text.into_bytes()))
}

/// The line of a step that is refused or put off; what settled prints its own text.
pub(crate) fn answer_line(
    alloc: Global,
    line: u64,
    answer: Answer,
) -> Result<Option<List<u8>>, AllocError>
    ensures { IfOk result (λ text. text ≡ answer_line line answer) }
{
    match answer {
        Answer::Accepted => Ok(None),
        Answer::Settled(_) => Ok(None),
        Answer::Refused(why) => {
            let text = refusal_line(alloc, line, &why)?;
            Ok(Some(text))
        }
        Answer::Busy { session, on } => {
            let text = busy_line(alloc, line, session, on)?;
            Ok(Some(text))
        }
    }
}
