//! Why a transaction aborts and why a statement is refused, in words.
ghost use Rattle.std.specs.Prelude.{◌≡◌, ◌++◌, codes, IfOk, OnOk};
ghost use Rattle.ode_value.specs.Decimal.{digits_of};
ghost use Rattle.ode_value.specs.References.{spelled_ref};
ghost use Rattle.ode_value.specs.Texts.{refused_line, check_text, reason_text, refusal_text};

use ode_value::{CheckError, List, Name, Reason, Ref, Refusal, ref_text};
use std::alloc::{AllocError, Global};

// A text, and a number behind it.
pub(crate) fn put_number(
    alloc: Global,
    text: &mut Vec<u8>,
    front: &[u8],
    number: u128,
) -> Result<(), AllocError>
    ensures { OnOk result (text.new.items ≡ text.old.items ++ (front.now ++ digits_of number)) }
{
    let digits = number.to_string(alloc)?;
    text.extend_from_slice(front)?;
    text.extend_from_slice(digits.as_bytes())
}

// A text, and a name behind it.
pub(crate) fn put_name(text: &mut Vec<u8>, front: &[u8], name: &Name) -> Result<(), AllocError>
    ensures { OnOk result (text.new.items ≡ text.old.items ++ (front.now ++ name.now)) }
{
    text.extend_from_slice(front)?;
    text.extend_from_slice(name.as_bytes())
}

// A text, and a reference behind it.
pub(crate) fn put_ref(
    alloc: Global,
    text: &mut Vec<u8>,
    front: &[u8],
    of: Ref,
) -> Result<(), AllocError>
    ensures { OnOk result (text.new.items ≡ text.old.items ++ (front.now ++ spelled_ref of)) }
{
    let spelled = ref_text(alloc, of)?;
    text.extend_from_slice(front)?;
    text.extend_from_slice(spelled.as_slice())
}

// The reason of an abort.
pub(crate) fn put_reason(
    alloc: Global,
    text: &mut Vec<u8>,
    reason: &Reason,
) -> Result<(), AllocError>
    ensures { OnOk result (text.new.items ≡ text.old.items ++ reason_text reason.now) }
{
    match reason {
        Reason::Asked => text.extend_from_slice(b"asked"),
        Reason::Constraint(name) => put_name(text, b"constraint ", name),
        Reason::Overflow => text.extend_from_slice(b"overflow"),
        Reason::DivideByZero => text.extend_from_slice(b"zero divisor"),
        Reason::NoObject(id) => {
            let object = Ref {
                object: *id,
                version: None,
            };
            put_ref(alloc, text, b"no object ", object)
        }
        Reason::NoVersion(of) => put_ref(alloc, text, b"no version ", *of),
        Reason::LastVersion(id) => put_number(alloc, text, b"last version #", u128::from(*id)),
        Reason::Depth => text.extend_from_slice(b"depth"),
        Reason::Budget => text.extend_from_slice(b"budget"),
        Reason::Cascade => text.extend_from_slice(b"cascade"),
        Reason::Size => text.extend_from_slice(b"size"),
        Reason::Space => text.extend_from_slice(b"space"),
        Reason::Output => text.extend_from_slice(b"output"),
        Reason::End => text.extend_from_slice(b"end"),
    }
}

/// The text of an abort's reason.
pub fn reason_text(alloc: Global, reason: &Reason) -> Result<List<u8>, AllocError>
    ensures { IfOk result (λ text. text ≡ reason_text reason.now) }
{
    let mut text = Vec::new(alloc);
    put_reason(alloc, &mut text, reason)?;
    Ok(List::from_vec(text))
}

fn put_check(text: &mut Vec<u8>, error: &CheckError) -> Result<(), AllocError>
    ensures { OnOk result (text.new.items ≡ text.old.items ++ check_text error.now) }
{
    match error {
        CheckError::UnknownName(name) => put_name(text, b"unknown name ", name),
        CheckError::Duplicate(name) => put_name(text, b"duplicate ", name),
        CheckError::WrongSort(name) => put_name(text, b"wrong type ", name),
        CheckError::NotInherited(name) => put_name(text, b"not inherited ", name),
        CheckError::TooMany(name) => put_name(text, b"too many ", name),
    }
}

fn put_symbols(
    alloc: Global,
    text: &mut Vec<u8>,
    trigger: &Name,
    count: u32,
) -> Result<(), AllocError>
    ensures { OnOk result (text.new.items ≡ text.old.items ++ (codes "too many symbols " ++ trigger.now ++ codes " " ++ digits_of count)) }
{
    put_name(text, b"too many symbols ", trigger)?;
    put_number(alloc, text, b" ", u128::from(count))
}

fn put_refusal(alloc: Global, text: &mut Vec<u8>, refusal: &Refusal) -> Result<(), AllocError>
    ensures { OnOk result (text.new.items ≡ text.old.items ++ refusal_text refusal.now) }
{
    match refusal {
        Refusal::NoToken { at } => put_number(alloc, text, b"bad byte ", u128::from(*at)),
        Refusal::Syntax { at } => put_number(alloc, text, b"syntax ", u128::from(*at)),
        Refusal::TooDeep { at } => put_number(alloc, text, b"too deep ", u128::from(*at)),
        Refusal::InTransaction => text.extend_from_slice(b"in transaction"),
        Refusal::NoTransaction => text.extend_from_slice(b"no transaction"),
        Refusal::NumbersSpent => text.extend_from_slice(b"numbers spent"),
        Refusal::NoObject(id) => put_number(alloc, text, b"no object #", u128::from(*id)),
        Refusal::NoVersion(of) => put_ref(alloc, text, b"no version ", *of),
        Refusal::Check(error) => put_check(text, error),
        Refusal::TooManySymbols { trigger, count } => put_symbols(alloc, text, trigger, *count),
        Refusal::TooManyStates { trigger } => put_name(text, b"too many states ", trigger),
        Refusal::ClassTooLarge { count } => {
            put_number(alloc, text, b"class too large ", u128::from(*count))
        }
        Refusal::BadInstant => text.extend_from_slice(b"bad instant"),
        Refusal::ClockBack => text.extend_from_slice(b"clock back"),
        Refusal::TooManyDue { count } => put_number(alloc, text, b"too many due ", *count),
        Refusal::NotBuilt => text.extend_from_slice(b"not built"),
    }
}

/// `refused LINE REASON`
pub fn refusal_line(alloc: Global, line: u64, refusal: &Refusal) -> Result<List<u8>, AllocError>
    ensures { IfOk result (λ text. text ≡ refused_line line refusal.now) }
{
    let mut text = Vec::new(alloc);
    let front = format!(in alloc; "refused {line} ")?;
    text.extend_from_slice(front.as_bytes())?;
    put_refusal(alloc, &mut text, refusal)?;
    text.extend_from_slice(b"\n")?;
    Ok(List::from_vec(text))
}
