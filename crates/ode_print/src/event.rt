//! Event expressions.
ghost use Rattle.std.specs.Prelude.{◌≡◌, ◌++◌, codes, OnOk, IfOk};
ghost use Rattle.ode_value.specs.Printing.{event_text, in_brackets, kind_text, mask_text, operand, operand_text, printed_event};
ghost use Rattle.ode_value.specs.Decimal.{digits_of};
ghost use Rattle.ode_value.specs.Instants.{instant_text};

use crate::expression::put_operand;
use crate::instant::put_instant;
use crate::put::{put, put_two_texts};
use crate::value::put_number;
use ode_value::{EventExpr, Expr, Kind, List};
use std::alloc::{AllocError, Global};

fn put_time(out: &mut Vec<u8>, second: i64) -> Result<(), AllocError>
    ensures { OnOk result (out.new.items ≡ out.old.items ++ (codes "time at \"" ++ instant_text second ++ codes "\"")) }
{
    put(out, b"time at \"")?;
    put_instant(out, second)?;
    put(out, b"\"")
}

/// Puts the text of a kind at the end.
pub fn put_kind(alloc: Global, out: &mut Vec<u8>, kind: &Kind) -> Result<(), AllocError>
    ensures { OnOk result (out.new.items ≡ out.old.items ++ kind_text kind.now) }
{
    match kind {
        Kind::Create => put(out, b"after create"),
        Kind::Delete => put(out, b"before delete"),
        Kind::NewVersion => put(out, b"after newversion"),
        Kind::DropVersion => put(out, b"before delversion"),
        Kind::Before(method) => put_two_texts(out, b"before ", method.as_bytes()),
        Kind::After(method) => put_two_texts(out, b"after ", method.as_bytes()),
        Kind::TBegin => put(out, b"after tbegin"),
        Kind::TComplete => put(out, b"before tcomplete"),
        Kind::TCommit => put(out, b"after tcommit"),
        Kind::TAbort => put(out, b"after tabort"),
        Kind::TimeEvery(seconds) => put_count(alloc, out, b"time every ", *seconds),
        Kind::TimeAt(second) => put_time(out, *second),
    }
}

// Puts a mask's operator and the mask, an operand, at the end.
fn put_test(alloc: Global, out: &mut Vec<u8>, test: &Expr) -> Result<(), AllocError>
    ensures { OnOk result (out.new.items ≡ out.old.items ++ (codes " && " ++ operand_text test.now)) }
{
    put(out, b" && ")?;
    put_operand(alloc, out, test)
}

fn put_mask(alloc: Global, out: &mut Vec<u8>, mask: &Option<Expr>) -> Result<(), AllocError>
    ensures { OnOk result (out.new.items ≡ out.old.items ++ mask_text mask.now) }
{
    match mask {
        None => Ok(()),
        Some(test) => put_test(alloc, out, test),
    }
}

fn put_leaf(
    alloc: Global,
    out: &mut Vec<u8>,
    kind: &Kind,
    mask: &Option<Expr>,
) -> Result<(), AllocError>
    ensures { OnOk result (out.new.items ≡ out.old.items ++ (kind_text kind.now ++ mask_text mask.now)) }
{
    put_kind(alloc, out, kind)?;
    put_mask(alloc, out, mask)
}

/// Puts the text of an event expression at the end.
#[cycle(events)]
#[tactic(auto, using(crate::proofs::Levels::joined_events))]
pub fn put_event(alloc: Global, out: &mut Vec<u8>, e: &EventExpr) -> Result<(), AllocError>
    ensures { OnOk result (out.new.items ≡ out.old.items ++ event_text e.now) }
{
    match e {
        EventExpr::Leaf(kind, mask) => put_leaf(alloc, out, kind, mask),
        EventExpr::Any => put(out, b"any"),
        EventExpr::First => put(out, b"first"),
        EventExpr::Not(of) => put_behind(alloc, out, b"!", of.get()),
        EventExpr::And(left, right) => {
            put_event_operand(alloc, out, left.get())?;
            put_behind(alloc, out, b" and ", right.get())
        }
        EventExpr::Or(left, right) => {
            put_event_operand(alloc, out, left.get())?;
            put_behind(alloc, out, b" or ", right.get())
        }
        EventExpr::Relative(first, second) => {
            put_first(alloc, out, b"relative", first.get())?;
            put_between(alloc, out, b", ", second.get(), b")")
        }
        EventExpr::RelPlus(of) => {
            put_first(alloc, out, b"relplus", of.get())?;
            put(out, b")")
        }
        EventExpr::Prior(first, second) => {
            put_first(alloc, out, b"prior", first.get())?;
            put_between(alloc, out, b", ", second.get(), b")")
        }
        EventExpr::Sequence(first, second) => {
            put_first(alloc, out, b"sequence", first.get())?;
            put_between(alloc, out, b", ", second.get(), b")")
        }
        EventExpr::Pipe(first, second) => {
            put_first(alloc, out, b"pipe", first.get())?;
            put_between(alloc, out, b", ", second.get(), b")")
        }
        EventExpr::Choose(count, of) => put_counted(alloc, out, b"choose ", *count, of.get()),
        EventExpr::Every(count, of) => put_counted(alloc, out, b"every ", *count, of.get()),
        EventExpr::Fa(first, second, third) => {
            put_first(alloc, out, b"fa", first.get())?;
            put_next(alloc, out, second.get())?;
            put_between(alloc, out, b", ", third.get(), b")")
        }
        EventExpr::FaAbs(first, second, third) => {
            put_first(alloc, out, b"faabs", first.get())?;
            put_next(alloc, out, second.get())?;
            put_between(alloc, out, b", ", third.get(), b")")
        }
        EventExpr::Masked(of, test) => {
            put_between(alloc, out, b"(", of.get(), b")")?;
            put_test(alloc, out, test)
        }
    }
}

// Puts an operand behind an operator at the end.
#[cycle(events)]
fn put_behind(
    alloc: Global,
    out: &mut Vec<u8>,
    operator: &[u8],
    e: &EventExpr,
) -> Result<(), AllocError>
    ensures { OnOk result (out.new.items ≡ out.old.items ++ (operator.now ++ operand (printed_event e.now))) }
{
    put(out, operator)?;
    put_event_operand(alloc, out, e)
}

// Puts the first part in brackets behind a word at the end.
#[cycle(events)]
fn put_first(alloc: Global, out: &mut Vec<u8>, word: &[u8], e: &EventExpr) -> Result<(), AllocError>
    ensures { OnOk result (out.new.items ≡ out.old.items ++ (word.now ++ codes "(" ++ event_text e.now)) }
{
    put_two_texts(out, word, b"(")?;
    put_event(alloc, out, e)
}

// Puts a further part in brackets at the end.
#[cycle(events)]
fn put_next(alloc: Global, out: &mut Vec<u8>, e: &EventExpr) -> Result<(), AllocError>
    ensures { OnOk result (out.new.items ≡ out.old.items ++ (codes ", " ++ event_text e.now)) }
{
    put(out, b", ")?;
    put_event(alloc, out, e)
}

// Puts a part between two texts at the end.
#[cycle(events)]
fn put_between(
    alloc: Global,
    out: &mut Vec<u8>,
    before: &[u8],
    e: &EventExpr,
    behind: &[u8],
) -> Result<(), AllocError>
    ensures { OnOk result (out.new.items ≡ out.old.items ++ (before.now ++ event_text e.now ++ behind.now)) }
{
    put(out, before)?;
    put_event(alloc, out, e)?;
    put(out, behind)
}

// Puts a word and a number at the end.
fn put_count(alloc: Global, out: &mut Vec<u8>, word: &[u8], count: u32) -> Result<(), AllocError>
    ensures { OnOk result (out.new.items ≡ out.old.items ++ (word.now ++ digits_of count)) }
{
    put(out, word)?;
    put_number(alloc, out, u64::from(count))
}

// Puts a word, a number and a part in brackets at the end.
#[cycle(events)]
fn put_counted(
    alloc: Global,
    out: &mut Vec<u8>,
    word: &[u8],
    count: u32,
    of: &EventExpr,
) -> Result<(), AllocError>
    ensures { OnOk result (out.new.items ≡ out.old.items ++ (word.now ++ digits_of count ++ codes " " ++ in_brackets (event_text of.now))) }
{
    put_count(alloc, out, word, count)?;
    put(out, b" ")?;
    put_between(alloc, out, b"(", of, b")")
}

// Puts the text of an operand at the end, an operator in brackets.
#[cycle(events)]
#[tactic(auto, using(crate::proofs::Levels::joined_events))]
fn put_event_operand(alloc: Global, out: &mut Vec<u8>, e: &EventExpr) -> Result<(), AllocError>
    ensures { OnOk result (out.new.items ≡ out.old.items ++ operand (printed_event e.now)) }
{
    match e {
        EventExpr::Not(_) | EventExpr::And(_, _) | EventExpr::Or(_, _) => {
            put_between(alloc, out, b"(", e, b")")
        }
        _ => put_event(alloc, out, e),
    }
}

/// The text of an event expression.
pub fn print_event(alloc: Global, e: &EventExpr) -> Result<List<u8>, AllocError>
    ensures { IfOk result (λ text. text ≡ event_text e.now) }
{
    let mut out = Vec::new(alloc);
    put_event(alloc, &mut out, e)?;
    Ok(List::from_vec(out))
}
