//! The classes that records declare.
ghost use Rattle.std.specs.Prelude.{◌≡◌, ◌<◌, ◌≤◌, ◌^◌, ◌+◌, ◌++◌, ◌∷◌, [], drop, length, slice_get, true, Ok, Some, IfErr, IfOk, IfSome, IsErrOf, OnOk};
ghost use Rattle.std.specs.Option.{option_and_then, option_copied, option_map};
ghost use Rattle.ode_compile.specs.Compiling.{HaveNumbers, compiled_grown};
ghost use Rattle.ode_compile.specs.declared.compiling.Compiled.{Compiled as Made};
ghost use Rattle.ode_types.specs.Checked.{IsChecked};
ghost use Rattle.ode_value.specs.PrintedClasses.{decl_text};
ghost use Rattle.ode_language.specs.Languages.{ode, statement_of};
ghost use Rattle.ode_passes.specs.Answers.{Leaves, is_usable};
ghost use Rattle.ode_opening.specs.Accepting.{Accepts, Compiles};
ghost use Rattle.ode_opening.specs.Building.{AreBuilt, IsBuilt};
ghost use Rattle.ode_opening.specs.Declaring.{accepted_in, adds, agrees, class_among, class_in, declared_in, declares_as, declares_by, is_short, piece_in, read_in, text_in};
ghost use Rattle.ode_opening.specs.Births.{own_added};
ghost use Rattle.ode_passes.specs.Complete.{of_head};
ghost use Rattle.ode_opening.specs.Cutting.{Cuts, Declares};

use crate::accepted::Accepted;
use crate::births::count_of;
use ode_again_laws::numbers_of_classes_are_in_range;
use ode_codec::Record;
use ode_compile::{CompileStop, Compiled, build_class, put_behind};
use ode_language::{ReadStop, read_statement};
use ode_passes::{Cause, OpenError, class_count, of_head};
use ode_types::Classes;
use ode_value::limits::{CLASS_LIMIT, VALUE_LIMIT};
use ode_value::{Added, Class, ClassDecl, Key, List, Statement};
use std::alloc::{AllocError, Global};

// ---- the text of a class

// A piece of a text of which so many bytes are left.
#[tactic(auto, unfolding(ode_value::specs::Limits::value_limit))]
fn piece_in(left: usize, row: &Record) -> Option<&[u8]>
    ensures { option_copied result ≡ piece_in left row.now }
{
    match row {
        Record::ClassPiece { bytes, .. } => {
            let bytes = bytes.as_slice();
            if bytes.len() == left.min(VALUE_LIMIT) {
                Some(bytes)
            } else {
                None
            }
        }
        _ => None,
    }
}

// The next piece of a text of which so many bytes are left.
fn next_piece(records: &[(Key, Record)], at: usize, left: usize) -> Option<&[u8]>
    ensures piece { option_copied result ≡ option_and_then (λ f. piece_in left f.1) (slice_get records.now at) }
    ensures inside { IfSome result (λ _. at < length records.now) }
    ensures short { IfSome result (λ piece. length piece.now ≤ left) }
{
    let found = records.get(at)?;
    piece_in(left, &found.1)
}

// A text of so many bytes whose pieces stand from a place on, and the place behind them.
pub(crate) fn text_in(
    alloc: Global,
    records: &[(Key, Record)],
    at: usize,
    class: u32,
    length: u32,
) -> Result<(List<u8>, usize), OpenError>
    ensures meant { Cuts (text_in class length (drop at records.now)) records.now result }
    ensures calm { IsErrOf result OpenError.DiskFault → ⊥ }
{
    let mut text = Vec::new(alloc);
    let mut left = length as usize;
    let mut at = at;
    while left > 0 {
        let Some(piece) = next_piece(records, at, left) else {
            return Err(OpenError::BadFile(Cause::Class(class)));
        };
        text.extend_from_slice(piece)?;
        left -= piece.len();
        at += 1;
    }
    Ok((List::from_vec(text), at))
}

// ---- the class of a text

// The class that a statement is.
pub(crate) fn class_among(statement: &Option<Statement>) -> Option<&ClassDecl>
    ensures { option_copied result ≡ class_among statement.now }
{
    match statement {
        Some(Statement::Class(decl)) => Some(decl),
        _ => None,
    }
}

// Whether a class of this text has few enough records.
#[tactic(auto, unfolding(ode_value::specs::Limits::value_limit, ode_value::specs::Limits::class_limit))]
fn is_short(text: &[u8]) -> bool
    ensures test { result ≡ is_short text.now }
    ensures small { result ≡ true → length text.now + 1 < 2 ^ 32 }
{
    text.len() <= (CLASS_LIMIT as usize - 1) * VALUE_LIMIT
}

// The statement that this text is read as, where it is read as one.
fn parsed(alloc: Global, text: &[u8]) -> Result<Option<Statement>, AllocError>
    requires { length text.now < 2 ^ 32 }
    ensures class { IfOk result (λ read. class_among read ≡ class_in (statement_of text.now)) }
    ensures numbers { IfOk result (λ read. IfSome (class_among read) HaveNumbers) }
{
    numbers_of_classes_are_in_range();
    match read_statement(alloc, text) {
        Ok(statement) => Ok(Some(statement)),
        Err(ReadStop::Memory) => Err(AllocError),
        Err(ReadStop::Refused(_)) => Ok(None),
    }
}

// How a class's text is read, which is a statement's but for its semicolon.
pub(crate) fn read_in(alloc: Global, text: &[u8]) -> Result<Option<Statement>, AllocError>
    ensures class { IfOk result (λ read. class_among read ≡ read_in ode text.now) }
    ensures numbers { IfOk result (λ read. IfSome (class_among read) HaveNumbers) }
{
    if !is_short(text) {
        return Ok(None);
    }
    let mut statement = Vec::from_slice(alloc, text)?;
    statement.push(b';')?;
    parsed(alloc, statement.as_slice())
}

// The class, compiled with the fields that were added to it, where it is accepted after these.
fn accepted(
    alloc: Global,
    known: &Classes,
    added: &[Added],
    decl: &ClassDecl,
) -> Result<Option<Compiled>, AllocError>
    requires { HaveNumbers decl.now }
    ensures class { IfOk result (λ found. option_map (λ (made : Made). made.class) found ≡ accepted_in (compiled_grown known.now added.now decl.now)) }
    ensures checked { IfOk result (λ found. IfSome found (λ made. IsChecked known.now made.class)) }
    ensures text { IfOk result (λ found. IfSome found (λ made. made.text ≡ decl_text decl.now)) }
    ensures built { IfOk result (λ found. IfSome found IsBuilt) }
{
    match build_class(alloc, known, added, decl) {
        Ok(made) => Ok(Some(made)),
        Err(CompileStop::Memory) => Err(AllocError),
        Err(CompileStop::Refused(_)) => Ok(None),
    }
}

fn agrees(head: &Record, class: &Class) -> bool
    ensures { result ≡ agrees head.now class.now }
{
    match head {
        Record::ClassHead {
            class: number,
            name,
            parent,
            triggers,
            ..
        } => {
            *number == class.number
                && name.same(&class.name)
                && *parent == class.parent.unwrap_or(0)
                && usize::from(*triggers) == class.triggers.len()
        }
        _ => false,
    }
}

fn broken<T>(number: u32) -> Result<T, OpenError>
    ensures { result ≡ Err (OpenError.BadFile (Cause.Class number)) }
{
    Err(OpenError::BadFile(Cause::Class(number)))
}

// The class that a text declares which is read so.
#[tactic(auto, using(crate::proofs::Declared::refused_so))]
fn declare_as(
    alloc: Global,
    known: &Classes,
    added: &[Added],
    number: u32,
    head: &Record,
    text: &[u8],
    read: Option<&ClassDecl>,
) -> Result<Compiled, OpenError>
    requires { IfSome (option_copied read) HaveNumbers }
    ensures meant { Compiles (declares_as (option_copied read.entry) known.now added.now number head.now text.now) result }
    ensures checked { IfOk result (λ made. IsChecked known.now made.class) }
    ensures built { IfOk result IsBuilt }
    ensures calm { IsErrOf result OpenError.DiskFault → ⊥ }
{
    let Some(decl) = read else {
        return broken(number);
    };
    let Some(made) = accepted(alloc, known, added, decl)? else {
        return broken(number);
    };
    if made.text.as_slice() != text {
        return broken(number);
    }
    if !agrees(head, &made.class) {
        return broken(number);
    }
    Ok(made)
}

// A class behind the others, with what was built of it.
fn put_class(accepted: &mut Accepted, made: Compiled) -> Result<(), OpenError>
    requires checked { IsChecked accepted.old.classes made.class }
    requires built { IsBuilt made }
    ensures classes { OnOk result (accepted.new.classes ≡ accepted.old.classes ++ made.class ∷ []) }
    ensures built { OnOk result (AreBuilt accepted.old → AreBuilt accepted.new) }
    ensures memory { IfErr result (λ error. error ≡ OpenError.Memory) }
{
    let Compiled {
        class,
        tables,
        alphabets,
        counts,
        ..
    } = made;
    accepted.classes.add(class)?;
    put_behind(&mut accepted.tables, tables)?;
    put_behind(&mut accepted.alphabets, alphabets)?;
    put_behind(&mut accepted.counts, counts)?;
    Ok(())
}

// One more class, which this text declares.
#[tactic(auto, using(crate::proofs::Declared::adds_stop))]
fn add(
    alloc: Global,
    accepted: &mut Accepted,
    added: &[Added],
    number: u32,
    head: &Record,
    text: &[u8],
) -> Result<(), OpenError>
    ensures meant { Leaves (adds ode accepted.old.classes added.now number head.now text.now) accepted.new.classes result }
    ensures built { OnOk result (AreBuilt accepted.old → AreBuilt accepted.new) }
    ensures calm { IsErrOf result OpenError.DiskFault → ⊥ }
{
    let read = read_in(alloc, text)?;
    let made = declare_as(
        alloc,
        &accepted.classes,
        added,
        number,
        head,
        text,
        class_among(&read),
    )?;
    put_class(accepted, made)
}

// One more class, and the place behind the pieces of its text.
#[tactic(auto, using(crate::proofs::Declared::cut_stops_it, crate::proofs::Declared::add_stops_it, crate::proofs::Declared::declared_one))]
fn declare(
    alloc: Global,
    accepted: &mut Accepted,
    added: &[Added],
    records: &[(Key, Record)],
    at: usize,
    head: &Record,
    number: u32,
    length: u32,
) -> Result<usize, OpenError>
    ensures meant { Declares (declares_by ode (Some (number, length)) added.now head.now (accepted.old.classes, drop at records.now)) accepted.new.classes records.now result }
    ensures built { OnOk result (AreBuilt accepted.old → AreBuilt accepted.new) }
    ensures calm { IsErrOf result OpenError.DiskFault → ⊥ }
{
    let cut = text_in(alloc, records, at, number, length)?;
    let (text, next) = cut;
    add(alloc, accepted, added, number, head, text.as_slice())?;
    Ok(next)
}

// How many of these fields are the first ones and were added to a class that has this head.
fn own_count(added: &[Added], row: &Record) -> usize
    ensures count { result ≡ length (own_added (of_head row.now) added.now) }
    ensures inside { result ≤ length added.now }
{
    match of_head(row) {
        Some((number, _)) => count_of(added, number),
        None => 0,
    }
}

// These fields, and those behind them.
#[tactic(auto, using(crate::proofs::Listing::own_first))]
fn own_fields<'a>(added: &'a [Added], row: &Record) -> (&'a [Added], &'a [Added])
    ensures own { result.0.now ≡ own_added (of_head row.now) added.now }
    ensures behind { result.1.now ≡ drop (length (own_added (of_head row.now) added.now)) added.now }
{
    added.split_at(own_count(added, row))
}

// The same where a record is a head.
fn declare_next(
    alloc: Global,
    accepted: &mut Accepted,
    added: &[Added],
    records: &[(Key, Record)],
    at: usize,
    row: &Record,
) -> Result<usize, OpenError>
    ensures meant { Declares (declares_by ode (of_head row.now) added.now row.now (accepted.old.classes, drop at records.now)) accepted.new.classes records.now result }
    ensures built { OnOk result (AreBuilt accepted.old → AreBuilt accepted.new) }
    ensures calm { IsErrOf result OpenError.DiskFault → ⊥ }
{
    match of_head(row) {
        Some((number, length)) => {
            declare(alloc, accepted, added, records, at, row, number, length)
        }
        None => Ok(at),
    }
}

fn none_accepted(alloc: Global) -> Accepted
    ensures none { result.classes ≡ [] }
    ensures built { AreBuilt result }
{
    Accepted {
        classes: Classes::new(alloc),
        tables: List::new(alloc),
        alphabets: List::new(alloc),
        counts: List::new(alloc),
    }
}

/// The classes that the records of classes declare, with what is built of them. Each was compiled behind those before it.
#[tactic(auto, unfolding(crate::specs::Declaring::declared_in))]
pub(crate) fn declare_all(
    alloc: Global,
    records: &[(Key, Record)],
    added: &[Added],
) -> Result<Accepted, OpenError>
    ensures meant { Accepts (declared_in ode added.now records.now) result }
    ensures built { IfOk result AreBuilt }
    ensures calm { IsErrOf result OpenError.DiskFault → ⊥ }
    ensures usable { is_usable result ≡ true }
{
    let mut accepted = none_accepted(alloc);
    let mut at = class_count(records);
    let mut rest = added;
    for found in records {
        let own = own_fields(rest, &found.1);
        at = declare_next(alloc, &mut accepted, own.0, records, at, &found.1)?;
        rest = own.1;
    }
    Ok(accepted)
}
