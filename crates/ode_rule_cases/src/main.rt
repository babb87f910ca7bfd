//! Answers what the static rules say of each text on standard input: `ok`, or the first rule that it breaks. A line is a class or a change of
//! one, which the ones below it know where it is accepted, or a statement; `== WORDS` is a heading, and `object REFERENCE CLASS` says what
//! a reference's object is.
//! A line `value EXPRESSION` is answered with what the expression comes to where no object is there.
#![tactic(auto)]

ghost use Rattle.std.specs.Prelude.{◌<◌, ◌^◌, length};

mod literal;
mod ruling;
mod valuing;

use literal::literal_of;
use ode_checker::{check_class, check_statement};
use ode_classyn::{parse_class, parse_statement};
use ode_evolve::{change_class, parse_change, with_change};
use ode_types::{CheckStop, Classes};
use ode_value::{Added, Change, ClassDecl, List, Ref, Statement, Stmt};
use ruling::{Ruling, print_ruling};
use std::alloc::{AllocError, Global};
use std::io;
use valuing::{print_valuing, shown_value};

/// What has been declared so far.
#[derive(Drop)]
struct Known {
    classes: Classes,
    decls: List<ClassDecl>,
    added: List<Added>,
    literals: List<(Ref, u32)>,
}

fn ruling_of<T: Drop>(answer: Result<T, CheckStop>) -> Ruling {
    match answer {
        Ok(_) => Ruling::Accepted,
        Err(stop) => Ruling::Stopped(stop),
    }
}

fn rule_class(alloc: Global, known: &mut Known, class: &ClassDecl) -> Ruling {
    match check_class(alloc, &known.classes, class) {
        Ok(checked) => match known.classes.add(checked) {
            Ok(()) => stored(put_class(alloc, &mut known.decls, class)),
            Err(_) => Ruling::Stopped(CheckStop::Memory),
        },
        Err(stop) => Ruling::Stopped(stop),
    }
}

fn put_class(
    alloc: Global,
    decls: &mut List<ClassDecl>,
    class: &ClassDecl,
) -> Result<(), AllocError> {
    let class = class.copy(alloc)?;
    decls.push(class)
}

// What was accepted, where it is known to the lines below.
fn stored(answer: Result<(), AllocError>) -> Ruling {
    match answer {
        Ok(()) => Ruling::Accepted,
        Err(_) => Ruling::Stopped(CheckStop::Memory),
    }
}

// The classes behind a change are those that are known from now on.
fn put_change(
    alloc: Global,
    known: &mut Known,
    classes: Classes,
    change: &Change,
) -> Result<(), AllocError> {
    let number = match classes.named(&change.class) {
        Some(class) => class.number,
        None => return Ok(()),
    };
    known.added = with_change(alloc, &known.added, number, change)?;
    known.classes = classes;
    Ok(())
}

fn rule_change(alloc: Global, known: &mut Known, change: &Change) -> Ruling {
    match change_class(alloc, &known.decls, &known.added, change) {
        Ok(classes) => stored(put_change(alloc, known, classes, change)),
        Err(stop) => Ruling::Stopped(stop),
    }
}

fn rule_change_text(alloc: Global, known: &mut Known, text: &[u8]) -> Ruling
    requires { length text.now < 2 ^ 32 }
{
    match parse_change(alloc, text) {
        Ok(change) => rule_change(alloc, known, &change),
        Err(_) => Ruling::Unread,
    }
}

fn rule_statement(alloc: Global, known: &Known, statement: &Stmt) -> Ruling {
    let answer = check_statement(alloc, &known.classes, &known.literals, statement);
    ruling_of(answer)
}

// A statement of a script that rules speak of.
fn simple(statement: Statement) -> Option<Stmt> {
    match statement {
        Statement::Simple(simple) => Some(simple),
        _ => None,
    }
}

fn read_class(alloc: Global, text: &[u8]) -> Option<ClassDecl>
    requires { length text.now < 2 ^ 32 }
{
    match parse_class(alloc, text) {
        Ok(class) => Some(class),
        Err(_) => None,
    }
}

fn read_statement(alloc: Global, text: &[u8]) -> Option<Stmt>
    requires { length text.now < 2 ^ 32 }
{
    match parse_statement(alloc, text) {
        Ok(statement) => simple(statement),
        Err(_) => None,
    }
}

fn rule_class_text(alloc: Global, known: &mut Known, text: &[u8]) -> Ruling
    requires { length text.now < 2 ^ 32 }
{
    match read_class(alloc, text) {
        Some(class) => rule_class(alloc, known, &class),
        None => Ruling::Unread,
    }
}

// Puts it behind the others, where it is there.
fn put(statements: &mut List<Stmt>, statement: Option<Stmt>) -> Result<(), AllocError> {
    match statement {
        Some(statement) => statements.push(statement),
        None => Ok(()),
    }
}

fn rule_statement_text(alloc: Global, known: &Known, text: &[u8]) -> Result<Ruling, AllocError>
    requires { length text.now < 2 ^ 32 }
{
    let mut read = List::new(alloc);
    put(&mut read, read_statement(alloc, text))?;
    match read.as_slice() {
        [statement] => Ok(rule_statement(alloc, known, statement)),
        _ => Ok(Ruling::Unread),
    }
}

fn rule(alloc: Global, known: &mut Known, text: &[u8]) -> Ruling {
    if text.len() >= 4_294_967_296 {
        Ruling::Unread
    } else if text.starts_with(b"class ") {
        rule_class_text(alloc, known, text)
    } else if text.starts_with(b"change class ") {
        rule_change_text(alloc, known, text)
    } else {
        match rule_statement_text(alloc, known, text) {
            Ok(ruling) => ruling,
            Err(_) => Ruling::Stopped(CheckStop::Memory),
        }
    }
}

// A text that shows what an expression comes to, as a statement.
fn print_shown<R: Print + AllocGlobal>(
    rt: &R,
    known: &Known,
    text: &str,
    statement: &Stmt,
) -> io::Result<()> {
    match check_statement(rt.alloc(), &known.classes, &known.literals, statement) {
        Ok(checked) => match shown_value(rt.alloc(), &checked) {
            Some(answer) => print_valuing(rt, text, &answer),
            None => print_ruling(rt, text, &Ruling::Unread),
        },
        Err(stop) => print_ruling(rt, text, &Ruling::Stopped(stop)),
    }
}

fn print_expression<R: Print + AllocGlobal>(rt: &R, known: &Known, text: &str) -> io::Result<()> {
    let alloc = rt.alloc();
    let statement = format!(in alloc; "show {text};")?;
    let mut read = List::new(alloc);
    if statement.len() < 4_294_967_296 {
        put(&mut read, read_statement(alloc, statement.as_bytes()))?;
    }
    match read.as_slice() {
        [statement] => print_shown(rt, known, text, statement),
        _ => print_ruling(rt, text, &Ruling::Unread),
    }
}

fn main(rt: HostRuntime) -> io::Result<()> {
    let alloc = rt.alloc();
    let lines = io::read_to_string(alloc, rt.reader())?;
    let mut known = Known {
        classes: Classes::new(alloc),
        decls: List::new(alloc),
        added: List::new(alloc),
        literals: List::new(alloc),
    };
    for line in lines.as_str().lines() {
        if line.starts_with("==") || line.is_empty() {
            println!(rt; "{line}")?;
        } else if let Some(words) = line.strip_prefix("object ") {
            if let Some(literal) = literal_of(alloc, &known.classes, words) {
                known.literals.push(literal)?;
            }
        } else if let Some(expression) = line.strip_prefix("value ") {
            print_expression(&rt, &known, expression)?;
        } else {
            print_ruling(&rt, line, &rule(alloc, &mut known, line.as_bytes()))?;
        }
    }
    Ok(())
}
