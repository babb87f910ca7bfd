//! What expressions come to where there are no locals and no objects.

use crate::ruling::shown;
use ode_expr::{EvalStop, Frame, eval};
use ode_value::{Expr, Fault, List, OdeText, Ref, Rhs, Stmt, Value, ref_text};
use std::alloc::{AllocError, Global};
use std::io;

// The longest text that is printed as it is.
const SHORT: usize = 64;

// A frame without locals, over no objects, with what it was looked at for.
#[derive(Drop)]
struct Empty {
    looked: List<u64>,
}

impl Frame for Empty {
    ghost use Rattle.std.specs.Prelude.{◌≡◌, None};
    ghost use Rattle.ode_value.specs.Evaluation.{no_frame};
    ghost use Rattle.ode_value.specs.Worlds.{empty_bones};

    type Stop = ();

    ghost Known = { Unit {0} };

    ghost bones = { λ _. empty_bones };

    ghost shows = { λ _ _. Unit {0} };

    ghost Base = { Unit {0} };

    ghost follows = { λ _ _. Unit {0} };

    ghost scene = { λ _. no_frame };

    ghost looked = { λ f. f.looked };

    ghost stopped = { λ _. None };

    fn local(&self, _: u16) -> Option<&Value> {
        None
    }

    fn this(&self) -> Ref {
        Ref {
            object: 0,
            version: None,
        }
    }

    fn read_field(&mut self, of: Ref, _: u16) -> Result<Value, EvalStop<()>> {
        self.looked.push(of.object)?;
        Err(EvalStop::Fault(Fault::NoObject(of.object)))
    }

    fn current(&mut self, of: Ref) -> Result<u32, EvalStop<()>> {
        self.looked.push(of.object)?;
        Err(EvalStop::Fault(Fault::NoObject(of.object)))
    }
}

fn value_of(alloc: Global, e: &Expr) -> Result<Value, EvalStop<()>> {
    let mut frame = Empty {
        looked: List::new(alloc),
    };
    eval(alloc, e, &mut frame)
}

/// What the shown expression of a checked statement comes to, where it shows one.
pub fn shown_value(alloc: Global, checked: &Stmt) -> Option<Result<Value, EvalStop<()>>> {
    match checked {
        Stmt::Show(Rhs::Plain(e)) => Some(value_of(alloc, e)),
        _ => None,
    }
}

fn print_text<R: Print>(rt: &R, text: &OdeText) -> io::Result<()> {
    let bytes = text.as_bytes();
    let length = bytes.len();
    if length > SHORT {
        return print!(rt; "a text of {length} bytes");
    }
    match str::from_utf8(bytes) {
        Ok(text) => print!(rt; "\"{text}\""),
        Err(_) => print!(rt; "no text"),
    }
}

fn print_reference<R: Print + AllocGlobal>(rt: &R, r: Ref) -> io::Result<()> {
    let text = ref_text(rt.alloc(), r)?;
    match str::from_utf8(text.as_slice()) {
        Ok(text) => print!(rt; "{text}"),
        Err(_) => print!(rt; "no reference"),
    }
}

fn print_value<R: Print + AllocGlobal>(rt: &R, value: &Value) -> io::Result<()> {
    match value {
        Value::Int(n) => print!(rt; "{n}"),
        Value::Bool(b) => print!(rt; "{b}"),
        Value::Text(text) => print_text(rt, text),
        Value::Reference(r) => print_reference(rt, *r),
    }
}

fn print_fault<R: Print + AllocGlobal>(rt: &R, fault: Fault) -> io::Result<()> {
    match fault {
        Fault::Overflow => print!(rt; "overflow"),
        Fault::DivideByZero => print!(rt; "zero divisor"),
        Fault::NoObject(object) => {
            print!(rt; "no object ")?;
            print_reference(
                rt,
                Ref {
                    object,
                    version: None,
                },
            )
        }
        Fault::NoVersion(of) => {
            print!(rt; "no version ")?;
            print_reference(rt, of)
        }
    }
}

/// Prints what an expression comes to before its text, of which a long one is cut.
pub fn print_valuing<R: Print + AllocGlobal>(
    rt: &R,
    text: &str,
    answer: &Result<Value, EvalStop<()>>,
) -> io::Result<()> {
    match answer {
        Ok(value) => print_value(rt, value)?,
        Err(EvalStop::Fault(fault)) => print_fault(rt, *fault)?,
        Err(_) => print!(rt; "no memory")?,
    }
    let shown = shown(text);
    println!(rt; ": {shown}")
}
