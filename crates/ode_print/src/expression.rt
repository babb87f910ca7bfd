//! Expressions.
ghost use Rattle.std.specs.Prelude.{◌≡◌, ◌++◌, OnOk, IfOk};
ghost use Rattle.ode_value.specs.Printing.{binary_text, expr_text, operand_text, unary_text};

use crate::put::{put, put_two_texts};
use crate::value::put_value;
use ode_value::{BinOp, Expr, List, UnOp};
use std::alloc::{AllocError, Global};

fn put_sign(out: &mut Vec<u8>, op: UnOp) -> Result<(), AllocError>
    ensures { OnOk result (out.new.items ≡ out.old.items ++ unary_text op) }
{
    match op {
        UnOp::Minus => put(out, b"-"),
        UnOp::Not => put(out, b"!"),
    }
}

fn put_operator(out: &mut Vec<u8>, op: BinOp) -> Result<(), AllocError>
    ensures { OnOk result (out.new.items ≡ out.old.items ++ binary_text op) }
{
    let text: &[u8] = match op {
        BinOp::Add => b" + ",
        BinOp::Sub => b" - ",
        BinOp::Mul => b" * ",
        BinOp::Div => b" / ",
        BinOp::Rem => b" % ",
        BinOp::Eq => b" == ",
        BinOp::Ne => b" != ",
        BinOp::Lt => b" < ",
        BinOp::Le => b" <= ",
        BinOp::Gt => b" > ",
        BinOp::Ge => b" >= ",
        BinOp::And => b" && ",
        BinOp::Or => b" || ",
    };
    put(out, text)
}

/// Puts the text of an expression at the end.
#[cycle(exprs)]
#[tactic(auto, using(crate::proofs::Levels::joined_exprs))]
pub fn put_expr(alloc: Global, out: &mut Vec<u8>, e: &Expr) -> Result<(), AllocError>
    ensures { OnOk result (out.new.items ≡ out.old.items ++ expr_text e.now) }
{
    match e {
        Expr::Lit(value) => put_value(alloc, out, value),
        Expr::Name(name) => put(out, name.as_bytes()),
        Expr::This => put(out, b"this"),
        Expr::Field(of, name) => {
            put_operand(alloc, out, of.get())?;
            put_two_texts(out, b".", name.as_bytes())
        }
        Expr::Version(of) => {
            put(out, b"version")?;
            put_between(alloc, out, b"(", of.get(), b")")
        }
        Expr::Unary(op, of) => {
            put_sign(out, *op)?;
            put_operand(alloc, out, of.get())
        }
        Expr::Binary(op, left, right) => {
            put_operand(alloc, out, left.get())?;
            put_operator(out, *op)?;
            put_operand(alloc, out, right.get())
        }
        Expr::Local(_) => Ok(()),
        Expr::Own(_) => Ok(()),
        Expr::Slot(_, _) => Ok(()),
    }
}

/// Puts an expression between two texts at the end.
#[cycle(exprs)]
pub fn put_between(
    alloc: Global,
    out: &mut Vec<u8>,
    before: &[u8],
    e: &Expr,
    behind: &[u8],
) -> Result<(), AllocError>
    ensures { OnOk result (out.new.items ≡ out.old.items ++ (before.now ++ expr_text e.now ++ behind.now)) }
{
    put(out, before)?;
    put_expr(alloc, out, e)?;
    put(out, behind)
}

/// Puts the text of an operand at the end, an operator in brackets.
#[cycle(exprs)]
#[tactic(auto, using(crate::proofs::Levels::joined_exprs))]
pub fn put_operand(alloc: Global, out: &mut Vec<u8>, e: &Expr) -> Result<(), AllocError>
    ensures { OnOk result (out.new.items ≡ out.old.items ++ operand_text e.now) }
{
    match e {
        Expr::Unary(_, _) | Expr::Binary(_, _, _) => { put_between(alloc, out, b"(", e, b")") }
        _ => put_expr(alloc, out, e),
    }
}

/// The text of an expression.
pub fn print_expr(alloc: Global, e: &Expr) -> Result<List<u8>, AllocError>
    ensures { IfOk result (λ text. text ≡ expr_text e.now) }
{
    let mut out = Vec::new(alloc);
    put_expr(alloc, &mut out, e)?;
    Ok(List::from_vec(out))
}
