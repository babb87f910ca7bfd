//! Statements and their right sides.
ghost use Rattle.std.specs.Prelude.{◌≡◌, ◌++◌, codes, map, OnOk, drop};
ghost use Rattle.std.specs.List.{join_by};
ghost use Rattle.ode_value.specs.Printing.{expr_text, in_brackets, operand_text, with_commas};
ghost use Rattle.ode_value.specs.PrintedClasses.{args_text, body_text, call_text, else_part, of_text, rhs_text, set_text, stmt_text, value_part, var_text};

use crate::expression::{put_between, put_expr, put_operand};
use crate::listed::put_list;
use crate::put::{put, put_three_texts, put_two_texts};
use ode_value::{Call, Expr, List, Name, Rhs, Stmt, Var};
use std::alloc::{AllocError, Global};

fn put_args(alloc: Global, out: &mut Vec<u8>, args: &[Expr]) -> Result<(), AllocError>
    ensures { OnOk result (out.new.items ≡ out.old.items ++ args_text args.now) }
{
    put(out, b"(")?;
    put_list(alloc, out, args)?;
    put(out, b")")
}

fn put_of(alloc: Global, out: &mut Vec<u8>, of: &Option<Expr>) -> Result<(), AllocError>
    ensures { OnOk result (out.new.items ≡ out.old.items ++ of_text of.now) }
{
    match of {
        None => Ok(()),
        Some(e) => {
            put_operand(alloc, out, e)?;
            put(out, b".")
        }
    }
}

fn put_call(alloc: Global, out: &mut Vec<u8>, call: &Call) -> Result<(), AllocError>
    ensures { OnOk result (out.new.items ≡ out.old.items ++ call_text call.now) }
{
    put_of(alloc, out, &call.of)?;
    put(out, call.method.as_bytes())?;
    put_args(alloc, out, call.args.as_slice())
}

/// Puts the text of a field that is set at the end.
pub(crate) fn put_set(
    alloc: Global,
    out: &mut Vec<u8>,
    set: &(Name, Expr),
) -> Result<(), AllocError>
    ensures { OnOk result (out.new.items ≡ out.old.items ++ set_text set.now) }
{
    put_two_texts(out, set.0.as_bytes(), b" = ")?;
    put_expr(alloc, out, &set.1)
}

fn put_new(
    alloc: Global,
    out: &mut Vec<u8>,
    class: &Name,
    fields: &[(Name, Expr)],
) -> Result<(), AllocError>
    ensures { OnOk result (out.new.items ≡ out.old.items ++ (codes "pnew " ++ class.now ++ in_brackets (with_commas (map set_text fields.now)))) }
{
    put_three_texts(out, b"pnew ", class.as_bytes(), b"(")?;
    put_list(alloc, out, fields)?;
    put(out, b")")
}

fn put_activation(
    alloc: Global,
    out: &mut Vec<u8>,
    of: &Expr,
    trigger: &Name,
    args: &[Expr],
) -> Result<(), AllocError>
    ensures { OnOk result (out.new.items ≡ out.old.items ++ (codes "activate " ++ operand_text of.now ++ codes "." ++ trigger.now ++ args_text args.now)) }
{
    put(out, b"activate ")?;
    put_operand(alloc, out, of)?;
    put_two_texts(out, b".", trigger.as_bytes())?;
    put_args(alloc, out, args)
}

/// Puts the text of a right side at the end.
pub fn put_rhs(alloc: Global, out: &mut Vec<u8>, rhs: &Rhs) -> Result<(), AllocError>
    ensures { OnOk result (out.new.items ≡ out.old.items ++ rhs_text rhs.now) }
{
    match rhs {
        Rhs::Plain(e) => put_expr(alloc, out, e),
        Rhs::Call(call) => put_call(alloc, out, call),
        Rhs::New { class, fields } => put_new(alloc, out, class, fields.as_slice()),
        Rhs::NewVersion(e) => put_worded(alloc, out, b"newversion ", e),
        Rhs::Activate { of, trigger, args } => {
            put_activation(alloc, out, of, trigger, args.as_slice())
        }
    }
}

fn put_var(out: &mut Vec<u8>, var: &Var) -> Result<(), AllocError>
    ensures { OnOk result (out.new.items ≡ out.old.items ++ var_text var.now) }
{
    match var {
        Var::Name(name) => put(out, name.as_bytes()),
        _ => Ok(()),
    }
}

fn put_value_part(alloc: Global, out: &mut Vec<u8>, value: &Option<Expr>) -> Result<(), AllocError>
    ensures { OnOk result (out.new.items ≡ out.old.items ++ value_part value.now) }
{
    match value {
        None => Ok(()),
        Some(e) => {
            put(out, b" ")?;
            put_expr(alloc, out, e)
        }
    }
}

fn put_set_to(alloc: Global, out: &mut Vec<u8>, var: &Var, rhs: &Rhs) -> Result<(), AllocError>
    ensures { OnOk result (out.new.items ≡ out.old.items ++ (var_text var.now ++ codes " = " ++ rhs_text rhs.now ++ codes ";")) }
{
    put_var(out, var)?;
    put(out, b" = ")?;
    put_rhs(alloc, out, rhs)?;
    put(out, b";")
}

fn put_let(alloc: Global, out: &mut Vec<u8>, var: &Var, rhs: &Rhs) -> Result<(), AllocError>
    ensures { OnOk result (out.new.items ≡ out.old.items ++ (codes "let " ++ var_text var.now ++ codes " = " ++ rhs_text rhs.now ++ codes ";")) }
{
    put(out, b"let ")?;
    put_set_to(alloc, out, var, rhs)
}

fn put_do(alloc: Global, out: &mut Vec<u8>, rhs: &Rhs) -> Result<(), AllocError>
    ensures { OnOk result (out.new.items ≡ out.old.items ++ (rhs_text rhs.now ++ codes ";")) }
{
    put_rhs(alloc, out, rhs)?;
    put(out, b";")
}

fn put_show(alloc: Global, out: &mut Vec<u8>, rhs: &Rhs) -> Result<(), AllocError>
    ensures { OnOk result (out.new.items ≡ out.old.items ++ (codes "show " ++ rhs_text rhs.now ++ codes ";")) }
{
    put(out, b"show ")?;
    put_do(alloc, out, rhs)
}

fn put_return(alloc: Global, out: &mut Vec<u8>, value: &Option<Expr>) -> Result<(), AllocError>
    ensures { OnOk result (out.new.items ≡ out.old.items ++ (codes "return" ++ value_part value.now ++ codes ";")) }
{
    put(out, b"return")?;
    put_value_part(alloc, out, value)?;
    put(out, b";")
}

// Puts a text and an expression at the end.
fn put_worded(alloc: Global, out: &mut Vec<u8>, word: &[u8], e: &Expr) -> Result<(), AllocError>
    ensures { OnOk result (out.new.items ≡ out.old.items ++ (word.now ++ expr_text e.now)) }
{
    put(out, word)?;
    put_expr(alloc, out, e)
}

// Puts two expressions behind a text at the end, as a statement.
fn put_pair(
    alloc: Global,
    out: &mut Vec<u8>,
    word: &[u8],
    first: &Expr,
    second: &Expr,
) -> Result<(), AllocError>
    ensures { OnOk result (out.new.items ≡ out.old.items ++ (word.now ++ expr_text first.now ++ codes ", " ++ expr_text second.now ++ codes ";")) }
{
    put_between(alloc, out, word, first, b", ")?;
    put_expr(alloc, out, second)?;
    put(out, b";")
}

fn put_test(alloc: Global, out: &mut Vec<u8>, test: &Expr) -> Result<(), AllocError>
    ensures { OnOk result (out.new.items ≡ out.old.items ++ (codes "if " ++ in_brackets (expr_text test.now) ++ codes " ")) }
{
    put(out, b"if ")?;
    put_between(alloc, out, b"(", test, b")")?;
    put(out, b" ")
}

/// Puts the text of a statement at the end.
#[cycle(statements)]
#[tactic(auto, using(crate::proofs::Levels::joined_stmts))]
pub fn put_stmt(alloc: Global, out: &mut Vec<u8>, s: &Stmt) -> Result<(), AllocError>
    ensures { OnOk result (out.new.items ≡ out.old.items ++ stmt_text s.now) }
{
    match s {
        Stmt::Let(var, rhs) => put_let(alloc, out, var, rhs),
        Stmt::Set(var, rhs) => put_set_to(alloc, out, var, rhs),
        Stmt::Do(rhs) => put_do(alloc, out, rhs),
        Stmt::If(test, first, second) => {
            put_test(alloc, out, test)?;
            put_body(alloc, out, first.as_slice())?;
            put_else(alloc, out, second.as_slice())
        }
        Stmt::Return(value) => put_return(alloc, out, value),
        Stmt::Delete(e) => put_between(alloc, out, b"pdelete ", e, b";"),
        Stmt::DropVersion(e) => put_between(alloc, out, b"delversion ", e, b";"),
        Stmt::Deactivate(of, number) => put_pair(alloc, out, b"deactivate ", of, number),
        Stmt::Show(rhs) => put_show(alloc, out, rhs),
        Stmt::Say(e) => put_between(alloc, out, b"say ", e, b";"),
        Stmt::TAbort => put(out, b"tabort;"),
    }
}

/// Puts the text of a body at the end.
#[cycle(statements)]
#[tactic(auto, using(crate::proofs::Levels::joined_stmts))]
pub fn put_body(alloc: Global, out: &mut Vec<u8>, body: &[Stmt]) -> Result<(), AllocError>
    ensures { OnOk result (out.new.items ≡ out.old.items ++ body_text body.now) }
{
    put(out, b"{")?;
    for s in body {
        put(out, b" ")?;
        put_stmt(alloc, out, s)?;
    }
    put(out, b" }")
}

#[cycle(statements)]
#[tactic(auto, using(crate::proofs::Levels::joined_stmts))]
fn put_else(alloc: Global, out: &mut Vec<u8>, body: &[Stmt]) -> Result<(), AllocError>
    ensures { OnOk result (out.new.items ≡ out.old.items ++ else_part (map stmt_text body.now)) }
{
    if body.is_empty() {
        return Ok(());
    }
    put(out, b" else ")?;
    put_body(alloc, out, body)
}
