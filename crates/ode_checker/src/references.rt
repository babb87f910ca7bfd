//! The reference literals of a statement, and of a query.
ghost use Rattle.std.specs.Prelude.{◌≡◌, ◌++◌, IfOk, OnOk};
ghost use Rattle.std.specs.List.{flat_map};
ghost use Rattle.std.specs.Option.{option_map_or};
ghost use Rattle.ode_types.specs.Literals.{all_refs, expr_refs, literals, optional_refs, query_literals, rhs_refs, setting_refs, value_refs};

use ode_value::{Expr, List, Name, Ref, Rhs, Stmt, Value};
use std::alloc::{AllocError, Global};

/// The reference literals of a statement, in the order of the text. Null isn't one.
pub fn literals(alloc: Global, s: &Stmt) -> Result<List<Ref>, AllocError>
    ensures { IfOk result (λ refs. refs ≡ literals s.now) }
{
    let mut refs = List::new(alloc);
    add_of_stmt(&mut refs, s)?;
    Ok(refs)
}

/// The reference literals of a query's expressions, in the order of the text.
pub fn query_literals(
    alloc: Global,
    test: &Option<Expr>,
    by: &List<Expr>,
    show: &List<Expr>,
) -> Result<List<Ref>, AllocError>
    ensures { IfOk result (λ refs. refs ≡ query_literals test.now by.now show.now) }
{
    let mut refs = List::new(alloc);
    add_of_optional(&mut refs, test)?;
    add_of_all(&mut refs, by.as_slice())?;
    add_of_all(&mut refs, show.as_slice())?;
    Ok(refs)
}

fn add_of_value(refs: &mut List<Ref>, v: &Value) -> Result<(), AllocError>
    ensures { OnOk result (refs.new ≡ refs.old ++ value_refs v.now) }
{
    match v {
        Value::Reference(r) => {
            if r.object != 0 {
                refs.push(*r)?;
            }
            Ok(())
        }
        _ => Ok(()),
    }
}

#[tactic(auto, using(ode_types::proofs::LiteralLaws::expr_literals))]
fn add_of_expr(refs: &mut List<Ref>, e: &Expr) -> Result<(), AllocError>
    ensures { OnOk result (refs.new ≡ refs.old ++ expr_refs e.now) }
{
    match e {
        Expr::Lit(v) => add_of_value(refs, v),
        Expr::Field(e, _) => add_of_expr(refs, e.get()),
        Expr::Slot(e, _) => add_of_expr(refs, e.get()),
        Expr::Version(e) => add_of_expr(refs, e.get()),
        Expr::Unary(_, e) => add_of_expr(refs, e.get()),
        Expr::Binary(_, e, f) => {
            add_of_expr(refs, e.get())?;
            add_of_expr(refs, f.get())
        }
        Expr::Name(_) => Ok(()),
        Expr::Local(_) => Ok(()),
        Expr::Own(_) => Ok(()),
        Expr::This => Ok(()),
    }
}

fn add_of_two(refs: &mut List<Ref>, e: &Expr, f: &Expr) -> Result<(), AllocError>
    ensures { OnOk result (refs.new ≡ refs.old ++ (expr_refs e.now ++ expr_refs f.now)) }
{
    add_of_expr(refs, e)?;
    add_of_expr(refs, f)
}

fn add_of_all(refs: &mut List<Ref>, es: &[Expr]) -> Result<(), AllocError>
    ensures { OnOk result (refs.new ≡ refs.old ++ all_refs es.now) }
{
    for e in es {
        add_of_expr(refs, e)?;
    }
    Ok(())
}

fn add_of_settings(refs: &mut List<Ref>, fields: &[(Name, Expr)]) -> Result<(), AllocError>
    ensures { OnOk result (refs.new ≡ refs.old ++ setting_refs fields.now) }
{
    for field in fields {
        add_of_expr(refs, &field.1)?;
    }
    Ok(())
}

fn add_of_optional(refs: &mut List<Ref>, e: &Option<Expr>) -> Result<(), AllocError>
    ensures { OnOk result (refs.new ≡ refs.old ++ optional_refs e.now) }
{
    match e {
        Some(e) => add_of_expr(refs, e),
        None => Ok(()),
    }
}

fn add_of_rhs(refs: &mut List<Ref>, rhs: &Rhs) -> Result<(), AllocError>
    ensures { OnOk result (refs.new ≡ refs.old ++ rhs_refs rhs.now) }
{
    match rhs {
        Rhs::Plain(e) => add_of_expr(refs, e),
        Rhs::Call(call) => {
            add_of_optional(refs, &call.of)?;
            add_of_all(refs, call.args.as_slice())
        }
        Rhs::New { fields, .. } => add_of_settings(refs, fields.as_slice()),
        Rhs::NewVersion(e) => add_of_expr(refs, e),
        Rhs::Activate { of, args, .. } => {
            add_of_expr(refs, of)?;
            add_of_all(refs, args.as_slice())
        }
    }
}

#[cycle(literals)]
#[tactic(auto, using(ode_types::proofs::LiteralLaws::stmt_literals))]
fn add_of_stmt(refs: &mut List<Ref>, s: &Stmt) -> Result<(), AllocError>
    ensures { OnOk result (refs.new ≡ refs.old ++ literals s.now) }
{
    match s {
        Stmt::Let(_, rhs) => add_of_rhs(refs, rhs),
        Stmt::Set(_, rhs) => add_of_rhs(refs, rhs),
        Stmt::Do(rhs) => add_of_rhs(refs, rhs),
        Stmt::If(test, first, second) => {
            add_of_expr(refs, test)?;
            add_of_body(refs, first.as_slice())?;
            add_of_body(refs, second.as_slice())
        }
        Stmt::Return(e) => add_of_optional(refs, e),
        Stmt::Delete(e) => add_of_expr(refs, e),
        Stmt::DropVersion(e) => add_of_expr(refs, e),
        Stmt::Deactivate(e, f) => add_of_two(refs, e, f),
        Stmt::Show(rhs) => add_of_rhs(refs, rhs),
        Stmt::Say(e) => add_of_expr(refs, e),
        Stmt::TAbort => Ok(()),
    }
}

#[cycle(literals)]
fn add_of_body(refs: &mut List<Ref>, body: &[Stmt]) -> Result<(), AllocError>
    ensures { OnOk result (refs.new ≡ refs.old ++ flat_map literals body.now) }
{
    for s in body {
        add_of_stmt(refs, s)?;
    }
    Ok(())
}
