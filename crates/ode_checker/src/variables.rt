//! The static rules of a query: its variables, and expressions over them.
ghost use Rattle.std.specs.Prelude.{◌≡◌, IfOk};
ghost use Rattle.ode_types.specs.Answers.{Answers, Leaves};
ghost use Rattle.ode_types.specs.Checks.{through};
ghost use Rattle.ode_types.specs.Variables.{shown_checked, test_checked, variable, variables_of, with_variable};

use crate::declaring::has_name;
use crate::names::word;
use ode_types::stop::{duplicate, opened, unknown};
use ode_types::{CheckStop, Classes};
use ode_typing::{Locals, Place, check_expr, expr_of, fitting};
use ode_value::{Expr, List, Name, Param, Ref, Sort};
use std::alloc::{AllocError, Global};

// A variable, with the name of its class, is a reference to an object of this class.
fn variable(alloc: Global, range: &(Name, Name)) -> Result<Param, AllocError>
    ensures { IfOk result (λ p. p ≡ variable range.now) }
{
    let name = range.0.copy(alloc)?;
    let class = range.1.copy(alloc)?;
    Ok(Param {
        name,
        sort: Sort::Reference(class),
    })
}

// One more variable, whose name is new, and whose class is declared.
#[tactic(auto, unfolding(ode_types::specs::Variables::with_variable))]
fn add_variable(
    alloc: Global,
    known: &Classes,
    variables: &mut List<Param>,
    range: &(Name, Name),
) -> Result<(), CheckStop>
    ensures { Leaves (with_variable known.now variables.old range.now) variables.new result }
{
    if has_name(variables.as_slice(), &range.0) {
        return duplicate(alloc, &range.0);
    }
    if known.named(&range.1).is_none() {
        return unknown(alloc, &range.1);
    }
    variables.push(variable(alloc, range)?)?;
    Ok(())
}

fn add_variables(
    alloc: Global,
    known: &Classes,
    variables: &mut List<Param>,
    over: &[(Name, Name)],
) -> Result<(), CheckStop>
    ensures { Leaves (through (with_variable known.now) variables.old over.now) variables.new result }
{
    for range in over {
        add_variable(alloc, known, variables, range)?;
    }
    Ok(())
}

/// The variables of a query, each with the name of its class, as references to objects of these classes; or the first rule that they
/// break.
#[tactic(auto, using(ode_types::proofs::TypingLaws::stops_left))]
pub fn check_variables(
    alloc: Global,
    known: &Classes,
    over: &List<(Name, Name)>,
) -> Result<List<Param>, CheckStop>
    ensures { Answers (variables_of known.now over.now) result }
{
    let mut variables = List::new(alloc);
    add_variables(alloc, known, &mut variables, over.as_slice())?;
    Ok(variables)
}

/// A query's test with slots for its variables, or the first rule that it breaks.
#[tactic(auto, using(crate::proofs::VariableLaws::scope_is), unfolding(ode_types::specs::Variables::test_checked))]
pub fn check_test(
    alloc: Global,
    known: &Classes,
    literals: &List<(Ref, u32)>,
    variables: &List<Param>,
    e: &Expr,
) -> Result<Expr, CheckStop>
    ensures { Answers (test_checked known.now literals.now variables.now e.now) result }
{
    let member = word(alloc, b"query")?;
    let void = Sort::Void;
    let place = Place::among(known, None, &member, &void, literals.as_slice());
    let locals = Locals::of(alloc, variables.as_slice())?;
    opened(fitting(alloc, &Sort::Bool, e, &place, &locals))
}

/// An expression by which rows are sorted, or which they show, with slots for its variables; or the first rule that it breaks.
#[tactic(auto, using(crate::proofs::VariableLaws::scope_is, ode_types::proofs::TypingLaws::stops_through), unfolding(ode_types::specs::Variables::shown_checked))]
pub fn check_shown(
    alloc: Global,
    known: &Classes,
    literals: &List<(Ref, u32)>,
    variables: &List<Param>,
    e: &Expr,
) -> Result<Expr, CheckStop>
    ensures { Answers (shown_checked known.now literals.now variables.now e.now) result }
{
    let member = word(alloc, b"query")?;
    let void = Sort::Void;
    let place = Place::among(known, None, &member, &void, literals.as_slice());
    let locals = Locals::of(alloc, variables.as_slice())?;
    let checked = check_expr(alloc, e, &place, &locals)?;
    Ok(expr_of(checked).into_inner())
}
