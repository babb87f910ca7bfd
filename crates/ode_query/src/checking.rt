//! The static rules of a query, and its literals.
ghost use Rattle.std.specs.Prelude.{◌≡◌, IfOk};
ghost use Rattle.ode_query.specs.Checking.{check_query, query_refs, where_there};
ghost use Rattle.ode_types.specs.Answers.{Answers};
ghost use Rattle.ode_types.specs.Checks.{each};
ghost use Rattle.ode_types.specs.Variables.{shown_checked, test_checked};

use ode_asksyn::Query;
use ode_checker::{check_shown, check_test, check_variables, query_literals as literals_of};
use ode_types::{CheckStop, Classes};
use ode_value::{Expr, List, Param, Ref};
use std::alloc::{AllocError, Global};

#[tactic(auto, using(ode_types::proofs::TypingLaws::stops_through))]
fn check_tested(
    alloc: Global,
    known: &Classes,
    literals: &List<(Ref, u32)>,
    variables: &List<Param>,
    test: &Option<Expr>,
) -> Result<Option<Expr>, CheckStop>
    ensures { Answers (where_there (test_checked known.now literals.now variables.now) test.now) result }
{
    match test {
        None => Ok(None),
        Some(e) => {
            let e = check_test(alloc, known, literals, variables, e)?;
            Ok(Some(e))
        }
    }
}

fn check_all(
    alloc: Global,
    known: &Classes,
    literals: &List<(Ref, u32)>,
    variables: &List<Param>,
    es: &[Expr],
) -> Result<List<Expr>, CheckStop>
    ensures { Answers (each (shown_checked known.now literals.now variables.now) es.now) result }
{
    let mut checked = List::new(alloc);
    for e in es {
        let next = check_shown(alloc, known, literals, variables, e)?;
        checked.push(next)?;
    }
    Ok(checked)
}

/// The query with slots in place of its names, by the classes that are there and the numbers of its literals' classes; or the first static
/// rule that it breaks, in the order of the text.
#[tactic(auto, using(ode_types::proofs::TypingLaws::stops_through), unfolding(crate::specs::Checking::check_query))]
pub fn check_query(
    alloc: Global,
    known: &Classes,
    sorts: &List<(Ref, u32)>,
    q: &Query,
) -> Result<Query, CheckStop>
    ensures { Answers (check_query known.now sorts.now q.now) result }
{
    let variables = check_variables(alloc, known, &q.over)?;
    let test = check_tested(alloc, known, sorts, &variables, &q.test)?;
    let by = check_all(alloc, known, sorts, &variables, q.by.as_slice())?;
    let show = check_all(alloc, known, sorts, &variables, q.show.as_slice())?;
    let over = q.over.copy(alloc)?;
    Ok(Query {
        over,
        test,
        by,
        show,
    })
}

/// The reference literals of a query, in the order of the text. Null isn't one.
pub fn query_literals(alloc: Global, q: &Query) -> Result<List<Ref>, AllocError>
    ensures { IfOk result (λ refs. refs ≡ query_refs q.now) }
{
    literals_of(alloc, &q.test, &q.by, &q.show)
}
