//! Queries over the objects of classes.
ghost use Rattle.std.specs.Prelude.{◌≡◌, map, slice_get, IfOk};
ghost use Rattle.ode_asksyn.specs.Parsing.{class_in, query_with, range_of};

use ode_syntax::QueryParts;
use ode_value::{Expr, List, Name, Param, Sort};
use std::alloc::{AllocError, Global};

/// A query over the objects of classes.
#[derive(Drop)]
pub struct Query {
    /// The variables, each with its class.
    pub over: List<(Name, Name)>,
    /// What must be true of a combination of objects.
    pub test: Option<Expr>,
    /// What the rows are sorted by.
    pub by: List<Expr>,
    /// What they show.
    pub show: List<Expr>,
}

// The class that a variable refers to.
fn class_in(alloc: Global, name: &Name, sort: &Sort) -> Result<Name, AllocError>
    ensures { IfOk result (λ class. class ≡ class_in name.now sort.now) }
{
    match sort {
        Sort::Reference(class) => class.copy(alloc),
        _ => name.copy(alloc),
    }
}

fn ranges_of(alloc: Global, over: &[Param]) -> Result<List<(Name, Name)>, AllocError>
    ensures { IfOk result (λ ranges. ranges ≡ map range_of over.now) }
{
    let mut ranges = List::new(alloc);
    for param in over {
        let name = param.name.copy(alloc)?;
        let class = class_in(alloc, &param.name, &param.sort)?;
        ranges.push((name, class))?;
    }
    Ok(ranges)
}

// The first of some tests, where there is one.
fn first_of(tests: List<Expr>) -> Option<Expr>
    ensures { result ≡ slice_get tests 0 }
{
    let mut tests = tests;
    if tests.is_empty() {
        None
    } else {
        Some(tests.remove(0))
    }
}

/// The query with these parts.
pub fn query_with(alloc: Global, parts: QueryParts) -> Result<Query, AllocError>
    ensures { IfOk result (λ q. q ≡ query_with parts) }
{
    let QueryParts {
        over,
        test,
        by,
        show,
    } = parts;
    Ok(Query {
        over: ranges_of(alloc, over.as_slice())?,
        test: first_of(test),
        by,
        show,
    })
}
