//! Queries and comparisons: what is asked of a store.
ghost use Rattle.std.specs.Prelude.{◌≡◌, IfOk};
ghost use Rattle.ode_syntax.specs.Built.{comparison_tree, query_parts};

use crate::top::{take_event, take_list, take_name};
use crate::trees::Trees;
use ode_value::{EventExpr, Expr, List, Name, Param};
use std::alloc::{AllocError, Global};

/// The parts of a query.
#[derive(Drop)]
pub struct QueryParts {
    /// Its variables, whose sorts are references.
    pub over: List<Param>,
    /// Its test, where there is one.
    pub test: List<Expr>,
    /// What its rows are sorted by.
    pub by: List<Expr>,
    /// What they show.
    pub show: List<Expr>,
}

/// Two event expressions of a class to compare, as those of triggers with these parameters.
#[derive(Drop)]
pub struct Comparison {
    pub class: Name,
    pub params: List<Param>,
    pub first: EventExpr,
    pub second: EventExpr,
}

impl Trees {
    /// The parts of the query on top.
    pub fn into_query(self, alloc: Global) -> QueryParts
        ensures { result ≡ query_parts self }
    {
        let mut made = self;
        let over = take_list(alloc, &mut made.params);
        let show = take_list(alloc, &mut made.args);
        let by = take_list(alloc, &mut made.args);
        let test = take_list(alloc, &mut made.args);
        made.let_go();
        QueryParts {
            over,
            test,
            by,
            show,
        }
    }

    /// The comparison on top.
    pub fn into_comparison(self, alloc: Global) -> Result<Comparison, AllocError>
        ensures { IfOk result (λ comparison. comparison ≡ comparison_tree self) }
    {
        let mut made = self;
        let class = take_name(alloc, &mut made.names);
        let params = take_list(alloc, &mut made.params);
        let second = take_event(&mut made.events);
        let first = take_event(&mut made.events);
        made.let_go();
        Ok(Comparison {
            class: class?,
            params,
            first,
            second,
        })
    }
}
