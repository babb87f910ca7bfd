//! What passes over objects, versions, activations and entries go by.

use crate::numbers::{Heads, Numbers, Owners};
use crate::states::States;
use ode_codec::Counters;
use ode_passes::Cause;
use ode_types::Classes;
use std::marker::Model;

/// What is known of a database: its next numbers, its classes, which numbers activations have, which states of their tables words lead to,
/// and its objects.
#[derive(Drop)]
pub(crate) struct Scene<'a> {
    pub(crate) counters: Counters,
    pub(crate) classes: &'a Classes,
    pub(crate) numbers: Numbers,
    pub(crate) states: States,
    pub(crate) heads: Heads,
}

impl<'a> Model for Scene<'a> {
    ghost use Rattle.ode_opening_objects.specs.Known.{Known};
    ghost use Rattle.ode_value.specs.contracts.class.Class as class;
    ghost use Rattle.ode_value.specs.contracts.statement.Expr as expr;
    ghost use Rattle.std.specs.Coded.{codes};

    ghost Value = { Known };

    ghost coded = { Prim.hlevel (codes, class.the_row.coded, expr.the_row.coded) };

    ghost view = { λ s. record { counters = s.counters; classes = s.classes.now; numbers = s.numbers; states = s.states; heads = s.heads } };
}

/// What is known of a database with its objects so far, and which objects have versions.
#[derive(Drop)]
pub(crate) struct Roll<'a> {
    pub(crate) scene: Scene<'a>,
    pub(crate) owners: Owners,
}

/// What is known of a database, and the first reference so far that doesn't fit.
#[derive(Drop)]
pub(crate) struct Course<'a> {
    pub(crate) scene: Scene<'a>,
    pub(crate) references: Result<(), Cause>,
}

/// What a pass asks of each record.
#[derive(Clone, Copy, Debug, PartialEq, Eq)]
pub(crate) enum Rule {
    /// That it is a version which fits its object.
    Versions,
    /// That it is an activation which fits its object and its trigger, and whose state some word leads to.
    Activations,
}

/// A pass over records by one rule, and over the references in them.
#[derive(Drop)]
pub(crate) struct Check<'a> {
    pub(crate) rule: Rule,
    pub(crate) course: Course<'a>,
}

/// A pass over the queue's entries, of which so many more may be there, and over the references in them.
#[derive(Drop)]
pub(crate) struct Queue<'a> {
    pub(crate) course: Course<'a>,
    pub(crate) left: u32,
}
