//! The constraints of a class, in the order in which they are tested.
ghost use Rattle.std.specs.Prelude.{◌≡◌, cond, not};
ghost use Rattle.std.specs.List.{filter, flat_map};
ghost use Rattle.std.specs.Option.{option_copied};
ghost use Rattle.ode_value.specs.declared.class.Class.{Class as Declared};
ghost use Rattle.ode_value.specs.declared.member.Constraint.{Constraint as Rule};
ghost use Rattle.ode_schema.specs.Cursors.{headed};

use crate::line::Family;
use ode_value::Constraint;
use std::marker::Model;

// All of them. Contracts see those that are still to come.
#[derive(Drop)]
struct Every<'a> {
    family: Family<'a>,
    // what is left of the class before
    own: &'a [Constraint],
}

impl<'a> Model for Every<'a> {
    ghost use Rattle.std.specs.Prelude.{◌++◌, List as Items};
    ghost use Rattle.std.specs.List.{flat_map};
    ghost use Rattle.ode_value.specs.declared.class.Class.{Class as Declared};
    ghost use Rattle.ode_value.specs.declared.member.Constraint.{Constraint as Rule};
    ghost use Rattle.ode_value.specs.contracts.statement.Expr as expr;
    ghost use Rattle.std.specs.Coded.{codes};

    ghost Value = { Items Rule };

    ghost coded = { Prim.hlevel (codes, expr.the_row.coded) };

    ghost view = { λ e. e.own.now ++ flat_map (λ (c : Declared). c.constraints) e.family };
}

/// The soft constraints of a class and its ancestors, or the hard ones, ancestors' first. Contracts see those that are still to come.
#[derive(Drop)]
pub struct Constraints<'a> {
    every: Every<'a>,
    soft: bool,
}

impl<'a> Model for Constraints<'a> {
    ghost use Rattle.std.specs.Prelude.{List as Items, cond, not};
    ghost use Rattle.std.specs.List.{filter};
    ghost use Rattle.ode_value.specs.declared.member.Constraint.{Constraint as Rule};
    ghost use Rattle.ode_value.specs.contracts.statement.Expr as expr;
    ghost use Rattle.std.specs.Coded.{codes};

    ghost Value = { Items Rule };

    ghost coded = { Prim.hlevel (codes, expr.the_row.coded) };

    ghost view = { λ cs. filter (λ (c : Rule). cond c.soft cs.soft (not cs.soft)) cs.every };
}

impl<'a> Every<'a> {
    fn new(family: Family<'a>) -> Every<'a>
        ensures { result ≡ flat_map (λ (c : Declared). c.constraints) family.entry }
    {
        Every { family, own: &[] }
    }

    fn next(&mut self) -> Option<&'a Constraint>
        ensures { self.old ≡ headed (option_copied result) self.new }
    {
        'empty: while self.own.is_empty() {
            let class = self.family.next()?;
            self.own = class.constraints.as_slice();
        }
        match self.own {
            [first, rest @ ..] => {
                self.own = rest;
                Some(first)
            }
            [] => None,
        }
    }
}

impl<'a> Constraints<'a> {
    /// Those of a class with its ancestors.
    pub(crate) fn new(family: Family<'a>, soft: bool) -> Constraints<'a>
        ensures { result ≡ filter (λ (c : Rule). cond c.soft soft (not soft)) (flat_map (λ (c : Declared). c.constraints) family.entry) }
    {
        let every = Every::new(family);
        Constraints { every, soft }
    }

    /// The next constraint.
    pub fn next(&mut self) -> Option<&'a Constraint>
        ensures { self.old ≡ headed (option_copied result) self.new }
    {
        while let Some(constraint) = self.every.next() {
            if constraint.soft == self.soft {
                return Some(constraint);
            }
        }
        None
    }
}
