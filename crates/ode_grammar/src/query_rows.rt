//! The rows of queries.
ghost use Rattle.std.specs.Prelude.{◌≡◌, Some, None, IfSome, IfNone};
ghost use Rattle.ode_grammar.specs.Queries.{by_after, more_exprs_after, more_ranges, query, such_that_after};

use crate::item::Item::{self, Build, Part as A, Token};
use crate::item::{Action, Part};
use crate::terminal::Terminal::{self, By, Comma, For, In, Name, Semi, Show, SuchThat};

/// A query.
pub fn query() -> &'static [Item]
    ensures { result.now ≡ query }
{
    &[
        Token(For),
        Build(Action::DropWord),
        Build(Action::Params),
        Token(Name),
        Token(In),
        Build(Action::DropWord),
        Token(Name),
        Build(Action::RefSort),
        Build(Action::Param),
        A(Part::SecondRange),
        Build(Action::Arguments),
        A(Part::SuchThat),
        Build(Action::Arguments),
        A(Part::By),
        Token(Show),
        Build(Action::Arguments),
        A(Part::Expr),
        Build(Action::Argument),
        A(Part::MoreExprs),
        Token(Semi),
    ]
}

/// What follows a variable and its class: the row of one more, or nothing.
pub fn more_ranges(row: &'static [Item], terminal: Terminal) -> Option<&'static [Item]>
    ensures some { IfSome result (λ items. more_ranges row.now terminal ≡ Some items.now) }
    ensures none { IfNone result (more_ranges row.now terminal ≡ None) }
{
    match terminal {
        Comma => Some(row),
        _ => None,
    }
}

/// `suchthat` and an expression, or nothing.
pub fn such_that_after(terminal: Terminal) -> Option<&'static [Item]>
    ensures some { IfSome result (λ items. such_that_after terminal ≡ Some items.now) }
    ensures none { IfNone result (such_that_after terminal ≡ None) }
{
    match terminal {
        SuchThat => Some(&[
            Build(Action::DropWord),
            A(Part::Expr),
            Build(Action::Argument),
        ]),
        _ => None,
    }
}

/// `by` and expressions, or nothing.
pub fn by_after(terminal: Terminal) -> Option<&'static [Item]>
    ensures some { IfSome result (λ items. by_after terminal ≡ Some items.now) }
    ensures none { IfNone result (by_after terminal ≡ None) }
{
    match terminal {
        By => Some(&[
            Build(Action::DropWord),
            A(Part::Expr),
            Build(Action::Argument),
            A(Part::MoreExprs),
        ]),
        _ => None,
    }
}

/// `,` and an expression, any number of times.
pub fn more_exprs_after(terminal: Terminal) -> Option<&'static [Item]>
    ensures some { IfSome result (λ items. more_exprs_after terminal ≡ Some items.now) }
    ensures none { IfNone result (more_exprs_after terminal ≡ None) }
{
    match terminal {
        Comma => Some(&[A(Part::Expr), Build(Action::Argument), A(Part::MoreExprs)]),
        _ => None,
    }
}
