//! The rows of expressions.
ghost use Rattle.std.specs.Prelude.{◌≡◌, Some, None, IfSome, IfNone};
ghost use Rattle.ode_grammar.specs.Expressions.{expr_after, unary_after, dots_after, factors_after, sums_after, compare_after, ands_after, ors_after, args_after, more_args_after};

use crate::item::Item::{self, Build, Part as A, Token};
use crate::item::{Action, Part};
use crate::terminal::Terminal::{
    self, AndAnd, CloseParen, Comma, Compares, Count, Dot, Instant, Leaf, Minus, Name, Not, Number,
    OpenParen, OrOr, Plus, Seconds, Text, Times, Version,
};

/// An expression.
pub fn expr_after(terminal: Terminal) -> Option<&'static [Item]>
    ensures some { IfSome result (λ items. expr_after terminal ≡ Some items.now) }
    ensures none { IfNone result (expr_after terminal ≡ None) }
{
    match terminal {
        Minus | Not => Some(&[
            A(Part::Unary),
            Build(Action::Sign),
            A(Part::Factors),
            A(Part::Sums),
            A(Part::Compare),
            A(Part::Ands),
            A(Part::Ors),
        ]),
        Name => Some(&[
            Build(Action::Variable),
            A(Part::Dots),
            A(Part::Factors),
            A(Part::Sums),
            A(Part::Compare),
            A(Part::Ands),
            A(Part::Ors),
        ]),
        Leaf | Number | Seconds | Count | Text | Instant => Some(&[
            Build(Action::Leaf),
            A(Part::Dots),
            A(Part::Factors),
            A(Part::Sums),
            A(Part::Compare),
            A(Part::Ands),
            A(Part::Ors),
        ]),
        OpenParen => Some(&[
            A(Part::Expr),
            Token(CloseParen),
            Build(Action::Pair),
            A(Part::Dots),
            A(Part::Factors),
            A(Part::Sums),
            A(Part::Compare),
            A(Part::Ands),
            A(Part::Ors),
        ]),
        Version => Some(&[
            Token(OpenParen),
            A(Part::Expr),
            Token(CloseParen),
            Build(Action::Version),
            A(Part::Dots),
            A(Part::Factors),
            A(Part::Sums),
            A(Part::Compare),
            A(Part::Ands),
            A(Part::Ors),
        ]),
        _ => None,
    }
}

/// An operand with its signs and fields.
pub fn unary_after(terminal: Terminal) -> Option<&'static [Item]>
    ensures some { IfSome result (λ items. unary_after terminal ≡ Some items.now) }
    ensures none { IfNone result (unary_after terminal ≡ None) }
{
    match terminal {
        Minus | Not => Some(&[A(Part::Unary), Build(Action::Sign)]),
        Name => Some(&[Build(Action::Variable), A(Part::Dots)]),
        Leaf | Number | Seconds | Count | Text | Instant => Some(&[
            Build(Action::Leaf),
            A(Part::Dots),
        ]),
        OpenParen => Some(&[
            A(Part::Expr),
            Token(CloseParen),
            Build(Action::Pair),
            A(Part::Dots),
        ]),
        Version => Some(&[
            Token(OpenParen),
            A(Part::Expr),
            Token(CloseParen),
            Build(Action::Version),
            A(Part::Dots),
        ]),
        _ => None,
    }
}

/// `.` and a name, any number of times.
pub fn dots_after(terminal: Terminal) -> Option<&'static [Item]>
    ensures some { IfSome result (λ items. dots_after terminal ≡ Some items.now) }
    ensures none { IfNone result (dots_after terminal ≡ None) }
{
    match terminal {
        Dot => Some(&[Token(Name), Build(Action::Field), A(Part::Dots)]),
        _ => None,
    }
}

/// `*`, `/` or `%` and an operand, any number of times.
pub fn factors_after(terminal: Terminal) -> Option<&'static [Item]>
    ensures some { IfSome result (λ items. factors_after terminal ≡ Some items.now) }
    ensures none { IfNone result (factors_after terminal ≡ None) }
{
    match terminal {
        Times => Some(&[A(Part::Unary), Build(Action::Binary), A(Part::Factors)]),
        _ => None,
    }
}

/// `+` or `-` and a product, any number of times.
pub fn sums_after(terminal: Terminal) -> Option<&'static [Item]>
    ensures some { IfSome result (λ items. sums_after terminal ≡ Some items.now) }
    ensures none { IfNone result (sums_after terminal ≡ None) }
{
    match terminal {
        Plus | Minus => Some(&[
            A(Part::Unary),
            A(Part::Factors),
            Build(Action::Binary),
            A(Part::Sums),
        ]),
        _ => None,
    }
}

/// A comparison's mark and a sum, or nothing.
pub fn compare_after(terminal: Terminal) -> Option<&'static [Item]>
    ensures some { IfSome result (λ items. compare_after terminal ≡ Some items.now) }
    ensures none { IfNone result (compare_after terminal ≡ None) }
{
    match terminal {
        Compares => Some(&[
            A(Part::Unary),
            A(Part::Factors),
            A(Part::Sums),
            Build(Action::Binary),
        ]),
        _ => None,
    }
}

/// `&&` and a comparison, any number of times.
pub fn ands_after(terminal: Terminal) -> Option<&'static [Item]>
    ensures some { IfSome result (λ items. ands_after terminal ≡ Some items.now) }
    ensures none { IfNone result (ands_after terminal ≡ None) }
{
    match terminal {
        AndAnd => Some(&[
            A(Part::Unary),
            A(Part::Factors),
            A(Part::Sums),
            A(Part::Compare),
            Build(Action::Binary),
            A(Part::Ands),
        ]),
        _ => None,
    }
}

/// `||` and a conjunction, any number of times.
pub fn ors_after(terminal: Terminal) -> Option<&'static [Item]>
    ensures some { IfSome result (λ items. ors_after terminal ≡ Some items.now) }
    ensures none { IfNone result (ors_after terminal ≡ None) }
{
    match terminal {
        OrOr => Some(&[
            A(Part::Unary),
            A(Part::Factors),
            A(Part::Sums),
            A(Part::Compare),
            A(Part::Ands),
            Build(Action::Binary),
            A(Part::Ors),
        ]),
        _ => None,
    }
}

/// Arguments, behind their bracket.
pub fn args_after(terminal: Terminal) -> Option<&'static [Item]>
    ensures some { IfSome result (λ items. args_after terminal ≡ Some items.now) }
    ensures none { IfNone result (args_after terminal ≡ None) }
{
    match terminal {
        CloseParen => Some(&[]),
        Minus | Not => Some(&[
            A(Part::Unary),
            Build(Action::Sign),
            A(Part::Factors),
            A(Part::Sums),
            A(Part::Compare),
            A(Part::Ands),
            A(Part::Ors),
            Build(Action::Argument),
            A(Part::MoreArgs),
        ]),
        Name => Some(&[
            Build(Action::Variable),
            A(Part::Dots),
            A(Part::Factors),
            A(Part::Sums),
            A(Part::Compare),
            A(Part::Ands),
            A(Part::Ors),
            Build(Action::Argument),
            A(Part::MoreArgs),
        ]),
        Leaf | Number | Seconds | Count | Text | Instant => Some(&[
            Build(Action::Leaf),
            A(Part::Dots),
            A(Part::Factors),
            A(Part::Sums),
            A(Part::Compare),
            A(Part::Ands),
            A(Part::Ors),
            Build(Action::Argument),
            A(Part::MoreArgs),
        ]),
        OpenParen => Some(&[
            A(Part::Expr),
            Token(CloseParen),
            Build(Action::Pair),
            A(Part::Dots),
            A(Part::Factors),
            A(Part::Sums),
            A(Part::Compare),
            A(Part::Ands),
            A(Part::Ors),
            Build(Action::Argument),
            A(Part::MoreArgs),
        ]),
        Version => Some(&[
            Token(OpenParen),
            A(Part::Expr),
            Token(CloseParen),
            Build(Action::Version),
            A(Part::Dots),
            A(Part::Factors),
            A(Part::Sums),
            A(Part::Compare),
            A(Part::Ands),
            A(Part::Ors),
            Build(Action::Argument),
            A(Part::MoreArgs),
        ]),
        _ => None,
    }
}

/// What follows an argument.
pub fn more_args_after(terminal: Terminal) -> Option<&'static [Item]>
    ensures some { IfSome result (λ items. more_args_after terminal ≡ Some items.now) }
    ensures none { IfNone result (more_args_after terminal ≡ None) }
{
    match terminal {
        Comma => Some(&[A(Part::Expr), Build(Action::Argument), A(Part::MoreArgs)]),
        CloseParen => Some(&[]),
        _ => None,
    }
}
