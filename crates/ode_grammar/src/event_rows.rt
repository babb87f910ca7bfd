//! The rows of event expressions.
ghost use Rattle.std.specs.Prelude.{◌≡◌, Some, None, IfSome, IfNone};
ghost use Rattle.ode_grammar.specs.Events.{event_unary_after, event_ands_after, event_ors_after, more_relative_after, more_prior_after, more_sequence_after, mask_after, event_mask_after, kind_after, after_what_after, before_what_after, time_what_after, period_after};

use crate::item::Item::{self, Build, Part as A, Token};
use crate::item::{Action, Part};
use crate::terminal::Terminal::{
    self, After, And, AndAnd, Any, At, Before, Choose, CloseParen, Comma, Count, Create, Delete,
    DropVersion, Every, Fa, FaAbs, First, Instant, Name, NewVersion, Not, OpenParen, Or, Pipe,
    Prior, RelPlus, Relative, Seconds, Sequence, TAbort, TBegin, TCommit, TComplete, Time,
};

/// An event expression without `and` and `or`.
pub fn event_unary_after(terminal: Terminal) -> Option<&'static [Item]>
    ensures some { IfSome result (λ items. event_unary_after terminal ≡ Some items.now) }
    ensures none { IfNone result (event_unary_after terminal ≡ None) }
{
    match terminal {
        Not => Some(&[A(Part::EventUnary), Build(Action::NotEvent)]),
        OpenParen => Some(&[
            A(Part::EventUnary),
            A(Part::EventAnds),
            A(Part::EventOrs),
            Token(CloseParen),
            Build(Action::EventPair),
            A(Part::EventMask),
        ]),
        Any => Some(&[Build(Action::Any)]),
        First => Some(&[Build(Action::First)]),
        After => Some(&[A(Part::AfterWhat), A(Part::Mask)]),
        Before => Some(&[A(Part::BeforeWhat), A(Part::Mask)]),
        Time => Some(&[A(Part::TimeWhat), A(Part::Mask)]),
        Relative => Some(&[
            Token(OpenParen),
            A(Part::EventUnary),
            A(Part::EventAnds),
            A(Part::EventOrs),
            Token(Comma),
            A(Part::EventUnary),
            A(Part::EventAnds),
            A(Part::EventOrs),
            Build(Action::Relative),
            A(Part::MoreRelative),
        ]),
        Prior => Some(&[
            Token(OpenParen),
            A(Part::EventUnary),
            A(Part::EventAnds),
            A(Part::EventOrs),
            Token(Comma),
            A(Part::EventUnary),
            A(Part::EventAnds),
            A(Part::EventOrs),
            Build(Action::Prior),
            A(Part::MorePrior),
        ]),
        Sequence => Some(&[
            Token(OpenParen),
            A(Part::EventUnary),
            A(Part::EventAnds),
            A(Part::EventOrs),
            Token(Comma),
            A(Part::EventUnary),
            A(Part::EventAnds),
            A(Part::EventOrs),
            Build(Action::Sequence),
            A(Part::MoreSequence),
        ]),
        Choose => Some(&[
            Token(Count),
            Token(OpenParen),
            A(Part::EventUnary),
            A(Part::EventAnds),
            A(Part::EventOrs),
            Token(CloseParen),
            Build(Action::Choose),
        ]),
        Every => Some(&[
            Token(Count),
            Token(OpenParen),
            A(Part::EventUnary),
            A(Part::EventAnds),
            A(Part::EventOrs),
            Token(CloseParen),
            Build(Action::Every),
        ]),
        Fa => Some(&[
            Token(OpenParen),
            A(Part::EventUnary),
            A(Part::EventAnds),
            A(Part::EventOrs),
            Token(Comma),
            A(Part::EventUnary),
            A(Part::EventAnds),
            A(Part::EventOrs),
            Token(Comma),
            A(Part::EventUnary),
            A(Part::EventAnds),
            A(Part::EventOrs),
            Token(CloseParen),
            Build(Action::Fa),
        ]),
        FaAbs => Some(&[
            Token(OpenParen),
            A(Part::EventUnary),
            A(Part::EventAnds),
            A(Part::EventOrs),
            Token(Comma),
            A(Part::EventUnary),
            A(Part::EventAnds),
            A(Part::EventOrs),
            Token(Comma),
            A(Part::EventUnary),
            A(Part::EventAnds),
            A(Part::EventOrs),
            Token(CloseParen),
            Build(Action::FaAbs),
        ]),
        RelPlus => Some(&[
            Token(OpenParen),
            A(Part::EventUnary),
            A(Part::EventAnds),
            A(Part::EventOrs),
            Token(CloseParen),
            Build(Action::RelPlus),
        ]),
        Pipe => Some(&[
            Token(OpenParen),
            A(Part::EventUnary),
            A(Part::EventAnds),
            A(Part::EventOrs),
            Token(Comma),
            A(Part::EventUnary),
            A(Part::EventAnds),
            A(Part::EventOrs),
            Token(CloseParen),
            Build(Action::Pipe),
        ]),
        _ => None,
    }
}

/// `and` and such an expression, any number of times.
pub fn event_ands_after(terminal: Terminal) -> Option<&'static [Item]>
    ensures some { IfSome result (λ items. event_ands_after terminal ≡ Some items.now) }
    ensures none { IfNone result (event_ands_after terminal ≡ None) }
{
    match terminal {
        And => Some(&[
            A(Part::EventUnary),
            Build(Action::AndEvents),
            A(Part::EventAnds),
        ]),
        _ => None,
    }
}

/// `or` and expressions with `and`, any number of times.
pub fn event_ors_after(terminal: Terminal) -> Option<&'static [Item]>
    ensures some { IfSome result (λ items. event_ors_after terminal ≡ Some items.now) }
    ensures none { IfNone result (event_ors_after terminal ≡ None) }
{
    match terminal {
        Or => Some(&[
            A(Part::EventUnary),
            A(Part::EventAnds),
            Build(Action::OrEvents),
            A(Part::EventOrs),
        ]),
        _ => None,
    }
}

/// What follows two or more parts of `relative`. Likewise for the next.
pub fn more_relative_after(terminal: Terminal) -> Option<&'static [Item]>
    ensures some { IfSome result (λ items. more_relative_after terminal ≡ Some items.now) }
    ensures none { IfNone result (more_relative_after terminal ≡ None) }
{
    match terminal {
        Comma => Some(&[
            A(Part::EventUnary),
            A(Part::EventAnds),
            A(Part::EventOrs),
            Build(Action::Relative),
            A(Part::MoreRelative),
        ]),
        CloseParen => Some(&[]),
        _ => None,
    }
}

/// The same for `prior`.
pub fn more_prior_after(terminal: Terminal) -> Option<&'static [Item]>
    ensures some { IfSome result (λ items. more_prior_after terminal ≡ Some items.now) }
    ensures none { IfNone result (more_prior_after terminal ≡ None) }
{
    match terminal {
        Comma => Some(&[
            A(Part::EventUnary),
            A(Part::EventAnds),
            A(Part::EventOrs),
            Build(Action::Prior),
            A(Part::MorePrior),
        ]),
        CloseParen => Some(&[]),
        _ => None,
    }
}

/// The same for `sequence`.
pub fn more_sequence_after(terminal: Terminal) -> Option<&'static [Item]>
    ensures some { IfSome result (λ items. more_sequence_after terminal ≡ Some items.now) }
    ensures none { IfNone result (more_sequence_after terminal ≡ None) }
{
    match terminal {
        Comma => Some(&[
            A(Part::EventUnary),
            A(Part::EventAnds),
            A(Part::EventOrs),
            Build(Action::Sequence),
            A(Part::MoreSequence),
        ]),
        CloseParen => Some(&[]),
        _ => None,
    }
}

/// `&&` and a mask, or nothing.
pub fn mask_after(terminal: Terminal) -> Option<&'static [Item]>
    ensures some { IfSome result (λ items. mask_after terminal ≡ Some items.now) }
    ensures none { IfNone result (mask_after terminal ≡ None) }
{
    match terminal {
        AndAnd => Some(&[A(Part::Expr), Build(Action::Masked)]),
        _ => None,
    }
}

/// The same behind brackets round an event expression.
pub fn event_mask_after(terminal: Terminal) -> Option<&'static [Item]>
    ensures some { IfSome result (λ items. event_mask_after terminal ≡ Some items.now) }
    ensures none { IfNone result (event_mask_after terminal ≡ None) }
{
    match terminal {
        AndAnd => Some(&[A(Part::Expr), Build(Action::MaskedEvent)]),
        _ => None,
    }
}

/// A kind of point.
pub fn kind_after(terminal: Terminal) -> Option<&'static [Item]>
    ensures some { IfSome result (λ items. kind_after terminal ≡ Some items.now) }
    ensures none { IfNone result (kind_after terminal ≡ None) }
{
    match terminal {
        After => Some(&[A(Part::AfterWhat)]),
        Before => Some(&[A(Part::BeforeWhat)]),
        Time => Some(&[A(Part::TimeWhat)]),
        _ => None,
    }
}

/// What follows `after`.
pub fn after_what_after(terminal: Terminal) -> Option<&'static [Item]>
    ensures some { IfSome result (λ items. after_what_after terminal ≡ Some items.now) }
    ensures none { IfNone result (after_what_after terminal ≡ None) }
{
    match terminal {
        Create => Some(&[Build(Action::AfterCreate)]),
        Name => Some(&[Build(Action::AfterMethod)]),
        TBegin => Some(&[Build(Action::AfterTBegin)]),
        TCommit => Some(&[Build(Action::AfterTCommit)]),
        TAbort => Some(&[Build(Action::AfterTAbort)]),
        NewVersion => Some(&[Build(Action::AfterNewVersion)]),
        _ => None,
    }
}

/// What follows `before`.
pub fn before_what_after(terminal: Terminal) -> Option<&'static [Item]>
    ensures some { IfSome result (λ items. before_what_after terminal ≡ Some items.now) }
    ensures none { IfNone result (before_what_after terminal ≡ None) }
{
    match terminal {
        Delete => Some(&[Build(Action::BeforeDelete)]),
        Name => Some(&[Build(Action::BeforeMethod)]),
        TComplete => Some(&[Build(Action::BeforeTComplete)]),
        DropVersion => Some(&[Build(Action::BeforeDropVersion)]),
        _ => None,
    }
}

/// What follows `time`.
pub fn time_what_after(terminal: Terminal) -> Option<&'static [Item]>
    ensures some { IfSome result (λ items. time_what_after terminal ≡ Some items.now) }
    ensures none { IfNone result (time_what_after terminal ≡ None) }
{
    match terminal {
        Every => Some(&[A(Part::Period)]),
        At => Some(&[Token(Instant), Build(Action::TimeAt)]),
        _ => None,
    }
}

/// A number of seconds.
pub fn period_after(terminal: Terminal) -> Option<&'static [Item]>
    ensures some { IfSome result (λ items. period_after terminal ≡ Some items.now) }
    ensures none { IfNone result (period_after terminal ≡ None) }
{
    match terminal {
        Seconds | Count => Some(&[Build(Action::TimeEvery)]),
        _ => None,
    }
}
