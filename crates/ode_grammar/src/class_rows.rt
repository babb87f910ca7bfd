//! The rows of classes and their members.
ghost use Rattle.std.specs.Prelude.{◌≡◌, Some, None, IfSome, IfNone};
ghost use Rattle.ode_grammar.specs.Classes.{class_after, parent_after, members_after, field_or_method_after, more_kinds_after, initial_after, lasting_after, scope_after, mode_after, sort_after, params_after, more_params};

use crate::item::Item::{self, Build, Part as A, Token};
use crate::item::{Action, Part};
use crate::terminal::Terminal::{
    self, Arrow, Class, CloseBrace, CloseParen, Colon, Comma, Constraint, Event, Initial, Lasting,
    Mode, Name, OpenBrace, OpenParen, Ref, Scope, Semi, Soft, SortWord, Trigger, Void,
};

/// A class.
pub fn class_after(terminal: Terminal) -> Option<&'static [Item]>
    ensures some { IfSome result (λ items. class_after terminal ≡ Some items.now) }
    ensures none { IfNone result (class_after terminal ≡ None) }
{
    match terminal {
        Class => Some(&[
            Token(Name),
            A(Part::Parent),
            Token(OpenBrace),
            Build(Action::Members),
            A(Part::Members),
            Token(CloseBrace),
            Build(Action::Class),
        ]),
        _ => None,
    }
}

/// `:` and the parent's name, or nothing.
pub fn parent_after(terminal: Terminal) -> Option<&'static [Item]>
    ensures some { IfSome result (λ items. parent_after terminal ≡ Some items.now) }
    ensures none { IfNone result (parent_after terminal ≡ None) }
{
    match terminal {
        Colon => Some(&[Token(Name), Build(Action::Parent)]),
        _ => None,
    }
}

/// The members of a class, up to its end.
pub fn members_after(terminal: Terminal) -> Option<&'static [Item]>
    ensures some { IfSome result (λ items. members_after terminal ≡ Some items.now) }
    ensures none { IfNone result (members_after terminal ≡ None) }
{
    match terminal {
        SortWord => Some(&[
            Build(Action::Sort),
            Token(Name),
            A(Part::FieldOrMethod),
            A(Part::Members),
        ]),
        Ref => Some(&[
            Token(Name),
            Build(Action::RefSort),
            Token(Name),
            A(Part::FieldOrMethod),
            A(Part::Members),
        ]),
        Void => Some(&[
            Build(Action::VoidSort),
            Token(Name),
            Token(OpenParen),
            Build(Action::Params),
            A(Part::Params),
            Token(OpenBrace),
            Build(Action::Body),
            A(Part::Inners),
            Token(CloseBrace),
            Build(Action::Method),
            A(Part::Members),
        ]),
        Soft => Some(&[
            Token(Constraint),
            Token(Name),
            Token(Colon),
            A(Part::Expr),
            Token(Semi),
            Build(Action::SoftConstraint),
            A(Part::Members),
        ]),
        Constraint => Some(&[
            Token(Name),
            Token(Colon),
            A(Part::Expr),
            Token(Semi),
            Build(Action::Constraint),
            A(Part::Members),
        ]),
        Event => Some(&[
            Build(Action::Kinds),
            A(Part::Kind),
            Build(Action::Listed),
            A(Part::MoreKinds),
            Build(Action::Events),
            A(Part::Members),
        ]),
        Trigger => Some(&[
            A(Part::Initial),
            A(Part::Lasting),
            A(Part::Scope),
            A(Part::Mode),
            Token(Name),
            Token(OpenParen),
            Build(Action::Params),
            A(Part::Params),
            Token(Colon),
            A(Part::EventUnary),
            A(Part::EventAnds),
            A(Part::EventOrs),
            Token(Arrow),
            Token(OpenBrace),
            Build(Action::Body),
            A(Part::Inners),
            Token(CloseBrace),
            Build(Action::Trigger),
            A(Part::Members),
        ]),
        _ => None,
    }
}

/// What follows the sort and the name of a field or a method.
pub fn field_or_method_after(terminal: Terminal) -> Option<&'static [Item]>
    ensures some { IfSome result (λ items. field_or_method_after terminal ≡ Some items.now) }
    ensures none { IfNone result (field_or_method_after terminal ≡ None) }
{
    match terminal {
        Semi => Some(&[Build(Action::FieldMember)]),
        OpenParen => Some(&[
            Build(Action::Params),
            A(Part::Params),
            Token(OpenBrace),
            Build(Action::Body),
            A(Part::Inners),
            Token(CloseBrace),
            Build(Action::Method),
        ]),
        _ => None,
    }
}

/// What follows a kind in a list of them.
pub fn more_kinds_after(terminal: Terminal) -> Option<&'static [Item]>
    ensures some { IfSome result (λ items. more_kinds_after terminal ≡ Some items.now) }
    ensures none { IfNone result (more_kinds_after terminal ≡ None) }
{
    match terminal {
        Comma => Some(&[A(Part::Kind), Build(Action::Listed), A(Part::MoreKinds)]),
        Semi => Some(&[]),
        _ => None,
    }
}

/// `initial` or nothing.
pub fn initial_after(terminal: Terminal) -> Option<&'static [Item]>
    ensures some { IfSome result (λ items. initial_after terminal ≡ Some items.now) }
    ensures none { IfNone result (initial_after terminal ≡ None) }
{
    match terminal {
        Initial => Some(&[Build(Action::Initial)]),
        _ => None,
    }
}

/// `once`, `perpetual` or nothing.
pub fn lasting_after(terminal: Terminal) -> Option<&'static [Item]>
    ensures some { IfSome result (λ items. lasting_after terminal ≡ Some items.now) }
    ensures none { IfNone result (lasting_after terminal ≡ None) }
{
    match terminal {
        Lasting => Some(&[Build(Action::Lasting)]),
        _ => None,
    }
}

/// `committed`, `whole` or nothing.
pub fn scope_after(terminal: Terminal) -> Option<&'static [Item]>
    ensures some { IfSome result (λ items. scope_after terminal ≡ Some items.now) }
    ensures none { IfNone result (scope_after terminal ≡ None) }
{
    match terminal {
        Scope => Some(&[Build(Action::Scope)]),
        _ => None,
    }
}

/// The word that says when an action runs, or nothing.
pub fn mode_after(terminal: Terminal) -> Option<&'static [Item]>
    ensures some { IfSome result (λ items. mode_after terminal ≡ Some items.now) }
    ensures none { IfNone result (mode_after terminal ≡ None) }
{
    match terminal {
        Mode => Some(&[Build(Action::Mode)]),
        _ => None,
    }
}

/// A sort of a value.
pub fn sort_after(terminal: Terminal) -> Option<&'static [Item]>
    ensures some { IfSome result (λ items. sort_after terminal ≡ Some items.now) }
    ensures none { IfNone result (sort_after terminal ≡ None) }
{
    match terminal {
        SortWord => Some(&[Build(Action::Sort)]),
        Ref => Some(&[Token(Name), Build(Action::RefSort)]),
        _ => None,
    }
}

/// Parameters, behind their bracket.
pub fn params_after(terminal: Terminal) -> Option<&'static [Item]>
    ensures some { IfSome result (λ items. params_after terminal ≡ Some items.now) }
    ensures none { IfNone result (params_after terminal ≡ None) }
{
    match terminal {
        CloseParen => Some(&[]),
        SortWord => Some(&[
            Build(Action::Sort),
            Token(Name),
            Build(Action::Param),
            A(Part::SecondParam),
        ]),
        Ref => Some(&[
            Token(Name),
            Build(Action::RefSort),
            Token(Name),
            Build(Action::Param),
            A(Part::SecondParam),
        ]),
        _ => None,
    }
}

/// What follows a parameter: the row of one more, or the bracket.
pub fn more_params(row: &'static [Item], terminal: Terminal) -> Option<&'static [Item]>
    ensures some { IfSome result (λ items. more_params row.now terminal ≡ Some items.now) }
    ensures none { IfNone result (more_params row.now terminal ≡ None) }
{
    match terminal {
        Comma => Some(row),
        CloseParen => Some(&[]),
        _ => None,
    }
}
