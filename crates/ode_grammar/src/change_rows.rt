//! The rows of changes of classes.
ghost use Rattle.std.specs.Prelude.{◌≡◌, Some, None, IfSome, IfNone};
ghost use Rattle.ode_grammar.specs.Changes.{additions_after, change, literal_after, negative_after};

use crate::item::Item::{self, Build, Part as A, Token};
use crate::item::{Action, Part};
use crate::terminal::Terminal::{
    self, Assign, Change, Class, CloseBrace, Count, Instant, Leaf, Minus, Name, Number, OpenBrace,
    Ref, Seconds, Semi, SortWord, Text,
};

/// A change of a class.
pub fn change() -> &'static [Item]
    ensures { result.now ≡ change }
{
    &[
        Token(Change),
        Token(Class),
        Token(Name),
        Token(OpenBrace),
        Build(Action::Change),
        A(Part::Sort),
        Token(Name),
        Token(Assign),
        A(Part::Literal),
        Token(Semi),
        Build(Action::Addition),
        A(Part::Additions),
        Token(CloseBrace),
        Token(Semi),
    ]
}

/// One more added field, any number of times.
pub fn additions_after(terminal: Terminal) -> Option<&'static [Item]>
    ensures some { IfSome result (λ items. additions_after terminal ≡ Some items.now) }
    ensures none { IfNone result (additions_after terminal ≡ None) }
{
    match terminal {
        SortWord => Some(&[
            Build(Action::Sort),
            Token(Name),
            Token(Assign),
            A(Part::Literal),
            Token(Semi),
            Build(Action::Addition),
            A(Part::Additions),
        ]),
        Ref => Some(&[
            Token(Name),
            Build(Action::RefSort),
            Token(Name),
            Token(Assign),
            A(Part::Literal),
            Token(Semi),
            Build(Action::Addition),
            A(Part::Additions),
        ]),
        _ => None,
    }
}

/// What an added field is in the objects that are there.
pub fn literal_after(terminal: Terminal) -> Option<&'static [Item]>
    ensures some { IfSome result (λ items. literal_after terminal ≡ Some items.now) }
    ensures none { IfNone result (literal_after terminal ≡ None) }
{
    match terminal {
        Leaf | Number | Seconds | Count | Text | Instant => Some(&[]),
        Minus => Some(&[A(Part::Negative)]),
        _ => None,
    }
}

/// The number behind a sign.
pub fn negative_after(terminal: Terminal) -> Option<&'static [Item]>
    ensures some { IfSome result (λ items. negative_after terminal ≡ Some items.now) }
    ensures none { IfNone result (negative_after terminal ≡ None) }
{
    match terminal {
        Number | Seconds | Count => Some(&[Build(Action::Negative)]),
        _ => None,
    }
}
