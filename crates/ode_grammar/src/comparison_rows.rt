//! The row of comparisons of event expressions.
ghost use Rattle.std.specs.Prelude.{◌≡◌};
ghost use Rattle.ode_grammar.specs.Comparisons.{comparison};

use crate::item::Item::{self, Build, Part as A, Token};
use crate::item::{Action, Part};
use crate::terminal::Terminal::{Colon, Comma, Name, OpenParen, Same, Semi};

/// A comparison of two event expressions.
pub fn comparison() -> &'static [Item]
    ensures { result.now ≡ comparison }
{
    &[
        Token(Same),
        Build(Action::DropWord),
        Token(Name),
        Token(OpenParen),
        Build(Action::Params),
        A(Part::Params),
        Token(Colon),
        A(Part::EventUnary),
        A(Part::EventAnds),
        A(Part::EventOrs),
        Token(Comma),
        A(Part::EventUnary),
        A(Part::EventAnds),
        A(Part::EventOrs),
        Token(Semi),
    ]
}
