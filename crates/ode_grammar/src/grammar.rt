//! The rows of the grammar: what follows each token at each part, and the parts that may be left out.
ghost use Rattle.std.specs.Prelude.{◌≡◌, Some, None, IfSome, IfNone};
ghost use Rattle.ode_grammar.specs.Grammar.{after, row_of, skipped, standing};

use crate::change_rows::{additions_after, literal_after, negative_after};
use crate::class_rows::*;
use crate::event_rows::*;
use crate::expression_rows::*;
use crate::item::Item::{self, Build, Part as A, Token};
use crate::item::{Action, Part};
use crate::query_rows::{by_after, more_exprs_after, more_ranges, such_that_after};
use crate::statement_rows::*;
use crate::terminal::Terminal;

/// The row of a token of this class at the part.
#[tactic(auto, unfolding(crate::specs::Grammar::row_of))]
fn row_of(part: Part, terminal: Terminal) -> Option<&'static [Item]>
    ensures some { IfSome result (λ items. row_of part terminal ≡ Some items.now) }
    ensures none { IfNone result (row_of part terminal ≡ None) }
{
    match part {
        Part::Statement => statement_after(terminal),
        Part::ClockText => clock_text_after(terminal),
        Part::Inners => inners_after(terminal),
        Part::InnerName => inner_name_after(terminal),
        Part::ReturnValue => return_value_after(terminal),
        Part::Else => else_after(terminal),
        Part::Chained => chained_after(terminal),
        Part::CallDot => call_dot_after(terminal),
        Part::Sets => sets_after(terminal),
        Part::MoreSets => more_sets_after(terminal),
        Part::Rhs => rhs_after(terminal),
        Part::ScriptRhs => script_rhs_after(terminal),
        Part::RhsDots => rhs_dots_after(terminal),
        Part::RhsDot => rhs_dot_after(terminal),
        Part::RhsName => rhs_name_after(terminal),
        Part::Class => class_after(terminal),
        Part::Additions => additions_after(terminal),
        Part::Literal => literal_after(terminal),
        Part::Negative => negative_after(terminal),
        Part::Parent => parent_after(terminal),
        Part::Members => members_after(terminal),
        Part::FieldOrMethod => field_or_method_after(terminal),
        Part::MoreKinds => more_kinds_after(terminal),
        Part::Initial => initial_after(terminal),
        Part::Lasting => lasting_after(terminal),
        Part::Scope => scope_after(terminal),
        Part::Mode => mode_after(terminal),
        Part::Sort => sort_after(terminal),
        Part::Params => params_after(terminal),
        Part::SecondParam => more_params(
            &[
                A(Part::Sort),
                Token(Terminal::Name),
                Build(Action::Param),
                A(Part::ThirdParam),
            ],
            terminal,
        ),
        Part::ThirdParam => more_params(
            &[
                A(Part::Sort),
                Token(Terminal::Name),
                Build(Action::Param),
                A(Part::FourthParam),
            ],
            terminal,
        ),
        Part::FourthParam => more_params(
            &[
                A(Part::Sort),
                Token(Terminal::Name),
                Build(Action::Param),
                A(Part::FifthParam),
            ],
            terminal,
        ),
        Part::FifthParam => more_params(
            &[
                A(Part::Sort),
                Token(Terminal::Name),
                Build(Action::Param),
                A(Part::SixthParam),
            ],
            terminal,
        ),
        Part::SixthParam => more_params(
            &[
                A(Part::Sort),
                Token(Terminal::Name),
                Build(Action::Param),
                A(Part::SeventhParam),
            ],
            terminal,
        ),
        Part::SeventhParam => more_params(
            &[
                A(Part::Sort),
                Token(Terminal::Name),
                Build(Action::Param),
                A(Part::EighthParam),
            ],
            terminal,
        ),
        Part::EighthParam => more_params(
            &[
                A(Part::Sort),
                Token(Terminal::Name),
                Build(Action::Param),
                A(Part::NinthParam),
            ],
            terminal,
        ),
        Part::NinthParam => more_params(
            &[
                A(Part::Sort),
                Token(Terminal::Name),
                Build(Action::Param),
                A(Part::TenthParam),
            ],
            terminal,
        ),
        Part::TenthParam => more_params(
            &[
                A(Part::Sort),
                Token(Terminal::Name),
                Build(Action::Param),
                A(Part::EleventhParam),
            ],
            terminal,
        ),
        Part::EleventhParam => more_params(
            &[
                A(Part::Sort),
                Token(Terminal::Name),
                Build(Action::Param),
                A(Part::TwelfthParam),
            ],
            terminal,
        ),
        Part::TwelfthParam => more_params(
            &[
                A(Part::Sort),
                Token(Terminal::Name),
                Build(Action::Param),
                A(Part::ThirteenthParam),
            ],
            terminal,
        ),
        Part::ThirteenthParam => more_params(
            &[
                A(Part::Sort),
                Token(Terminal::Name),
                Build(Action::Param),
                A(Part::FourteenthParam),
            ],
            terminal,
        ),
        Part::FourteenthParam => more_params(
            &[
                A(Part::Sort),
                Token(Terminal::Name),
                Build(Action::Param),
                A(Part::FifteenthParam),
            ],
            terminal,
        ),
        Part::FifteenthParam => more_params(
            &[
                A(Part::Sort),
                Token(Terminal::Name),
                Build(Action::Param),
                A(Part::SixteenthParam),
            ],
            terminal,
        ),
        Part::SixteenthParam => more_params(
            &[
                A(Part::Sort),
                Token(Terminal::Name),
                Build(Action::Param),
                Token(Terminal::CloseParen),
            ],
            terminal,
        ),
        Part::SecondRange => more_ranges(
            &[
                Token(Terminal::Name),
                Token(Terminal::In),
                Build(Action::DropWord),
                Token(Terminal::Name),
                Build(Action::RefSort),
                Build(Action::Param),
                A(Part::ThirdRange),
            ],
            terminal,
        ),
        Part::ThirdRange => more_ranges(
            &[
                Token(Terminal::Name),
                Token(Terminal::In),
                Build(Action::DropWord),
                Token(Terminal::Name),
                Build(Action::RefSort),
                Build(Action::Param),
                A(Part::FourthRange),
            ],
            terminal,
        ),
        Part::FourthRange => more_ranges(
            &[
                Token(Terminal::Name),
                Token(Terminal::In),
                Build(Action::DropWord),
                Token(Terminal::Name),
                Build(Action::RefSort),
                Build(Action::Param),
            ],
            terminal,
        ),
        Part::SuchThat => such_that_after(terminal),
        Part::By => by_after(terminal),
        Part::MoreExprs => more_exprs_after(terminal),
        Part::EventUnary => event_unary_after(terminal),
        Part::EventAnds => event_ands_after(terminal),
        Part::EventOrs => event_ors_after(terminal),
        Part::MoreRelative => more_relative_after(terminal),
        Part::MorePrior => more_prior_after(terminal),
        Part::MoreSequence => more_sequence_after(terminal),
        Part::Mask => mask_after(terminal),
        Part::EventMask => event_mask_after(terminal),
        Part::Kind => kind_after(terminal),
        Part::AfterWhat => after_what_after(terminal),
        Part::BeforeWhat => before_what_after(terminal),
        Part::TimeWhat => time_what_after(terminal),
        Part::Period => period_after(terminal),
        Part::Expr => expr_after(terminal),
        Part::Unary => unary_after(terminal),
        Part::Dots => dots_after(terminal),
        Part::Factors => factors_after(terminal),
        Part::Sums => sums_after(terminal),
        Part::Compare => compare_after(terminal),
        Part::Ands => ands_after(terminal),
        Part::Ors => ors_after(terminal),
        Part::Args => args_after(terminal),
        Part::MoreArgs => more_args_after(terminal),
    }
}

/// The token as it stands at a part.
fn standing(part: Part, terminal: Terminal) -> Terminal
    ensures { result ≡ standing part terminal }
{
    match part {
        Part::EventUnary | Part::SuchThat | Part::By => terminal,
        _ => terminal.named(),
    }
}

/// What follows a token of this class at the part.
pub fn after(part: Part, terminal: Terminal) -> Option<&'static [Item]>
    ensures some { IfSome result (λ items. after part terminal ≡ Some items.now) }
    ensures none { IfNone result (after part terminal ≡ None) }
{
    row_of(part, standing(part, terminal))
}

/// What is made of the part where it is left out, if it may be.
#[tactic(auto, unfolding(crate::specs::Grammar::skipped))]
pub fn skipped(part: Part) -> Option<Action>
    ensures { result ≡ skipped part }
{
    match part {
        Part::Inners
        | Part::Members
        | Part::Additions
        | Part::SecondRange
        | Part::ThirdRange
        | Part::FourthRange
        | Part::SuchThat
        | Part::By
        | Part::MoreExprs
        | Part::EventAnds
        | Part::EventOrs
        | Part::EventMask
        | Part::Dots
        | Part::Factors
        | Part::Sums
        | Part::Compare
        | Part::Ands
        | Part::Ors => Some(Action::Nothing),
        Part::Else => Some(Action::Absent),
        Part::Parent => Some(Action::NoParent),
        Part::Initial => Some(Action::NotInitial),
        Part::Lasting => Some(Action::Once),
        Part::Scope => Some(Action::Committed),
        Part::Mode => Some(Action::Immediate),
        Part::Mask => Some(Action::Unmasked),
        _ => None,
    }
}
