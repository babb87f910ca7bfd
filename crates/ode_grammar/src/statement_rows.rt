//! The rows of statements.
ghost use Rattle.std.specs.Prelude.{◌≡◌, Some, None, IfSome, IfNone};
ghost use Rattle.ode_grammar.specs.Statements.{statement_after, clock_text_after, inners_after, inner_name_after, return_value_after, else_after, chained_after, call_dot_after, sets_after, more_sets_after, rhs_after, script_rhs_after, rhs_dots_after, rhs_dot_after, rhs_name_after};

use crate::item::Item::{self, Build, Part as A, Token};
use crate::item::{Action, Part};
use crate::terminal::Terminal::{
    self, Abort, Activate, AndAnd, Assign, Begin, Class, Clock, CloseBrace, CloseParen, Comma,
    Commit, Compares, Count, Deactivate, Dot, DropVersion, Else, If, Instant, Leaf, Let, Minus,
    Name, NewVersion, Not, Number, OpenBrace, OpenParen, OrOr, PDelete, PNew, Plus, Return, Say,
    Seconds, Semi, Show, TAbort, Text, Times, Version,
};

/// A statement of a script.
pub fn statement_after(terminal: Terminal) -> Option<&'static [Item]>
    ensures some { IfSome result (λ items. statement_after terminal ≡ Some items.now) }
    ensures none { IfNone result (statement_after terminal ≡ None) }
{
    match terminal {
        Class => Some(&[
            Token(Name),
            A(Part::Parent),
            Token(OpenBrace),
            Build(Action::Members),
            A(Part::Members),
            Token(CloseBrace),
            Build(Action::Class),
            Token(Semi),
            Build(Action::Declare),
        ]),
        Begin => Some(&[Token(Semi), Build(Action::Begin)]),
        Commit => Some(&[Token(Semi), Build(Action::Commit)]),
        Abort => Some(&[Token(Semi), Build(Action::Abort)]),
        Clock => Some(&[A(Part::ClockText), Token(Semi), Build(Action::Clock)]),
        Semi => Some(&[Build(Action::Empty)]),
        Show => Some(&[
            A(Part::ScriptRhs),
            Build(Action::Show),
            Build(Action::Simple),
        ]),
        Say => Some(&[
            A(Part::Expr),
            Token(Semi),
            Build(Action::Say),
            Build(Action::Simple),
        ]),
        PDelete => Some(&[
            A(Part::Expr),
            Token(Semi),
            Build(Action::Delete),
            Build(Action::Simple),
        ]),
        DropVersion => Some(&[
            A(Part::Expr),
            Token(Semi),
            Build(Action::DropVersion),
            Build(Action::Simple),
        ]),
        Deactivate => Some(&[
            A(Part::Expr),
            Token(Comma),
            A(Part::Expr),
            Token(Semi),
            Build(Action::Deactivate),
            Build(Action::Simple),
        ]),
        PNew => Some(&[
            Token(Name),
            Token(OpenParen),
            Build(Action::Sets),
            A(Part::Sets),
            Build(Action::New),
            Token(Semi),
            Build(Action::Do),
            Build(Action::Simple),
        ]),
        NewVersion => Some(&[
            A(Part::Expr),
            Build(Action::NewVersion),
            Token(Semi),
            Build(Action::Do),
            Build(Action::Simple),
        ]),
        Activate => Some(&[
            A(Part::Chained),
            Build(Action::Activate),
            Token(Semi),
            Build(Action::Do),
            Build(Action::Simple),
        ]),
        Name => Some(&[
            Build(Action::Variable),
            Token(Dot),
            Token(Name),
            A(Part::CallDot),
            Build(Action::Call),
            Token(Semi),
            Build(Action::Do),
            Build(Action::Simple),
        ]),
        Leaf | Number | Seconds | Count | Text | Instant => Some(&[
            Build(Action::Leaf),
            Token(Dot),
            Token(Name),
            A(Part::CallDot),
            Build(Action::Call),
            Token(Semi),
            Build(Action::Do),
            Build(Action::Simple),
        ]),
        OpenParen => Some(&[
            A(Part::Expr),
            Token(CloseParen),
            Build(Action::Pair),
            Token(Dot),
            Token(Name),
            A(Part::CallDot),
            Build(Action::Call),
            Token(Semi),
            Build(Action::Do),
            Build(Action::Simple),
        ]),
        Version => Some(&[
            Token(OpenParen),
            A(Part::Expr),
            Token(CloseParen),
            Build(Action::Version),
            Token(Dot),
            Token(Name),
            A(Part::CallDot),
            Build(Action::Call),
            Token(Semi),
            Build(Action::Do),
            Build(Action::Simple),
        ]),
        _ => None,
    }
}

/// The text of `clock`.
pub fn clock_text_after(terminal: Terminal) -> Option<&'static [Item]>
    ensures some { IfSome result (λ items. clock_text_after terminal ≡ Some items.now) }
    ensures none { IfNone result (clock_text_after terminal ≡ None) }
{
    match terminal {
        Text | Instant => Some(&[]),
        _ => None,
    }
}

/// The statements of a body, up to its end.
pub fn inners_after(terminal: Terminal) -> Option<&'static [Item]>
    ensures some { IfSome result (λ items. inners_after terminal ≡ Some items.now) }
    ensures none { IfNone result (inners_after terminal ≡ None) }
{
    match terminal {
        Show => Some(&[
            A(Part::Rhs),
            Build(Action::Show),
            Build(Action::Append),
            A(Part::Inners),
        ]),
        Say => Some(&[
            A(Part::Expr),
            Token(Semi),
            Build(Action::Say),
            Build(Action::Append),
            A(Part::Inners),
        ]),
        PDelete => Some(&[
            A(Part::Expr),
            Token(Semi),
            Build(Action::Delete),
            Build(Action::Append),
            A(Part::Inners),
        ]),
        DropVersion => Some(&[
            A(Part::Expr),
            Token(Semi),
            Build(Action::DropVersion),
            Build(Action::Append),
            A(Part::Inners),
        ]),
        Deactivate => Some(&[
            A(Part::Expr),
            Token(Comma),
            A(Part::Expr),
            Token(Semi),
            Build(Action::Deactivate),
            Build(Action::Append),
            A(Part::Inners),
        ]),
        PNew => Some(&[
            Token(Name),
            Token(OpenParen),
            Build(Action::Sets),
            A(Part::Sets),
            Build(Action::New),
            Token(Semi),
            Build(Action::Do),
            Build(Action::Append),
            A(Part::Inners),
        ]),
        NewVersion => Some(&[
            A(Part::Expr),
            Build(Action::NewVersion),
            Token(Semi),
            Build(Action::Do),
            Build(Action::Append),
            A(Part::Inners),
        ]),
        Activate => Some(&[
            A(Part::Chained),
            Build(Action::Activate),
            Token(Semi),
            Build(Action::Do),
            Build(Action::Append),
            A(Part::Inners),
        ]),
        Leaf | Number | Seconds | Count | Text | Instant => Some(&[
            Build(Action::Leaf),
            Token(Dot),
            Token(Name),
            A(Part::CallDot),
            Build(Action::Call),
            Token(Semi),
            Build(Action::Do),
            Build(Action::Append),
            A(Part::Inners),
        ]),
        OpenParen => Some(&[
            A(Part::Expr),
            Token(CloseParen),
            Build(Action::Pair),
            Token(Dot),
            Token(Name),
            A(Part::CallDot),
            Build(Action::Call),
            Token(Semi),
            Build(Action::Do),
            Build(Action::Append),
            A(Part::Inners),
        ]),
        Version => Some(&[
            Token(OpenParen),
            A(Part::Expr),
            Token(CloseParen),
            Build(Action::Version),
            Token(Dot),
            Token(Name),
            A(Part::CallDot),
            Build(Action::Call),
            Token(Semi),
            Build(Action::Do),
            Build(Action::Append),
            A(Part::Inners),
        ]),
        Name => Some(&[A(Part::InnerName), Build(Action::Append), A(Part::Inners)]),
        Let => Some(&[
            Token(Name),
            Token(Assign),
            A(Part::Rhs),
            Build(Action::Let),
            Build(Action::Append),
            A(Part::Inners),
        ]),
        If => Some(&[
            Token(OpenParen),
            A(Part::Expr),
            Token(CloseParen),
            Token(OpenBrace),
            Build(Action::Body),
            A(Part::Inners),
            Token(CloseBrace),
            A(Part::Else),
            Build(Action::If),
            Build(Action::Append),
            A(Part::Inners),
        ]),
        Return => Some(&[A(Part::ReturnValue), Build(Action::Append), A(Part::Inners)]),
        TAbort => Some(&[
            Token(Semi),
            Build(Action::TAbort),
            Build(Action::Append),
            A(Part::Inners),
        ]),
        _ => None,
    }
}

/// What follows a name that begins a statement of a body.
pub fn inner_name_after(terminal: Terminal) -> Option<&'static [Item]>
    ensures some { IfSome result (λ items. inner_name_after terminal ≡ Some items.now) }
    ensures none { IfNone result (inner_name_after terminal ≡ None) }
{
    match terminal {
        Assign => Some(&[A(Part::Rhs), Build(Action::Set)]),
        OpenParen => Some(&[
            Build(Action::Arguments),
            A(Part::Args),
            Build(Action::OwnCall),
            Token(Semi),
            Build(Action::Do),
        ]),
        Dot => Some(&[
            Build(Action::Variable),
            Token(Name),
            A(Part::CallDot),
            Build(Action::Call),
            Token(Semi),
            Build(Action::Do),
        ]),
        _ => None,
    }
}

/// What follows `return`.
pub fn return_value_after(terminal: Terminal) -> Option<&'static [Item]>
    ensures some { IfSome result (λ items. return_value_after terminal ≡ Some items.now) }
    ensures none { IfNone result (return_value_after terminal ≡ None) }
{
    match terminal {
        Semi => Some(&[Build(Action::ReturnNothing)]),
        Minus | Not => Some(&[
            A(Part::Unary),
            Build(Action::Sign),
            A(Part::Factors),
            A(Part::Sums),
            A(Part::Compare),
            A(Part::Ands),
            A(Part::Ors),
            Token(Semi),
            Build(Action::Return),
        ]),
        Name => Some(&[
            Build(Action::Variable),
            A(Part::Dots),
            A(Part::Factors),
            A(Part::Sums),
            A(Part::Compare),
            A(Part::Ands),
            A(Part::Ors),
            Token(Semi),
            Build(Action::Return),
        ]),
        Leaf | Number | Seconds | Count | Text | Instant => Some(&[
            Build(Action::Leaf),
            A(Part::Dots),
            A(Part::Factors),
            A(Part::Sums),
            A(Part::Compare),
            A(Part::Ands),
            A(Part::Ors),
            Token(Semi),
            Build(Action::Return),
        ]),
        OpenParen => Some(&[
            A(Part::Expr),
            Token(CloseParen),
            Build(Action::Pair),
            A(Part::Dots),
            A(Part::Factors),
            A(Part::Sums),
            A(Part::Compare),
            A(Part::Ands),
            A(Part::Ors),
            Token(Semi),
            Build(Action::Return),
        ]),
        Version => Some(&[
            Token(OpenParen),
            A(Part::Expr),
            Token(CloseParen),
            Build(Action::Version),
            A(Part::Dots),
            A(Part::Factors),
            A(Part::Sums),
            A(Part::Compare),
            A(Part::Ands),
            A(Part::Ors),
            Token(Semi),
            Build(Action::Return),
        ]),
        _ => None,
    }
}

/// `else` and a body, or nothing.
pub fn else_after(terminal: Terminal) -> Option<&'static [Item]>
    ensures some { IfSome result (λ items. else_after terminal ≡ Some items.now) }
    ensures none { IfNone result (else_after terminal ≡ None) }
{
    match terminal {
        Else => Some(&[
            Token(OpenBrace),
            Build(Action::Body),
            A(Part::Inners),
            Token(CloseBrace),
        ]),
        _ => None,
    }
}

/// A call by a reference: a chain, a dot, a name and arguments.
pub fn chained_after(terminal: Terminal) -> Option<&'static [Item]>
    ensures some { IfSome result (λ items. chained_after terminal ≡ Some items.now) }
    ensures none { IfNone result (chained_after terminal ≡ None) }
{
    match terminal {
        Name => Some(&[
            Build(Action::Variable),
            Token(Dot),
            Token(Name),
            A(Part::CallDot),
        ]),
        Leaf | Number | Seconds | Count | Text | Instant => Some(&[
            Build(Action::Leaf),
            Token(Dot),
            Token(Name),
            A(Part::CallDot),
        ]),
        OpenParen => Some(&[
            A(Part::Expr),
            Token(CloseParen),
            Build(Action::Pair),
            Token(Dot),
            Token(Name),
            A(Part::CallDot),
        ]),
        Version => Some(&[
            Token(OpenParen),
            A(Part::Expr),
            Token(CloseParen),
            Build(Action::Version),
            Token(Dot),
            Token(Name),
            A(Part::CallDot),
        ]),
        _ => None,
    }
}

/// What follows a dot and a name in such a call.
pub fn call_dot_after(terminal: Terminal) -> Option<&'static [Item]>
    ensures some { IfSome result (λ items. call_dot_after terminal ≡ Some items.now) }
    ensures none { IfNone result (call_dot_after terminal ≡ None) }
{
    match terminal {
        Dot => Some(&[Build(Action::Field), Token(Name), A(Part::CallDot)]),
        OpenParen => Some(&[Build(Action::Arguments), A(Part::Args)]),
        _ => None,
    }
}

/// The fields that `pnew` sets.
pub fn sets_after(terminal: Terminal) -> Option<&'static [Item]>
    ensures some { IfSome result (λ items. sets_after terminal ≡ Some items.now) }
    ensures none { IfNone result (sets_after terminal ≡ None) }
{
    match terminal {
        Name => Some(&[
            Token(Assign),
            A(Part::Expr),
            Build(Action::AddSet),
            A(Part::MoreSets),
        ]),
        CloseParen => Some(&[]),
        _ => None,
    }
}

/// What follows such a field.
pub fn more_sets_after(terminal: Terminal) -> Option<&'static [Item]>
    ensures some { IfSome result (λ items. more_sets_after terminal ≡ Some items.now) }
    ensures none { IfNone result (more_sets_after terminal ≡ None) }
{
    match terminal {
        Comma => Some(&[
            Token(Name),
            Token(Assign),
            A(Part::Expr),
            Build(Action::AddSet),
            A(Part::MoreSets),
        ]),
        CloseParen => Some(&[]),
        _ => None,
    }
}

/// What a statement of a body sets or shows, and its semicolon.
pub fn rhs_after(terminal: Terminal) -> Option<&'static [Item]>
    ensures some { IfSome result (λ items. rhs_after terminal ≡ Some items.now) }
    ensures none { IfNone result (rhs_after terminal ≡ None) }
{
    match terminal {
        PNew => Some(&[
            Token(Name),
            Token(OpenParen),
            Build(Action::Sets),
            A(Part::Sets),
            Build(Action::New),
            Token(Semi),
        ]),
        NewVersion => Some(&[A(Part::Expr), Build(Action::NewVersion), Token(Semi)]),
        Activate => Some(&[A(Part::Chained), Build(Action::Activate), Token(Semi)]),
        Minus | Not => Some(&[
            A(Part::Unary),
            Build(Action::Sign),
            A(Part::Factors),
            A(Part::Sums),
            A(Part::Compare),
            A(Part::Ands),
            A(Part::Ors),
            Build(Action::Plain),
            Token(Semi),
        ]),
        Name => Some(&[A(Part::RhsName)]),
        Leaf | Number | Seconds | Count | Text | Instant => Some(&[
            Build(Action::Leaf),
            A(Part::RhsDots),
        ]),
        OpenParen => Some(&[
            A(Part::Expr),
            Token(CloseParen),
            Build(Action::Pair),
            A(Part::RhsDots),
        ]),
        Version => Some(&[
            Token(OpenParen),
            A(Part::Expr),
            Token(CloseParen),
            Build(Action::Version),
            A(Part::RhsDots),
        ]),
        _ => None,
    }
}

/// What a statement of a script shows, and its semicolon.
pub fn script_rhs_after(terminal: Terminal) -> Option<&'static [Item]>
    ensures some { IfSome result (λ items. script_rhs_after terminal ≡ Some items.now) }
    ensures none { IfNone result (script_rhs_after terminal ≡ None) }
{
    match terminal {
        PNew => Some(&[
            Token(Name),
            Token(OpenParen),
            Build(Action::Sets),
            A(Part::Sets),
            Build(Action::New),
            Token(Semi),
        ]),
        NewVersion => Some(&[A(Part::Expr), Build(Action::NewVersion), Token(Semi)]),
        Activate => Some(&[A(Part::Chained), Build(Action::Activate), Token(Semi)]),
        Minus | Not => Some(&[
            A(Part::Unary),
            Build(Action::Sign),
            A(Part::Factors),
            A(Part::Sums),
            A(Part::Compare),
            A(Part::Ands),
            A(Part::Ors),
            Build(Action::Plain),
            Token(Semi),
        ]),
        Name => Some(&[Build(Action::Variable), A(Part::RhsDots)]),
        Leaf | Number | Seconds | Count | Text | Instant => Some(&[
            Build(Action::Leaf),
            A(Part::RhsDots),
        ]),
        OpenParen => Some(&[
            A(Part::Expr),
            Token(CloseParen),
            Build(Action::Pair),
            A(Part::RhsDots),
        ]),
        Version => Some(&[
            Token(OpenParen),
            A(Part::Expr),
            Token(CloseParen),
            Build(Action::Version),
            A(Part::RhsDots),
        ]),
        _ => None,
    }
}

/// What follows an atom that begins a right side.
pub fn rhs_dots_after(terminal: Terminal) -> Option<&'static [Item]>
    ensures some { IfSome result (λ items. rhs_dots_after terminal ≡ Some items.now) }
    ensures none { IfNone result (rhs_dots_after terminal ≡ None) }
{
    match terminal {
        Dot => Some(&[Token(Name), A(Part::RhsDot)]),
        Semi => Some(&[Build(Action::Plain)]),
        Times => Some(&[
            A(Part::Unary),
            Build(Action::Binary),
            A(Part::Factors),
            A(Part::Sums),
            A(Part::Compare),
            A(Part::Ands),
            A(Part::Ors),
            Build(Action::Plain),
            Token(Semi),
        ]),
        Plus | Minus => Some(&[
            A(Part::Unary),
            A(Part::Factors),
            Build(Action::Binary),
            A(Part::Sums),
            A(Part::Compare),
            A(Part::Ands),
            A(Part::Ors),
            Build(Action::Plain),
            Token(Semi),
        ]),
        Compares => Some(&[
            A(Part::Unary),
            A(Part::Factors),
            A(Part::Sums),
            Build(Action::Binary),
            A(Part::Ands),
            A(Part::Ors),
            Build(Action::Plain),
            Token(Semi),
        ]),
        AndAnd => Some(&[
            A(Part::Unary),
            A(Part::Factors),
            A(Part::Sums),
            A(Part::Compare),
            Build(Action::Binary),
            A(Part::Ands),
            A(Part::Ors),
            Build(Action::Plain),
            Token(Semi),
        ]),
        OrOr => Some(&[
            A(Part::Unary),
            A(Part::Factors),
            A(Part::Sums),
            A(Part::Compare),
            A(Part::Ands),
            Build(Action::Binary),
            A(Part::Ors),
            Build(Action::Plain),
            Token(Semi),
        ]),
        _ => None,
    }
}

/// What follows a dot and a name there.
pub fn rhs_dot_after(terminal: Terminal) -> Option<&'static [Item]>
    ensures some { IfSome result (λ items. rhs_dot_after terminal ≡ Some items.now) }
    ensures none { IfNone result (rhs_dot_after terminal ≡ None) }
{
    match terminal {
        Dot => Some(&[Build(Action::Field), Token(Name), A(Part::RhsDot)]),
        Semi => Some(&[Build(Action::Field), Build(Action::Plain)]),
        OpenParen => Some(&[
            Build(Action::Arguments),
            A(Part::Args),
            Build(Action::Call),
            Token(Semi),
        ]),
        Times => Some(&[
            Build(Action::Field),
            A(Part::Unary),
            Build(Action::Binary),
            A(Part::Factors),
            A(Part::Sums),
            A(Part::Compare),
            A(Part::Ands),
            A(Part::Ors),
            Build(Action::Plain),
            Token(Semi),
        ]),
        Plus | Minus => Some(&[
            Build(Action::Field),
            A(Part::Unary),
            A(Part::Factors),
            Build(Action::Binary),
            A(Part::Sums),
            A(Part::Compare),
            A(Part::Ands),
            A(Part::Ors),
            Build(Action::Plain),
            Token(Semi),
        ]),
        Compares => Some(&[
            Build(Action::Field),
            A(Part::Unary),
            A(Part::Factors),
            A(Part::Sums),
            Build(Action::Binary),
            A(Part::Ands),
            A(Part::Ors),
            Build(Action::Plain),
            Token(Semi),
        ]),
        AndAnd => Some(&[
            Build(Action::Field),
            A(Part::Unary),
            A(Part::Factors),
            A(Part::Sums),
            A(Part::Compare),
            Build(Action::Binary),
            A(Part::Ands),
            A(Part::Ors),
            Build(Action::Plain),
            Token(Semi),
        ]),
        OrOr => Some(&[
            Build(Action::Field),
            A(Part::Unary),
            A(Part::Factors),
            A(Part::Sums),
            A(Part::Compare),
            A(Part::Ands),
            Build(Action::Binary),
            A(Part::Ors),
            Build(Action::Plain),
            Token(Semi),
        ]),
        _ => None,
    }
}

/// What follows a name that begins the right side of a body's statement.
pub fn rhs_name_after(terminal: Terminal) -> Option<&'static [Item]>
    ensures some { IfSome result (λ items. rhs_name_after terminal ≡ Some items.now) }
    ensures none { IfNone result (rhs_name_after terminal ≡ None) }
{
    match terminal {
        Dot => Some(&[Build(Action::Variable), Token(Name), A(Part::RhsDot)]),
        Semi => Some(&[Build(Action::Variable), Build(Action::Plain)]),
        OpenParen => Some(&[
            Build(Action::Arguments),
            A(Part::Args),
            Build(Action::OwnCall),
            Token(Semi),
        ]),
        Times => Some(&[
            Build(Action::Variable),
            A(Part::Unary),
            Build(Action::Binary),
            A(Part::Factors),
            A(Part::Sums),
            A(Part::Compare),
            A(Part::Ands),
            A(Part::Ors),
            Build(Action::Plain),
            Token(Semi),
        ]),
        Plus | Minus => Some(&[
            Build(Action::Variable),
            A(Part::Unary),
            A(Part::Factors),
            Build(Action::Binary),
            A(Part::Sums),
            A(Part::Compare),
            A(Part::Ands),
            A(Part::Ors),
            Build(Action::Plain),
            Token(Semi),
        ]),
        Compares => Some(&[
            Build(Action::Variable),
            A(Part::Unary),
            A(Part::Factors),
            A(Part::Sums),
            Build(Action::Binary),
            A(Part::Ands),
            A(Part::Ors),
            Build(Action::Plain),
            Token(Semi),
        ]),
        AndAnd => Some(&[
            Build(Action::Variable),
            A(Part::Unary),
            A(Part::Factors),
            A(Part::Sums),
            A(Part::Compare),
            Build(Action::Binary),
            A(Part::Ands),
            A(Part::Ors),
            Build(Action::Plain),
            Token(Semi),
        ]),
        OrOr => Some(&[
            Build(Action::Variable),
            A(Part::Unary),
            A(Part::Factors),
            A(Part::Sums),
            A(Part::Compare),
            A(Part::Ands),
            Build(Action::Binary),
            A(Part::Ors),
            Build(Action::Plain),
            Token(Semi),
        ]),
        _ => None,
    }
}
