//! Event expressions and kinds, and what each action makes.
ghost use Rattle.std.specs.Prelude.{◌≡◌, OnOk, IfOk, ◌∷◌};
ghost use Rattle.ode_grammar.specs.Stacks.{rest};
ghost use Rattle.ode_syntax.specs.Built.{built_event, built_kind, count_of, event_tree, second_of, tree};

use crate::top::{take, take_boxed_event, take_expr, take_name};
use crate::trees::Trees;
use ode_grammar::{Action, Stack};
use ode_lex::Mark;
use ode_timer::instant;
use ode_value::{Boxed, EventExpr, Expr, Kind, Value};
use std::alloc::{AllocError, Global};

// The number that a leaf says.
fn count_of(leaf: &Expr) -> u32
    ensures { result ≡ count_of leaf.now }
{
    match leaf {
        Expr::Lit(Value::Int(number)) => u32::try_from(*number).unwrap_or(0),
        _ => 0,
    }
}

// The second that a leaf says.
fn second_of(leaf: &Expr) -> i64
    ensures { result ≡ second_of leaf.now }
{
    match leaf {
        Expr::Lit(Value::Text(text)) => instant(text.as_bytes()).unwrap_or(0),
        _ => 0,
    }
}

// Takes the number on top away.
fn take_count(leaves: &mut Stack<Expr>) -> u32
    ensures top { result ≡ count_of (tree leaves.old) }
    ensures rest { leaves.new ≡ rest leaves.old }
{
    let leaf = take_expr(leaves);
    count_of(&leaf)
}

// Takes the second on top away.
fn take_second(leaves: &mut Stack<Expr>) -> i64
    ensures top { result ≡ second_of (tree leaves.old) }
    ensures rest { leaves.new ≡ rest leaves.old }
{
    let leaf = take_expr(leaves);
    second_of(&leaf)
}

// Takes the two event expressions on top away, the lower one first.
fn take_two(
    alloc: Global,
    events: &mut Stack<EventExpr>,
) -> Result<(Boxed<EventExpr>, Boxed<EventExpr>), AllocError>
    ensures top { IfOk result (λ two. two.1 ≡ event_tree events.old) }
    ensures second { IfOk result (λ two. two.0 ≡ event_tree (rest events.old)) }
    ensures rest { OnOk result (events.new ≡ rest (rest events.old)) }
{
    let right = take_boxed_event(alloc, events)?;
    let left = take_boxed_event(alloc, events)?;
    Ok((left, right))
}

// Takes the three event expressions on top away, the lowest one first.
fn take_three(
    alloc: Global,
    events: &mut Stack<EventExpr>,
) -> Result<(Boxed<EventExpr>, Boxed<EventExpr>, Boxed<EventExpr>), AllocError>
    ensures top { IfOk result (λ three. three.2 ≡ event_tree events.old) }
    ensures second { IfOk result (λ three. three.1 ≡ event_tree (rest events.old)) }
    ensures third { IfOk result (λ three. three.0 ≡ event_tree (rest (rest events.old))) }
    ensures rest { OnOk result (events.new ≡ rest (rest (rest events.old))) }
{
    let third = take_boxed_event(alloc, events)?;
    let (first, second) = take_two(alloc, events)?;
    Ok((first, second, third))
}

impl Trees {
    /// Makes what an action of event expressions says.
    #[tactic(auto, unfolding(crate::specs::Built::built_event))]
    pub(crate) fn build_event(&mut self, alloc: Global, action: Action) -> Result<(), AllocError>
        ensures { OnOk result (self.new ≡ built_event action self.old) }
    {
        match action {
            Action::Any => self.events.push(EventExpr::Any),
            Action::First => self.events.push(EventExpr::First),
            Action::Unmasked => {
                let kind = take(&mut self.kinds, Kind::Create);
                self.events.push(EventExpr::Leaf(kind, None))
            }
            Action::Masked => {
                take(&mut self.marks, Mark::Plus);
                let test = take_expr(&mut self.exprs);
                let kind = take(&mut self.kinds, Kind::Create);
                self.events.push(EventExpr::Leaf(kind, Some(test)))
            }
            Action::MaskedEvent => {
                take(&mut self.marks, Mark::Plus);
                let test = take_expr(&mut self.exprs);
                let of = take_boxed_event(alloc, &mut self.events)?;
                self.events.push(EventExpr::Masked(of, test))
            }
            Action::NotEvent => {
                take(&mut self.marks, Mark::Plus);
                let of = take_boxed_event(alloc, &mut self.events)?;
                self.events.push(EventExpr::Not(of))
            }
            Action::AndEvents => {
                let (left, right) = take_two(alloc, &mut self.events)?;
                self.events.push(EventExpr::And(left, right))
            }
            Action::OrEvents => {
                let (left, right) = take_two(alloc, &mut self.events)?;
                self.events.push(EventExpr::Or(left, right))
            }
            Action::Relative => {
                let (left, right) = take_two(alloc, &mut self.events)?;
                self.events.push(EventExpr::Relative(left, right))
            }
            Action::Prior => {
                let (left, right) = take_two(alloc, &mut self.events)?;
                self.events.push(EventExpr::Prior(left, right))
            }
            Action::Sequence => {
                let (left, right) = take_two(alloc, &mut self.events)?;
                self.events.push(EventExpr::Sequence(left, right))
            }
            Action::RelPlus => {
                take_name(alloc, &mut self.names)?;
                let of = take_boxed_event(alloc, &mut self.events)?;
                self.events.push(EventExpr::RelPlus(of))
            }
            Action::Pipe => {
                take_name(alloc, &mut self.names)?;
                let (left, right) = take_two(alloc, &mut self.events)?;
                self.events.push(EventExpr::Pipe(left, right))
            }
            Action::Choose => {
                let count = take_count(&mut self.leaves);
                let of = take_boxed_event(alloc, &mut self.events)?;
                self.events.push(EventExpr::Choose(count, of))
            }
            Action::Every => {
                let count = take_count(&mut self.leaves);
                let of = take_boxed_event(alloc, &mut self.events)?;
                self.events.push(EventExpr::Every(count, of))
            }
            Action::Fa => {
                let (first, second, third) = take_three(alloc, &mut self.events)?;
                self.events.push(EventExpr::Fa(first, second, third))
            }
            Action::FaAbs => {
                take_name(alloc, &mut self.names)?;
                let (first, second, third) = take_three(alloc, &mut self.events)?;
                self.events.push(EventExpr::FaAbs(first, second, third))
            }
            _ => self.build_kind(alloc, action),
        }
    }

    // Makes what an action of kinds says.
    #[tactic(auto, unfolding(crate::specs::Built::built_kind))]
    fn build_kind(&mut self, alloc: Global, action: Action) -> Result<(), AllocError>
        ensures { OnOk result (self.new ≡ built_kind action self.old) }
    {
        match action {
            Action::AfterCreate => self.kinds.push(Kind::Create),
            Action::BeforeDelete => self.kinds.push(Kind::Delete),
            Action::AfterMethod => {
                let method = take_name(alloc, &mut self.names)?;
                self.kinds.push(Kind::After(method))
            }
            Action::BeforeMethod => {
                let method = take_name(alloc, &mut self.names)?;
                self.kinds.push(Kind::Before(method))
            }
            Action::AfterTBegin => self.kinds.push(Kind::TBegin),
            Action::BeforeTComplete => self.kinds.push(Kind::TComplete),
            Action::AfterTCommit => self.kinds.push(Kind::TCommit),
            Action::AfterTAbort => self.kinds.push(Kind::TAbort),
            Action::AfterNewVersion => self.kinds.push(Kind::NewVersion),
            Action::BeforeDropVersion => self.kinds.push(Kind::DropVersion),
            Action::TimeAt => {
                let second = take_second(&mut self.leaves);
                self.kinds.push(Kind::TimeAt(second))
            }
            Action::TimeEvery => {
                let seconds = take_count(&mut self.leaves);
                self.kinds.push(Kind::TimeEvery(seconds))
            }
            _ => self.build_class(alloc, action),
        }
    }
}
