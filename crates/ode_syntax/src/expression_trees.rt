//! Expressions, and what each action makes.
ghost use Rattle.std.specs.Prelude.{◌≡◌, IfOk, OnOk};
ghost use Rattle.ode_grammar.specs.Stacks.{rest};
ghost use Rattle.ode_syntax.specs.Built.{binary_of, built, tree, unary_of};

use crate::top::{take, take_boxed, take_expr, take_name};
use crate::trees::Trees;
use ode_grammar::{Action, Stack};
use ode_lex::Mark;
use ode_value::{BinOp, Boxed, Expr, UnOp};
use std::alloc::{AllocError, Global};

// The operator of two operands that a mark is.
fn binary_of(mark: Mark) -> BinOp
    ensures { result ≡ binary_of mark }
{
    match mark {
        Mark::Equal => BinOp::Eq,
        Mark::NotEqual => BinOp::Ne,
        Mark::Less => BinOp::Lt,
        Mark::LessEqual => BinOp::Le,
        Mark::Greater => BinOp::Gt,
        Mark::GreaterEqual => BinOp::Ge,
        Mark::Minus => BinOp::Sub,
        Mark::Star => BinOp::Mul,
        Mark::Slash => BinOp::Div,
        Mark::Percent => BinOp::Rem,
        Mark::AndAnd => BinOp::And,
        Mark::OrOr => BinOp::Or,
        _ => BinOp::Add,
    }
}

fn unary_of(mark: Mark) -> UnOp
    ensures { result ≡ unary_of mark }
{
    match mark {
        Mark::Not => UnOp::Not,
        _ => UnOp::Minus,
    }
}

// Takes the two expressions on top away, the lower one first.
fn take_operands(
    alloc: Global,
    exprs: &mut Stack<Expr>,
) -> Result<(Boxed<Expr>, Boxed<Expr>), AllocError>
    ensures top { IfOk result (λ two. two.1 ≡ tree exprs.old) }
    ensures second { IfOk result (λ two. two.0 ≡ tree (rest exprs.old)) }
    ensures rest { OnOk result (exprs.new ≡ rest (rest exprs.old)) }
{
    let right = take_boxed(alloc, exprs)?;
    let left = take_boxed(alloc, exprs)?;
    Ok((left, right))
}

impl Trees {
    /// Makes what the action says.
    #[tactic(auto, unfolding(crate::specs::Built::built))]
    pub fn build(&mut self, alloc: Global, action: Action) -> Result<(), AllocError>
        ensures { OnOk result (self.new ≡ built action self.old) }
    {
        match action {
            Action::Leaf => {
                let leaf = take_expr(&mut self.leaves);
                self.exprs.push(leaf)
            }
            Action::Variable => {
                let name = take_name(alloc, &mut self.names)?;
                self.exprs.push(Expr::Name(name))
            }
            Action::Field => {
                let name = take_name(alloc, &mut self.names)?;
                let of = take_boxed(alloc, &mut self.exprs)?;
                self.exprs.push(Expr::Field(of, name))
            }
            Action::Version => {
                let of = take_boxed(alloc, &mut self.exprs)?;
                self.exprs.push(Expr::Version(of))
            }
            Action::Sign => {
                let op = unary_of(take(&mut self.marks, Mark::Plus));
                let of = take_boxed(alloc, &mut self.exprs)?;
                self.exprs.push(Expr::Unary(op, of))
            }
            Action::Binary => {
                let op = binary_of(take(&mut self.marks, Mark::Plus));
                let (left, right) = take_operands(alloc, &mut self.exprs)?;
                self.exprs.push(Expr::Binary(op, left, right))
            }
            _ => self.build_right_side(alloc, action),
        }
    }
}
