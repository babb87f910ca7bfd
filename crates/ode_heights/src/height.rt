//! Heights.
ghost use Rattle.std.specs.Prelude.{◌≡◌, ◌≤◌, ◌+◌, ◌∷◌, nat_le, OnOk, IfOk};
ghost use Rattle.ode_grammar.specs.Stacks.{top, rest};
ghost use Rattle.ode_heights.specs.Heights.{leaf, none, greatest, greatest_own, highest, raised, tops, above};

use crate::effect::Effect;
use ode_grammar::Stack;
use std::alloc::{AllocError, Global};

/// The height above which no text is read.
pub const HEIGHT_LIMIT: usize = 64;

/// How high a part is, and whether it is a leaf or brackets, round which brackets count one.
#[derive(Clone, Copy, Debug, PartialEq, Eq)]
pub struct Height {
    pub own: usize,
    pub bare: bool,
}

/// The heights of the parts that were read: of expressions and events, and of all others.
#[derive(Drop)]
pub struct Heights {
    pub shaped: Stack<Height>,
    pub plain: Stack<usize>,
}

/// Takes the height on top away.
#[tactic(auto, using(crate::proofs::HeightLaws::top_laws))]
fn pop(heights: &mut Stack<Height>) -> Height
    requires { greatest_own heights.old ≤ HEIGHT_LIMIT }
    ensures result { result ≡ top leaf heights.old }
    ensures new { heights.new ≡ rest heights.old }
    ensures own { result.own ≤ HEIGHT_LIMIT }
    ensures others { greatest_own heights.new ≤ HEIGHT_LIMIT }
{
    match heights.pop() {
        Some(height) => height,
        None => Height { own: 1, bare: true },
    }
}

/// Takes the number on top away.
#[tactic(auto, using(crate::proofs::HeightLaws::top_laws))]
fn pop_number(heights: &mut Stack<usize>) -> usize
    requires { greatest heights.old ≤ HEIGHT_LIMIT }
    ensures result { result ≡ top 0 heights.old }
    ensures new { heights.new ≡ rest heights.old }
    ensures own { result ≤ HEIGHT_LIMIT }
    ensures others { greatest heights.new ≤ HEIGHT_LIMIT }
{
    match heights.pop() {
        Some(height) => height,
        None => 0,
    }
}

impl Heights {
    /// No heights.
    pub fn new(alloc: Global) -> Heights
        ensures { result ≡ none }
    {
        Heights {
            shaped: Stack::new(alloc),
            plain: Stack::new(alloc),
        }
    }

    /// The same heights.
    pub fn copy(&self, alloc: Global) -> Result<Heights, AllocError>
        ensures { IfOk result (λ copy. copy ≡ self.now) }
    {
        let shaped = self.shaped.copy(alloc)?;
        let plain = self.plain.copy(alloc)?;
        Ok(Heights { shaped, plain })
    }

    /// Whether the heights on top are within the limit.
    pub fn tops_fit(&self) -> bool
        ensures { result ≡ nat_le (tops self.now) HEIGHT_LIMIT }
    {
        let shaped = match self.shaped.peek() {
            Some(height) => height.own,
            None => 1,
        };
        let plain = match self.plain.peek() {
            Some(height) => *height,
            None => 0,
        };
        shaped.max(plain) <= HEIGHT_LIMIT
    }

    fn push_above(&mut self, parts: usize) -> Result<(), AllocError>
        requires { parts ≤ HEIGHT_LIMIT }
        ensures { OnOk result (self.new ≡ record self.old { shaped = above parts ∷ self.old.shaped }) }
    {
        self.shaped.push(Height {
            own: parts + 1,
            bare: false,
        })
    }

    /// The heights after an action with this effect.
    #[tactic(auto, unfolding(crate::specs::Heights::raised))]
    pub fn raise(&mut self, effect: Effect) -> Result<(), AllocError>
        requires { highest self.old ≤ HEIGHT_LIMIT }
        ensures { OnOk result (self.new ≡ raised effect self.old) }
    {
        match effect {
            Effect::Nothing => Ok(()),
            Effect::Leaf => self.shaped.push(Height { own: 1, bare: true }),
            Effect::Pair => {
                let inner = pop(&mut self.shaped);
                let own = if inner.bare { inner.own + 1 } else { inner.own };
                self.shaped.push(Height { own, bare: true })
            }
            Effect::Over => {
                let part = pop(&mut self.shaped);
                self.push_above(part.own)
            }
            Effect::OverTwo => {
                let right = pop(&mut self.shaped);
                let left = pop(&mut self.shaped);
                self.push_above(left.own.max(right.own))
            }
            Effect::OverThree => {
                let third = pop(&mut self.shaped);
                let second = pop(&mut self.shaped);
                let first = pop(&mut self.shaped);
                self.push_above(first.own.max(second.own.max(third.own)))
            }
            Effect::Mask => {
                let test = pop(&mut self.shaped);
                self.push_above(1.max(test.own))
            }
            Effect::Plain => {
                let part = pop(&mut self.shaped);
                self.plain.push(part.own)
            }
            Effect::Zero => self.plain.push(0),
            Effect::Body => self.plain.push(1),
            Effect::Join => {
                let part = pop(&mut self.shaped);
                let list = pop_number(&mut self.plain);
                self.plain.push(list.max(part.own))
            }
            Effect::JoinBody => {
                let body = pop_number(&mut self.plain);
                let list = pop_number(&mut self.plain);
                self.plain.push(list.max(body))
            }
            Effect::JoinBoth => {
                let part = pop(&mut self.shaped);
                let body = pop_number(&mut self.plain);
                let list = pop_number(&mut self.plain);
                self.plain.push(part.own.max(list.max(body)))
            }
            Effect::Two => {
                let second = pop(&mut self.shaped);
                let first = pop(&mut self.shaped);
                self.plain.push(first.own.max(second.own))
            }
            Effect::Dotted => {
                let reference = pop(&mut self.shaped);
                let args = pop_number(&mut self.plain);
                self.plain.push((reference.own + 1).max(args))
            }
            Effect::Append => {
                let statement = pop_number(&mut self.plain);
                let body = pop_number(&mut self.plain);
                self.plain.push(body.max(statement + 1))
            }
        }
    }
}
