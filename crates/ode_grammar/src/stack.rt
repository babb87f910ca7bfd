//! A stack.
ghost use Rattle.std.specs.Prelude.{◌≡◌, [], ◌∷◌, ◌++◌, length, slice_get, ◌↔◌, IsTrue, IfOk, IfSome, IfNone, OnOk, OnErr, None, Some};

use std::alloc::{AllocError, Global};
use std::marker::Model;

/// A `Vec` that contracts see as the list of its elements, the last one first.
#[derive(Drop)]
pub struct Stack<T> {
    items: Vec<T>,
}

impl<T> Model for Stack<T> {
    ghost use Rattle.std.specs.Prelude.{List, reverse};
    ghost use Rattle.std.specs.Coded.{coded_list};

    ghost Value = { List T };

    ghost coded = { coded_list T.code };

    ghost view = { λ it. reverse it.items.items };
}

impl<T> Stack<T> {
    /// An empty stack, which takes no memory.
    pub fn new(alloc: Global) -> Stack<T>
        ensures { result ≡ [] }
    {
        Stack {
            items: Vec::new(alloc),
        }
    }
}

impl<T: Drop> Stack<T> {
    /// Puts an element on top.
    pub fn push(&mut self, item: T) -> Result<(), AllocError>
        ensures { OnOk result (self.new ≡ item ∷ self.old) }
    {
        self.items.push(item)?;
        Ok(())
    }

    /// Takes the element on top away.
    pub fn pop(&mut self) -> Option<T>
        ensures some { IfSome result (λ x. self.old ≡ x ∷ self.new) }
        ensures none { IfNone result (self.old ≡ []) }
        ensures empty { IfNone result (self.new ≡ []) }
    {
        self.items.pop()
    }
}

impl<T: Copy> Stack<T> {
    /// Puts these elements on top, so that the first of them is the topmost.
    pub fn push_all(&mut self, items: &[T]) -> Result<(), AllocError>
        ensures { OnOk result (self.new ≡ items.now ++ self.old) }
    {
        let mut left = items.len();
        while left > 0 {
            left -= 1;
            self.items.push(items[left])?;
        }
        Ok(())
    }
}

impl<T: Copy> Stack<T> {
    /// A stack of the same elements.
    pub fn copy(&self, alloc: Global) -> Result<Stack<T>, AllocError>
        ensures { IfOk result (λ s. s ≡ self.now) }
    {
        let items = Vec::from_slice(alloc, self.items.as_slice())?;
        Ok(Stack { items })
    }
}

impl<T> Stack<T> {
    /// The element on top.
    pub fn peek(&self) -> Option<&T>
        ensures some { IfSome result (λ x. slice_get self.now 0 ≡ Some x.now) }
        ensures none { IfNone result (self.now ≡ []) }
    {
        self.items.last()
    }
}
