//! A number that only proofs read.
ghost use Rattle.std.specs.Prelude.{◌≡◌, ℕ, ◌+◌};
ghost use Rattle.std.specs.Borrow.{ftrue};

use std::marker::Model;

/// A whole number that clauses read, however large. It takes no memory, and its calls do nothing.
#[derive(Drop)]
pub struct Count {
    pub ghost value: { ℕ },
}

impl Model for Count {
    ghost also_owns = { λ _. ftrue };
}

impl Count {
    /// Zero.
    pub fn new() -> Count
        ensures { result.value ≡ 0 }
    {
        Count {}
    }

    /// The count, higher by this much.
    pub fn plus(&self, _by: usize) -> Count
        ensures { result.value ≡ self.now.value + _by }
    {
        Count {}
    }
}
