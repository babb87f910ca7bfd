//! The numbers of calls.
ghost use Rattle.std.specs.Prelude.{◌≡◌, ◌+◌, ◌-◌, ◌^◌, ◌≤◌, ◌↔◌, min, IsTrue, Contains};

use crate::count::Count;

/// Numbers calls from 0, without end. Past 2^128 - 1 the number that the machine holds stands still, and only the
/// exact one goes on: no such number is in a list of `u64`, and each is above every `u64`.
#[derive(Drop)]
pub struct Numbering {
    held: u128,
    pub exact: Count,
    ghost same: { held ≡ min exact.value (2 ^ 128 - 1) },
}

impl Numbering {
    /// The next call has the number 0.
    pub fn new() -> Numbering
        ensures { result.exact.value ≡ 0 }
    {
        Numbering {
            held: 0,
            exact: Count::new(),
        }
    }

    /// Goes on to the next call.
    pub fn advance(&mut self)
        ensures { self.new.exact.value ≡ self.old.exact.value + 1 }
    {
        self.held = self.held.saturating_add(1);
        self.exact = self.exact.plus(1);
    }

    /// Whether the next call's number is one of these.
    pub fn is_in(&self, numbers: &[u64]) -> bool
        ensures { IsTrue result ↔ Contains numbers.now self.now.exact.value }
    {
        match u64::try_from(self.held) {
            Ok(number) => numbers.contains(&number),
            Err(_) => false,
        }
    }

    /// Whether the next call's number is this or a later one.
    pub fn is_from(&self, number: u64) -> bool
        ensures { IsTrue result ↔ (number ≤ self.now.exact.value) }
    {
        self.held >= u128::from(number)
    }

    /// Whether the next call's number is this one.
    pub fn is_at(&self, number: u64) -> bool
        ensures { IsTrue result ↔ (self.now.exact.value ≡ number) }
    {
        self.held == u128::from(number)
    }
}
