//! Standard input.
ghost use Rattle.std.specs.Prelude.{None};

use crate::faults::raise;
use crate::retry::read_again;
use crate::{Failed, Source};

/// Standard input, which doesn't tell what is left.
#[derive(Drop)]
pub struct StdSource<'a, R: Input> {
    rt: &'a R,
    faults: u64,
}

impl<'a, R: Input> StdSource<'a, R> {
    /// Nothing is read yet.
    pub fn new(rt: &'a R) -> StdSource<'a, R> {
        StdSource { rt, faults: 0 }
    }
}

impl<'a, R: Input> Source for StdSource<'a, R> {
    ghost left = { λ _. None };

    ghost faults = { λ s. s.faults };

    fn read(&mut self, to: &mut [u8]) -> Result<usize, Failed> {
        match read_again(&mut self.rt.reader(), to) {
            Ok(count) => Ok(count),
            Err(_) => {
                raise(&mut self.faults);
                Err(Failed)
            }
        }
    }
}
