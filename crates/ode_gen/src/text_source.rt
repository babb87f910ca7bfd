//! A text as the source of a script.
ghost use Rattle.std.specs.Prelude.{◌≡◌, ◌<◌, ◌≤◌, [], List as Items, ℕ, Some, min, length, take, drop, IsErr, IfOk};
ghost use Rattle.std.specs.Io.{ReadsAtMost};
ghost use Rattle.std.specs.Io.KnownBytes.{ReadConsumes};
ghost use Rattle.ode_host.specs.Causes.{RoseIf};

use ode_host::{Failed, Source};
use ode_value::List;

/// A text that is read once, from front to end. No read of it fails.
#[derive(Drop)]
pub struct TextSource {
    text: List<u8>,
    at: usize,
    ghost within: { at ≤ length text },
}

impl TextSource {
    ghost use Rattle.ode_gen.specs.Reading.{left_of};

    /// A source of which nothing is read.
    pub fn new(text: List<u8>) -> TextSource
        ensures unread { left_of result ≡ text }
    {
        TextSource { text, at: 0 }
    }
}

// Copies as many bytes as there are and as fit.
fn copy_some(from: &[u8], to: &mut [u8]) -> usize
    ensures count { result ≡ min (length from.now) (length to.old) }
    ensures bytes { take result to.new ≡ take result from.now }
    ensures end { result ≡ 0 → 0 < length to.old → from.now ≡ [] }
{
    let count = from.len().min(to.len());
    to[..count].copy_from_slice(&from[..count]);
    count
}

impl Source for TextSource {
    ghost use Rattle.ode_gen.specs.Reading.{left_of};

    ghost left = { λ s. Some (left_of s) };

    ghost faults = { λ s. 0 };

    fn read(&mut self, to: &mut [u8]) -> Result<usize, Failed>
        requires { 0 < length to.old }
        ensures bound { ReadsAtMost result to.new }
        ensures bytes { ReadConsumes (Some (left_of self.old)) (Some (left_of self.new)) result to.new }
        ensures cause { RoseIf (IsErr result) 0 0 }
        ensures count { IfOk result (λ n. n ≡ min (length (left_of self.old)) (length to.old)) }
        ensures never_fails { IsErr result → ⊥ }
    {
        let count = copy_some(&self.text.as_slice()[self.at..], to);
        self.at += count;
        Ok(count)
    }
}
