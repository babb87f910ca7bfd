//! Firings are collected for the queue; and how much the records grow.
ghost use Rattle.std.specs.Prelude.{◌≡◌, ◌+◌, false, Ok, IfOk, OnErr, length, nat_le, nat_lt, pos};
ghost use Rattle.ode_objects.specs.Weights.{capped};
ghost use Rattle.ode_overlay.specs.Layers.{generation_of, key_count, queueing};
ghost use Rattle.ode_value.specs.Limits.{change_limit, generation_limit, number_limit, queue_limit};
ghost use Rattle.ode_overlay.specs.Settling.{bytes_after, bytes_before, collect, growth_told, has_room, within};

use crate::error::OverlayError;
use crate::overlay::{Collected, Overlay};
use ode_codec::Entry;
use ode_host::Host;
use ode_keep::Keep;
use ode_objects::{Heap, KeptArgs};
use ode_types::Classes;
use ode_value::limits::{GENERATION_LIMIT, NUMBER_LIMIT, QUEUE_LIMIT};
use std::alloc::AllocError;

// A number, or the greatest of 63 bits.
fn within(bytes: u64) -> i64
    ensures { result ≡ pos (within bytes) }
{
    i64::try_from(bytes).unwrap_or(i64::MAX)
}

impl Overlay {
    // Whether there is a generation for one more firing.
    #[tactic(auto, unfolding(ode_value::specs::Limits::generation_limit))]
    fn has_generation(&self) -> bool
        ensures { result ≡ nat_le (generation_of self.now.origin + 1) generation_limit }
    {
        self.generation() < GENERATION_LIMIT
    }

    // Whether there is a key for it.
    #[tactic(auto, unfolding(ode_value::specs::Limits::change_limit))]
    fn has_key(&self) -> bool
        ensures { result ≡ nat_lt (key_count self.now.keys self.now) change_limit }
    {
        self.are_few(self.keys.len() + 1)
    }

    // Whether there is a place in the queue.
    #[tactic(auto, unfolding(ode_value::specs::Limits::change_limit, ode_value::specs::Limits::queue_limit))]
    fn has_place(&self) -> bool
        ensures { result ≡ nat_le (self.now.queued + length self.now.collected + 1) queue_limit }
    {
        self.queued as usize + self.collected.len() < QUEUE_LIMIT as usize
    }

    // Whether there is a number of an entry.
    fn has_entry_number(&self) -> bool
        ensures { result ≡ nat_lt (self.now.first.next_entry + length self.now.collected) number_limit }
    {
        self.first.next_entry + (self.collected.len() as u64) < NUMBER_LIMIT
    }

    // Whether there are a generation, a key, a place in the queue and a number for one more firing.
    fn has_room(&self) -> bool
        ensures { result ≡ has_room self.now }
    {
        self.has_generation() && self.has_key() && self.has_place() && self.has_entry_number()
    }

    // A firing isn't collected.
    fn drop_firing(&mut self) -> bool
        ensures { (result ≡ false) × (self.new ≡ queueing self.old) }
    {
        self.met_queue = true;
        false
    }

    /// Collects a firing for the queue, where there are a generation, a key, a place and a number for it. Whether it did. It stays
    /// at an abort where it is independent.
    #[tactic(auto, unfolding(crate::specs::Settling::collect, ode_value::specs::Limits::change_limit))]
    pub fn collect(&mut self, entry: Entry, keep_on_abort: bool) -> Result<bool, AllocError>
        ensures acts { IfOk result (λ b. (b, self.new) ≡ collect entry keep_on_abort self.old) }
        ensures err { OnErr result (self.new ≡ self.old) }
    {
        if !self.has_room() {
            return Ok(self.drop_firing());
        }
        let Entry {
            object,
            class,
            trigger,
            generation,
            args,
        } = entry;
        let Some(args) = KeptArgs::new(args) else {
            return Ok(self.drop_firing());
        };
        self.collected.push(Collected {
            object,
            class,
            trigger,
            generation,
            args,
            independent: keep_on_abort,
        })?;
        self.gathered += 1;
        self.met_queue = true;
        Ok(true)
    }

    // What the records of changed objects take, or the greatest number.
    fn bytes_after(&self, classes: &Classes) -> u64
        ensures { result ≡ capped (bytes_after classes.now self.now) }
    {
        let mut bytes: u64 = 0;
        for (_, tracked) in &self.objects {
            bytes = bytes.saturating_add(tracked.weight_after(classes));
        }
        bytes
    }

    // What they took when the transaction began.
    fn bytes_before(&self, classes: &Classes) -> u64
        ensures { result ≡ capped (bytes_before classes.now self.now) }
    {
        let mut bytes: u64 = 0;
        for (_, tracked) in &self.objects {
            bytes = bytes.saturating_add(tracked.weight_before(classes));
        }
        bytes
    }

    /// By how many bytes the records grow that are not entries, where a sum counts as 2^63 - 1 at most. Changed objects are weighed, and no
    /// others.
    pub fn grown<H: Host, K: Keep<H>>(
        &self,
        classes: &Classes,
        _heap: &mut Heap<K>,
        _host: &mut H,
    ) -> Result<i64, OverlayError>
        ensures grows { result ≡ Ok (growth_told classes.now self.now) }
        ensures heap { _heap.new ≡ _heap.old }
        ensures host { _host.new ≡ _host.old }
    {
        Ok(within(self.bytes_after(classes)) - within(self.bytes_before(classes)))
    }
}
