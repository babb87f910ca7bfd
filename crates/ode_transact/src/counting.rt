//! Counters with which a transaction may begin.
ghost use Rattle.std.specs.Prelude.{◌≡◌, ◌<◌, ◌≤◌, ◌-◌, IfErr, IfOk, cond, true};
ghost use Rattle.ode_codec.specs.Rules.{IsClock, IsKeptCounters};
ghost use Rattle.ode_overlay.specs.Layers as layers;
ghost use Rattle.ode_overlay.specs.Layers.{IsGeneration};
ghost use Rattle.ode_transact.specs.Beginning.{comes_from_entry};
ghost use Rattle.ode_value.specs.Keys.{counters_key};
ghost use Rattle.ode_value.specs.Limits.{queue_limit, transaction_limit};

use crate::error::EngineError;
use ode_codec::Counters;
use ode_overlay::{Origin, Overlay};
use ode_value::Key;
use ode_value::limits::{NUMBER_LIMIT, QUEUE_LIMIT, TRANSACTION_LIMIT};
use std::alloc::Global;

fn is_next(limit: u64, number: u64) -> bool
    ensures yes { result ≡ true → (1 ≤ number) × (number ≤ limit) }
    ensures no { 1 ≤ number → number ≤ limit → result ≡ true }
{
    1 <= number && number <= limit
}

// Whether there is no clock, or one that is set.
fn is_clock(counters: &Counters) -> bool
    ensures yes { result ≡ true → IsClock counters.now.clock_set counters.now.instant counters.now.object counters.now.place }
    ensures no { IsClock counters.now.clock_set counters.now.instant counters.now.object counters.now.place → result ≡ true }
{
    counters.clock_set || counters.instant == 0 && counters.object == 0 && counters.place == 0
}

fn are_kept(counters: &Counters) -> bool
    ensures yes { result ≡ true → IsKeptCounters counters.now }
    ensures no { IsKeptCounters counters.now → result ≡ true }
{
    is_next(NUMBER_LIMIT, counters.next_number)
        && is_next(TRANSACTION_LIMIT, counters.next_transaction)
        && is_next(NUMBER_LIMIT, counters.next_entry)
        && is_clock(counters)
}

// Whether a transaction may begin with these counters, where so many entries wait.
#[tactic(auto, unfolding(ode_value::specs::Limits::queue_limit))]
fn may_begin(counters: &Counters, waits: u32) -> bool
    ensures yes { result ≡ true → IsKeptCounters counters.now × (counters.now.next_transaction < transaction_limit) × (waits ≤ queue_limit) }
    ensures no { IsKeptCounters counters.now → counters.now.next_transaction < transaction_limit → waits ≤ queue_limit → result ≡ true }
{
    are_kept(counters) && counters.next_transaction < TRANSACTION_LIMIT && waits <= QUEUE_LIMIT
}

// How many entries wait while one of so many runs, or none.
fn waits(origin: &Origin, queued: u32) -> u32
    ensures { result ≡ cond (comes_from_entry origin.now) (queued - 1) queued }
{
    match origin {
        Origin::Entry { .. } => queued.saturating_sub(1),
        _ => queued,
    }
}

/// The overlay at the start of a transaction with these counters, where so many entries are queued and it may begin.
pub(crate) fn begin_counted(
    alloc: Global,
    counters: Counters,
    queued: u32,
    origin: Origin,
) -> Result<Overlay, EngineError>
    requires generation { IsGeneration origin }
    ensures begun { IfOk result (λ overlay. overlay ≡ layers.begun counters (cond (comes_from_entry origin) (queued - 1) queued) origin) }
    ensures at { IfErr result (λ why. why ≡ EngineError.Damaged counters_key) }
    ensures refused { IfErr result (λ _. IsKeptCounters counters → counters.next_transaction < transaction_limit → cond (comes_from_entry origin) (queued - 1) queued ≤ queue_limit → ⊥) }
{
    let waits = waits(&origin, queued);
    if may_begin(&counters, waits) {
        Ok(Overlay::begin(alloc, counters, waits, origin))
    } else {
        Err(EngineError::Damaged {
            key: Key {
                kind: Key::COUNTERS,
                a: 0,
                b: 0,
            },
        })
    }
}
