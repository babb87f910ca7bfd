//! The key that a batch is damaged at.
ghost use Rattle.std.specs.Prelude.{◌≡◌};
ghost use Rattle.ode_heap.specs.Staging.{first_key};

use ode_keep::Batch;
use ode_value::Key;

// The least key of a batch, or that of the counters where it has none.
pub(crate) fn first_key(batch: &Batch) -> Key
    ensures { result ≡ first_key batch.now }
{
    match batch.iter().next() {
        Some(change) => change.key,
        None => Key {
            kind: Key::COUNTERS,
            a: 0,
            b: 0,
        },
    }
}
