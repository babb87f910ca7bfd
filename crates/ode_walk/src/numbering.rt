//! A built state for each stored one.
ghost use Rattle.std.specs.Prelude.{◌≡◌, ℕ, ◌<◌, IfOk, IsSome, None, Option as Maybe, Some, length, replicate, slice_index_or};
ghost use Rattle.ode_walk.specs.Search.{IsMet, visit_at};

use crate::visit::Visit;
use ode_value::List;
use std::alloc::{AllocError, Global};

// For each of so many states nothing.
fn none_given(alloc: Global, states: u16) -> Result<List<Option<u16>>, AllocError>
    ensures { IfOk result (λ numbers. numbers ≡ replicate states None) }
{
    let numbers = vec![in alloc; None; usize::from(states)]?;
    Ok(List::from_vec(numbers))
}

/// For each of so many stored states the built state of one of its visits, where it has one.
pub(crate) fn numbers_of(
    alloc: Global,
    states: u16,
    visits: &[Visit],
) -> Result<List<Option<u16>>, AllocError>
    requires { (k : ℕ) → (visit_at visits.now k).stored < states }
    ensures length { IfOk result (λ numbers. length numbers ≡ states) }
    ensures given { IfOk result (λ numbers. (q r : ℕ) → slice_index_or numbers q None ≡ Some r → IsMet visits.now q r) }
    ensures each { IfOk result (λ numbers. (k : ℕ) → k < length visits.now → IsSome (slice_index_or numbers (visit_at visits.now k).stored None)) }
{
    let mut numbers = none_given(alloc, states)?;
    for visit in visits {
        numbers.set(usize::from(visit.stored), Some(visit.built));
    }
    Ok(numbers)
}
