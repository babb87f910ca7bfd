//! The trait of keepers that have room for every database.
ghost use Rattle.std.specs.Prelude.{◌≤◌};

use crate::keep::Keep;
use ode_host::Host;

/// A keeper that takes the records of every database.
pub trait Roomy<H: Host>: Keep<H> {
    ghost use Rattle.ode_keep.specs.declared.limits.TheConstants.{MAX_PAGED_BYTES};

    /// It takes `MAX_PAGED_BYTES` at least.
    ghost roomy: { (keeper : Self) → MAX_PAGED_BYTES ≤ Self.most keeper };
}
