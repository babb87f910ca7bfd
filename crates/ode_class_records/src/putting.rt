//! A record among changes.
ghost use Rattle.std.specs.Prelude.{◌≡◌, [], ◌∷◌, OnOk};
ghost use Rattle.ode_codec.specs.Rules.{IsCounted};
ghost use Rattle.ode_codec.specs.Spelling.{spelled};
ghost use Rattle.ode_class_records.specs.Puts.{with_rows};

use ode_codec::{Record, encode};
use ode_keep::Batch;
use std::alloc::{AllocError, Global};

/// Puts what a record is spelled as.
pub fn put(alloc: Global, batch: &mut Batch, one: &Record) -> Result<(), AllocError>
    requires { IsCounted one.now }
    ensures { OnOk result (batch.new ≡ with_rows (spelled one.now ∷ []) batch.old) }
{
    let (key, value) = encode(alloc, one)?;
    batch.put(key, value)?;
    Ok(())
}
