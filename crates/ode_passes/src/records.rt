//! Records, decoded, in the order of their keys.
ghost use Rattle.ode_passes.specs.Records.{record_in, with_record};
ghost use Rattle.ode_passes.specs.Answers.{Answers, Leaves};
ghost use Rattle.std.specs.Prelude.{IsErrOf};

use crate::cause::Cause;
use crate::error::OpenError;
use crate::walking::Pass;
use ode_codec::{Record, decode};
use ode_value::{Key, List};
use std::alloc::Global;

/// Records with their keys, in the order of these.
pub type Found = List<(Key, Record)>;

/// The record of a key and a value.
pub fn record_in(alloc: Global, key: Key, value: &[u8]) -> Result<Record, OpenError>
    ensures meant { Answers (record_in (key, value.now)) result }
    ensures calm { IsErrOf result OpenError.DiskFault → ⊥ }
{
    match decode(alloc, key, value)? {
        Some(record) => Ok(record),
        None => Err(OpenError::BadFile(Cause::Record(key))),
    }
}

impl Pass for List<(Key, Record)> {
    ghost use Rattle.ode_passes.specs.Records.{with_record};

    ghost takes = { with_record };

    fn take(&mut self, alloc: Global, key: Key, value: &[u8]) -> Result<(), OpenError> {
        match decode(alloc, key, value)? {
            Some(record) => {
                self.push((key, record))?;
                Ok(())
            }
            None => Err(OpenError::BadFile(Cause::Record(key))),
        }
    }
}
