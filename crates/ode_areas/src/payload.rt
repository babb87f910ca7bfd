//! The changes of a payload are made.
ghost use Rattle.std.specs.Prelude.{◌≡◌, IfOk, OnOk};
ghost use Rattle.std.specs.Bool.{OnFalse, OnTrue};
ghost use Rattle.std.specs.Option.{option_map};
ghost use Rattle.ode_keep.specs.Entries.{Changes, applied, changed};
ghost use Rattle.ode_keep.specs.Payloads.{FitsChange, IsPayload};

use crate::map::Map;
use ode_host::take_u32;
use ode_keep::{COUNT_LEN, FirstChange, next_change};
use ode_value::List;
use std::alloc::{AllocError, Global};

// Makes a change.
fn make(alloc: Global, change: FirstChange<'_>, map: &mut Map) -> Result<(), AllocError>
    requires { FitsChange (change.key, option_map (λ v. v.now) change.value) }
    ensures ok { OnOk result (map.new ≡ changed map.old change.entry.key (option_map (λ v. v.now) change.entry.value)) }
{
    match change.value {
        None => map.remove(change.key),
        Some(value) => {
            let value = List::from_slice(alloc, value)?;
            map.put(change.key, value)?;
        }
    }
    Ok(())
}

/// Makes the changes of a payload, and answers whether it has their form. Where it hasn't, the map is left in between.
pub(crate) fn replay(alloc: Global, payload: &[u8], map: &mut Map) -> Result<bool, AllocError>
    ensures whole { IfOk result (λ b. OnTrue b ((changes : Changes) × IsPayload changes payload.now
        × (map.new ≡ applied changes map.old))) }
    ensures other { IfOk result (λ b. OnFalse b ((changes : Changes) → IsPayload changes payload.now → ⊥)) }
{
    let Some(count) = take_u32(payload, 0) else {
        return Ok(false);
    };
    let (_, mut rest) = payload.split_at(COUNT_LEN);
    let mut last = None;
    let mut made = 0;
    'changes: while made < count {
        let Some(change) = next_change(rest, last) else {
            return Ok(false);
        };
        make(alloc, change, map)?;
        rest = change.rest;
        last = Some(change.key);
        made += 1;
    }
    Ok(rest.is_empty())
}
