//! Numbers in lines.
ghost use Rattle.std.specs.Prelude.{◌≡◌, ◌++◌, OnOk};
ghost use Rattle.ode_value.specs.Decimal.{digits_of};

use std::alloc::{AllocError, Global};

/// A text, and a number behind it.
pub(crate) fn put_number(
    alloc: Global,
    text: &mut Vec<u8>,
    front: &[u8],
    number: u64,
) -> Result<(), AllocError>
    ensures { OnOk result (text.new.items ≡ text.old.items ++ (front.now ++ digits_of number)) }
{
    let digits = number.to_string(alloc)?;
    text.extend_from_slice(front)?;
    text.extend_from_slice(digits.as_bytes())
}
