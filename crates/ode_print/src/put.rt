//! Bytes at the end of a text.
ghost use Rattle.std.specs.Prelude.{◌≡◌, ◌++◌, cond, codes, OnOk};
ghost use Rattle.std.specs.Prelude.{[]};

use std::alloc::AllocError;

/// Puts these bytes at the end.
pub fn put(out: &mut Vec<u8>, text: &[u8]) -> Result<(), AllocError>
    ensures { OnOk result (out.new.items ≡ out.old.items ++ text.now) }
{
    out.extend_from_slice(text)
}

/// Puts two texts at the end.
pub fn put_two_texts(out: &mut Vec<u8>, first: &[u8], second: &[u8]) -> Result<(), AllocError>
    ensures { OnOk result (out.new.items ≡ out.old.items ++ (first.now ++ second.now)) }
{
    put(out, first)?;
    put(out, second)
}

/// Puts three texts at the end.
pub fn put_three_texts(
    out: &mut Vec<u8>,
    first: &[u8],
    second: &[u8],
    third: &[u8],
) -> Result<(), AllocError>
    ensures { OnOk result (out.new.items ≡ out.old.items ++ (first.now ++ second.now ++ third.now)) }
{
    put_two_texts(out, first, second)?;
    put(out, third)
}
