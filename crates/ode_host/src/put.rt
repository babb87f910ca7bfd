//! Bytes written over others, and numbers at the end of bytes, the highest byte first.
ghost use Rattle.std.specs.Prelude.{◌≡◌, ◌+◌, ◌≤◌, ◌++◌, [], ◌∷◌, length, take, drop, OnOk, OnErr};
ghost use Rattle.std.specs.Int.{w16, w32, w64, to_be_bytes, cast_unsigned};

use std::alloc::AllocError;

/// Writes bytes over others, from a place on.
pub fn put_over(to: &mut [u8], at: usize, from: &[u8])
    requires { at + length from.now ≤ length to.old }
    ensures { to.new ≡ take at to.old ++ from.now ++ drop (at + length from.now) to.old }
{
    to[at..at + from.len()].copy_from_slice(from);
}

/// Appends the number in one byte. Where there is no memory the bytes stay as they were.
pub fn put_u8(to: &mut Vec<u8>, v: u8) -> Result<(), AllocError>
    ensures ok { OnOk result (to.new.items ≡ to.old.items ++ v ∷ []) }
    ensures err { OnErr result (to.new.items ≡ to.old.items) }
{
    to.push(v)?;
    Ok(())
}

/// Appends the number in two bytes. Where there is no memory the bytes stay as they were.
pub fn put_u16(to: &mut Vec<u8>, v: u16) -> Result<(), AllocError>
    ensures ok { OnOk result (to.new.items ≡ to.old.items ++ to_be_bytes w16 v) }
    ensures err { OnErr result (to.new.items ≡ to.old.items) }
{
    to.extend_from_slice(&v.to_be_bytes())
}

/// Appends the number in four bytes. Where there is no memory the bytes stay as they were.
pub fn put_u32(to: &mut Vec<u8>, v: u32) -> Result<(), AllocError>
    ensures ok { OnOk result (to.new.items ≡ to.old.items ++ to_be_bytes w32 v) }
    ensures err { OnErr result (to.new.items ≡ to.old.items) }
{
    to.extend_from_slice(&v.to_be_bytes())
}

/// Appends the number in eight bytes. Where there is no memory the bytes stay as they were.
pub fn put_u64(to: &mut Vec<u8>, v: u64) -> Result<(), AllocError>
    ensures ok { OnOk result (to.new.items ≡ to.old.items ++ to_be_bytes w64 v) }
    ensures err { OnErr result (to.new.items ≡ to.old.items) }
{
    to.extend_from_slice(&v.to_be_bytes())
}

/// Appends the signed number in eight bytes. Where there is no memory the bytes stay as they were.
pub fn put_i64(to: &mut Vec<u8>, v: i64) -> Result<(), AllocError>
    ensures ok { OnOk result (to.new.items ≡ to.old.items ++ to_be_bytes w64 (cast_unsigned w64 v)) }
    ensures err { OnErr result (to.new.items ≡ to.old.items) }
{
    to.extend_from_slice(&v.to_be_bytes())
}
