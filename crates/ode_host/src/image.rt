//! Writes and reads at an offset of some bytes.
ghost use Rattle.std.specs.Prelude.{◌≡◌, ◌+◌, ◌-◌, ◌≤◌, ◌<◌, ◌^◌, ◌++◌, length, take, drop, replicate, OnOk, OnErr};
ghost use Rattle.ode_host.specs.Host.{written_over};

use crate::put::put_over;
use std::alloc::AllocError;

// Zeros up to an end.
fn lengthen(image: &mut Vec<u8>, end: usize) -> Result<(), AllocError>
    ensures ok { OnOk result (image.new.items ≡ image.old.items ++ replicate (end - length image.old.items) 0) }
    ensures err { OnErr result (image.new.items ≡ image.old.items) }
{
    if image.len() < end {
        image.resize(end, 0)?;
    }
    Ok(())
}

/// Writes over bytes and past their end, with zeros between the end and the offset. Where there is no memory all stays.
pub fn overwrite(image: &mut Vec<u8>, at: usize, from: &[u8]) -> Result<(), AllocError>
    requires { at + length from.now < 2 ^ 64 }
    ensures ok { OnOk result (image.new.items ≡ written_over image.old.items at from.now) }
    ensures err { OnErr result (image.new.items ≡ image.old.items) }
{
    lengthen(image, at + from.len())?;
    put_over(image, at, from);
    Ok(())
}

/// Copies the bytes from an offset on, as far as there is room for them.
pub fn copy_front(image: &[u8], at: u64, to: &mut [u8]) -> usize
    ensures bound { result ≤ length to.old }
    ensures bytes { take result to.new ≡ take result (drop at image.now) }
    ensures some { 0 < length to.old → at < length image.now → 0 < result }
{
    if at >= image.len() as u64 {
        return 0;
    }
    let rest = &image[at as usize..];
    let count = rest.len().min(to.len());
    to[..count].copy_from_slice(&rest[..count]);
    count
}
