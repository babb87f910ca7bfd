//! Reads of as much as there is.
ghost use Rattle.std.specs.Prelude.{◌≡◌, ◌+◌, ◌-◌, ◌<◌, ◌≤◌, ◌^◌, min, List, ℕ, length, take, drop, IfOk, IsTrue, IsErr, OnErr};
ghost use Rattle.std.specs.Bool.{OnTrue};
ghost use Rattle.ode_host.specs.Causes.{RoseIf};
ghost use Rattle.ode_host.specs.Host.{Fetched, FetchedAtMost, Gives, Looks, Tells};

use crate::host::{Failed, Host};

// Fills some more of `to`.
fn read_more<H: Host>(host: &mut H, at: u64, filled: usize, to: &mut [u8]) -> Result<usize, Failed>
    requires within { filled ≤ length to.old }
    requires fits { at + length to.old < 2 ^ 64 }
    ensures bound { IfOk result (λ n. filled + n ≤ length to.old) }
    ensures before { take filled to.new ≡ take filled to.old }
    ensures gives { IfOk result (Gives (H.view host.old) (at + filled) (drop filled to.new)) }
    ensures looks { Looks (H.view host.old) (H.view host.new) }
    ensures fetched { IfOk result (λ n. Fetched n (H.view host.old) (H.view host.new)) }
    ensures not_fetched { OnErr result (Fetched 0 (H.view host.old) (H.view host.new)) }
    ensures cause { RoseIf (IsErr result) (H.view host.old).disk_faults (H.view host.new).disk_faults }
{
    host.read_at(at + filled as u64, &mut to[filled..])
}

/// Fills a front of `to` with the bytes at an offset, as far as there are any, and answers how many there were.
pub fn read_whole<H: Host>(host: &mut H, at: u64, to: &mut [u8]) -> Result<usize, Failed>
    requires { at + length to.old < 2 ^ 64 }
    ensures within { IfOk result (λ n. n ≤ length to.old) }
    ensures count { IfOk result (λ n.
        (file : List ℕ) → Tells (H.view host.old) file → n ≡ min (length to.old) (length file - at)) }
    ensures bytes { IfOk result (λ n.
        (file : List ℕ) → Tells (H.view host.old) file → take n to.new ≡ take n (drop at file)) }
    ensures looks { Looks (H.view host.old) (H.view host.new) }
    ensures fetched { IfOk result (λ n. Fetched n (H.view host.old) (H.view host.new)) }
    ensures cut { OnErr result (FetchedAtMost (length to.old) (H.view host.old) (H.view host.new)) }
    ensures cause { RoseIf (IsErr result) (H.view host.old).disk_faults (H.view host.new).disk_faults }
{
    let mut filled = 0;
    while filled < to.len() {
        let count = read_more(host, at, filled, to)?;
        if count == 0 {
            return Ok(filled);
        }
        filled += count;
    }
    Ok(filled)
}

/// Fills all of `to`, or answers `false` where there are too few bytes.
pub fn read_exact<H: Host>(host: &mut H, at: u64, to: &mut [u8]) -> Result<bool, Failed>
    requires { at + length to.old < 2 ^ 64 }
    ensures bytes { IfOk result (λ b. OnTrue b (
        (file : List ℕ) → Tells (H.view host.old) file → to.new ≡ take (length to.old) (drop at file))) }
    ensures whole { IfOk result (λ b.
        (file : List ℕ) → Tells (H.view host.old) file → at + length to.old ≤ length file → IsTrue b) }
    ensures looks { Looks (H.view host.old) (H.view host.new) }
    ensures fetched { IfOk result (λ b. OnTrue b (Fetched (length to.old) (H.view host.old) (H.view host.new))) }
    ensures at_most { FetchedAtMost (length to.old) (H.view host.old) (H.view host.new) }
    ensures cause { RoseIf (IsErr result) (H.view host.old).disk_faults (H.view host.new).disk_faults }
{
    let count = read_whole(host, at, to)?;
    Ok(count == to.len())
}
