//! The two slots of a header.
ghost use Rattle.std.specs.Prelude.{◌≡◌, ◌<◌, ◌≤◌, ◌↔◌, ◌^◌, List, ℕ, IfOk, IsErr};
ghost use Rattle.ode_host.specs.Causes.{RoseIf};
ghost use Rattle.ode_host.specs.Host.{Looks, Tells};
ghost use Rattle.ode_gate.specs.Slots.{IsSlot, bytes_of, place_of};
ghost use Rattle.ode_gate.specs.Readings.{ReadsAs};

use crate::gate::OPEN;
use crate::header::Header;
use crate::places::{FORMAT, FORMAT_AT, SLOT_LEN, SLOT_STEP};
use ode_host::{Failed, Host, read_whole, take_u32};

/// Where a slot stands, in bytes.
pub fn place_of(slot: u8) -> u64
    ensures { result ≡ place_of slot }
{
    u64::from(slot) * SLOT_STEP
}

/// What stands in a slot.
#[derive(Clone, Copy, Debug, PartialEq, Eq)]
pub enum Slot {
    /// The gate isn't open, or isn't there.
    Shut,
    /// It is open, and its format is this one, which is above the last known one.
    Newer(u32),
    /// It is open and holds no header that keeps the rules.
    Broken,
    /// It is open and holds this header, which keeps the rules.
    Good(Header),
}

impl Slot {
    ghost use Rattle.ode_gate.specs.Readings.{ReadsAs};

    /// Reads it from the bytes of the slot of this number, as far as there are any.
    pub(crate) fn of_bytes(bytes: &[u8], slot: u8) -> Self
        ensures { ReadsAs slot bytes.now result }
    {
        let Some((gate, body)) = bytes.split_first() else {
            return Slot::Shut;
        };
        if *gate != OPEN {
            return Slot::Shut;
        }
        if let Some(format) = take_u32(bytes, FORMAT_AT)
            && format > FORMAT
        {
            return Slot::Newer(format);
        }
        match Header::parse(body, slot) {
            Some(header) => Slot::Good(header),
            None => Slot::Broken,
        }
    }
}

/// Reads what stands in the slot of this number.
pub fn read_slot<H: Host>(
    host: &mut H,
    slot: u8,
    buffer: &mut [u8; SLOT_LEN],
) -> Result<Slot, Failed>
    requires { IsSlot slot }
    ensures slot { IfOk result (λ found. (bytes : List ℕ) × ReadsAs slot bytes found
        × ((image : List ℕ) → Tells (H.view host.old) image → bytes ≡ bytes_of slot image)) }
    ensures looks { Looks (H.view host.old) (H.view host.new) }
    ensures cause { RoseIf (IsErr result) (H.view host.old).disk_faults (H.view host.new).disk_faults }
{
    let count = read_whole(host, place_of(slot), buffer)?;
    Ok(Slot::of_bytes(&buffer[..count], slot))
}
