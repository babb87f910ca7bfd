//! The header that counts.
ghost use Rattle.std.specs.Prelude.{◌≡◌, ◌⊎◌, List, ℕ, Result, Ok, IfOk, IfErr, IsErrOf};
ghost use Rattle.ode_host.specs.Causes.{RoseIf};
ghost use Rattle.ode_host.specs.Host.{Looks, Tells};
ghost use Rattle.ode_gate.specs.declared.error.GateError.{GateError};
ghost use Rattle.ode_gate.specs.declared.header.Header.{Header};
ghost use Rattle.ode_gate.specs.Headers.{IsHeader};
ghost use Rattle.ode_gate.specs.Slots.{Counts};
ghost use Rattle.ode_gate.specs.Readings.{HasNone, IsBadAt, IsFirstNewer, NoneNewer, Says, later_of, said_by};

use crate::error::GateError;
use crate::header::{Header, next_generation};
use crate::places::SLOT_LEN;
use crate::slot::{Slot, place_of, read_slot};
use ode_host::Host;

// Of two headers the one that comes after the other.
fn later(first: Header, second: Header) -> Result<Header, GateError>
    ensures { result ≡ later_of first second }
{
    if first.generation == second.generation {
        Err(GateError::BadHeader { at: place_of(0) })
    } else if first.generation == next_generation(second.generation) {
        Ok(first)
    } else {
        Ok(second)
    }
}

// What two slots say of the header.
fn header_among(first: Slot, second: Slot) -> Result<Header, GateError>
    ensures { result ≡ said_by first second }
{
    match first {
        Slot::Newer(found) => Err(GateError::NewerFormat { found }),
        Slot::Broken => match second {
            Slot::Newer(found) => Err(GateError::NewerFormat { found }),
            Slot::Broken | Slot::Shut | Slot::Good(_) => {
                Err(GateError::BadHeader { at: place_of(0) })
            }
        },
        Slot::Shut => match second {
            Slot::Newer(found) => Err(GateError::NewerFormat { found }),
            Slot::Broken => Err(GateError::BadHeader { at: place_of(1) }),
            Slot::Shut => Err(GateError::NoDatabase),
            Slot::Good(header) => Ok(header),
        },
        Slot::Good(header) => match second {
            Slot::Newer(found) => Err(GateError::NewerFormat { found }),
            Slot::Broken => Err(GateError::BadHeader { at: place_of(1) }),
            Slot::Shut => Ok(header),
            Slot::Good(other) => later(header, other),
        },
    }
}

/// Reads the header that counts. The buffer is room to read in.
pub fn read_header<H: Host>(host: &mut H, buffer: &mut [u8; SLOT_LEN]) -> Result<Header, GateError>
    ensures answer { (image : List ℕ) → Tells (H.view host.old) image
        → IsErrOf result GateError.DiskFault ⊎ Says image result }
    ensures only { (image : List ℕ) (answer : Result Header GateError) → Tells (H.view host.old) image
        → Says image answer → IsErrOf result GateError.DiskFault ⊎ (result ≡ answer) }
    ensures counting { (image : List ℕ) (h : Header) → Tells (H.view host.old) image
        → Counts image h → IsErrOf result GateError.DiskFault ⊎ (result ≡ Ok h) }
    ensures rules { IfOk result IsHeader }
    ensures found { IfOk result (λ h. (image : List ℕ) → Tells (H.view host.old) image → Counts image h) }
    ensures no_database { IsErrOf result GateError.NoDatabase
        → (image : List ℕ) → Tells (H.view host.old) image → HasNone image }
    ensures newer { (format : ℕ) → IsErrOf result (GateError.NewerFormat format)
        → (image : List ℕ) → Tells (H.view host.old) image → IsFirstNewer image format }
    ensures bad { (at : ℕ) → IsErrOf result (GateError.BadHeader at)
        → (image : List ℕ) → Tells (H.view host.old) image → NoneNewer image × IsBadAt image at }
    ensures looks { Looks (H.view host.old) (H.view host.new) }
    ensures cause { RoseIf (IsErrOf result GateError.DiskFault) (H.view host.old).disk_faults (H.view host.new).disk_faults }
{
    let first = read_slot(host, 0, buffer)?;
    let second = read_slot(host, 1, buffer)?;
    header_among(first, second)
}
