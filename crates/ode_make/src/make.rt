//! A file is made.
ghost use Rattle.std.specs.Prelude.{◌≡◌, ◌++◌, [], ◌∷◌, ◌↔◌, List, ℕ, IfErr, IfOk, IsErr, IsErrOf, IsTrue, OnOk};
ghost use Rattle.ode_gate.specs.Headers.{header_bytes};
ghost use Rattle.ode_gate.specs.Slots.{HasOpenSlot};
ghost use Rattle.ode_gate.specs.declared.error.GateError.TheVariants as gate;
ghost use Rattle.ode_host.specs.Causes.{RoseIf};
ghost use Rattle.ode_host.specs.Host.{DiskCalls, Looks, Stands, Tells, written_over};
ghost use Rattle.ode_paging.specs.Meaning.{PagesMeanIn};
ghost use Rattle.ode_make.specs.Making.{IsInUse, IsInitialised, first_frame, first_header, first_rows};

use ode_gate::{
    FORMAT, GateError, Header, OPEN, PAGES, PAGES_AT, REGION_0, REGION_1, SHUT, SLOT_LEN,
    SLOT_STEP, fill_slot, open_slot, read_header,
};
use ode_host::{Failed, Host};

/// The longest file that may be made anew, in bytes.
pub const MAX_TAKEN_OVER: u64 = 8_192;

/// What the journal of a new file has, in bytes: an open gate, and a frame behind it.
pub const FIRST_LEN: u64 = 81;

// An open gate, a frame with page 0 of an empty database, which has the counters alone, and a shut gate behind it.
const FIRST_FRAME: [u8; 82] = [
    OPEN, 0, 0, 0, 76, 0, 0, 0, 1, 0, 0, 0, 0, 0, 66, 0, 1, 1, 0, 0, 0, 0, 0, 0, 0, 0, 0, 0, 0, 0,
    0, 0, 0, 0, 0, 45, 0, 0, 0, 0, 0, 0, 0, 1, 0, 0, 0, 0, 0, 0, 0, 1, 0, 0, 0, 0, 0, 0, 0, 1, 0,
    0, 0, 0, 0, 0, 0, 0, 0, 0, 0, 0, 0, 0, 0, 0, 0, 0, 0, 0, 0, SHUT,
];

// The header of a new file.
const FIRST: Header = Header {
    format: FORMAT,
    layout: PAGES,
    generation: 1,
    body_at: PAGES_AT,
    body_len: 0,
    journal_at: REGION_0,
    journal_end: REGION_1,
    slot: 0,
};

/// Why a file isn't made.
#[derive(Clone, Copy, Debug, PartialEq, Eq)]
pub enum InitError {
    /// The disk failed.
    DiskFault,
    /// The file has more than `MAX_TAKEN_OVER` bytes, or a header slot is open.
    FileExists,
}

impl From<Failed> for InitError {
    ghost use Rattle.ode_make.specs.declared.make.InitError.TheVariants.{DiskFault};

    ghost from_gives = { λ _ e. e ≡ DiskFault };

    fn from(_: Failed) -> Self {
        InitError::DiskFault
    }
}

impl From<GateError> for InitError {
    ghost use Rattle.ode_make.specs.declared.make.InitError.TheVariants.{DiskFault};

    ghost from_gives = { λ _ e. e ≡ DiskFault };

    // A header isn't written where the disk fails, and for no other reason.
    fn from(_: GateError) -> Self {
        InitError::DiskFault
    }
}

// Whether a header slot is open.
fn has_open_slot<H: Host>(host: &mut H) -> Result<bool, Failed>
    ensures is_open { IfOk result (λ b.
        (image : List ℕ) → Tells (H.view host.old) image → (IsTrue b ↔ HasOpenSlot image)) }
    ensures looks { Looks (H.view host.old) (H.view host.new) }
    ensures cause { RoseIf (IsErr result) (H.view host.old).disk_faults (H.view host.new).disk_faults }
{
    match read_header(host, &mut [0; SLOT_LEN]) {
        Ok(_) => Ok(true),
        Err(GateError::NoDatabase) => Ok(false),
        Err(GateError::BadHeader { .. }) => Ok(true),
        Err(GateError::NewerFormat { .. }) => Ok(true),
        Err(GateError::DiskFault) => Err(Failed),
    }
}

// Whether the file is too long for a new one, or a header slot is open.
fn is_in_use<H: Host>(host: &mut H) -> Result<bool, Failed>
    ensures in_use { IfOk result (λ b.
        (image : List ℕ) → Tells (H.view host.old) image → (IsTrue b ↔ IsInUse image)) }
    ensures looks { Looks (H.view host.old) (H.view host.new) }
    ensures cause { RoseIf (IsErr result) (H.view host.old).disk_faults (H.view host.new).disk_faults }
{
    if host.size()? > MAX_TAKEN_OVER {
        return Ok(true);
    }
    has_open_slot(host)
}

// Shuts slot 1, and writes the first frame with a shut gate behind it.
fn write_frame<H: Host>(host: &mut H) -> Result<(), Failed>
    ensures done { OnOk result ((file : List ℕ) → Tells (H.view host.old) file → Tells (H.view host.new)
        (written_over (written_over file SLOT_STEP (SHUT ∷ [])) REGION_0 (first_frame ++ SHUT ∷ []))) }
    ensures leaves { DiskCalls (IsErr result) (H.view host.old) (H.view host.new) }
{
    host.write_at(SLOT_STEP, &[SHUT])?;
    host.write_at(REGION_0, &FIRST_FRAME)
}

// Writes the header of a new file, syncs, opens it, and syncs.
fn write_header<H: Host>(host: &mut H) -> Result<(), GateError>
    ensures done { OnOk result ((file : List ℕ) → Tells (H.view host.old) file → Stands
        (written_over (written_over file 1 (header_bytes first_header)) 0 (OPEN ∷ [])) (H.view host.new)) }
    ensures kind { IfErr result (λ e. e ≡ gate.DiskFault) }
    ensures leaves { DiskCalls (IsErr result) (H.view host.old) (H.view host.new) }
{
    fill_slot(host, 0, &FIRST, &mut [0; SLOT_LEN])?;
    open_slot(host, 0)
}

/// Makes a new file that holds an empty database, of pages. Takes no memory. At `FileExists` nothing was written; at
/// `DiskFault` some of it may be.
pub fn initialise<H: Host>(host: &mut H) -> Result<(), InitError>
    ensures made { OnOk result ((file : List ℕ) → Tells (H.view host.old) file
        → (image : List ℕ) × Stands image (H.view host.new) × IsInitialised first_frame file image) }
    ensures means { OnOk result ((file image : List ℕ) → Tells (H.view host.old) file
        → Tells (H.view host.new) image → PagesMeanIn FORMAT image first_rows) }

    ensures exists { IsErrOf result InitError.FileExists
        → (file : List ℕ) → Tells (H.view host.old) file → IsInUse file }
    ensures refused { (file : List ℕ) → Tells (H.view host.old) file → IsInUse file → IsErr result }
    ensures looks { IsErrOf result InitError.FileExists → Looks (H.view host.old) (H.view host.new) }
    ensures spared { (file : List ℕ) → Tells (H.view host.old) file → IsInUse file → Looks (H.view host.old) (H.view host.new) }
    ensures leaves { DiskCalls (IsErrOf result InitError.DiskFault) (H.view host.old) (H.view host.new) }
{
    if is_in_use(host)? {
        return Err(InitError::FileExists);
    }
    write_frame(host)?;
    write_header(host)?;
    Ok(())
}
