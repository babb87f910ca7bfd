//! A text of a run is printed.
ghost use Rattle.std.specs.Prelude.{◌≡◌, ℕ, List as Items, IsErrOf, OnOk, Some};
ghost use Rattle.ode_host.specs.Host.{HostCalls, LeavesCut, LeavesOnly, Printed, Stands};
ghost use Rattle.ode_transact.specs.Errors.{OnDamaged};
ghost use Rattle.ode_transact.specs.Output.{heard};

use ode_host::{Failed, Host};
use ode_transact::EngineError;

/// A text is printed, or nothing of it in a quiet run.
pub fn say<H: Host>(host: &mut H, quiet: bool, text: &[u8]) -> Result<(), EngineError>
    ensures printed { OnOk result (Printed (heard quiet text.now) (H.view host.old) (H.view host.new)) }
    ensures any_moment { (file said : Items ℕ) → Stands file (H.view host.old) → (H.view host.old).text ≡ Some said
        → LeavesOnly (H.view host.old) (H.view host.new) (LeavesCut file said (heard quiet text.now)) }
    ensures stands { (file : Items ℕ) → Stands file (H.view host.old) → Stands file (H.view host.new) }
    ensures sound { OnDamaged result ⊥ }
    ensures leaves { HostCalls (IsErrOf result EngineError.DiskFault) (IsErrOf result EngineError.WriteFault) (H.view host.old) (H.view host.new) }
{
    if quiet {
        return Ok(());
    }
    match host.print(text) {
        Ok(()) => Ok(()),
        Err(Failed) => Err(EngineError::WriteFault),
    }
}
