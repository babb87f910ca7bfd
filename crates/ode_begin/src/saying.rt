//! What a call says before it ends.
ghost use Rattle.std.specs.Prelude.{◌≡◌, ◌≢◌, ◌⊎◌, ◌++◌, ℕ, List as Items, Some};
ghost use Rattle.ode_host.specs.Causes.{RoseIf};
ghost use Rattle.ode_host.specs.Host.{HostCalls, Prints, Spares};
ghost use Rattle.ode_begin.specs.Answers.{EndsFor, IsSilent, SaidFront, why_line};

use ode_causes::{cause_line, format_line};
use ode_host::{Failed, Host, Status};
use ode_open::OpenError;
use ode_passes::Cause;
use ode_value::Key;
use std::alloc::Global;

/// Prints a line and ends with a status.
pub fn end_with<H: Host>(host: &mut H, line: &[u8], status: Status) -> Status
    requires { status ≢ Status.WriteFault }
    ensures status { (result ≡ status) ⊎ (result ≡ Status.WriteFault) }
    ensures prints { Prints line.now (H.view host.old) (H.view host.new) }
    ensures printed { result ≢ Status.WriteFault → (text : Items ℕ) → (H.view host.old).text ≡ Some text
        → (H.view host.new).text ≡ Some (text ++ line.now) }
    ensures cut { result ≡ Status.WriteFault → (text : Items ℕ) → (H.view host.old).text ≡ Some text
        → SaidFront line.now text (H.view host.new) }
    ensures cause { RoseIf (result ≡ Status.WriteFault) (H.view host.old).print_faults (H.view host.new).print_faults }
{
    match host.print(line) {
        Ok(()) => status,
        Err(Failed) => Status::WriteFault,
    }
}

/// Says which record was found damaged, where there is memory for it.
pub fn damaged<H: Host>(alloc: Global, host: &mut H, key: Key) -> Status
    ensures status { (result ≡ Status.Memory) ⊎ ((result ≡ Status.BadFile) ⊎ (result ≡ Status.WriteFault)) }
    ensures still { result ≡ Status.Memory → host.new ≡ host.old }
    ensures printed { result ≡ Status.BadFile → (text : Items ℕ) → (H.view host.old).text ≡ Some text
        → (H.view host.new).text ≡ Some (text ++ why_line (OpenError.BadFile (Cause.Record key))) }
    ensures cut { result ≡ Status.WriteFault → (text : Items ℕ) → (H.view host.old).text ≡ Some text
        → SaidFront (why_line (OpenError.BadFile (Cause.Record key))) text (H.view host.new) }
    ensures spares { Spares (H.view host.old) (H.view host.new) }
    ensures leaves { HostCalls (result ≡ Status.DiskFault) (result ≡ Status.WriteFault) (H.view host.old) (H.view host.new) }
{
    match cause_line(alloc, &Cause::Record(key)) {
        Ok(text) => end_with(host, text.as_bytes(), Status::BadFile),
        Err(_) => Status::Memory,
    }
}

/// Says why a file isn't opened, where there is a line for it, and memory for the line.
pub fn refuse<H: Host>(alloc: Global, host: &mut H, why: OpenError) -> Status
    ensures ends { EndsFor why result }
    ensures still { IsSilent result → host.new ≡ host.old }
    ensures prints { (IsSilent result → ⊥) → Prints (why_line why) (H.view host.old) (H.view host.new) }
    ensures printed { result ≡ Status.BadFile → (text : Items ℕ) → (H.view host.old).text ≡ Some text
        → (H.view host.new).text ≡ Some (text ++ why_line why) }
    ensures cut { result ≡ Status.WriteFault → (text : Items ℕ) → (H.view host.old).text ≡ Some text
        → SaidFront (why_line why) text (H.view host.new) }
    ensures cause { RoseIf (result ≡ Status.WriteFault) (H.view host.old).print_faults (H.view host.new).print_faults }
{
    match why {
        OpenError::NoDatabase => end_with(host, b"no database\n", Status::BadFile),
        OpenError::NewerFormat { found } => match format_line(alloc, found) {
            Ok(text) => end_with(host, text.as_bytes(), Status::BadFile),
            Err(_) => Status::Memory,
        },
        OpenError::BadFile(cause) => match cause_line(alloc, &cause) {
            Ok(text) => end_with(host, text.as_bytes(), Status::BadFile),
            Err(_) => Status::Memory,
        },
        OpenError::DiskFault => Status::DiskFault,
        OpenError::Memory => Status::Memory,
    }
}
