//! Why a call ends.
ghost use Rattle.std.specs.Prelude.{◌≡◌, IfErr};
ghost use Rattle.ode_interpreter.specs.Seen.{IsFault};
ghost use Rattle.ode_run.specs.Stopping.{ended, read, read_stop, stop_as};

use ode_interpreter::Stop;
use ode_overlay::OverlayError;
use ode_value::Reason;

fn stop_as(error: OverlayError) -> Stop
    ensures { result ≡ stop_as error }
{
    match error {
        OverlayError::Memory => Stop::Memory,
        OverlayError::DiskFault => Stop::DiskFault,
        OverlayError::Damaged { key } => Stop::Damaged { key },
        OverlayError::NoObject(id) => Stop::Abort(Reason::NoObject(id)),
        OverlayError::NoVersion(of) => Stop::Abort(Reason::NoVersion(of)),
        OverlayError::LastVersion(id) => Stop::Abort(Reason::LastVersion(id)),
        OverlayError::TooManyChanges => Stop::Abort(Reason::Size),
        OverlayError::TooLong => Stop::Abort(Reason::Size),
        OverlayError::NoNumber => Stop::Abort(Reason::Space),
    }
}

/// A call of the overlay ended, and so does a call of the context.
pub(crate) fn ended<R: Drop>(answer: Result<R, OverlayError>) -> Result<R, Stop>
    ensures { result ≡ ended answer }
{
    match answer {
        Ok(value) => Ok(value),
        Err(error) => Err(stop_as(error)),
    }
}

fn read_stop(error: OverlayError) -> Stop
    ensures is { result ≡ read_stop error }
    ensures fault { IsFault result }
{
    match error {
        OverlayError::DiskFault => Stop::DiskFault,
        OverlayError::Damaged { key } => Stop::Damaged { key },
        _ => Stop::Memory,
    }
}

/// A call of the overlay that only reads ended, and so does a call of the context. It is never refused.
pub fn read<R: Drop>(answer: Result<R, OverlayError>) -> Result<R, Stop>
    ensures is { result ≡ read answer }
    ensures fault { IfErr result IsFault }
{
    match answer {
        Ok(value) => Ok(value),
        Err(error) => Err(read_stop(error)),
    }
}
