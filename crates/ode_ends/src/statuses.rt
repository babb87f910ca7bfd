//! The status that a run ends with.
ghost use Rattle.std.specs.Prelude.{◌≡◌};
ghost use Rattle.ode_ends.specs.Statuses.{ended_by, status_of_script};
ghost use Rattle.ode_machine.specs.Runs.{status_at};
ghost use Rattle.ode_script.specs.Cutting.{End};

use ode_host::Status;
use ode_script::ScriptError;
use ode_transact::EngineError;
use ode_value::Key;

/// What a run ends with where the engine doesn't answer: a status, or the key of a record that was found damaged.
pub fn ended_by(error: EngineError) -> Result<Status, Key>
    ensures { result ≡ ended_by error }
{
    match error {
        EngineError::Memory => Ok(Status::Memory),
        EngineError::DiskFault => Ok(Status::DiskFault),
        EngineError::WriteFault => Ok(Status::WriteFault),
        EngineError::Damaged { key } => Err(key),
    }
}

/// The status that a run ends with at the end of its script, where a piece was refused or none.
pub fn status_at_end(refused: bool) -> Status
    ensures { result ≡ status_at End refused }
{
    if refused { Status::Refused } else { Status::Ok }
}

/// The status that a run ends with where the script gives no piece.
pub fn status_of_script(error: ScriptError) -> Status
    ensures { result ≡ status_of_script error }
{
    match error {
        ScriptError::Memory => Status::Memory,
        ScriptError::ReadFault => Status::ReadFault,
        ScriptError::LongStatement => Status::LongStatement,
        ScriptError::LongScript => Status::LongScript,
    }
}
