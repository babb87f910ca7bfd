//! Why a check gives no tree.
ghost use Rattle.std.specs.Prelude.{◌≡◌, Bool, Err, Ok};
ghost use Rattle.ode_types.specs.Answers.{Answers};
ghost use Rattle.ode_types.specs.Checks.{where_holds};
ghost use Rattle.ode_value.specs.declared.reason.CheckError.TheVariants.{Duplicate, TooMany, UnknownName, WrongSort};

use ode_value::{Boxed, CheckError, Name};
use std::alloc::{AllocError, Global};

/// Why a check gives no tree.
#[derive(Drop)]
pub enum CheckStop {
    Memory,
    /// The first static rule that is broken, with the name at which it is.
    Broken(CheckError),
}

impl From<AllocError> for CheckStop {
    ghost use Rattle.std.specs.Prelude.{◌≡◌};
    ghost use Rattle.ode_types.specs.declared.stop.CheckStop.TheVariants.{Memory};

    ghost from_gives = { λ _ e. e ≡ Memory };

    fn from(_: AllocError) -> CheckStop {
        CheckStop::Memory
    }
}

/// A name that nothing has.
pub fn unknown<T>(alloc: Global, name: &Name) -> Result<T, CheckStop>
    ensures { Answers (Err (UnknownName name.now)) result }
{
    Err(CheckStop::Broken(CheckError::UnknownName(name.copy(alloc)?)))
}

/// A name that is there already.
pub fn duplicate<T>(alloc: Global, name: &Name) -> Result<T, CheckStop>
    ensures { Answers (Err (Duplicate name.now)) result }
{
    Err(CheckStop::Broken(CheckError::Duplicate(name.copy(alloc)?)))
}

/// More of something than a class may have, or more classes than there are numbers.
pub fn too_many<T>(alloc: Global, name: &Name) -> Result<T, CheckStop>
    ensures { Answers (Err (TooMany name.now)) result }
{
    Err(CheckStop::Broken(CheckError::TooMany(name.copy(alloc)?)))
}

/// Any other mismatch in the member of this name.
pub fn wrong<T>(alloc: Global, member: &Name) -> Result<T, CheckStop>
    ensures { Answers (Err (WrongSort member.now)) result }
{
    Err(CheckStop::Broken(CheckError::WrongSort(member.copy(alloc)?)))
}

/// What was checked, where a rule holds; else a mismatch in the member of this name.
pub fn where_holds<T: Drop>(
    alloc: Global,
    holds: bool,
    checked: T,
    member: &Name,
) -> Result<T, CheckStop>
    ensures { Answers (where_holds (WrongSort member.now) holds checked) result }
{
    if holds {
        Ok(checked)
    } else {
        wrong(alloc, member)
    }
}

/// What was checked, in a box.
pub fn boxed<T: Drop>(alloc: Global, checked: T) -> Result<Boxed<T>, CheckStop>
    ensures { Answers (Ok checked) result }
{
    Ok(Boxed::new(alloc, checked)?)
}

/// The same out of its box.
pub fn opened<T>(checked: Result<Boxed<T>, CheckStop>) -> Result<T, CheckStop>
    ensures { result ≡ checked }
{
    match checked {
        Ok(checked) => Ok(checked.into_inner()),
        Err(stop) => Err(stop),
    }
}

/// What is there, out of its box.
pub fn unboxed<T>(part: Option<Boxed<T>>) -> Option<T>
    ensures { result ≡ part }
{
    match part {
        Some(part) => Some(part.into_inner()),
        None => None,
    }
}
