//! What is built of one class, behind what was built of others.
ghost use Rattle.std.specs.Prelude.{◌≡◌, ◌++◌, OnOk};

use ode_value::List;
use std::alloc::AllocError;

/// Puts the members of one list behind those of another.
pub fn put_behind<T: Drop>(list: &mut List<T>, own: List<T>) -> Result<(), AllocError>
    ensures { OnOk result (list.new ≡ list.old ++ own) }
{
    'own: for item in own.into_vec() {
        list.push(item)?;
    }
    Ok(())
}
