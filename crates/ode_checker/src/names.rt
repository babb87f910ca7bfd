//! Words that stand for names.
ghost use Rattle.std.specs.Prelude.{◌≡◌, IfOk};
ghost use Rattle.ode_value.specs.Text.{IsName, IsText};

use ode_value::{Name, OdeText, TextError};
use std::alloc::{AllocError, Global};

/// The name of these bytes, which are one.
pub(crate) fn word(alloc: Global, bytes: &[u8]) -> Result<Name, AllocError>
    requires text { IsText bytes.now }
    requires name { IsName bytes.now }
    ensures { IfOk result (λ name. name ≡ bytes.now) }
{
    let text = match OdeText::new(alloc, bytes) {
        Ok(text) => text,
        Err(TextError::Memory) => return Err(AllocError),
        Err(_) => unreachable!(),
    };
    match Name::new(text) {
        Some(name) => Ok(name),
        None => unreachable!(),
    }
}
