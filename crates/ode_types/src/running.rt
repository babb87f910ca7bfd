//! Activations.
ghost use Rattle.std.specs.Prelude.{◌≡◌, IfOk};

use ode_value::{Copied, List, Value};
use std::alloc::{AllocError, Global};

/// An activation of an object with its state number.
#[derive(Drop)]
pub struct Running {
    /// Its number, from the counter that objects have too.
    pub id: u64,
    /// The class that declares its trigger, and the trigger's place there.
    pub class: u32,
    pub trigger: u16,
    /// The arguments of the trigger.
    pub args: List<Value>,
    pub state: u16,
    pub on: bool,
    /// The place of its trigger's table and alphabet.
    pub table: u32,
}

impl Running {
    /// The same activation again.
    pub fn copy(&self, alloc: Global) -> Result<Running, AllocError>
        ensures { IfOk result (λ copy. copy ≡ self.now) }
    {
        Ok(Running {
            id: self.id,
            class: self.class,
            trigger: self.trigger,
            args: self.args.copy(alloc)?,
            state: self.state,
            on: self.on,
            table: self.table,
        })
    }
}

impl Copied for Running {
    fn copy_in(&self, alloc: Global) -> Result<Running, AllocError> {
        self.copy(alloc)
    }
}
