//! Parameters, and what a statement sets.
ghost use Rattle.std.specs.Prelude.{◌≡◌, IfOk};

use crate::list::Copied;
use crate::name::Name;
use crate::statement::Sort;
use std::alloc::{AllocError, Global};

/// What a `let` makes or a statement sets: by name as it is written, by its place once it is checked.
#[derive(Drop)]
pub enum Var {
    Name(Name),
    /// A parameter or a local, counted from 0, parameters first.
    Local(u16),
    /// A field of the object, counted from 0.
    Own(u16),
}

/// A parameter of a method or a trigger.
#[derive(Drop)]
pub struct Param {
    pub name: Name,
    pub sort: Sort,
}

impl Var {
    /// The same again.
    pub fn copy(&self, alloc: Global) -> Result<Var, AllocError>
        ensures { IfOk result (λ copy. copy ≡ self.now) }
    {
        match self {
            Var::Name(name) => Ok(Var::Name(name.copy(alloc)?)),
            Var::Local(place) => Ok(Var::Local(*place)),
            Var::Own(place) => Ok(Var::Own(*place)),
        }
    }
}

impl Copied for Var {
    fn copy_in(&self, alloc: Global) -> Result<Var, AllocError> {
        self.copy(alloc)
    }
}

impl Param {
    /// The same parameter again.
    pub fn copy(&self, alloc: Global) -> Result<Param, AllocError>
        ensures { IfOk result (λ copy. copy ≡ self.now) }
    {
        Ok(Param {
            name: self.name.copy(alloc)?,
            sort: self.sort.copy(alloc)?,
        })
    }
}

impl Copied for Param {
    fn copy_in(&self, alloc: Global) -> Result<Param, AllocError> {
        self.copy(alloc)
    }
}
