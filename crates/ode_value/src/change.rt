//! Fields that are added to declared classes.
ghost use Rattle.std.specs.Prelude.{◌≡◌, IfOk};

use crate::list::{Copied, List};
use crate::name::Name;
use crate::statement::Sort;
use crate::value::Value;
use std::alloc::{AllocError, Global};

/// A change of a class: fields that it gets, each with the literal that it has in the versions that are there.
#[derive(Drop)]
pub struct Change {
    pub class: Name,
    pub fields: List<(Name, Sort, Value)>,
}

/// A field that was added to a class. Births are numbered from 1 over all classes of a database.
#[derive(Drop)]
pub struct Added {
    pub class: u32,
    pub birth: u32,
    pub name: Name,
    pub sort: Sort,
    pub value: Value,
}

impl Change {
    /// The same change again.
    pub fn copy(&self, alloc: Global) -> Result<Change, AllocError>
        ensures { IfOk result (λ copy. copy ≡ self.now) }
    {
        Ok(Change {
            class: self.class.copy(alloc)?,
            fields: self.fields.copy(alloc)?,
        })
    }
}

impl Copied for Change {
    fn copy_in(&self, alloc: Global) -> Result<Change, AllocError> {
        self.copy(alloc)
    }
}

impl Added {
    /// The same field again.
    pub fn copy(&self, alloc: Global) -> Result<Added, AllocError>
        ensures { IfOk result (λ copy. copy ≡ self.now) }
    {
        let name = self.name.copy(alloc)?;
        let sort = self.sort.copy(alloc)?;
        let value = self.value.copy(alloc)?;
        Ok(Added {
            class: self.class,
            birth: self.birth,
            name,
            sort,
            value,
        })
    }
}

impl Copied for Added {
    fn copy_in(&self, alloc: Global) -> Result<Added, AllocError> {
        self.copy(alloc)
    }
}
