//! Classes and their fields.
ghost use Rattle.std.specs.Prelude.{◌≡◌, IfOk};

use crate::event::Kind;
use crate::list::{Copied, List};
use crate::member::{Constraint, Method, TriggerDecl};
use crate::name::Name;
use crate::statement::Sort;
use crate::value::Value;
use std::alloc::{AllocError, Global};

/// A field of a class. One that was added to it has the number of its birth, and a literal for the versions that don't have it; one
/// that was declared has birth 0 and none.
#[derive(Drop)]
pub struct Field {
    pub name: Name,
    pub sort: Sort,
    pub birth: u32,
    pub literal: Option<Value>,
}

/// A declared class. Classes are numbered from 1. The fields and the kinds of its ancestors stand before its own, and of its fields the
/// declared ones before the added ones. Its trees are checked: they name parameters, locals and fields by their places.
#[derive(Drop)]
pub struct Class {
    pub number: u32,
    pub name: Name,
    pub parent: Option<u32>,
    pub fields: List<Field>,
    pub methods: List<Method>,
    pub constraints: List<Constraint>,
    pub kinds: List<Kind>,
    pub triggers: List<TriggerDecl>,
}

impl Field {
    /// The same field again.
    pub fn copy(&self, alloc: Global) -> Result<Field, AllocError>
        ensures { IfOk result (λ copy. copy ≡ self.now) }
    {
        let name = self.name.copy(alloc)?;
        let sort = self.sort.copy(alloc)?;
        let literal = self.literal.copy_in(alloc)?;
        Ok(Field {
            name,
            sort,
            birth: self.birth,
            literal,
        })
    }
}

impl Copied for Field {
    fn copy_in(&self, alloc: Global) -> Result<Field, AllocError> {
        self.copy(alloc)
    }
}

impl Class {
    /// The same class again.
    pub fn copy(&self, alloc: Global) -> Result<Class, AllocError>
        ensures { IfOk result (λ copy. copy ≡ self.now) }
    {
        let (name, fields, kinds) = self.copy_head(alloc)?;
        let (methods, constraints, triggers) = self.copy_bodies(alloc)?;
        Ok(Class {
            number: self.number,
            name,
            parent: self.parent,
            fields,
            methods,
            constraints,
            kinds,
            triggers,
        })
    }

    // Its name, its fields and the kinds that it lists.
    fn copy_head(&self, alloc: Global) -> Result<(Name, List<Field>, List<Kind>), AllocError>
        ensures { IfOk result (λ parts. parts ≡ (self.now.name, self.now.fields, self.now.kinds)) }
    {
        let name = self.name.copy(alloc)?;
        let fields = self.fields.copy(alloc)?;
        let kinds = self.kinds.copy(alloc)?;
        Ok((name, fields, kinds))
    }

    // Its methods, constraints and triggers.
    fn copy_bodies(
        &self,
        alloc: Global,
    ) -> Result<(List<Method>, List<Constraint>, List<TriggerDecl>), AllocError>
        ensures { IfOk result (λ parts. parts ≡ (self.now.methods, self.now.constraints, self.now.triggers)) }
    {
        let methods = self.methods.copy(alloc)?;
        let constraints = self.constraints.copy(alloc)?;
        let triggers = self.triggers.copy(alloc)?;
        Ok((methods, constraints, triggers))
    }
}

impl Copied for Class {
    fn copy_in(&self, alloc: Global) -> Result<Class, AllocError> {
        self.copy(alloc)
    }
}
