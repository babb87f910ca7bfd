//! An object as a transaction has it, whole.
ghost use Rattle.std.specs.Prelude.{◌≡◌, ◌+◌, IfOk};
ghost use Rattle.std.specs.Option.{option_copied};
ghost use Rattle.std.specs.List.{find, list_any};
ghost use Rattle.ode_objects.specs.Objects.{has_number, head_of, is_numbered, is_on, made, new_active, stamp_of, values_of, version_of};

use crate::values::{KeptArgs, KeptFields};
use ode_heap::ObjectHead;
use ode_types::Running;
use ode_value::{Copied, List, Value};
use ode_versions::{Version as Listed, VersionList};
use std::alloc::{AllocError, Global};

/// All fields of a version with its stamp: as they were read, or as they were written, which a record can hold.
#[derive(Drop)]
pub enum Fields {
    Read { stamp: u32, values: List<Value> },
    Written(KeptFields),
}

/// A version of an object: its number, the number of the one that it was derived from, and its fields.
#[derive(Drop)]
pub struct Version {
    pub number: u32,
    pub parent: Option<u32>,
    pub fields: Fields,
}

/// An activation of an object: its trigger, by the class that declares it and the place there, its arguments, its state number, and
/// whether it is on.
#[derive(Drop)]
pub struct Active {
    pub number: u64,
    pub class: u32,
    pub trigger: u16,
    pub args: KeptArgs,
    pub state: u16,
    pub on: bool,
}

/// An object: its class, whether it is live, its versions and its activations in rising order of numbers, and the last number that
/// a version of it ever had.
#[derive(Drop)]
pub struct Object {
    pub class: u32,
    pub live: bool,
    pub last: u32,
    pub versions: List<Version>,
    pub activations: List<Active>,
}

impl Fields {
    /// The values.
    pub fn values(&self) -> &List<Value>
        ensures { result.now ≡ values_of self.now }
    {
        match self {
            Fields::Read { values, .. } => values,
            Fields::Written(short) => short.values(),
        }
    }

    /// The stamp.
    pub fn stamp(&self) -> u32
        ensures { result ≡ stamp_of self.now }
    {
        match self {
            Fields::Read { stamp, .. } => *stamp,
            Fields::Written(short) => short.stamp(),
        }
    }
}

impl Copied for Fields {
    fn copy_in(&self, alloc: Global) -> Result<Fields, AllocError> {
        match self {
            Fields::Read { stamp, values } => Ok(Fields::Read {
                stamp: *stamp,
                values: values.copy(alloc)?,
            }),
            Fields::Written(short) => Ok(Fields::Written(short.copy(alloc)?)),
        }
    }
}

impl Copied for Version {
    fn copy_in(&self, alloc: Global) -> Result<Version, AllocError> {
        Ok(Version {
            number: self.number,
            parent: self.parent,
            fields: self.fields.copy_in(alloc)?,
        })
    }
}

impl Copied for Active {
    fn copy_in(&self, alloc: Global) -> Result<Active, AllocError> {
        Ok(Active {
            number: self.number,
            class: self.class,
            trigger: self.trigger,
            args: self.args.copy(alloc)?,
            state: self.state,
            on: self.on,
        })
    }
}

impl Active {
    /// A new activation, which is on, at the start of its table.
    pub fn new(number: u64, class: u32, trigger: u16, args: KeptArgs) -> Active
        ensures { result ≡ new_active number class trigger args }
    {
        Active {
            number,
            class,
            trigger,
            args,
            state: 0,
            on: true,
        }
    }
}

impl Object {
    /// The same object again.
    pub fn copy(&self, alloc: Global) -> Result<Object, AllocError>
        ensures { IfOk result (λ copy. copy ≡ self.now) }
    {
        Ok(Object {
            class: self.class,
            live: self.live,
            last: self.last,
            versions: self.versions.copy(alloc)?,
            activations: self.activations.copy(alloc)?,
        })
    }

    /// A new object with its first version.
    pub fn made(alloc: Global, class: u32, fields: KeptFields) -> Result<Object, AllocError>
        ensures { IfOk result (λ object. object ≡ made class fields) }
    {
        let mut versions = List::new(alloc);
        versions.push(Version {
            number: 1,
            parent: None,
            fields: Fields::Written(fields),
        })?;
        Ok(Object {
            class,
            live: true,
            last: 1,
            versions,
            activations: List::new(alloc),
        })
    }

    /// The version that a reference with this version, or with none, denotes.
    pub fn version(&self, version: Option<u32>) -> Option<&Version>
        ensures { option_copied result ≡ version_of version self.now.versions }
    {
        let versions = self.versions.as_slice();
        match version {
            None => versions.last(),
            Some(number) => version_numbered(versions, u64::from(number)),
        }
    }

    /// The number of its next version.
    pub fn next_version(&self) -> u64
        ensures { result ≡ self.now.last + 1 }
    {
        u64::from(self.last) + 1
    }

    /// Whether it has an activation of a number that is on.
    pub fn is_on(&self, number: u64) -> bool
        ensures { result ≡ list_any (is_on number) self.now.activations }
    {
        self.activations
            .as_slice()
            .iter()
            .any(|active| active.number == number && active.on)
    }

    /// Its class, and its versions without their fields.
    pub fn head(&self, alloc: Global) -> Result<ObjectHead, AllocError>
        ensures { IfOk result (λ head. head ≡ head_of self.now) }
    {
        let mut versions = List::new(alloc);
        for version in self.versions.as_slice() {
            versions.push(Listed {
                number: version.number,
                parent: version.parent,
            })?;
        }
        Ok(ObjectHead {
            class: self.class,
            versions: VersionList {
                versions,
                last: self.last,
            },
        })
    }
}

impl Copied for Object {
    fn copy_in(&self, alloc: Global) -> Result<Object, AllocError> {
        self.copy(alloc)
    }
}

/// The version of a number.
pub(crate) fn version_numbered(versions: &[Version], number: u64) -> Option<&Version>
    ensures { option_copied result ≡ find (is_numbered number) versions.now }
{
    for version in versions {
        if u64::from(version.number) == number {
            return Some(version);
        }
    }
    None
}

/// The activation of a number.
pub(crate) fn active_numbered(actives: &[Active], number: u64) -> Option<&Active>
    ensures { option_copied result ≡ find (has_number number) actives.now }
{
    for active in actives {
        if active.number == number {
            return Some(active);
        }
    }
    None
}
