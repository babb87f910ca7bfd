//! Objects that a transaction has read or made.
ghost use Rattle.std.specs.Prelude.{◌≡◌};
ghost use Rattle.ode_objects.specs.Tracked.{changed_to, made_object, read_object};

use crate::object::Object;
use std::mem::replace;

/// An object as it was when the transaction began: as it is now, another, or not there, since it was made.
#[derive(Drop)]
pub enum First {
    Same,
    Other(Object),
    Absent,
}

/// An object that a transaction has read or made: as it was when the transaction began, and as it is now.
#[derive(Drop)]
pub struct Tracked {
    pub first: First,
    pub current: Object,
}

impl Tracked {
    /// An object that was read.
    pub fn read(object: Object) -> Tracked
        ensures { result ≡ read_object object }
    {
        Tracked {
            first: First::Same,
            current: object,
        }
    }

    /// An object that was made.
    pub fn made(object: Object) -> Tracked
        ensures { result ≡ made_object object }
    {
        Tracked {
            first: First::Absent,
            current: object,
        }
    }

    /// The object is this from now on.
    pub fn change(&mut self, now: Object)
        ensures { self.new ≡ changed_to now self.old }
    {
        let was = replace(&mut self.current, now);
        if let First::Same = self.first {
            self.first = First::Other(was);
        }
    }
}
