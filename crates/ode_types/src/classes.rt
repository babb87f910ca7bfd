//! The classes that are declared.
ghost use Rattle.std.specs.Prelude.{◌≡◌, ◌<◌, ◌≤◌, ◌-◌, [], ◌∷◌, ◌++◌, IfSome, OnErr, OnOk, length, remove, reverse, take};
ghost use Rattle.std.specs.BTreeMap.{insert_entry};
ghost use Rattle.std.specs.Cmp.Lexicographic.{slice_cmp};
ghost use Rattle.std.specs.List.{slice_get};
ghost use Rattle.std.specs.Option.{option_copied};
ghost use Rattle.std.specs.Ordering.{nat_cmp};
ghost use Rattle.ode_types.specs.Checked.{AreChecked, IsChecked};
ghost use Rattle.ode_types.specs.Families.{class_named, class_numbered, upward};
ghost use Rattle.ode_types.specs.Lines.{headed, parent_in};
ghost use Rattle.ode_types.specs.Indexed.{place_named};

use ode_value::{Class, List, Name};
use std::alloc::{AllocError, Global};
use std::collections::BTreeMap;
use std::marker::Model;

/// Checked classes, each against those before it. Contracts see their list, in which the class of number n is the n-th.
#[derive(Drop)]
pub struct Classes {
    list: List<Class>,
    // the place of each class in the list, by its name
    places: BTreeMap<Vec<u8>, usize>,
    alloc: Global,
}

impl Model for Classes {
    ghost use Rattle.std.specs.Prelude.{List as Items};
    ghost use Rattle.ode_value.specs.declared.class.Class.{Class as Declared};
    ghost use Rattle.ode_types.specs.Checked.{AreChecked};
    ghost use Rattle.ode_types.specs.Indexed.{AreNumbered, ArePlaces};
    ghost use Rattle.ode_value.specs.contracts.class.Class as class;
    ghost use Rattle.std.specs.Coded.{coded_list};

    ghost Value = { Items Declared };

    ghost coded = { coded_list class.the_row.coded };

    ghost view = { λ c. c.list };

    ghost invariant = { λ c. AreNumbered c.list × ArePlaces c.list c.places.entries × AreChecked c.list };
}

impl Classes {
    /// No classes.
    pub fn new(alloc: Global) -> Classes
        ensures { result ≡ [] }
    {
        Classes {
            list: List::new(alloc),
            places: BTreeMap::new(alloc),
            alloc,
        }
    }

    /// Adds a class that was checked against those that are there. Nothing changes where there is no memory.
    pub fn add(&mut self, class: Class) -> Result<(), AllocError>
        requires { IsChecked self.old class }
        ensures ok { OnOk result (self.new ≡ self.old ++ class ∷ []) }
        ensures err { OnErr result (self.new ≡ self.old) }
    {
        let name = Vec::from_slice(self.alloc, class.name.as_bytes())?;
        let place = self.list.len();
        self.list.push(class)?;
        match put(&mut self.places, name, place) {
            Ok(()) => Ok(()),
            Err(error) => {
                drop_at(&mut self.list, place);
                Err(error)
            }
        }
    }

    /// The class of this number. It isn't looked for among all.
    pub fn class(&self, number: u32) -> Option<&Class>
        ensures { option_copied result ≡ class_numbered self.now number }
    {
        let classes = self.list.as_slice();
        match number.checked_sub(1) {
            Some(place) => at(classes, place as usize),
            None => None,
        }
    }

    /// The class of this name. It isn't looked for among all.
    pub fn named(&self, name: &Name) -> Option<&Class>
        ensures { option_copied result ≡ class_named self.now name.now }
    {
        match self.place_of(name) {
            Some(place) => at(self.list.as_slice(), place),
            None => None,
        }
    }

    /// The class of this number, where it is among the first ones. The line from it up goes on among those before it.
    pub fn among(&self, number: u32, before: usize) -> Option<&Class>
        ensures line { upward number (reverse (take before self.now))
            ≡ headed (option_copied result) (upward (parent_in result) (reverse (take (number - 1) self.now))) }
        ensures low { IfSome result (λ _. 1 ≤ number) }
    {
        let classes = self.list.as_slice();
        if number == 0 {
            return None;
        }
        let place = number as usize - 1;
        if place < before {
            at(classes, place)
        } else {
            None
        }
    }

    // The place of the class of this name.
    fn place_of(&self, name: &Name) -> Option<usize>
        ensures { result ≡ place_named self.now name.now }
    {
        self.places.get(name.as_bytes()).copied()
    }

    /// All of them, in order. Each was checked against those before it.
    pub fn as_slice(&self) -> &[Class]
        ensures all { result.now ≡ self.now }
        ensures checked { AreChecked self.now }
    {
        self.list.as_slice()
    }
}

fn at(classes: &[Class], place: usize) -> Option<&Class>
    ensures { option_copied result ≡ slice_get classes.now place }
{
    classes.get(place)
}

// This place stands under the name from now on. Nothing changes where there is no memory.
fn put(places: &mut BTreeMap<Vec<u8>, usize>, name: Vec<u8>, place: usize) -> Result<(), AllocError>
    ensures ok { OnOk result (places.new.entries ≡ insert_entry (λ k l. slice_cmp nat_cmp k.items l.items) places.old.entries name place) }
    ensures err { OnErr result (places.new.entries ≡ places.old.entries) }
{
    places.insert(name, place)?;
    Ok(())
}

fn drop_at(classes: &mut List<Class>, place: usize)
    requires { place < length classes.old }
    ensures { classes.new ≡ remove classes.old place }
{
    classes.remove(place);
}
