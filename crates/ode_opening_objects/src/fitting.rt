//! Which values fit the fields of a class or the parameters of a trigger.
ghost use Rattle.std.specs.Prelude.{◌≡◌, ℕ};
ghost use Rattle.ode_value.specs.declared.statement.Sort.{Sort as OfSort};
ghost use Rattle.ode_opening_objects.specs.Fitting.{fits_object, fits_reference, fits_sort, is_drawn, match_sorts, refer};
ghost use Rattle.ode_opening_objects.specs.Numbers.{at};

use crate::climbing::climbs;
use crate::head::Head;
use crate::scene::Scene;
use ode_codec::has_sort;
use ode_types::Classes;
use ode_value::{Field, Name, Param, Ref, Sort, Value};

/// What has a sort, from a stamp on.
pub(crate) trait Sorted {
    /// Its sort.
    ghost sort_of: { Self → OfSort };

    /// The stamp.
    ghost birth_of: { Self → ℕ };

    /// Its sort.
    fn sort(&self) -> &Sort
        ensures { result.now ≡ sort_of self.now };

    /// The stamp.
    fn birth(&self) -> u32
        ensures { result ≡ birth_of self.now };
}

impl Sorted for Field {
    ghost use Rattle.ode_opening_objects.specs.Fitting.{born_field, of_field};

    ghost sort_of = { of_field };

    ghost birth_of = { born_field };

    fn sort(&self) -> &Sort {
        &self.sort
    }

    fn birth(&self) -> u32 {
        self.birth
    }
}

impl Sorted for Param {
    ghost use Rattle.ode_opening_objects.specs.Fitting.{born_param, of_param};

    ghost sort_of = { of_param };

    ghost birth_of = { born_param };

    fn sort(&self) -> &Sort {
        &self.sort
    }

    fn birth(&self) -> u32 {
        0
    }
}

/// Whether there is a value of its sort for each member that was there at a stamp, and no other.
pub(crate) fn match_sorts<M: Sorted>(stamp: u32, members: &[M], values: &[Value]) -> bool
    ensures { result ≡ match_sorts stamp M.birth_of M.sort_of members.now values.now }
{
    match members {
        [] => match values {
            [] => true,
            [_, ..] => false,
        },
        [member, members @ ..] => {
            if member.birth() > stamp {
                return match_sorts(stamp, members, values);
            }
            match values {
                [] => false,
                [value, values @ ..] => {
                    has_sort(member.sort(), value) && match_sorts(stamp, members, values)
                }
            }
        }
    }
}

fn is_drawn(last: u32, version: Option<u32>) -> bool
    ensures { result ≡ is_drawn last version }
{
    match version {
        None => true,
        Some(number) => number <= last,
    }
}

fn fits_object(classes: &Classes, class: &Name, version: Option<u32>, head: Head) -> bool
    ensures { result ≡ fits_object classes.now class.now version head }
{
    climbs(classes, head.class, class) && is_drawn(head.last, version)
}

fn fits_reference(scene: &Scene, class: &Name, reference: Ref) -> bool
    ensures { result ≡ fits_reference scene.now.counters.next_number scene.now.classes (at scene.now.heads) class.now reference }
{
    if reference.object == 0 {
        return true;
    }
    if reference.object >= scene.counters.next_number {
        return false;
    }
    match scene.heads.at(reference.object) {
        Some(head) => fits_object(scene.classes, class, reference.version, head),
        None => true,
    }
}

fn fits_sort(scene: &Scene, sort: &Sort, value: &Value) -> bool
    ensures { result ≡ fits_sort scene.now.counters.next_number scene.now.classes (at scene.now.heads) sort.now value.now }
{
    match sort {
        Sort::Reference(class) => match value {
            Value::Reference(reference) => fits_reference(scene, class, *reference),
            _ => true,
        },
        _ => true,
    }
}

/// Whether the references among the values of members fit that were there at a stamp.
pub(crate) fn refer<M: Sorted>(scene: &Scene, stamp: u32, members: &[M], values: &[Value]) -> bool
    ensures { result ≡ refer scene.now.counters.next_number scene.now.classes (at scene.now.heads) stamp M.birth_of M.sort_of members.now values.now }
{
    match members {
        [] => true,
        [member, members @ ..] => {
            if member.birth() > stamp {
                return refer(scene, stamp, members, values);
            }
            match values {
                [] => true,
                [value, values @ ..] => {
                    fits_sort(scene, member.sort(), value) && refer(scene, stamp, members, values)
                }
            }
        }
    }
}
