//! The names of classes and triggers, by their numbers.
ghost use Rattle.std.specs.Prelude.{◌≡◌};
ghost use Rattle.ode_dump.specs.Names.{class_name, trigger_name};

use ode_types::Classes;

/// The name of a class, or an empty one where there is no such class.
pub(crate) fn class_name(classes: &Classes, class: u32) -> &[u8]
    ensures { result.now ≡ class_name classes.now class }
{
    match classes.class(class) {
        Some(class) => class.name.as_bytes(),
        None => b"",
    }
}

/// The name of a trigger, by the class that declares it and its place there; or an empty one where there is no such trigger.
pub(crate) fn trigger_name(classes: &Classes, class: u32, place: u16) -> &[u8]
    ensures { result.now ≡ trigger_name classes.now class place }
{
    let Some(class) = classes.class(class) else {
        return b"";
    };
    match class.triggers.as_slice().get(place as usize) {
        Some(trigger) => trigger.name.as_bytes(),
        None => b"",
    }
}
