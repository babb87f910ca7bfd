//! References of which the class is given.

use ode_types::Classes;
use ode_value::{Name, OdeText, Ref, parse_ref};
use std::alloc::Global;

/// The reference and the class's number of `REFERENCE CLASS`, where the class is there.
pub fn literal_of(alloc: Global, classes: &Classes, words: &str) -> Option<(Ref, u32)> {
    let (reference, class) = words.split_once(' ')?;
    let reference = parse_ref(reference.as_bytes())?;
    let Ok(text) = OdeText::new(alloc, class.as_bytes()) else {
        return None;
    };
    let name = Name::new(text)?;
    let class = classes.named(&name)?;
    Some((reference, class.number))
}
