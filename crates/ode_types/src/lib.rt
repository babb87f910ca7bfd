//! The static rules as definitions, the list of checked classes, and what a class has by name.
#![tactic(auto)]

mod checked;
mod classes;
pub mod families;
mod limits;
mod line;
mod running;
pub mod stop;

pub use checked::{Right, Typed};
pub use classes::Classes;
pub use limits::{
    ANCESTOR_LIMIT, CLASSES_LIMIT, FIELD_LIMIT, SLOT_LIMIT, TRIGGER_LIMIT, in_slots, limits_agree,
};
pub use line::{Known, Line};
pub use running::Running;
pub use stop::CheckStop;
