//! What a transaction comes to depends on what it looks at, draws and queues alone: laws, each carried by the contract of a function that
//! does nothing.
#![tactic(auto)]

mod footprints;

pub use footprints::{
    completions_depend_on_footprints, footprints_grow, numbers_stay_drawn,
    settlings_depend_on_footprints, statements_depend_on_footprints, touched_objects_are_looked_at,
    transactions_change_what_they_look_at, what_is_collected_is_marked,
};
