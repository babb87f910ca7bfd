//! What holds where a class gets fields: the masks of its family are moved, and tables, state numbers and starts stay. Each law is carried
//! by the contract of a function that does nothing.
#![tactic(auto)]

mod laws;

pub use laws::{
    changed_worlds_are_good, changed_worlds_are_held, changed_worlds_are_stood_for,
    changed_worlds_keep_records, changed_worlds_weigh_more, moved_events_fire,
    numbers_stand_for_altered_views, starts_stay_within_altered, tables_mean_moved_events,
};
