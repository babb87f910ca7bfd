//! What holds of the language of scripts: its rules are sound, it reads well, and its runs from good worlds stay good. Each law is carried by
//! the contract of a function that does nothing.
#![tactic(auto)]

mod laws;

pub use laws::{
    changes_are_behind, clock_events_are_in_range, language_has_sound_changes,
    language_has_sound_rules, language_reads_well, runs_of_the_language_stay_good,
    what_is_read_is_in_range,
};
