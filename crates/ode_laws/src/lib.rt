//! Laws of the machine's definitions, each carried by the contract of a function that does nothing.
#![tactic(auto)]

mod alike;
mod bounds;
mod counts;

pub use alike::{
    acts_run_alike, good_worlds_are_numbered, tables_may_grow, transactions_settle_alike,
};
pub use bounds::{rounds_suffice, settling_stays_bounded, transactions_stay_bounded};
pub use counts::{counters_stay_in_range, records_stay_short, worlds_stay_light};
