//! Sessions with open transactions side by side: each one's statements stay done whatever the others settle, and what settles is what the
//! transactions do one after another. Laws, without code.
#![tactic(auto)]

mod meeting;

pub use meeting::{
    endings_are_never_held_by_all, holders_are_open, runs_of_sessions_are_serial,
    sessions_are_serial, sessions_stay_apart,
};
