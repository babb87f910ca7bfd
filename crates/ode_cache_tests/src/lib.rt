//! Tests of runs over a keeper of pages that has little room in memory.
#![tactic(auto)]

#[cfg(test)]
mod rooms;
