//! Tests of a primary and its standby over disks and outputs in memory: what one ships, and what the other makes of it.
#![tactic(auto)]

#[cfg(test)]
mod rows;
#[cfg(test)]
mod stops;
#[cfg(test)]
mod trial;
