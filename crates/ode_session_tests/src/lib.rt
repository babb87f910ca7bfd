//! Tests of sessions over a disk and an output in memory: what steps answer, who is busy, and what a stop leaves.
#![tactic(auto)]

#[cfg(test)]
mod answers;
#[cfg(test)]
mod rows;
#[cfg(test)]
mod stops;
#[cfg(test)]
mod trial;
