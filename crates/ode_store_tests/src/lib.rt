//! Tests of what lies in a file: gates, headers, journals and records, and what stops leave of them, over a disk in memory.
#![tactic(auto)]

#[cfg(test)]
mod disk;
#[cfg(test)]
mod equal;
#[cfg(test)]
mod headers;
#[cfg(test)]
mod journals;
#[cfg(test)]
mod keepers;
