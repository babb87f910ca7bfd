//! Tests of runs over a disk and an output in memory: faults, stops, limits, ticks and words. Scripts and what they print are
//! cases of `ode_cases`.
#![tactic(auto)]

#[cfg(test)]
mod cut_runs;
#[cfg(test)]
mod equal;
#[cfg(test)]
mod faults;
#[cfg(test)]
mod fields;
#[cfg(test)]
mod generated;
#[cfg(test)]
mod limits;
#[cfg(test)]
mod stops;
#[cfg(test)]
mod ticks;
#[cfg(test)]
mod words;
