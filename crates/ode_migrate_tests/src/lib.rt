//! Tests of files of the first format that become files of the last one, over a disk in memory.
#![tactic(auto)]

#[cfg(test)]
mod areas;
#[cfg(test)]
mod disk;
#[cfg(test)]
mod equal;
#[cfg(test)]
mod found;
#[cfg(test)]
mod pages;
#[cfg(test)]
mod stops;
