//! Tests of pages of records, and of the keeper of pages over a disk in memory.
#![tactic(auto)]

#[cfg(test)]
mod batches;
#[cfg(test)]
mod checkpoints;
#[cfg(test)]
mod disk;
#[cfg(test)]
mod equal;
#[cfg(test)]
mod images;
#[cfg(test)]
mod keepers;
#[cfg(test)]
mod meter;
#[cfg(test)]
mod pages;
#[cfg(test)]
mod reads;
#[cfg(test)]
mod store;
