//! Tests of records, of lists of versions and of a heap over a keeper.
#![tactic(auto)]

#[cfg(test)]
mod classes;
#[cfg(test)]
mod database;
#[cfg(test)]
mod equal;
#[cfg(test)]
mod heap;
#[cfg(test)]
mod records;
#[cfg(test)]
mod versions;
