//! Tests of what transactions change: tables of short acts with what each answers, and the record changes at the end.
#![tactic(auto)]

#[cfg(test)]
mod acts;
#[cfg(test)]
mod base;
#[cfg(test)]
mod equal;
#[cfg(test)]
mod tables;
