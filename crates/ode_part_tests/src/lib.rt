//! Tests of the parts that runs are made of: values, fields of bytes, tokens, trees of states.
#![tactic(auto)]

#[cfg(test)]
mod equal;
#[cfg(test)]
mod fields;
#[cfg(test)]
mod tokens;
#[cfg(test)]
mod trees;
#[cfg(test)]
mod values;
