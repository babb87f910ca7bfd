//! The tables of the triggers of a database: each is stored whole and means its trigger's event, or the first trigger has none.
#![tactic(auto)]

mod bytes;
mod comparing;
mod laws;
mod records;
mod tables;

pub use laws::{one_table_is_stored, tables_come_to_one_thing};
pub use tables::read_tables;
