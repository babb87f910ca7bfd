//! Classes that records declare, as they were compiled.

use ode_symbols::Alphabet;
use ode_table::Table;
use ode_types::Classes;
use ode_value::List;

/// Classes that records declare; and for each trigger of each class in order a table and an alphabet, as they were built, and how many
/// trees its event has.
#[derive(Drop)]
pub struct Accepted {
    pub classes: Classes,
    pub tables: List<Table>,
    pub alphabets: List<Alphabet>,
    pub counts: List<u16>,
}
