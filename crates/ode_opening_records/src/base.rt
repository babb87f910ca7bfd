//! What records are opened to.

use ode_symbols::Alphabet;
use ode_table::Table;
use ode_types::Classes;
use ode_value::List;

/// What records are opened to: their classes; the tables of these with their alphabets, and for each class the place of its first table;
/// the bytes of all records but for the queue's entries, where each table counts as if it had as many states as its event has trees.
#[derive(Drop)]
pub struct Base {
    pub classes: Classes,
    pub tables: List<Table>,
    pub alphabets: List<Alphabet>,
    pub maps: List<u32>,
    pub bytes: u64,
}
