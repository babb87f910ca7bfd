//! What a run needs of a file.
use ode_gate::FORMAT;
use ode_symbols::Alphabet;
use ode_table::Table;
use ode_types::Classes;
use ode_value::List;

/// The format of the files that a run goes on over; a file of an earlier one is migrated before.
pub const RUN_FORMAT: u32 = FORMAT;

/// What a run needs of a file: the keeper of its records; its classes; their tables with their alphabets, and for each class the place
/// of its first table; the bytes of all records but for the queue's entries; its format.
#[derive(Drop)]
pub struct Opened<K> {
    pub keeper: K,
    pub classes: Classes,
    pub tables: List<Table>,
    pub alphabets: List<Alphabet>,
    pub maps: List<u32>,
    pub bytes: u64,
    pub format: u32,
}
