//! The context of a transaction.
use ode_heap::Heap;
use ode_overlay::Overlay;
use ode_states::Fired;
use ode_symbols::Alphabet;
use ode_table::Table;
use ode_types::Classes;
use ode_value::List;

/// What a transaction runs on: the declared classes with the tables and alphabets of their triggers, the records and what changed, the
/// deferred firings, the text, and what is left of levels and statements; the weight of the world at the start.
#[derive(Drop)]
pub struct Ctx<K> {
    pub classes: Classes,
    pub tables: List<Table>,
    pub alphabets: List<Alphabet>,
    pub maps: List<u32>,
    pub heap: Heap<K>,
    pub overlay: Overlay,
    pub deferred: List<(u64, Fired)>,
    pub text: List<u8>,
    pub depth: u8,
    pub budget: u32,
    pub bytes: u64,
}
