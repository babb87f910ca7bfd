//! What a transaction comes from.

/// What a transaction comes from: a script, an entry of the queue, or the clock, which it leaves at a position or behind
/// everything of an instant.
#[derive(Clone, Copy)]
pub enum Origin {
    Script,
    Entry {
        number: u64,
        generation: u8,
    },
    Tick {
        instant: i64,
        object: u64,
        place: u32,
    },
    Move {
        instant: i64,
    },
}
