//! The records of a database.

use ode_value::{List, Name, Value};

/// The places that the pieces of one trigger's table have among those of a class.
pub const TABLE_PLACES: u32 = 65_536;

/// From this number on the count of a version's fields says that a stamp follows.
pub const STAMPED: u16 = 32_768;

/// The tag of an integer.
pub const INT_TAG: u8 = 0;

/// The tag of a truth value.
pub const BOOL_TAG: u8 = 1;

/// The tag of a text.
pub const TEXT_TAG: u8 = 2;

/// The tag of a reference.
pub const REFERENCE_TAG: u8 = 3;

/// The sort `int` of an added field as it is stored.
pub const INT_SORT: u8 = 0;

/// The sort `bool` of an added field as it is stored.
pub const BOOL_SORT: u8 = 1;

/// The sort `text` of an added field as it is stored.
pub const TEXT_SORT: u8 = 2;

/// The sort of an added field that holds references, as it is stored.
pub const REFERENCE_SORT: u8 = 3;

/// The next numbers of an object or activation, of a transaction and of an entry; how far the clock has come: an instant, an object and a
/// place in its class's list of kinds, all zero where it isn't set; and how many fields were added to classes.
#[derive(Clone, Copy, Debug, PartialEq, Eq)]
pub struct Counters {
    pub next_number: u64,
    pub next_transaction: u64,
    pub next_entry: u64,
    pub clock_set: bool,
    pub instant: i64,
    pub object: u64,
    pub place: u32,
    pub added: u32,
}

/// An activation of a trigger, which its class and its place there name. The state is that of the trigger's table.
#[derive(Drop)]
pub struct Activation {
    pub object: u64,
    pub number: u64,
    pub class: u32,
    pub trigger: u16,
    pub state: u16,
    pub args: List<Value>,
}

/// A firing that waits to run as a transaction of its own.
#[derive(Drop)]
pub struct Entry {
    pub object: u64,
    pub class: u32,
    pub trigger: u16,
    pub generation: u8,
    pub args: List<Value>,
}

/// A record.
#[derive(Drop)]
pub enum Record {
    Counters(Counters),
    /// A class: its name, its parent or 0, the length of its printed text and the count of its triggers.
    ClassHead {
        class: u32,
        name: Name,
        parent: u32,
        text_length: u32,
        triggers: u16,
    },
    /// A piece of a class's printed text, counted from 0.
    ClassPiece {
        class: u32,
        piece: u32,
        bytes: List<u8>,
    },
    /// A trigger's table: its states and its symbols.
    TableHead {
        class: u32,
        trigger: u16,
        states: u16,
        symbols: u8,
    },
    /// A piece of the bytes of a trigger's table, counted from 0.
    TablePiece {
        class: u32,
        trigger: u16,
        piece: u16,
        bytes: List<u8>,
    },
    /// An object: its class and the last number that a version of it ever had.
    Object {
        object: u64,
        class: u32,
        last: u32,
    },
    /// A version: its number, the number of its parent or 0, its stamp, and those fields that were there then.
    Version {
        object: u64,
        number: u32,
        parent: u32,
        stamp: u32,
        fields: List<Value>,
    },
    Activation(Activation),
    Entry {
        number: u64,
        entry: Entry,
    },
    /// A field that was added to a class: its name, its sort, of a reference the number of the class or else 0, and its literal.
    Added {
        class: u32,
        birth: u32,
        name: Name,
        sort: u8,
        of: u32,
        literal: Value,
    },
}
