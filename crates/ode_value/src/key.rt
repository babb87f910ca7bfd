//! The keys of records.
ghost use Rattle.std.specs.Prelude.{◌≡◌};
ghost use Rattle.ode_value.specs.Keys as keys;

/// The key of a record. Keys are ordered by kind, then by their numbers.
#[derive(Clone, Copy, Debug, PartialEq, Eq, PartialOrd, Ord)]
pub struct Key {
    pub kind: u8,
    pub a: u64,
    pub b: u64,
}

/// The ten kinds of records. The definitions have the same numbers in `specs/Keys.antt`.
impl Key {
    /// The counters of a world, the clock among them; both numbers are 0.
    pub const COUNTERS: u8 = 1;
    /// The head of a class: its number, and 0.
    pub const CLASS_HEAD: u8 = 2;
    /// A piece of a class's printed text: the class's number, and the piece's from 0.
    pub const CLASS_PIECE: u8 = 3;
    /// The head of a trigger's table: the class's number, and the trigger's place from 0.
    pub const TABLE_HEAD: u8 = 4;
    /// A piece of a table: the class's number, and the trigger's place times 65,536 plus the piece's.
    pub const TABLE_PIECE: u8 = 5;
    /// An object: its number, and 0.
    pub const OBJECT: u8 = 6;
    /// A version: the object's number, and the version's.
    pub const VERSION: u8 = 7;
    /// An activation: the object's number, and the activation's.
    pub const ACTIVATION: u8 = 8;
    /// An entry of the queue: its number, and 0.
    pub const ENTRY: u8 = 9;
    /// A field that was added to a class: the class's number, and the field's birth.
    pub const ADDED: u8 = 10;
}

/// The kinds of the code are those of the definitions.
pub fn kinds_agree()
    ensures counters { Key.COUNTERS ≡ keys.counters_kind }
    ensures class_head { Key.CLASS_HEAD ≡ keys.class_head_kind }
    ensures class_piece { Key.CLASS_PIECE ≡ keys.class_piece_kind }
    ensures table_head { Key.TABLE_HEAD ≡ keys.table_head_kind }
    ensures table_piece { Key.TABLE_PIECE ≡ keys.table_piece_kind }
    ensures object { Key.OBJECT ≡ keys.object_kind }
    ensures version { Key.VERSION ≡ keys.version_kind }
    ensures activation { Key.ACTIVATION ≡ keys.activation_kind }
    ensures entry { Key.ENTRY ≡ keys.entry_kind }
    ensures added { Key.ADDED ≡ keys.added_kind }
{}
