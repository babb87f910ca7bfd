//! Why a statement is refused and why a transaction aborts.
use crate::name::Name;
use crate::value::Ref;

/// Why a transaction aborts.
#[derive(Drop)]
pub enum Reason {
    /// By `abort;` or `tabort;`.
    Asked,
    /// The constraint of this name doesn't hold.
    Constraint(Name),
    /// An int outside 64 bits, or a text that is too long.
    Overflow,
    DivideByZero,
    /// The object of this number isn't there. Null has number 0.
    NoObject(u64),
    /// The object is there, and this version of it isn't.
    NoVersion(Ref),
    /// The only version of this object.
    LastVersion(u64),
    /// Too many calls and actions, one inside the other.
    Depth,
    /// Too many statements.
    Budget,
    /// Too many deferred actions.
    Cascade,
    /// Too many changes, or a change that is too long.
    Size,
    /// Too heavy a database, or no number left.
    Space,
    /// Too much text.
    Output,
    /// By the end of the script.
    End,
}

/// The first static rule that a statement breaks, with the name at which it does.
#[derive(Drop)]
pub enum CheckError {
    UnknownName(Name),
    Duplicate(Name),
    WrongSort(Name),
    NotInherited(Name),
    TooMany(Name),
}

/// Why a statement is refused. Places are of bytes in the piece, counted from 0.
#[derive(Drop)]
pub enum Refusal {
    /// No token begins here.
    NoToken { at: u32 },
    /// No statement goes on with the token here.
    Syntax { at: u32 },
    /// No statement within the height goes on with the token here.
    TooDeep { at: u32 },
    InTransaction,
    NoTransaction,
    NumbersSpent,
    /// A literal of an object that isn't there.
    NoObject(u64),
    /// A literal of a version that isn't there.
    NoVersion(Ref),
    Check(CheckError),
    /// The alphabet of an event expression has too many symbols, this many.
    TooManySymbols { trigger: Name, count: u32 },
    /// An event expression has too many states.
    TooManyStates { trigger: Name },
    /// The class needs too many records, this many.
    ClassTooLarge { count: u32 },
    BadInstant,
    ClockBack,
    /// Too many clock events are due, this many.
    TooManyDue { count: u128 },
    NotBuilt,
}
