//! How many bytes values take.
ghost use Rattle.std.specs.Prelude.{◌≡◌, ◌<◌, nat_le};
ghost use Rattle.ode_value.specs.Lengths.{value_length, values_length};

use ode_value::Value;

// A value's tag.
const TAG_LEN: usize = 1;

// An integer with its tag.
const INT_LEN: usize = TAG_LEN + 8;

// A truth value with its tag.
const BOOL_LEN: usize = TAG_LEN + 1;

// What stands before a text: its tag and its length.
const TEXT_HEAD_LEN: usize = TAG_LEN + 2;

// A reference with its tag: an object and a version.
const REFERENCE_LEN: usize = TAG_LEN + 8 + 4;

/// The value of a table's head: its states and its symbols.
pub const TABLE_HEAD_LEN: usize = 3;

/// The bytes of a value.
pub fn value_length(value: &Value) -> usize
    ensures length { result ≡ value_length value.now }
    ensures short { result < 4096 }
{
    match value {
        Value::Int(_) => INT_LEN,
        Value::Bool(_) => BOOL_LEN,
        Value::Text(text) => TEXT_HEAD_LEN + text.as_bytes().len(),
        Value::Reference(_) => REFERENCE_LEN,
    }
}

/// Whether values take at most so many bytes.
pub fn values_fit(values: &[Value], limit: usize) -> bool
    ensures { result ≡ nat_le (values_length values.now) limit }
{
    match values {
        [] => true,
        [value, values @ ..] => match limit.checked_sub(value_length(value)) {
            Some(rest) => values_fit(values, rest),
            None => false,
        },
    }
}
