//! Which values fit the fields of a class.
ghost use Rattle.std.specs.Prelude.{◌≡◌};
ghost use Rattle.ode_heap.specs.Looking.{fit_fields};

use ode_codec::has_sort;
use ode_value::{Field, Value};

/// Whether there is a value of its sort for each field, and no other.
pub(crate) fn fit_fields(fields: &[Field], values: &[Value]) -> bool
    ensures { result ≡ fit_fields fields.now values.now }
{
    match fields {
        [] => match values {
            [] => true,
            [_, ..] => false,
        },
        [field, fields @ ..] => match values {
            [] => false,
            [value, values @ ..] => { has_sort(&field.sort, value) && fit_fields(fields, values) }
        },
    }
}
