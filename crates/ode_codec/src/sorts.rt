//! Which values have a sort.
ghost use Rattle.std.specs.Prelude.{◌≡◌};
ghost use Rattle.ode_codec.specs.Sorts.{has_sort};

use ode_value::{Sort, Value};

/// Whether a value has a sort.
pub fn has_sort(sort: &Sort, value: &Value) -> bool
    ensures { result ≡ has_sort sort.now value.now }
{
    match sort {
        Sort::Int => matches!(value, Value::Int(_)),
        Sort::Bool => matches!(value, Value::Bool(_)),
        Sort::Text => matches!(value, Value::Text(_)),
        Sort::Reference(_) => matches!(value, Value::Reference(_)),
        Sort::Void => false,
    }
}
