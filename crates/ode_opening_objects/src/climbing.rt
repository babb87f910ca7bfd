//! The classes from one up.
ghost use Rattle.std.specs.Prelude.{◌≡◌, Bool, length};
ghost use Rattle.std.specs.Option.{option_map, unwrap_or};
ghost use Rattle.ode_types.specs.Families.{class_numbered};
ghost use Rattle.ode_value.specs.declared.class.Class.{Class as OfClass};
ghost use Rattle.ode_opening_objects.specs.Fitting.{climbs_to};

use ode_types::Classes;
use ode_value::{Class, Name};

/// What is looked for from a class up.
pub(crate) trait Sought {
    /// Whether a class is it.
    ghost passes: { Self → OfClass → Bool };

    /// Whether a class is it.
    fn passed_by(&self, class: &Class) -> bool
        ensures { result ≡ passes self.now class.now };
}

impl Sought for Name {
    ghost use Rattle.ode_opening_objects.specs.Fitting.{is_named};

    ghost passes = { is_named };

    fn passed_by(&self, class: &Class) -> bool {
        class.name.same(self)
    }
}

impl Sought for u32 {
    ghost use Rattle.ode_opening_objects.specs.Fitting.{is_numbered};

    ghost passes = { is_numbered };

    fn passed_by(&self, class: &Class) -> bool {
        class.number == *self
    }
}

// Whether the class of a number is it, and its parent's number.
fn looked<S: Sought>(classes: &Classes, number: u32, sought: &S) -> Option<(bool, u32)>
    ensures { result ≡ option_map (λ (c : OfClass). (S.passes sought.now c, unwrap_or c.parent 0)) (class_numbered classes.now number) }
{
    let class = classes.class(number)?;
    Some((sought.passed_by(class), class.parent.unwrap_or(0)))
}

/// Whether it is the class of a number, or one from which that inherits.
pub(crate) fn climbs<S: Sought>(classes: &Classes, number: u32, sought: &S) -> bool
    ensures { result ≡ climbs_to (S.passes sought.now) (length classes.now) classes.now number }
{
    let mut number = number;
    let steps = classes.as_slice().len();
    for step in 0..steps {
        let Some((same, parent)) = looked(classes, number, sought) else {
            return false;
        };
        if same {
            return true;
        }
        number = parent;
    }
    false
}
