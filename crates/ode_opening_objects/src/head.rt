//! What is known of an object.
ghost use Rattle.std.specs.Prelude.{◌≡◌};
ghost use Rattle.ode_opening_objects.specs.Heads.{of_object};

use ode_codec::Record;

/// The class of an object, and the last number that a version of it ever had.
#[derive(Clone, Copy, Debug, PartialEq, Eq)]
pub struct Head {
    pub class: u32,
    pub last: u32,
}

/// What an object's record tells.
pub(crate) fn of_object(row: &Record) -> Option<Head>
    ensures { result ≡ of_object row.now }
{
    match row {
        Record::Object { class, last, .. } => Some(Head {
            class: *class,
            last: *last,
        }),
        _ => None,
    }
}
