//! Where an entry stands in a page.
ghost use Rattle.std.specs.Prelude.{◌≡◌};

/// The bytes of a page from start to end, in which so many entries stand: one, or none where the two are the same.
#[derive(Clone, Copy)]
pub(crate) struct Place {
    pub(crate) start: usize,
    pub(crate) end: usize,
    pub(crate) count: u16,
}

impl Place {
    /// A place at which no entry stands.
    pub(crate) fn free(start: usize) -> Place
        ensures { result ≡ record { start = start; end = start; count = 0 } }
    {
        Place {
            start,
            end: start,
            count: 0,
        }
    }
}
