//! The host: a disk and an output.
ghost use Rattle.std.specs.Prelude.{◌≡◌, ◌+◌, ◌≤◌, List, ℕ, length, IsSome, Some, IfOk, OnOk, OnErr, IsErr};
ghost use Rattle.ode_host.specs.Causes.{RoseIf};
ghost use Rattle.ode_host.specs.View.{View};
ghost use Rattle.ode_host.specs.Host.{Looks, Gives, Writes, Wrote, MayHaveWritten, Only, Tells, Prints, Printed, MayHavePrinted};

/// The outside failed: a count of faults rose.
#[derive(Clone, Copy, Debug, PartialEq, Eq)]
pub struct Failed;

/// A disk and an output in one, so that a stop is one moment for both.
pub trait Host {
    /// What is known of it now.
    ghost view: { Self → View };

    /// Fills a front of `to` with the bytes at an offset, and answers how many. That is 0 exactly where `to` is empty or the
    /// disk ends there or before.
    fn read_at(&mut self, at: u64, to: &mut [u8]) -> Result<usize, Failed>
        ensures bound { IfOk result (λ n. n ≤ length to.new) }
        ensures bytes { IfOk result (Gives (view self.old) at to.new) }
        ensures looks { Looks (view self.old) (view self.new) }
        ensures fetched { IfOk result (λ n. IsSome (view self.old).image → (view self.new).fetched ≡ (view self.old).fetched + n) }
        ensures not_fetched { OnErr result (IsSome (view self.old).image → (view self.new).fetched ≡ (view self.old).fetched) }
        ensures cause { RoseIf (IsErr result) (view self.old).disk_faults (view self.new).disk_faults };

    /// Writes over what is there, and past the end. Until a sync a stop may leave any bytes in the range and past the old
    /// end. A failed write may have been cut short.
    fn write_at(&mut self, at: u64, from: &[u8]) -> Result<(), Failed>
        ensures writes { Writes at from.now (view self.old) (view self.new) }
        ensures done { OnOk result (Wrote at from.now (view self.old) (view self.new)) }
        ensures torn { OnErr result (MayHaveWritten at (length from.now) (view self.old) (view self.new)) }
        ensures cause { RoseIf (IsErr result) (view self.old).disk_faults (view self.new).disk_faults };

    /// After it a stop leaves what a read gives.
    fn sync(&mut self) -> Result<(), Failed>
        ensures durable { OnOk result ((file : List ℕ) → Tells (view self.old) file → Only file (view self.new)) }
        ensures looks { Looks (view self.old) (view self.new) }
        ensures not_fetched { IsSome (view self.old).image → (view self.new).fetched ≡ (view self.old).fetched }
        ensures cause { RoseIf (IsErr result) (view self.old).disk_faults (view self.new).disk_faults };

    /// How many bytes the disk has.
    fn size(&mut self) -> Result<u64, Failed>
        ensures length { IfOk result (λ n. (file : List ℕ) → Tells (view self.old) file → n ≡ length file) }
        ensures looks { Looks (view self.old) (view self.new) }
        ensures not_fetched { IsSome (view self.old).image → (view self.new).fetched ≡ (view self.old).fetched }
        ensures cause { RoseIf (IsErr result) (view self.old).disk_faults (view self.new).disk_faults };

    /// Prints the piece. A failed print leaves a front of it printed.
    fn print(&mut self, piece: &[u8]) -> Result<(), Failed>
        ensures prints { Prints piece.now (view self.old) (view self.new) }
        ensures done { OnOk result (Printed piece.now (view self.old) (view self.new)) }
        ensures cut { OnErr result (MayHavePrinted piece.now (view self.old) (view self.new)) }
        ensures cause { RoseIf (IsErr result) (view self.old).print_faults (view self.new).print_faults };

    /// What a stop now leaves printed is what was printed.
    ghost text_stands: { (host : Self) (c o : List ℕ) → (view host).left (view host).moment c o → (view host).text ≡ Some o };

    /// The disk as it reads is one of those that a stop now may leave.
    ghost may_stay: { (host : Self) (file text : List ℕ) → Tells (view host) file → (view host).text ≡ Some text → (view host).left (view host).moment file text };
}
