//! Where the texts of settled transactions go.
ghost use Rattle.std.specs.Prelude.{◌≡◌, IsErr, OnOk};
ghost use Rattle.ode_host.specs.Causes.{RoseIf};
ghost use Rattle.ode_host.specs.Host.{Printed, Prints};
ghost use Rattle.ode_transact.specs.Output.{counting, heard};

use ode_host::{Failed, Host};

/// Where the texts of settled transactions go: whether they are printed, and how many bytes they had.
#[derive(Clone, Copy, Debug, PartialEq, Eq)]
pub struct Output {
    /// None of them is printed.
    pub quiet: bool,
    /// How many bytes they had so far, or 2^64 - 1 where these are more.
    pub counted: u64,
}

impl Output {
    // A text is printed, or nothing of it where the output is quiet.
    pub(crate) fn say<H: Host>(self, host: &mut H, text: &[u8]) -> Result<(), Failed>
        ensures prints { Prints (heard self.quiet text.now) (H.view host.old) (H.view host.new) }
        ensures done { OnOk result (Printed (heard self.quiet text.now) (H.view host.old) (H.view host.new)) }
        ensures cause { RoseIf (IsErr result) (H.view host.old).print_faults (H.view host.new).print_faults }
    {
        if self.quiet {
            return Ok(());
        }
        host.print(text)
    }

    // A text is counted.
    pub(crate) fn count(&mut self, text: &[u8])
        ensures { self.new ≡ counting self.old text.now }
    {
        self.counted = self.counted.saturating_add(text.len() as u64);
    }
}
