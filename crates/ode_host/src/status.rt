//! How a run ended.
ghost use Rattle.std.specs.Prelude.{◌≡◌};

/// How a run ended. `code` gives its number.
#[derive(Clone, Copy, Debug, PartialEq, Eq)]
pub enum Status {
    /// Every statement was carried out.
    Ok = 0,
    /// The script was read to its end, and some statement was refused.
    Refused = 1,
    /// The words of the call are no right list.
    Usage = 2,
    /// The file breaks a rule of a database, or is in use where one is to be made.
    BadFile = 3,
    /// A disk call failed.
    DiskFault = 4,
    /// A read of the script failed.
    ReadFault = 5,
    /// A print failed.
    WriteFault = 6,
    /// There was no memory.
    Memory = 7,
    /// A statement isn't ended within its limit.
    LongStatement = 8,
    /// The script is longer than its limit.
    LongScript = 9,
}

impl Status {
    ghost use Rattle.ode_host.specs.Codes.{code_of};

    /// The number that the process exits with.
    pub fn code(&self) -> u8
        ensures { result ≡ code_of self.now }
    {
        *self as u8
    }
}
