//! What is amiss with a trial.
use std::alloc::{AllocError, Global};
use std::fmt::Debug;

/// What a test says whose trial isn't as it should be.
pub const AMISS: &str = "a trial";

/// Why a trial isn't as it should be.
#[derive(Debug, Drop)]
pub enum Amiss {
    /// There is no memory.
    Memory,
    /// What is wrong with the thing of a name.
    Wrong(String),
}

impl From<AllocError> for Amiss {
    fn from(_: AllocError) -> Amiss {
        Amiss::Memory
    }
}

/// What is found of the thing of this name is what is expected.
pub fn agree<T: Copy + Debug + PartialEq>(
    alloc: Global,
    found: T,
    expected: T,
    name: &str,
) -> Result<(), Amiss> {
    if found == expected {
        return Ok(());
    }
    let text = format!(in alloc; "{name}: {found:?}, and not {expected:?}")?;
    Err(Amiss::Wrong(text))
}

/// What is said of the thing of this name is true.
pub fn is_so(alloc: Global, said: bool, name: &str) -> Result<(), Amiss> {
    if said {
        return Ok(());
    }
    Err(Amiss::Wrong(String::from_str(alloc, name)?))
}
