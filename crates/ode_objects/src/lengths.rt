//! How many bytes records take.
ghost use Rattle.std.specs.Prelude.{◌≡◌, ◌≤◌, []};
ghost use Rattle.ode_value.specs.Lengths.{version_size};

use ode_keep::KEY_LEN;

/// Bytes of a key.
pub const KEY: u64 = KEY_LEN as u64;
/// Bytes of an object's record.
pub const OBJECT: u64 = KEY + 8;
/// Bytes before the fields in the value of a version.
pub const VERSION_HEAD: usize = 6;
/// Bytes of a stamp that isn't 0.
pub const STAMP: usize = 4;
/// Bytes before the arguments in the value of an activation.
pub const ACTIVATION_HEAD: usize = 9;

/// Bytes before the fields in the value of a version of this stamp.
pub fn version_head(stamp: u32) -> usize
    ensures length { result ≡ version_size stamp [] }
    ensures short { result ≤ 10 }
{
    if stamp == 0 {
        VERSION_HEAD
    } else {
        VERSION_HEAD + STAMP
    }
}
