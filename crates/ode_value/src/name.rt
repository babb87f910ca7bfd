//! Names.
ghost use Rattle.std.specs.Prelude.{◌≡◌, ◌↔◌, IfOk, IfSome, IsTrue, None, not, position};
ghost use Rattle.std.specs.Str.{bytes_eq};
ghost use Rattle.ode_value.specs.Text.{IsName, is_name, is_name_byte};

use crate::limits::NAME_LIMIT;
use crate::list::Copied;
use crate::text::OdeText;
use std::alloc::{AllocError, Global};
use std::marker::Model;

/// A text of 1 to 64 letters, digits and underscores.
#[derive(Debug, Drop)]
pub struct Name {
    text: OdeText,
}

impl Model for Name {
    ghost use Rattle.std.specs.Prelude.{List as Items, ℕ};
    ghost use Rattle.ode_value.specs.Text.{IsName};

    ghost Value = { Items ℕ };

    ghost view = { λ n. n.text };

    ghost invariant = { λ n. IsName n.text };
}

/// A letter, a digit or an underscore.
pub(crate) fn is_name_byte(byte: u8) -> bool
    ensures { result ≡ is_name_byte byte }
{
    matches!(byte, b'0'..=b'9' | b'A'..=b'Z' | b'_' | b'a'..=b'z')
}

// The place of the first byte that no name has.
fn bad_name_byte(bytes: &[u8]) -> Option<usize>
    ensures { result ≡ position (λ b. not (is_name_byte b)) bytes.now }
{
    bytes.iter().position(|b| !is_name_byte(*b))
}

/// Whether these are the bytes of a name.
pub fn is_name(bytes: &[u8]) -> bool
    ensures name { IsTrue result ↔ IsName bytes.now }
    ensures test { result ≡ is_name bytes.now }
{
    0 < bytes.len() && bytes.len() <= NAME_LIMIT && bad_name_byte(bytes).is_none()
}

impl Name {
    /// The name of this text, where it is one.
    pub fn new(text: OdeText) -> Option<Name>
        ensures some { IfSome result (λ n. n ≡ text) }
        ensures none { result ≡ None → IsName text → ⊥ }
    {
        if is_name(text.as_bytes()) {
            Some(Name { text })
        } else {
            None
        }
    }

    /// The bytes of the name.
    pub fn as_bytes(&self) -> &[u8]
        ensures value { result.now ≡ self.now }
        ensures name { IsName self.now }
    {
        self.text.as_bytes()
    }

    /// Whether this is the other name.
    pub fn same(&self, other: &Name) -> bool
        ensures same { IsTrue result ↔ (self.now ≡ other.now) }
        ensures test { result ≡ bytes_eq self.now other.now }
    {
        self.as_bytes() == other.as_bytes()
    }

    /// Whether this name has these bytes.
    pub fn is(&self, bytes: &[u8]) -> bool
        ensures { IsTrue result ↔ (self.now ≡ bytes.now) }
    {
        self.as_bytes() == bytes
    }

    /// The same name again.
    pub fn copy(&self, alloc: Global) -> Result<Name, AllocError>
        ensures { IfOk result (λ n. n ≡ self.now) }
    {
        Ok(Name {
            text: self.text.copy(alloc)?,
        })
    }
}

impl Copied for Name {
    fn copy_in(&self, alloc: Global) -> Result<Name, AllocError> {
        self.copy(alloc)
    }
}
