//! Texts.
ghost use Rattle.std.specs.Prelude.{◌≡◌, ◌≤◌, ◌<◌, ℕ, length, position, ◌↔◌, IsTrue, IfErr, IfOk, Some, OnOk, MatchResult, ⊤};
ghost use Rattle.ode_value.specs.Text.{IsText, is_bad_byte, is_text};

use crate::limits::TEXT_LIMIT;
use crate::list::{Copied, List};
use std::alloc::{AllocError, Global};
use std::marker::Model;

/// A text: at most 2,048 bytes, each from 0x20 to 0x7E.
#[derive(Debug, Drop)]
pub struct OdeText {
    bytes: List<u8>,
}

impl Model for OdeText {
    ghost use Rattle.std.specs.Prelude.{List as Items, ℕ};
    ghost use Rattle.ode_value.specs.Text.{IsText};

    ghost Value = { Items ℕ };

    ghost view = { λ t. t.bytes };

    ghost invariant = { λ t. IsText t.bytes };
}

/// Why there is no text of some bytes.
#[derive(Clone, Copy, Debug, PartialEq, Eq)]
pub enum TextError {
    /// There is no memory. The bytes are a text's.
    Memory,
    /// There are more than 2,048 bytes.
    TooLong,
    /// The byte at this place, counted from 0, is outside 0x20 to 0x7E, and none before it is.
    BadByte { at: u32 },
}

impl From<AllocError> for TextError {
    ghost use Rattle.ode_value.specs.declared.text.TextError.TheVariants.{Memory};

    ghost from_gives = { λ _ e. e ≡ Memory };

    fn from(_: AllocError) -> TextError {
        TextError::Memory
    }
}

// The place of the first byte that no text has.
fn bad_byte(bytes: &[u8]) -> Option<usize>
    ensures { result ≡ position is_bad_byte bytes.now }
{
    bytes.iter().position(|b| *b < 0x20 || 0x7E < *b)
}

/// Whether these are the bytes of a text.
pub fn is_text(bytes: &[u8]) -> bool
    ensures text { IsTrue result ↔ IsText bytes.now }
    ensures test { result ≡ is_text bytes.now }
{
    bytes.len() <= TEXT_LIMIT && bad_byte(bytes).is_none()
}

impl OdeText {
    /// The text of these bytes. The length is tested before the bytes, and both before memory is taken.
    pub fn new(alloc: Global, bytes: &[u8]) -> Result<OdeText, TextError>
        ensures ok { IfOk result (λ t. t ≡ bytes.now) }
        ensures text { OnOk result (IsText bytes.now) }
        ensures too_long { (result ≡ Err TextError.TooLong) ↔ (TEXT_LIMIT < length bytes.now) }
        ensures bad { IfErr result (λ e. (at : ℕ) → e ≡ TextError.BadByte at → position is_bad_byte bytes.now ≡ Some at) }
        ensures first_bad { (at : ℕ) → length bytes.now ≤ TEXT_LIMIT → position is_bad_byte bytes.now ≡ Some at
            → result ≡ Err (TextError.BadByte at) }
        ensures ok_or_memory { MatchResult result (λ _. ⊤) (λ e. e ≡ TextError.Memory) ↔ IsText bytes.now }
    {
        if bytes.len() > TEXT_LIMIT {
            return Err(TextError::TooLong);
        }
        if let Some(at) = bad_byte(bytes) {
            return Err(TextError::BadByte { at: at as u32 });
        }
        let bytes = List::from_slice(alloc, bytes)?;
        Ok(OdeText { bytes })
    }

    /// The bytes of the text.
    pub fn as_bytes(&self) -> &[u8]
        ensures value { result.now ≡ self.now }
        ensures text { IsText self.now }
    {
        self.bytes.as_slice()
    }

    /// The same text again.
    pub fn copy(&self, alloc: Global) -> Result<OdeText, AllocError>
        ensures { IfOk result (λ t. t ≡ self.now) }
    {
        Ok(OdeText {
            bytes: List::from_slice(alloc, self.bytes.as_slice())?,
        })
    }
}

impl Copied for OdeText {
    fn copy_in(&self, alloc: Global) -> Result<OdeText, AllocError> {
        self.copy(alloc)
    }
}
