//! Words of the language, and which of them can be names.
ghost use Rattle.std.specs.Prelude.{◌≡◌};
ghost use Rattle.ode_value.specs.Words.{is_digit, is_free, is_word, reserved};
ghost use Rattle.ode_value.specs.Text.{is_name_byte};
ghost use Rattle.std.specs.List.{list_any, list_all};
ghost use Rattle.std.specs.Str.{bytes_eq};

use crate::limits::NAME_LIMIT;
use crate::name::is_name_byte;

/// The words that the language keeps for itself.
const RESERVED: [&[u8]; 60] = [
    b"abort",
    b"activate",
    b"after",
    b"and",
    b"any",
    b"at",
    b"before",
    b"begin",
    b"bool",
    b"choose",
    b"class",
    b"clock",
    b"commit",
    b"committed",
    b"constraint",
    b"create",
    b"deactivate",
    b"deferred",
    b"delete",
    b"delversion",
    b"dependent",
    b"else",
    b"event",
    b"every",
    b"fa",
    b"false",
    b"first",
    b"if",
    b"immediate",
    b"independent",
    b"initial",
    b"int",
    b"let",
    b"newversion",
    b"null",
    b"once",
    b"or",
    b"pdelete",
    b"perpetual",
    b"pnew",
    b"prior",
    b"ref",
    b"relative",
    b"return",
    b"say",
    b"sequence",
    b"show",
    b"soft",
    b"tabort",
    b"tbegin",
    b"tcommit",
    b"tcomplete",
    b"text",
    b"this",
    b"time",
    b"trigger",
    b"true",
    b"version",
    b"void",
    b"whole",
];

fn is_digit(byte: u8) -> bool
    ensures { result ≡ is_digit byte }
{
    byte.is_ascii_digit()
}

fn has_name_bytes(bytes: &[u8]) -> bool
    ensures { result ≡ list_all is_name_byte bytes.now }
{
    bytes.iter().all(|byte| is_name_byte(*byte))
}

/// Whether these bytes are a word: a letter or `_`, then letters, digits and `_`, at most 64 bytes.
#[tactic(auto, using(crate::proofs::FirstBytes::word_is))]
pub fn is_word(bytes: &[u8]) -> bool
    ensures { result ≡ is_word bytes.now }
{
    if bytes.is_empty() || is_digit(bytes[0]) || bytes.len() > NAME_LIMIT {
        return false;
    }
    has_name_bytes(bytes)
}

fn is_among(words: &[&[u8]], word: &[u8]) -> bool
    ensures { result ≡ list_any (λ one. bytes_eq one.now word.now) words.now }
{
    words.iter().any(|one| *one == word)
}

fn is_reserved(word: &[u8]) -> bool
    ensures { result ≡ list_any (λ one. bytes_eq one word.now) reserved }
{
    is_among(&RESERVED, word)
}

/// Whether these bytes are a word that the language doesn't keep for itself.
pub fn is_free(word: &[u8]) -> bool
    ensures { result ≡ is_free word.now }
{
    is_word(word) && !is_reserved(word)
}
