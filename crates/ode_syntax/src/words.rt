//! What tokens say.
ghost use Rattle.std.specs.Prelude.{◌≡◌, IfOk};
ghost use Rattle.std.specs.List.{list_all};
ghost use Rattle.ode_syntax.specs.Kept.{content_of, is_text, is_text_byte, leaf_of, mode_of, name_of, sort_of, text_of, word_leaf};

use crate::content::content_of;
use ode_lex::TokenKind;
use ode_value::limits::TEXT_LIMIT;
use ode_value::{Expr, Mode, Name, OdeText, Ref, Sort, Value, is_free};
use std::alloc::{AllocError, Global};

fn is_text_byte(byte: u8) -> bool
    ensures { result ≡ is_text_byte byte }
{
    0x20 <= byte && byte <= 0x7E
}

fn has_text_bytes(bytes: &[u8]) -> bool
    ensures { result ≡ list_all is_text_byte bytes.now }
{
    bytes.iter().all(|byte| is_text_byte(*byte))
}

fn is_text(bytes: &[u8]) -> bool
    ensures { result ≡ is_text bytes.now }
{
    bytes.len() <= TEXT_LIMIT && has_text_bytes(bytes)
}

/// The text of the bytes, and the empty one where they are no text.
pub fn text_of(alloc: Global, bytes: &[u8]) -> Result<OdeText, AllocError>
    ensures { IfOk result (λ text. text ≡ text_of bytes.now) }
{
    let known: &[u8] = if is_text(bytes) { bytes } else { b"" };
    match OdeText::new(alloc, known) {
        Ok(text) => Ok(text),
        Err(_) => Err(AllocError),
    }
}

/// The name that a word is, and `x` where it is none.
pub fn name_of(alloc: Global, word: &[u8]) -> Result<Name, AllocError>
    ensures { IfOk result (λ name. name ≡ name_of word.now) }
{
    let known: &[u8] = if is_free(word) { word } else { b"x" };
    match OdeText::new(alloc, known) {
        Ok(text) => match Name::new(text) {
            Some(name) => Ok(name),
            None => Err(AllocError),
        },
        Err(_) => Err(AllocError),
    }
}

fn word_leaf(word: &[u8]) -> Expr
    ensures { result ≡ word_leaf word.now }
{
    if word == b"true".as_slice() {
        Expr::Lit(Value::Bool(true))
    } else if word == b"false".as_slice() {
        Expr::Lit(Value::Bool(false))
    } else if word == b"null".as_slice() {
        Expr::Lit(Value::Reference(Ref {
            object: 0,
            version: None,
        }))
    } else {
        Expr::This
    }
}

/// The leaf that a token is.
pub fn leaf_of(alloc: Global, kind: TokenKind, bytes: &[u8]) -> Result<Expr, AllocError>
    ensures { IfOk result (λ leaf. leaf ≡ leaf_of kind bytes.now) }
{
    match kind {
        TokenKind::Word => Ok(word_leaf(bytes)),
        TokenKind::Number(number) => Ok(Expr::Lit(Value::Int(number))),
        TokenKind::Text => {
            let content = content_of(alloc, bytes)?;
            let text = text_of(alloc, content.as_slice())?;
            Ok(Expr::Lit(Value::Text(text)))
        }
        TokenKind::Reference(reference) => Ok(Expr::Lit(Value::Reference(reference))),
        TokenKind::Mark(_) => Ok(Expr::This),
    }
}

/// The sort that a word says.
pub fn sort_of(word: &[u8]) -> Sort
    ensures { result ≡ sort_of word.now }
{
    if word == b"int".as_slice() {
        Sort::Int
    } else if word == b"bool".as_slice() {
        Sort::Bool
    } else {
        Sort::Text
    }
}

/// When an action runs, as a word says.
pub fn mode_of(word: &[u8]) -> Mode
    ensures { result ≡ mode_of word.now }
{
    if word == b"deferred".as_slice() {
        Mode::Deferred
    } else if word == b"dependent".as_slice() {
        Mode::Dependent
    } else if word == b"independent".as_slice() {
        Mode::Independent
    } else {
        Mode::Immediate
    }
}
