//! Texts in quotes.
ghost use Rattle.std.specs.Prelude.{◌≡◌, ◌≤◌, false, length, IfNone, IfSome, None};
ghost use Rattle.ode_lex.specs.Texts.{begins_with_quote, content, text_length, SpellsByte};

/// The length of the text behind its opening quote, its closing quote included. None where there is no text, or its
/// content has more than 2,048 bytes.
#[tactic(auto, unfolding(crate::specs::Texts::text_length))]
pub fn text_length(bytes: &[u8]) -> Option<usize>
    ensures found { result ≡ text_length bytes.now }
    ensures within { IfSome result (λ n. n ≤ length bytes.now) }
{
    let mut at = 0;
    for _ in 0..2049usize {
        let (_, rest) = bytes.split_at(at);
        if begins_with_quote(rest) {
            return Some(at + 1);
        }
        at += character_length(rest)?;
    }
    None
}

// Whether a quote is in front.
fn begins_with_quote(bytes: &[u8]) -> bool
    ensures { result ≡ begins_with_quote bytes.now }
{
    matches!(bytes, [b'"', ..])
}

// How many bytes spell the byte of a content that is in front, which isn't the closing quote.
fn character_length(bytes: &[u8]) -> Option<usize>
    requires { begins_with_quote bytes.now ≡ false }
    ensures within { IfSome result (λ n. n ≤ length bytes.now) }
    ensures none { IfNone result (content bytes.now ≡ None) }
    ensures some { IfSome result (λ n. SpellsByte n bytes.now) }
{
    match bytes {
        [b'\\', b'"' | b'\\', ..] => Some(2),
        [b'\\', ..] => None,
        [0x20..=0x7E, ..] => Some(1),
        _ => None,
    }
}
