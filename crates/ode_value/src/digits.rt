//! Numbers in decimal.
ghost use Rattle.std.specs.Prelude.{◌≡◌, ℕ, ◌+◌, ◌*◌, ◌<◌, ◌^◌, IfNone, IfOk, IfSome, IsTrue, ◌↔◌};
ghost use Rattle.std.specs.Char.{digit_value};
ghost use Rattle.std.specs.Option.{SomeIff};
ghost use Rattle.std.specs.Str.Parse.{AllDigits, digits_value};
ghost use Rattle.ode_value.specs.Decimal.{digits_of, int_digits, BeginsAsNumber};

use crate::list::List;
use std::alloc::{AllocError, Global};

/// The number below 2^64 that these bytes spell in decimal, not led by 0.
pub fn parse_decimal(digits: &[u8]) -> Option<u64>
    ensures found { IfSome result (λ n. (n < 2 ^ 64) × (digits.now ≡ digits_of n)) }
    ensures none { IfNone result ((n : ℕ) → n < 2 ^ 64 → digits.now ≡ digits_of n → ⊥) }
    ensures reads { (n : ℕ) → n < 2 ^ 64 → digits.now ≡ digits_of n → result ≡ Some n }
{
    if !begins_as_number(digits) {
        return None;
    }
    value_of(digits)
}

// Whether there is a byte, and a `0` stands first only alone.
fn begins_as_number(digits: &[u8]) -> bool
    ensures { IsTrue result ↔ BeginsAsNumber digits.now }
{
    !digits.is_empty() && (digits[0] != b'0' || digits.len() == 1)
}

// The number that these digits give, zeros in front included, where it is below 2^64.
fn value_of(digits: &[u8]) -> Option<u64>
    ensures { let value = digits_value 10 digits.now in SomeIff result (AllDigits 10 digits.now × (value < 2 ^ 64)) value }
{
    let mut value = 0;
    for digit in digits {
        value = with_digit(value, *digit)?;
    }
    Some(value)
}

// The number that a further digit makes of n, where it is below 2^64.
fn with_digit(n: u64, digit: u8) -> Option<u64>
    ensures { let more = n * 10 + digit_value digit in SomeIff result ((digit_value digit < 10) × (more < 2 ^ 64)) more }
{
    if !digit.is_ascii_digit() {
        return None;
    }
    n.checked_mul(10)?.checked_add(u64::from(digit - b'0'))
}

/// The digits of a number, not led by 0.
pub fn decimal(alloc: Global, n: u64) -> Result<List<u8>, AllocError>
    ensures { IfOk result (λ t. t ≡ digits_of n) }
{
    Ok(List::from_vec(n.to_string(alloc)?.into_bytes()))
}

/// The digits of a signed number, not led by 0, behind a `-` where it is negative.
pub fn int_text(alloc: Global, n: i64) -> Result<List<u8>, AllocError>
    ensures { IfOk result (λ t. t ≡ int_digits n) }
{
    Ok(List::from_vec(n.to_string(alloc)?.into_bytes()))
}
