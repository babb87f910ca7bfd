//! Runs of digits.
ghost use Rattle.std.specs.Prelude.{◌≡◌, ◌<◌, ◌≤◌, ◌^◌, length, IfSome};
ghost use Rattle.std.specs.Char.{is_ascii_digit};
ghost use Rattle.std.specs.List.{prefix_len};
ghost use Rattle.std.specs.Option.{SomeIff};
ghost use Rattle.std.specs.Str.Parse.{AllDigits, digits_value};
ghost use Rattle.ode_lex.specs.Numerals.{is_plain, numeral_at};

/// The number from `least` to `most` that all the digits at the front spell, not led by 0, and how many digits they
/// are.
#[tactic(auto, unfolding(crate::specs::Numerals::numeral_at))]
pub fn numeral_at(least: u64, most: u64, bytes: &[u8]) -> Option<(u64, usize)>
    ensures numeral { result ≡ numeral_at least most bytes.now }
    ensures range { IfSome result (λ found. (least ≤ found.0) × (found.0 ≤ most)) }
    ensures within { IfSome result (λ found. (0 < found.1) × (found.1 ≤ length bytes.now)) }
{
    let length = digit_count(bytes);
    let digits = &bytes[..length];
    if !is_plain(digits) {
        return None;
    }
    let number = number_of(digits)?;
    if least <= number && number <= most {
        Some((number, length))
    } else {
        None
    }
}

// How many digits are at the front.
fn digit_count(bytes: &[u8]) -> usize
    ensures { result ≡ prefix_len is_ascii_digit bytes.now }
{
    bytes.iter().take_while(|b| b.is_ascii_digit()).count()
}

// Whether there is a digit, and no 0 leads others.
fn is_plain(digits: &[u8]) -> bool
    ensures { result ≡ is_plain digits.now }
{
    match digits {
        [] => false,
        [_] => true,
        [first, ..] => *first != b'0',
    }
}

// The number that these digits spell, where it is below 2^64.
fn number_of(digits: &[u8]) -> Option<u64>
    requires { AllDigits 10 digits.now }
    ensures { SomeIff result (digits_value 10 digits.now < 2 ^ 64) (digits_value 10 digits.now) }
{
    let mut number = 0u64;
    for digit in digits {
        number = number
            .checked_mul(10)?
            .checked_add(u64::from(*digit - b'0'))?;
    }
    Some(number)
}
