//! Instants.
ghost use Rattle.std.specs.Prelude.{◌≡◌, ◌↔◌, ◌&&◌, ◌+◌, ◌-◌, ◌≤◌, ◌<◌, ◌^◌, IsTrue, length, sum, take};
ghost use Rattle.std.specs.Bool.{OnTrue};
ghost use Rattle.std.specs.Option.{IfSome};
ghost use Rattle.std.specs.Result.{result_ok};
ghost use Rattle.std.specs.Str.{bytes_eq};
ghost use Rattle.jiff.specs.Words.{IsDate};
ghost use Rattle.ode_value.specs.Instants.{digit};
ghost use Rattle.ode_timer.specs.Dates.{IsInRange, date_in, date_of, days_before, four_at, instant_of, is_day, is_leap, is_real, months, second_of, spelled, two_at};

use jiff::civil;

/// A text that is no instant.
#[derive(Clone, Copy, Debug, PartialEq, Eq)]
pub struct BadInstant;

// A second of a day of a month of a year, months and days counted from 1.
#[derive(Clone, Copy)]
pub(crate) struct Date {
    year: u32,
    month: u32,
    day: u32,
    hour: u32,
    minute: u32,
    second: u32,
}

// The bytes of an instant.
const INSTANT_BYTES: usize = 20;

// The seconds from the year 0 to 1970.
const EPOCH: i64 = 62_167_219_200;

/// The Unix second of a text such as `1970-01-01T00:01:30Z`, where it has that form and the date is real. It takes no memory.
pub fn instant(text: &[u8]) -> Result<i64, BadInstant>
    ensures { result_ok result ≡ instant_of text.now }
{
    match date_of(text) {
        Some(date) => Ok(second_of(&date)),
        None => Err(BadInstant),
    }
}

// The date that a text spells.
#[tactic(auto, using(crate::proofs::DateLaws::not_dated))]
fn date_of(text: &[u8]) -> Option<Date>
    ensures date { result ≡ date_of text.now }
    ensures range { IfSome result IsInRange }
{
    if text.len() != INSTANT_BYTES {
        return None;
    }
    let date = date_in(text);
    if is_date(text, &date) {
        Some(date)
    } else {
        None
    }
}

// Whether the date is real and the text spells it.
fn is_date(text: &[u8], date: &Date) -> bool
    ensures value { result ≡ (bytes_eq text.now (spelled date.now) && is_real date.now) }
    ensures range { OnTrue result (IsInRange date.now) }
{
    is_spelled(text, date) && is_real(date)
}

// Two bytes as if they were digits.
fn two_at(text: &[u8], at: usize) -> u32
    requires { at + 1 < length text.now }
    ensures value { result ≡ two_at text.now at }
    ensures small { result < 10000 }
{
    let tens = u32::from(text[at].saturating_sub(b'0'));
    let ones = u32::from(text[at + 1].saturating_sub(b'0'));
    tens * 10 + ones
}

fn four_at(text: &[u8], at: usize) -> u32
    requires { at + 3 < length text.now }
    ensures { result ≡ four_at text.now at }
{
    two_at(text, at) * 100 + two_at(text, at + 2)
}

fn date_in(text: &[u8]) -> Date
    requires { length text.now ≡ INSTANT_BYTES }
    ensures { result ≡ date_in text.now }
{
    Date {
        year: four_at(text, 0),
        month: two_at(text, 5),
        day: two_at(text, 8),
        hour: two_at(text, 11),
        minute: two_at(text, 14),
        second: two_at(text, 17),
    }
}

fn digit(n: u32) -> u8
    ensures { result ≡ digit n }
{
    b'0' + (n % 10) as u8
}

// The text of a date.
fn spelled(date: &Date) -> [u8; INSTANT_BYTES]
    ensures { result ≡ spelled date.now }
{
    let century = date.year / 100;
    [
        digit(century / 10),
        digit(century),
        digit(date.year / 10),
        digit(date.year),
        b'-',
        digit(date.month / 10),
        digit(date.month),
        b'-',
        digit(date.day / 10),
        digit(date.day),
        b'T',
        digit(date.hour / 10),
        digit(date.hour),
        b':',
        digit(date.minute / 10),
        digit(date.minute),
        b':',
        digit(date.second / 10),
        digit(date.second),
        b'Z',
    ]
}

fn is_spelled(text: &[u8], date: &Date) -> bool
    ensures { result ≡ bytes_eq text.now (spelled date.now) }
{
    let expected = spelled(date);
    text == expected.as_slice()
}

fn on_calendar(year: i16, month: i8, day: i8) -> bool
    ensures { IsTrue result ↔ IsDate year month day }
{
    match civil::Date::new(year, month, day) {
        Ok(_) => true,
        Err(_) => false,
    }
}

fn is_day(year: u32, month: u32, day: u32) -> bool
    ensures { result ≡ is_day year month day }
{
    if year > 9999 || month > 12 || day > 31 {
        return false;
    }
    on_calendar(year as i16, month as i8, day as i8)
}

fn is_real(date: &Date) -> bool
    ensures value { result ≡ is_real date.now }
    ensures parts { OnTrue result (IsInRange date.now) }
{
    is_day(date.year, date.month, date.day)
        && date.hour < 24
        && date.minute < 60
        && date.second < 60
}

fn is_leap(year: u32) -> bool
    ensures { result ≡ is_leap year }
{
    year % 4 == 0 && (year % 100 != 0 || year % 400 == 0)
}

// The days of the months of a year.
fn months(year: u32) -> [u32; 12]
    ensures { result ≡ months year }
{
    let february = if is_leap(year) { 29 } else { 28 };
    [31, february, 31, 30, 31, 30, 31, 31, 30, 31, 30, 31]
}

fn days_before(year: u32) -> u32
    requires { year ≤ 9999 }
    ensures value { result ≡ days_before year }
    ensures small { result < 2 ^ 22 }
{
    365 * year + (year + 3) / 4 - (year + 99) / 100 + (year + 399) / 400
}

#[tactic(auto, using(crate::proofs::DateLaws::months_before))]
fn days_before_month(year: u32, month: u32) -> u32
    requires from { 1 ≤ month }
    requires to { month ≤ 12 }
    ensures value { result ≡ sum (take (month - 1) (months year)) }
    ensures small { result ≤ 366 }
{
    let months = months(year);
    total(&months[..month as usize - 1])
}

fn total(days: &[u32]) -> u32
    requires { sum days.now ≤ 366 }
    ensures { result ≡ sum days.now }
{
    days.iter().sum()
}

fn second_of(date: &Date) -> i64
    requires { IsInRange date.now }
    ensures { result ≡ second_of date.now }
{
    let days = days_before(date.year) + days_before_month(date.year, date.month) + (date.day - 1);
    let seconds = u64::from(days) * 86400
        + u64::from(date.hour) * 3600
        + u64::from(date.minute) * 60
        + u64::from(date.second);
    seconds as i64 - EPOCH
}
