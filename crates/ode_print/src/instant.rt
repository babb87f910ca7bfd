//! Instants.
ghost use Rattle.std.specs.Prelude.{◌≡◌, ◌≤◌, ◌<◌, ◌+◌, ◌*◌, ◌^◌, ◌++◌, ◌∷◌, ◌/◌, ◌%◌, [], codes, OnOk};
ghost use Rattle.ode_value.specs.Instants.{date_by, date_in_age, date_in_year, date_text, digit, elapsed, first_day, instant_text, month_day, month_in, spelled_date, time_text, two_digits, year_in};

use crate::put::put;
use std::alloc::AllocError;

/// The seconds of a day.
const DAY: u64 = 86_400;

/// The days from the first of March of the year -400 to 1970.
const BEFORE: u64 = 865_565;

/// Seconds since the first of March of the year -400, and 0 before.
fn elapsed(second: i64) -> u64
    ensures seconds { result ≡ elapsed second }
    ensures bound { result < 2 ^ 63 + 865565 * 86400 }
{
    let start = BEFORE * DAY;
    if second >= 0 {
        start + second as u64
    } else {
        start.saturating_sub(second.unsigned_abs())
    }
}

// Puts the last digit of a number at the end.
fn put_digit(out: &mut Vec<u8>, n: u64) -> Result<(), AllocError>
    ensures { OnOk result (out.new.items ≡ out.old.items ++ digit n ∷ []) }
{
    out.push(b'0' + (n % 10) as u8)?;
    Ok(())
}

// Puts the last two digits of a number at the end.
fn put_two(out: &mut Vec<u8>, n: u64) -> Result<(), AllocError>
    ensures { OnOk result (out.new.items ≡ out.old.items ++ two_digits n) }
{
    put_digit(out, n / 10)?;
    put_digit(out, n)
}

// Puts a text and the last two digits of a number at the end.
fn put_marked(out: &mut Vec<u8>, mark: &[u8], n: u64) -> Result<(), AllocError>
    ensures { OnOk result (out.new.items ≡ out.old.items ++ (mark.now ++ two_digits n)) }
{
    put(out, mark)?;
    put_two(out, n)
}

fn put_date(out: &mut Vec<u8>, year: u64, month: u64, day: u64) -> Result<(), AllocError>
    ensures { OnOk result (out.new.items ≡ out.old.items ++ spelled_date year month day) }
{
    put_two(out, year / 100)?;
    put_two(out, year)?;
    put_marked(out, b"-", month)?;
    put_marked(out, b"-", day)
}

fn put_time(out: &mut Vec<u8>, second: u64) -> Result<(), AllocError>
    ensures { OnOk result (out.new.items ≡ out.old.items ++ time_text second) }
{
    put_two(out, second / 3600)?;
    put_marked(out, b":", second / 60 % 60)?;
    put_marked(out, b":", second % 60)
}

// The year of a day among 400 years, and the month of a day of a year from March on.
fn year_in(day: u64) -> u64
    requires { day < 146097 }
    ensures year { result ≡ year_in day }
    ensures bound { result ≤ 400 }
{
    (day - day / 1460 + day / 36524 - day / 146096) / 365
}

fn put_day_of_year(out: &mut Vec<u8>, age: u64, year: u64, day: u64) -> Result<(), AllocError>
    requires age { age < 2 ^ 50 }
    requires year { year ≤ 400 }
    requires day { day < 146097 }
    ensures { OnOk result (out.new.items ≡ out.old.items ++ date_in_year age year day) }
{
    let month = (5 * day + 2) / 153;
    let first = (153 * month + 2) / 5;
    let number = day.saturating_sub(first) + 1;
    let years = 400 * age + year;
    if month < 10 {
        put_date(out, years.saturating_sub(400), month + 3, number)
    } else {
        put_date(out, (years + 1).saturating_sub(400), month - 9, number)
    }
}

fn put_day(out: &mut Vec<u8>, day: u64) -> Result<(), AllocError>
    requires { day < 2 ^ 48 }
    ensures { OnOk result (out.new.items ≡ out.old.items ++ date_text day) }
{
    let age = day / 146_097;
    let rest = day % 146_097;
    let year = year_in(rest);
    let first = (365 * year + year / 4).saturating_sub(year / 100);
    put_day_of_year(out, age, year, rest.saturating_sub(first))
}

// Puts the text of the instant so many seconds after the first of March of the year -400 at the end.
fn put_moment(out: &mut Vec<u8>, seconds: u64) -> Result<(), AllocError>
    requires { seconds < 2 ^ 64 }
    ensures { OnOk result (out.new.items ≡ out.old.items ++ (date_text (seconds / 86400) ++ codes "T" ++ time_text (seconds % 86400) ++ codes "Z")) }
{
    put_day(out, seconds / DAY)?;
    put(out, b"T")?;
    put_time(out, seconds % DAY)?;
    put(out, b"Z")
}

/// Puts the text of an instant at the end.
#[tactic(auto, unfolding(ode_value::specs::Instants::instant_text))]
pub fn put_instant(out: &mut Vec<u8>, second: i64) -> Result<(), AllocError>
    ensures { OnOk result (out.new.items ≡ out.old.items ++ instant_text second) }
{
    put_moment(out, elapsed(second))
}
