//! Seconds since 1970-01-01T00:00:00Z and the texts of date-times that show them.
ghost use Rattle.std.specs.Prelude.{◌≡◌, pos, ◌↔◌, ◌∷◌, ◌++◌, [], ◌<◌, ℕ, List, Some, None, IsTrue, IfOk, MatchOption, string_bytes};
ghost use Rattle.std.specs.Char.{is_ascii_digit};
ghost use Rattle.std.specs.List.{list_all};
ghost use Rattle.jiff_fmt.specs.Text.{pad2, pad4};
ghost use Rattle.jiff_core.specs.declared.civil.datetime.DateTime.{DateTime as Civil};
ghost use Rattle.jiff.specs.Words.{civil_seconds};
ghost use Rattle.event_time.specs.declared.time.Digits.{Digits};
ghost use Rattle.event_time.specs.Time.{IsSecond, IsDigits, Shows, IsIso, IsTimeText};
ghost use Rattle.event_time.specs.Clock.{Writes, IsTail, AreSmall, HasDigits, ShowsDigits};

use jiff::Timestamp;
use jiff::civil::DateTime;
use jiff::tz::Offset;
use std::alloc::{AllocError, Global};

/// The date and clock in UTC of a moment, in seconds since 1970, as `2023-11-14T22:13:20Z`.
pub fn iso(alloc: Global, moment: u64) -> Result<String, AllocError>
    requires { IsSecond moment }
    ensures value { IfOk result (λ t. IsIso moment (string_bytes t)) }
    ensures inverse { IfOk result (λ t. (n : ℕ) → IsTimeText (string_bytes t) n ↔ (n ≡ moment)) }
{
    let civil = civil_of(moment);
    format!(in alloc; "{civil}Z")
}

fn civil_of(moment: u64) -> DateTime
    requires { IsSecond moment }
    ensures { Shows moment result }
{
    match Timestamp::from_second(moment as i64) {
        Ok(instant) => Offset::UTC.to_datetime(instant),
        Err(_) => unreachable!(),
    }
}

fn all_digits(bytes: &[u8]) -> bool
    ensures { result ≡ list_all is_ascii_digit bytes.now }
{
    bytes.iter().all(|byte| byte.is_ascii_digit())
}

/// Whether there is at least one byte, and each is a digit.
fn are_digits(bytes: &[u8]) -> bool
    ensures { IsTrue result ↔ IsDigits bytes.now }
{
    !bytes.is_empty() && all_digits(bytes)
}

/// The second since 1970 that a text as `2023-11-14T22:13:20.75Z` shows, in the years 1970 to 9999. The form is date-time of
/// RFC 3339, section 5.6, with `T` and `Z` in upper case and no second 60, by this project's own rule. The fraction is
/// dropped. `None` if the text has another form or shows no real date.
pub fn text_moment(text: &[u8]) -> Option<u64>
    ensures { (n : ℕ) → (result ≡ Some n) ↔ IsTimeText text.now n }
{
    match digits_of(text) {
        Some((digits, rest)) => {
            if !is_tail(rest) {
                return None;
            }
            moment_of(digits)
        }
        None => None,
    }
}

/// The numbers in a time text, which may be no real date.
#[derive(Clone, Copy)]
struct Digits {
    year: u16,
    month: u8,
    day: u8,
    hour: u8,
    minute: u8,
    second: u8,
}

/// The digits of `YYYY-MM-DDTHH:MM:SS` and the bytes after it.
fn digits_of(text: &[u8]) -> Option<(Digits, &[u8])>
    ensures { MatchOption result
        ((d : Digits) (rest : List ℕ) → ¬ Writes text.now d rest)
        (λ r. Writes text.now r.0 r.1.now) }
{
    let (year, text) = year_of(text)?;
    let (month, text) = marked(text, b'-')?;
    let (day, text) = marked(text, b'-')?;
    let (hour, text) = marked(text, b'T')?;
    let (minute, text) = marked(text, b':')?;
    let (second, text) = marked(text, b':')?;
    let digits = Digits {
        year,
        month,
        day,
        hour,
        minute,
        second,
    };
    Some((digits, text))
}

fn year_of(text: &[u8]) -> Option<(u16, &[u8])>
    ensures { MatchOption result
        ((n : ℕ) (rest : List ℕ) → n < 10000 → text.now ≡ pad4 n ++ rest → ⊥)
        (λ r. (r.0 < 10000) × (text.now ≡ pad4 r.0 ++ r.1.now)) }
{
    let (century, text) = two_digits(text)?;
    let (year, text) = two_digits(text)?;
    Some((century as u16 * 100 + year as u16, text))
}

/// The mark and two digits.
fn marked(text: &[u8], mark: u8) -> Option<(u8, &[u8])>
    ensures { MatchOption result
        ((n : ℕ) (rest : List ℕ) → n < 100 → text.now ≡ mark ∷ (pad2 n ++ rest) → ⊥)
        (λ r. (r.0 < 100) × (text.now ≡ mark ∷ (pad2 r.0 ++ r.1.now))) }
{
    match text {
        [first, rest @ ..] => {
            if *first != mark {
                return None;
            }
            two_digits(rest)
        }
        [] => None,
    }
}

fn two_digits(text: &[u8]) -> Option<(u8, &[u8])>
    ensures { MatchOption result
        ((n : ℕ) (rest : List ℕ) → n < 100 → text.now ≡ pad2 n ++ rest → ⊥)
        (λ r. (r.0 < 100) × (text.now ≡ pad2 r.0 ++ r.1.now)) }
{
    match text {
        [tens, units, rest @ ..] => {
            if !tens.is_ascii_digit() || !units.is_ascii_digit() {
                return None;
            }
            Some(((*tens - b'0') * 10 + (*units - b'0'), rest))
        }
        _ => None,
    }
}

/// Whether the bytes are `Z`, or a fraction and `Z`.
fn is_tail(bytes: &[u8]) -> bool
    ensures { IsTrue result ↔ IsTail bytes.now }
{
    match bytes {
        [front @ .., b'Z'] => match front {
            [b'.', places @ ..] => are_digits(places),
            [] => true,
            _ => false,
        },
        _ => false,
    }
}

/// The moment at which a UTC clock shows the digits.
fn moment_of(digits: Digits) -> Option<u64>
    requires { AreSmall digits }
    ensures { (n : ℕ) → (result ≡ Some n) ↔ ShowsDigits digits n }
{
    match civil_with(digits) {
        Some(civil) => moment_shown(civil),
        None => None,
    }
}

/// The second of the date and the clock. `None` if it is before 1970.
fn moment_shown(civil: DateTime) -> Option<u64>
    ensures { (n : ℕ) → (result ≡ Some n) ↔ (civil_seconds civil ≡ pos n) }
{
    let second = civil.to_plain().to_second();
    if second < 0 {
        None
    } else {
        Some(second as u64)
    }
}

/// The date and the clock with these digits. `None` if there is no such date.
fn civil_with(digits: Digits) -> Option<DateTime>
    requires { AreSmall digits }
    ensures { MatchOption result
        ((civil : Civil) → ¬ HasDigits civil digits)
        (λ civil. HasDigits civil digits × (civil.time.subsec_nanosecond ≡ 0)) }
{
    match DateTime::new(
        digits.year as i16,
        digits.month as i8,
        digits.day as i8,
        digits.hour as i8,
        digits.minute as i8,
        digits.second as i8,
        0,
    ) {
        Ok(civil) => Some(civil),
        Err(_) => None,
    }
}
