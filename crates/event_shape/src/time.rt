//! Moments as times: whole seconds since 1970-01-01T00:00:00Z, as a text and as a number.
ghost use Rattle.std.specs.Prelude.{◌≡◌, ◌↔◌, ℕ, Some, decimal, IsTrue, IfOk};
ghost use Rattle.json_text.specs.Moment.{IsMoment};
ghost use Rattle.json_text.specs.Number.{IsDigits};
ghost use Rattle.json_text.specs.View.{tree_of};
ghost use Rattle.json_text.specs.Tree.{text};
ghost use Rattle.event_time.specs.Time.{IsIso, IsTimeText};
ghost use Rattle.event_shape.specs.Time.{IsTime, IsTimeNumber};
ghost use Rattle.event_shape.specs.Whole.{HasWhole, BeginsPlainly};

use crate::digits::all_digits;
use json_text::{Json, LAST_MOMENT, NoMemory, Text};
use std::alloc::Global;

/// The moment's date and clock in UTC, as `2023-11-14T22:13:20Z`.
pub fn iso(alloc: Global, moment: u64) -> Result<Text, NoMemory>
    requires { IsMoment moment }
    ensures value { IfOk result (λ t. IsIso moment t) }
    ensures inverse { IfOk result (λ t. (n : ℕ) → IsTime (text t) n ↔ (n ≡ moment)) }
{
    Ok(Text::from(event_time::iso(alloc, moment)?))
}

/// The moment that the value gives: a number of seconds, whose fraction is dropped, or a text as
/// `2023-11-14T22:13:20.75Z` (RFC 3339, section 5.6, with `T` and `Z` and no second 60 by this project's own rule), whose
/// fraction is dropped too.
pub fn read_time(json: &Json) -> Option<u64>
    ensures { (moment : ℕ) → (result ≡ Some moment) ↔ IsTime (tree_of json.now) moment }
{
    match json {
        Json::Num(spelling) => number_moment(spelling.as_str()),
        Json::Str(text) => text_moment(text.as_str().as_bytes()),
        _ => None,
    }
}

fn number_moment(spelling: &str) -> Option<u64>
    ensures { (n : ℕ) → (result ≡ Some n) ↔ (IsMoment n × IsTimeNumber spelling.now n) }
{
    match spelling.strip_prefix('-') {
        Some(unsigned) => zero_only(unsigned_moment(unsigned)),
        None => unsigned_moment(spelling),
    }
}

fn zero_only(whole: Option<u64>) -> Option<u64>
    ensures { (n : ℕ) → (result ≡ Some n) ↔ ((whole ≡ Some n) × (n ≡ 0)) }
{
    match whole {
        Some(n) => if n == 0 { Some(n) } else { None },
        None => None,
    }
}

/// The whole part of an unsigned number without an exponent.
fn unsigned_moment(spelling: &str) -> Option<u64>
    ensures { (n : ℕ) → (result ≡ Some n) ↔ (IsMoment n × HasWhole spelling.now n) }
{
    match spelling.split_once(".") {
        Some((whole, places)) => {
            if !are_digits(places.as_bytes()) {
                return None;
            }
            whole_moment(whole)
        }
        None => whole_moment(spelling),
    }
}

fn whole_moment(digits: &str) -> Option<u64>
    ensures { (n : ℕ) → (result ≡ Some n) ↔ (IsMoment n × (digits.now ≡ decimal n)) }
{
    if !begins_plainly(digits.as_bytes()) {
        return None;
    }
    match digits.parse::<u64>() {
        Ok(value) => {
            if value <= LAST_MOMENT {
                Some(value)
            } else {
                None
            }
        }
        Err(_) => None,
    }
}

/// Whether a digit comes first, and it is `0` only if nothing follows.
fn begins_plainly(digits: &[u8]) -> bool
    ensures { IsTrue result ↔ BeginsPlainly digits.now }
{
    matches!(digits, [b'0'] | [b'1'..=b'9', ..])
}

/// Whether there is at least one byte, and each is a digit.
fn are_digits(bytes: &[u8]) -> bool
    ensures { IsTrue result ↔ IsDigits bytes.now }
{
    !bytes.is_empty() && all_digits(bytes)
}

/// The moment that the bytes give as a text, by the rules of `read_time`.
pub(crate) fn text_moment(text: &[u8]) -> Option<u64>
    ensures { (n : ℕ) → (result ≡ Some n) ↔ (IsMoment n × IsTimeText text.now n) }
{
    match event_time::text_moment(text) {
        Some(second) => {
            if second <= LAST_MOMENT {
                Some(second)
            } else {
                None
            }
        }
        None => None,
    }
}
