//! Whole numbers.
ghost use Rattle.std.specs.Prelude.{◌≡◌, ◌≤◌, IfSome, option_and_then, unwrap_or};
ghost use Rattle.std.specs.List.{list_all};
ghost use Rattle.std.specs.Char.{is_ascii_digit};
ghost use Rattle.json_text.specs.Tree.{members_of};
ghost use Rattle.json_text.specs.View.{tree_of, pairs_of};
ghost use Rattle.api_members.specs.Given.{given};
ghost use Rattle.api_members.specs.Count as spec;

use crate::members::given;
use api_replies::Member;
use json_text::{Json, Text};

/// The whole number from `least` to `most` that the member gives. `None` if it gives none.
pub fn count_given(members: &[(Text, Json)], member: Member, least: u64, most: u64) -> Option<u64>
    ensures count { result ≡ spec.count_given least most (given member (members_of (pairs_of members.now))) }
    ensures within { IfSome result (λ n. (least ≤ n) × (n ≤ most)) }
{
    match given(members, member) {
        Some(value) => count_of(value, least, most),
        None => None,
    }
}

/// The whole number from 1 to `most` that the member gives, or `default` if it gives none.
pub fn count_or(members: &[(Text, Json)], member: Member, most: u32, default: u32) -> u32
    ensures { result ≡ unwrap_or (spec.count_given 1 most (given member (members_of (pairs_of members.now)))) default }
{
    match count_given(members, member, 1, u64::from(most)) {
        Some(count) => count as u32,
        None => default,
    }
}

/// The whole number from `least` to `most` that the value is.
pub(crate) fn count_of(value: &Json, least: u64, most: u64) -> Option<u64>
    ensures count { result ≡ spec.count_of least most (tree_of value.now) }
    ensures within { IfSome result (λ n. (least ≤ n) × (n ≤ most)) }
{
    match value {
        Json::Num(spelling) => spelled_count(spelling.as_str(), least, most),
        Json::Null | Json::Truth(_) | Json::Str(_) | Json::List(_) | Json::Obj(_) => None,
    }
}

fn spelled_count(spelling: &str, least: u64, most: u64) -> Option<u64>
    ensures count { result ≡ option_and_then (spec.if_within least most) (spec.whole_number spelling.now) }
    ensures within { IfSome result (λ n. (least ≤ n) × (n ≤ most)) }
{
    if !is_int(spelling.as_bytes()) {
        return None;
    }
    match spelling.parse::<u64>() {
        Ok(number) => if_within(number, least, most),
        Err(_too_large) => None,
    }
}

/// Whether the spelling has no sign, no leading zero, no fraction and no exponent.
fn is_int(spelling: &[u8]) -> bool
    ensures { result ≡ spec.is_int spelling.now }
{
    match spelling {
        [b'0'] => true,
        [b'1'..=b'9', rest @ ..] => all_digits(rest),
        _ => false,
    }
}

fn all_digits(bytes: &[u8]) -> bool
    ensures { result ≡ list_all is_ascii_digit bytes.now }
{
    bytes.iter().all(|byte| byte.is_ascii_digit())
}

fn if_within(number: u64, least: u64, most: u64) -> Option<u64>
    ensures count { result ≡ spec.if_within least most number }
    ensures within { IfSome result (λ n. (least ≤ n) × (n ≤ most)) }
{
    if least <= number && number <= most {
        Some(number)
    } else {
        None
    }
}
