//! The members of an event before its detail.
ghost use Rattle.std.specs.Prelude.{◌≡◌, ◌≢◌, ◌∷◌, [], ℕ, List, false, map, IfSome, IsTrue};
ghost use Rattle.json_text.specs.Moment.{IsMoment};
ghost use Rattle.json_text.specs.Tree.{text};
ghost use Rattle.event_time.specs.Time.{IsIso};
ghost use Rattle.event_shape.specs.Names.{is_account};
ghost use Rattle.event_shape.specs.Fault.{is_reserved};
ghost use Rattle.event_text.specs.Written.{BeginsText, BeginsItems};

use crate::string::{after_string, plain_string};
use event_shape::is_account;
use event_time::text_moment;
use json_text::LAST_MOMENT;

/// The number of bytes of an account.
const ACCOUNT_BYTES: usize = 12;

/// The number of bytes of a time without a fraction.
const TIME_BYTES: usize = 20;

/// What follows a string that is not empty.
pub(crate) fn after_some_string(bytes: &[u8]) -> Option<&[u8]>
    ensures { IfSome result (λ rest. (t : List ℕ) × (t ≢ []) × BeginsText t bytes.now (34 ∷ rest.now)) }
{
    if bytes.starts_with(b"\"") {
        return None;
    }
    after_string(bytes)
}

/// What follows a source.
pub(crate) fn after_source(bytes: &[u8]) -> Option<&[u8]>
    ensures { IfSome result (λ rest. (t : List ℕ) × (t ≢ []) × (is_reserved t ≡ false) × BeginsText t bytes.now (34 ∷ rest.now)) }
{
    if bytes.starts_with(b"aws.") {
        return None;
    }
    after_some_string(bytes)
}

/// What follows an account.
pub(crate) fn after_account(bytes: &[u8]) -> Option<&[u8]>
    ensures { IfSome result (λ rest. (t : List ℕ) × IsTrue (is_account t) × BeginsText t bytes.now (34 ∷ rest.now)) }
{
    let (account, rest) = plain_string(bytes, ACCOUNT_BYTES)?;
    match str::from_utf8(account) {
        Ok(account) => if is_account(account) {
            Some(rest)
        } else {
            None
        },
        Err(_) => None,
    }
}

/// What follows a time.
pub(crate) fn after_time(bytes: &[u8]) -> Option<&[u8]>
    ensures { IfSome result (λ rest. (t : List ℕ) × (moment : ℕ) × IsMoment moment × IsIso moment t
        × BeginsText t bytes.now (34 ∷ rest.now)) }
{
    let (time, rest) = plain_string(bytes, TIME_BYTES)?;
    match text_moment(time) {
        Some(moment) => {
            if moment <= LAST_MOMENT {
                Some(rest)
            } else {
                None
            }
        }
        None => None,
    }
}

/// What follows the resources and their bracket.
pub(crate) fn after_resources(bytes: &[u8]) -> Option<&[u8]>
    ensures { IfSome result (λ rest. (ts : List (List ℕ)) × BeginsItems 0 (map text ts) bytes.now (93 ∷ rest.now)) }
{
    match bytes {
        [b'"', rest @ ..] => after_some_resources(rest),
        [b']', rest @ ..] => Some(rest),
        _ => None,
    }
}

/// The same after the first quotation mark.
fn after_some_resources(bytes: &[u8]) -> Option<&[u8]>
    ensures { IfSome result (λ rest. (ts : List (List ℕ)) × BeginsItems 0 (map text ts) (34 ∷ bytes.now) (93 ∷ rest.now)) }
{
    let mut left = after_string(bytes)?;
    while let [b',', b'"', rest @ ..] = left {
        left = after_string(rest)?;
    }
    match left {
        [b']', rest @ ..] => Some(rest),
        _ => None,
    }
}
