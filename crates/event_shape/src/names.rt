//! Names and ARNs.
ghost use Rattle.std.specs.Prelude.{◌≡◌, ◌++◌, ℕ, List, [], unwrap_or, ◌==◌, ◌&&◌, ◌||◌, nat_le, length, codes, Some, None, IfOk, MatchOption};
ghost use Rattle.std.specs.List.{list_all};
ghost use Rattle.std.specs.Str.{bytes_eq};
ghost use Rattle.event_shape.specs.Names as spec;

use crate::digits::all_digits;
use json_text::{NoMemory, Text};
use std::alloc::Global;

/// The account that owns every bus.
pub const OWNER: &str = "111122223333";

/// The region of every bus.
pub const REGION: &str = "us-east-1";

/// The name of the bus that is always there.
pub const DEFAULT_BUS: &str = "default";

const EVENTS_PREFIX: &str = "arn:aws:events:us-east-1:111122223333:";

const QUEUE_PREFIX: &str = "arn:aws:sqs:us-east-1:111122223333:";

fn is_queue_byte(byte: u8) -> bool
    ensures { result ≡ spec.is_queue_byte byte }
{
    byte.is_ascii_alphanumeric() || byte == b'-' || byte == b'_'
}

fn is_name_byte(byte: u8) -> bool
    ensures { result ≡ spec.is_name_byte byte }
{
    is_queue_byte(byte) || byte == b'.'
}

fn are_name_bytes(name: &str) -> bool
    ensures { result ≡ list_all spec.is_name_byte name.now }
{
    name.as_bytes().iter().all(|byte| is_name_byte(*byte))
}

fn are_queue_bytes(name: &str) -> bool
    ensures { result ≡ list_all spec.is_queue_byte name.now }
{
    name.as_bytes().iter().all(|byte| is_queue_byte(*byte))
}

/// The names of rules, targets and replays have one form.
fn is_short_name(name: &str) -> bool
    ensures { result ≡ spec.is_short_name name.now }
{
    !name.is_empty() && name.len() <= 64 && are_name_bytes(name)
}

/// A rule's name has 1 to 64 bytes of `A-Z a-z 0-9 . - _`.
pub fn is_rule_name(name: &str) -> bool
    ensures { result ≡ spec.is_short_name name.now }
{
    is_short_name(name)
}

/// The id of a target, which is unique in its rule, has 1 to 64 bytes of `A-Z a-z 0-9 . - _`.
pub fn is_target_id(id: &str) -> bool
    ensures { result ≡ spec.is_short_name id.now }
{
    is_short_name(id)
}

/// A replay's name has 1 to 64 bytes of `A-Z a-z 0-9 . - _`.
pub fn is_replay_name(name: &str) -> bool
    ensures { result ≡ spec.is_short_name name.now }
{
    is_short_name(name)
}

/// An archive's name has 1 to 48 bytes of `A-Z a-z 0-9 . - _`.
pub fn is_archive_name(name: &str) -> bool
    ensures { result ≡ spec.is_archive_name name.now }
{
    !name.is_empty() && name.len() <= 48 && are_name_bytes(name)
}

/// A queue's name has 1 to 80 bytes of `A-Z a-z 0-9 - _`.
pub fn is_queue_name(name: &str) -> bool
    ensures { result ≡ spec.is_queue_name name.now }
{
    !name.is_empty() && name.len() <= 80 && are_queue_bytes(name)
}

/// A bus's name has 1 to 256 bytes of `A-Z a-z 0-9 . - _`.
pub fn is_bus_name(name: &str) -> bool
    ensures { result ≡ spec.is_bus_name name.now }
{
    !name.is_empty() && name.len() <= 256 && are_name_bytes(name)
}

/// An account has 12 digits.
pub fn is_account(account: &str) -> bool
    ensures { result ≡ spec.is_account account.now }
{
    account.len() == 12 && all_digits(account.as_bytes())
}

/// The text after the prefix. `None` if the text does not begin with the prefix.
pub(crate) fn after_prefix<'a>(text: &'a str, prefix: &str) -> Option<&'a str>
    ensures { MatchOption result
        ((rest : List ℕ) → ¬ (text.now ≡ prefix.now ++ rest))
        (λ rest. text.now ≡ prefix.now ++ rest.now) }
{
    text.strip_prefix(prefix)
}

/// The part of the text that is the name, if the text is the ARN of a bus. The name is not checked.
fn bus_name_in(text: &str) -> Option<&str>
    ensures { MatchOption result
        ((rest : List ℕ) → ¬ (text.now ≡ spec.bus_arn rest))
        (λ rest. text.now ≡ spec.bus_arn rest.now) }
{
    match after_prefix(text, EVENTS_PREFIX) {
        Some(resource) => after_prefix(resource, "event-bus/"),
        None => None,
    }
}

/// The text without what comes before the name in the ARN of a bus.
fn without_bus_arn(text: &str) -> &str
    ensures { result.now ≡ unwrap_or (spec.after_prefix (spec.bus_arn []) text.now) text.now }
{
    match bus_name_in(text) {
        Some(name) => name,
        None => text,
    }
}

/// The name of the bus, if the text is a bus's name or ARN.
pub fn bus_of(text: &str) -> Option<&str>
    ensures { MatchOption result (spec.bus_in text.now ≡ None) (λ bus. spec.bus_in text.now ≡ Some bus.now) }
{
    let name = without_bus_arn(text);
    if is_bus_name(name) { Some(name) } else { None }
}

/// The part of the ARN that is the queue's name. The name is not checked. `None` if the text is no ARN of a queue.
pub fn queue_name_in(arn: &str) -> Option<&str>
    ensures { MatchOption result
        ((queue : List ℕ) → ¬ (arn.now ≡ spec.queue_arn queue))
        (λ queue. arn.now ≡ spec.queue_arn queue.now) }
{
    after_prefix(arn, QUEUE_PREFIX)
}

/// The name of the queue, if the text is a queue's ARN.
pub fn queue_of(arn: &str) -> Option<&str>
    ensures { MatchOption result (spec.queue_in arn.now ≡ None) (λ queue. spec.queue_in arn.now ≡ Some queue.now) }
{
    match queue_name_in(arn) {
        Some(name) => if is_queue_name(name) {
            Some(name)
        } else {
            None
        },
        None => None,
    }
}

/// Whether the text is the ARN of this queue. The name is not checked.
pub fn is_queue_arn(arn: &str, queue: &str) -> bool
    ensures { result ≡ bytes_eq arn.now (spec.queue_arn queue.now) }
{
    match queue_name_in(arn) {
        Some(name) => name == queue,
        None => false,
    }
}

/// Whether the text is the ARN of this bus. The name is not checked.
pub fn is_bus_arn(arn: &str, bus: &str) -> bool
    ensures { result ≡ bytes_eq arn.now (spec.bus_arn bus.now) }
{
    match bus_name_in(arn) {
        Some(name) => name == bus,
        None => false,
    }
}

/// The ARN of the queue.
pub fn queue_arn(alloc: Global, queue: &str) -> Result<Text, NoMemory>
    ensures { IfOk result (λ arn. arn ≡ spec.queue_arn queue.now) }
{
    Ok(Text::from(format!(in alloc; "{QUEUE_PREFIX}{queue}")?))
}

/// The ARN of the bus.
pub fn bus_arn(alloc: Global, bus: &str) -> Result<Text, NoMemory>
    ensures { IfOk result (λ arn. arn ≡ spec.bus_arn bus.now) }
{
    Ok(Text::from(format!(in alloc; "{EVENTS_PREFIX}event-bus/{bus}")?))
}

/// The ARN of the archive.
pub fn archive_arn(alloc: Global, archive: &str) -> Result<Text, NoMemory>
    ensures { IfOk result (λ arn. arn ≡ spec.archive_arn archive.now) }
{
    Ok(Text::from(format!(in alloc; "{EVENTS_PREFIX}archive/{archive}")?))
}

/// The ARN of the replay.
pub fn replay_arn(alloc: Global, replay: &str) -> Result<Text, NoMemory>
    ensures { IfOk result (λ arn. arn ≡ spec.replay_arn replay.now) }
{
    Ok(Text::from(format!(in alloc; "{EVENTS_PREFIX}replay/{replay}")?))
}

/// The ARN of the rule on the bus.
pub fn rule_arn(alloc: Global, bus: &str, rule: &str) -> Result<Text, NoMemory>
    ensures { IfOk result (λ arn. arn ≡ spec.rule_arn bus.now rule.now) }
{
    let arn = if bus == DEFAULT_BUS {
        format!(in alloc; "{EVENTS_PREFIX}rule/{rule}")?
    } else {
        format!(in alloc; "{EVENTS_PREFIX}rule/{bus}/{rule}")?
    };
    Ok(Text::from(arn))
}
