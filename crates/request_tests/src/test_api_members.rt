//! Numbers that no request shows: those that refuse a target, and those of a syntax that no action has. Other values are in
//! api_members.rows.
use api_members::{
    Asked, CallFault, Syntax, age_given, attempts_given, check_members, count_given, members_in,
};
use api_replies::Member;
use json_text::{Text, read};
use std::alloc::Global;
use std::test::Fail;

/// A retry policy of a target that fails, and its attempts and age: `None` is a value that is no whole number that fits. Worked by hand.
const NUMBERS: &str = r#"{"MaximumRetryAttempts":186}|Some(186) Some(86400)
{"MaximumRetryAttempts":65535}|Some(65535) Some(86400)
{"MaximumRetryAttempts":65536}|None Some(86400)
{"MaximumRetryAttempts":281474976710656}|None Some(86400)
{"MaximumRetryAttempts":18446744073709551616}|None Some(86400)
{"MaximumRetryAttempts":5.0}|None Some(86400)
{"MaximumRetryAttempts":1e1}|None Some(86400)
{"MaximumRetryAttempts":-0}|None Some(86400)
{"MaximumRetryAttempts":-1}|None Some(86400)
{"MaximumEventAgeInSeconds":0}|Some(185) Some(0)
{"MaximumEventAgeInSeconds":59}|Some(185) Some(59)
{"MaximumEventAgeInSeconds":86401}|Some(185) Some(86401)
{"MaximumEventAgeInSeconds":4294967295}|Some(185) Some(4294967295)
{"MaximumEventAgeInSeconds":4294967296}|Some(185) None
{"MaximumEventAgeInSeconds":60.0}|Some(185) None
{"MaximumEventAgeInSeconds":6e1}|Some(185) None
{"MaximumEventAgeInSeconds":-0}|Some(185) None
"#;

fn numbers_of(alloc: Global, policy: &str) -> Result<String, Fail> {
    let policy = read(alloc, policy.as_bytes(), 100)?;
    let attempts = attempts_given(members_in(&policy));
    let age = age_given(members_in(&policy));
    Ok(format!(in alloc; "{attempts:?} {age:?}")?)
}

fn has_numbers(alloc: Global, row: &str) -> Result<bool, Fail> {
    match row.split_once('|') {
        Some((policy, want)) => Ok(numbers_of(alloc, policy)?.as_str() == want),
        None => Ok(false),
    }
}

#[test]
fn a_retry_policy_has_plain_numbers_or_defaults(rt: HostRuntime) -> Result<(), Fail> {
    assert_eq!(rt; NUMBERS.lines().count(), 17, "the number of rows");
    for row in NUMBERS.lines() {
        assert!(rt; has_numbers(rt.alloc(), row)?, "{row}");
    }
    Ok(())
}

/// The text of the refusal; empty if there is none.
fn refusal(alloc: Global, checked: Result<(), CallFault>) -> Result<Text, Fail> {
    match checked {
        Ok(()) => Ok(Text::new(alloc)),
        Err(CallFault::Refused(cause)) => Ok(cause.message(alloc)?),
        Err(CallFault::NoMemory) => Err(Fail::new("out of memory")),
    }
}

/// The refusal of the member Name of these members, which has to be a number below 2^64.
fn refusal_of(alloc: Global, body: &str) -> Result<Text, Fail> {
    let value = read(alloc, body.as_bytes(), 100)?;
    let syntax = Syntax::Count {
        least: 0,
        most: u64::MAX,
    };
    let asked = [Asked::Required(Member::Name, syntax)];
    refusal(alloc, check_members(alloc, &asked, members_in(&value)))
}

#[test]
fn a_number_has_64_bits(rt: HostRuntime) -> Result<(), Fail> {
    let most = refusal_of(rt.alloc(), r#"{"Name":18446744073709551615}"#)?;
    assert_eq!(rt; most.as_str(), "");
    let more = refusal_of(rt.alloc(), r#"{"Name":18446744073709551616}"#)?;
    assert_eq!(rt; more.as_str(), "Member Name is not valid.");
    Ok(())
}

/// The number that the member Through of these members gives, if it is at most 281,474,976,710,655.
fn through_of(alloc: Global, body: &str) -> Result<Option<u64>, Fail> {
    let value = read(alloc, body.as_bytes(), 100)?;
    Ok(count_given(members_in(&value), Member::Through, 0, 281_474_976_710_655))
}

#[test]
fn messages_are_deleted_through_the_number_that_is_given(rt: HostRuntime) -> Result<(), Fail> {
    let most = through_of(rt.alloc(), r#"{"QueueName":"q","Through":281474976710655}"#)?;
    assert!(rt; most == Some(281_474_976_710_655));
    Ok(())
}
