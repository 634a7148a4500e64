//! Tests of the crate `call_replies`: causes and calls that no request leads to.
use crate::changes::{after_all, control};
use crate::test_api_replies::is_reply;
use crate::test_delivery_duties::play;
use api_replies::{Cause, Kind, Member, Reply};
use call_replies::{change_cause, items_reply, peek_messages, target_json};
use delivery_duties::Duties;
use json_text::{Items, NoMemory};
use rule_table::{Control, ControlFault, RuleSet};
use std::alloc::Global;
use std::test::Fail;

fn cause(alloc: Global, control: &Control, fault: ControlFault) -> Result<Cause, NoMemory> {
    change_cause(alloc, control, fault)
}

fn is_message(alloc: Global, cause: &Cause, message: &str) -> Result<bool, NoMemory> {
    Ok(cause.message(alloc)?.as_str() == message)
}

/// Whether this fault of the change is refused with this message.
fn has_message(
    alloc: Global,
    control: &Control,
    fault: ControlFault,
    message: &str,
) -> Result<bool, NoMemory> {
    let cause = cause(alloc, control, fault)?;
    is_message(alloc, &cause, message)
}

#[test]
fn each_fault_of_a_change_has_its_cause(rt: HostRuntime) -> Result<(), Fail> {
    let alloc = rt.alloc();
    let control = control(alloc, "no policy|b")?;
    let of_name = ControlFault::Validation(Member::Name);
    let of_targets = ControlFault::LimitExceeded(Kind::Target);
    assert!(rt; has_message(alloc, &control, of_name, "Member Name is not valid.")?);
    assert!(rt; has_message(alloc, &control, of_targets, "Target limit 5 reached.")?);
    Ok(())
}

/// A reply with the item of a target that failed at the number limit.
fn one_failed(alloc: Global) -> Result<Reply, Fail> {
    let mut items: Items = Vec::new(alloc);
    items.push(target_json(alloc, "t", &Cause::NumberLimit)?)?;
    Ok(items_reply(alloc, 1, "FailedEntries", items)?)
}

const FAILED: &str =
    r#"{"FailedEntryCount":1,"FailedEntries":[{"TargetId":"t","ErrorCode":"LimitExceededException","ErrorMessage":"Number limit 281474976710656 reached."}]}"#;

#[test]
fn a_target_fails_at_the_number_limit(rt: HostRuntime) -> Result<(), Fail> {
    assert!(rt; is_reply(rt.alloc(), one_failed(rt.alloc())?, 200, FAILED)?);
    Ok(())
}

fn duties(alloc: Global) -> Result<Duties, Fail> {
    let mut said = String::new(alloc);
    play(alloc, &mut said, "try|1000|404")
}

fn peeked(alloc: Global, set: &RuleSet, duties: &Duties) -> Result<Reply, NoMemory> {
    peek_messages(alloc, set, duties, "d", 0)
}

/// The reply to a PeekMessages of the queue `d`, which has one message, with a limit of 0.
fn none_peeked(alloc: Global) -> Result<Reply, Fail> {
    let set = after_all(alloc, "queue|d")?;
    let duties = duties(alloc)?;
    Ok(peeked(alloc, &set, &duties)?)
}

#[test]
fn a_limit_of_0_shows_no_message(rt: HostRuntime) -> Result<(), Fail> {
    assert!(rt;
        is_reply(
            rt.alloc(),
            none_peeked(rt.alloc())?,
            200,
            r#"{"Messages":[]}"#
        )?
    );
    Ok(())
}
