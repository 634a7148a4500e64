//! Tests of the crates `rule_table` and `rule_targets`: changes that are well formed, refusals that no request leads to, and sets that stay.
use crate::changes::{after, after_all, control, made};
use rule_table::{Control, ControlFault, RuleSet, RuleTarget, is_well_formed};
use rule_targets::RetryPolicy;
use shared_text::SharedRow;
use std::alloc::Global;
use std::test::Fail;
use test_rows::{all_met, last};

/// Changes, and whether they are well formed, whatever the rule set is. Worked by hand from the syntax of names.
const FORMS: &str = r#"bus|a.B-c_9|true
bus|a/b|false
bus||false
no bus|default|true
no bus|a b|false
rule|b|r|{"source":["x"]}|true
rule|b|a b|{"source":["x"]}|false
rule||r|{"source":["x"]}|false
no rule|b|r|true
no rule|b||false
enable|b|r|true
enable|b/|r|false
put|1|default|r|t|arn:aws:sqs:us-east-1:111122223333:none||||true
put|1|default|r|t|arn:aws:sqs:us-east-1:111122223333:a.b||||false
put|1|default|r|a b|arn:aws:sqs:us-east-1:111122223333:q||||false
put|1|default|r|t|http://localhost:8080/|||arn:aws:sqs:us-east-1:111122223333:none|true
put|1|default|r|t|http://example.com/|||arn:aws:sqs:us-east-1:111122223333:none|false
put|1|default|r|t|http://localhost:8080/|||arn:aws:sqs:us-east-1:111122223333:a.b|false
put|0|default|r|t|arn:aws:sqs:us-east-1:111122223333:q||||false
put|1|default|r|t|arn:aws:sqs:us-east-1:111122223333:q||||true
put|100|default|r|t|arn:aws:sqs:us-east-1:111122223333:q||||true
put|101|default|r|t|arn:aws:sqs:us-east-1:111122223333:q||||false
put|1|default|r|t|arn:aws:sqs:us-east-1:111122223333:q|0|60|arn:aws:sqs:us-east-1:111122223333:q|true
put|1|default|r|t|arn:aws:sqs:us-east-1:111122223333:q|0|59|arn:aws:sqs:us-east-1:111122223333:q|false
put|1|default|r|t|arn:aws:sqs:us-east-1:111122223333:q|186|60|arn:aws:sqs:us-east-1:111122223333:q|false
put|1|default|r|t|arn:aws:sqs:us-east-1:111122223333:q|0|60|http://localhost:8080/|false
remove|b|r|a,a|true
remove|b|r||false
remove|b|r|a b|false
queue|q-1_A|true
queue|q.1|false
no queue|q-1_A|true
no queue|q.1|false
policy|b|{"Version":"2012-10-17","Statement":[{"Effect":"Allow","Principal":"*","Action":"*","Resource":"*"}]}|true
no policy|b|true
no policy|a b|false
archive|a.B-c_9|default|2147483647|{"source":["x"]}|true
archive|a|b|2147483648||false
archive|aaaaaaaaaaaaaaaaaaaaaaaaaaaaaaaaaaaaaaaaaaaaaaaaa|b|0||false
archive||b|0||false
archive|a|b/|0||false
update|a|0||true
update|a|2147483648||false
update|a b|0||false
no archive|a|true
no archive||false
"#;

/// Changes in turn, and the refusal of each; nothing if it is made. Most refusals are of changes that no request makes. Worked by hand.
const CHANGES: &str = r#"queue|q|
rule|default|r|{"source":["x"]}|
put|1|default|r|a|arn:aws:sqs:us-east-1:111122223333:q||||
put|1|default|r|b|arn:aws:sqs:us-east-1:111122223333:q||||
put|1|default|r|c|arn:aws:sqs:us-east-1:111122223333:none||||Targets
put|1|default|r|u|http://localhost:8080/|||arn:aws:sqs:us-east-1:111122223333:d|Targets
remove|nope|r||no Event bus
remove|default|s||no Rule
remove|default|r||Ids
remove|default|r|a,c|Ids
remove|default|r|b,b|Ids
remove|default|r|a|
remove|default|r|a|Ids
remove|default|r|b|
no queue|q|
put|1|default|r|a|arn:aws:sqs:us-east-1:111122223333:q||||Targets
no rule|default|s|no Rule
no rule|default|r|
no rule|default|r|no Rule
archive|a|nope|0||no Event bus
update|a|1||no Archive
no archive|a|no Archive
archive|a|default|0|{"source":["x"]}|
update|a|1||EventPattern
update|a|1|{"source":["y"]}|
archive|a|default|0||again Archive
bus|b|
archive|c|b|0||
update|c|1||
update|c|1|{"source":["y"]}|
no bus|b|in use Event bus
no archive|c|
no bus|b|
no archive|a|
no archive|a|no Archive
"#;

fn is_formed(alloc: Global, control: &Control) -> Result<bool, Fail> {
    Ok(is_well_formed(alloc, control)?)
}

fn word_of(formed: bool) -> &'static str {
    if formed { "true" } else { "false" }
}

fn is_form_met(alloc: Global, row: &str) -> Result<bool, Fail> {
    let (change, wanted) = last(row);
    let control = control(alloc, change)?;
    Ok(word_of(is_formed(alloc, &control)?) == wanted)
}

#[test]
fn changes_are_well_formed(rt: HostRuntime) -> Result<(), Fail> {
    all_met(rt.alloc(), FORMS, 46, is_form_met)
}

/// What a row has of the fault, in two parts: nothing and a member that is not valid; `no `, `again ` or `in use ` and a kind of things of
/// which one is missing, exists or is in use. No row has another fault.
fn parts_of(fault: &ControlFault) -> (&'static str, &'static str) {
    match fault {
        ControlFault::ResourceNotFound(kind) => ("no ", kind.word()),
        ControlFault::AlreadyExists(kind) => ("again ", kind.word()),
        ControlFault::InUse(kind) => ("in use ", kind.word()),
        ControlFault::Validation(member) => ("", member.name()),
        _ => ("another fault", "that no row has"),
    }
}

/// Whether the text has these parts.
fn is_made_of(text: &str, front: &str, rest: &str) -> bool {
    match text.strip_prefix(front) {
        Some(found) => found == rest,
        None => false,
    }
}

/// Whether the fault has this text.
fn is_fault(fault: &ControlFault, text: &str) -> bool {
    let (front, rest) = parts_of(fault);
    is_made_of(text, front, rest)
}

/// Whether the change is made if there is no refusal, and else has this refusal. The set goes on from there.
fn is_made(alloc: Global, set: &mut RuleSet, control: &Control, refusal: &str) -> bool {
    match made(alloc, set, control) {
        Ok(next) => {
            *set = next;
            refusal.is_empty()
        }
        Err(fault) => is_fault(&fault, refusal),
    }
}

fn is_change_met(alloc: Global, set: &mut RuleSet, row: &str) -> Result<bool, Fail> {
    let (change, refusal) = last(row);
    let control = control(alloc, change)?;
    Ok(is_made(alloc, set, &control, refusal))
}

#[test]
fn each_refused_change_has_its_fault(rt: HostRuntime) -> Result<(), Fail> {
    assert_eq!(rt; CHANGES.lines().count(), 35);
    let mut set = RuleSet::first(rt.alloc())?;
    for row in CHANGES.lines() {
        assert!(rt; is_change_met(rt.alloc(), &mut set, row)?, "{row}");
    }
    assert_eq!(rt; set.control_count(), 17);
    Ok(())
}

/// Whether the names of the queues are as in the text, in this order, each with `;` after it.
fn are_queues(alloc: Global, set: &RuleSet, names: &str) -> Result<bool, Fail> {
    let mut out = String::new(alloc);
    for queue in set.queues() {
        out.push_str(queue.as_str())?;
        out.push_str(";")?;
    }
    Ok(out.as_str() == names)
}

/// Whether the set stays as it was when another is made from it.
fn stays(alloc: Global, one: &RuleSet) -> Result<bool, Fail> {
    let two = after(alloc, one, "queue|a")?;
    Ok(
        are_queues(alloc, &two, "a;b;c;")?
            && are_queues(alloc, one, "b;c;")?
            && two.queue("a")
            && !two.queue("ab")
            && !one.queue("a"),
    )
}

#[test]
fn a_set_stays_if_another_is_made_from_it(rt: HostRuntime) -> Result<(), Fail> {
    let one = after_all(rt.alloc(), "queue|b\nqueue|c")?;
    assert!(rt; stays(rt.alloc(), &one)?);
    Ok(())
}

const A_ARN: &str = "arn:aws:sqs:us-east-1:111122223333:a";

/// Whether the row is of the rule `r`, and has these parts.
fn is_row(row: &SharedRow, id: &str, endpoint: &str, attempts: u16, age: u32) -> bool {
    (row.rule_arn() == "arn:aws:events:us-east-1:111122223333:rule/r")
        & (row.rule_name() == "r")
        & (row.target_id() == id)
        & (row.endpoint() == endpoint)
        & (row.attempts() == attempts)
        & (row.age() == age)
}

/// Whether the target `t` was put without a retry policy and without a dead-letter queue.
fn is_plain(t: &RuleTarget) -> bool {
    t.retry().is_none() & t.dead_letter().is_none() & is_row(t.row(), "t", A_ARN, 185, 86_400)
}

/// Whether the target `u` shows what it was put with.
fn is_retried(u: &RuleTarget, retry: Option<RetryPolicy>) -> bool {
    is_row(u.row(), "u", "http://localhost:8080/", 3, 60)
        & (u.dead_letter() == Some(A_ARN))
        & (u.row().dead_letter() == Some(A_ARN))
        & (u.retry() == retry)
}

/// Whether a copy of the target has this retry policy, and a dead-letter queue.
fn is_copied(alloc: Global, u: &RuleTarget, retry: Option<RetryPolicy>) -> Result<bool, Fail> {
    let copy = u.copy(alloc)?;
    Ok((copy.retry == retry) & copy.dead_letter.is_some())
}

/// Whether the rule `r` has the targets `t` and `u`.
fn are_targets_of_r(alloc: Global, targets: &[RuleTarget]) -> Result<bool, Fail> {
    let retry = Some(RetryPolicy {
        attempts: 3,
        age: 60,
    });
    match targets {
        [t, u] => Ok(is_plain(t) & is_retried(u, retry) & is_copied(alloc, u, retry)?),
        _ => Ok(false),
    }
}

/// The rule `r` with the target `t`.
const WITH_TARGET: &str = r#"queue|a
rule|default|r|{"source":["x"]}
put|1|default|r|t|arn:aws:sqs:us-east-1:111122223333:a|||
"#;

/// Gives the rule `r` the target `u`.
const RETRIED: &str =
    "put|1|default|r|u|http://localhost:8080/|3|60|arn:aws:sqs:us-east-1:111122223333:a";

/// Whether a set with the target `u` has both targets, and the set that it was made from has one.
fn has_its_targets(alloc: Global, set: &RuleSet) -> Result<bool, Fail> {
    let put = after(alloc, set, RETRIED)?;
    let both = are_targets_of_r(alloc, put.targets("default", "r"))?;
    Ok(both && put.targets("nope", "r").is_empty() && set.targets("default", "r").len() == 1)
}

#[test]
fn a_target_has_its_row(rt: HostRuntime) -> Result<(), Fail> {
    let set = after_all(rt.alloc(), WITH_TARGET)?;
    assert!(rt; has_its_targets(rt.alloc(), &set)?);
    Ok(())
}
