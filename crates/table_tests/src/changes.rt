//! Changes of the configuration as the rows of tables describe them: a word and its parts, apart by `|`.
//!
//! A queue or a bus: `queue|NAME`, `no queue|NAME`, `bus|NAME`, `no bus|NAME`, `no policy|NAME`. A rule: `rule|BUS|NAME|PATTERN`,
//! `no rule|BUS|NAME`, `enable|BUS|NAME`. Targets: `put|COUNT|BUS|RULE|TARGET`, so many times the same one, and `remove|BUS|RULE|IDS`, the
//! ids apart by commas. A policy: `policy|BUS|TEXT`. TARGET is `ID|ARN|ATTEMPTS|AGE|DEAD`: the numbers of the retry policy and the ARN of
//! the dead-letter queue. Its last three parts may be empty. An archive: `archive|NAME|BUS|DAYS|PATTERN`, `update|NAME|DAYS|PATTERN`,
//! `no archive|NAME`; without PATTERN it has no pattern.
use bus_policy::Policy;
use json_text::Text;
use pattern_read::SharedPattern;
use rule_table::{Control, ControlFault, RuleSet, StoredPolicy};
use rule_targets::{RetryPolicy, Target};
use std::alloc::Global;
use std::test::Fail;
use test_rows::{four, three, two};

pub(crate) fn number(text: &str) -> Result<u32, Fail> {
    Ok(text.parse::<u32>()?)
}

fn text(alloc: Global, text: &str) -> Result<Text, Fail> {
    Ok(Text::from_str(alloc, text)?)
}

pub(crate) fn optional_text(alloc: Global, given: &str) -> Result<Option<Text>, Fail> {
    if given.is_empty() {
        return Ok(None);
    }
    Ok(Some(text(alloc, given)?))
}

fn retry(attempts: &str, age: &str) -> Result<Option<RetryPolicy>, Fail> {
    if attempts.is_empty() {
        return Ok(None);
    }
    Ok(Some(RetryPolicy {
        attempts: attempts.parse::<u16>()?,
        age: number(age)?,
    }))
}

pub(crate) fn names(alloc: Global, first: &str, second: &str) -> Result<(Text, Text), Fail> {
    let first = text(alloc, first)?;
    Ok((first, text(alloc, second)?))
}

fn target(alloc: Global, parts: &str) -> Result<Target, Fail> {
    let (id, arn, attempts, rest) = four(parts);
    let (age, dead) = two(rest);
    let retry = retry(attempts, age)?;
    let dead_letter = optional_text(alloc, dead)?;
    let (id, arn) = names(alloc, id, arn)?;
    Ok(Target {
        id,
        arn,
        input: None,
        retry,
        dead_letter,
    })
}

fn targets(alloc: Global, count: u32, parts: &str) -> Result<Vec<Target>, Fail> {
    let mut targets = Vec::new(alloc);
    for _ in 0..count {
        targets.push(target(alloc, parts)?)?;
    }
    Ok(targets)
}

fn targets_put(alloc: Global, parts: &str) -> Result<Control, Fail> {
    let (count, bus, rule, target) = four(parts);
    let targets = targets(alloc, number(count)?, target)?;
    let (bus, rule) = names(alloc, bus, rule)?;
    Ok(Control::TargetsPut { bus, rule, targets })
}

/// The texts apart by commas; none if there is nothing.
pub(crate) fn texts(alloc: Global, parts: &str) -> Result<Vec<Text>, Fail> {
    let mut texts = Vec::new(alloc);
    if parts.is_empty() {
        return Ok(texts);
    }
    for part in parts.split(',') {
        texts.push(text(alloc, part)?)?;
    }
    Ok(texts)
}

fn targets_removed(alloc: Global, parts: &str) -> Result<Control, Fail> {
    let (bus, rule, ids) = three(parts);
    let ids = texts(alloc, ids)?;
    let (bus, rule) = names(alloc, bus, rule)?;
    Ok(Control::TargetsRemoved { bus, rule, ids })
}

fn pattern(alloc: Global, given: Text) -> Result<SharedPattern, Fail> {
    match SharedPattern::read(alloc, given) {
        Ok(pattern) => Ok(pattern),
        Err(_fault) => Err(Fail::from("a row has no pattern")),
    }
}

fn rule_put(alloc: Global, parts: &str) -> Result<Control, Fail> {
    let (bus, name, given) = three(parts);
    let pattern = pattern(alloc, text(alloc, given)?)?;
    let (bus, name) = names(alloc, bus, name)?;
    Ok(Control::RulePut {
        bus,
        name,
        pattern,
        enabled: true,
    })
}

fn optional_pattern(alloc: Global, given: &str) -> Result<Option<SharedPattern>, Fail> {
    match optional_text(alloc, given)? {
        Some(given) => Ok(Some(pattern(alloc, given)?)),
        None => Ok(None),
    }
}

fn archive_created(alloc: Global, parts: &str) -> Result<Control, Fail> {
    let (name, bus, days, given) = four(parts);
    let days = number(days)?;
    let pattern = optional_pattern(alloc, given)?;
    let (name, bus) = names(alloc, name, bus)?;
    Ok(Control::ArchiveCreated {
        name,
        bus,
        pattern,
        days,
    })
}

fn archive_updated(alloc: Global, parts: &str) -> Result<Control, Fail> {
    let (name, days, given) = three(parts);
    let days = number(days)?;
    let pattern = optional_pattern(alloc, given)?;
    let name = text(alloc, name)?;
    Ok(Control::ArchiveUpdated {
        name,
        pattern,
        days,
    })
}

fn policy(alloc: Global, given: &str) -> Result<StoredPolicy, Fail> {
    match Policy::read(alloc, given.as_bytes()) {
        Ok(policy) => Ok(StoredPolicy::new(alloc, policy)?),
        Err(_fault) => Err(Fail::from("a row has no policy")),
    }
}

fn policy_put(alloc: Global, parts: &str) -> Result<Control, Fail> {
    let (bus, given) = two(parts);
    let policy = Some(policy(alloc, given)?);
    let bus = text(alloc, bus)?;
    Ok(Control::PolicyPut { bus, policy })
}

/// The change of a rule that this word names.
fn of_rule(alloc: Global, word: &str, parts: &str) -> Result<Control, Fail> {
    let (bus, name) = two(parts);
    let (bus, name) = names(alloc, bus, name)?;
    if word == "enable" {
        let enabled = true;
        return Ok(Control::StatePut { bus, name, enabled });
    }
    Ok(Control::RuleDeleted { bus, name })
}

/// The change of a queue, of a bus or of an archive that this word names.
fn of_one(word: &str, name: Text) -> Control {
    match word {
        "queue" => Control::QueueCreated { name },
        "no queue" => Control::QueueDeleted { name },
        "bus" => Control::BusCreated { name },
        "no bus" => Control::BusDeleted { name },
        "no archive" => Control::ArchiveDeleted { name },
        _ => Control::PolicyPut {
            bus: name,
            policy: None,
        },
    }
}

/// The change that the text describes.
pub(crate) fn control(alloc: Global, change: &str) -> Result<Control, Fail> {
    let (word, parts) = two(change);
    match word {
        "rule" => rule_put(alloc, parts),
        "put" => targets_put(alloc, parts),
        "remove" => targets_removed(alloc, parts),
        "policy" => policy_put(alloc, parts),
        "archive" => archive_created(alloc, parts),
        "update" => archive_updated(alloc, parts),
        "no rule" | "enable" => of_rule(alloc, word, parts),
        "queue" | "no queue" | "bus" | "no bus" | "no archive" | "no policy" => Ok(of_one(
            word,
            text(alloc, parts)?,
        )),
        _ => Err(Fail::from("a row has no such change")),
    }
}

/// The set after the change, or the change's refusal.
pub(crate) fn made(
    alloc: Global,
    set: &RuleSet,
    control: &Control,
) -> Result<RuleSet, ControlFault> {
    if set.control_count() >= 1000 {
        return Err(ControlFault::NoMemory);
    }
    set.apply(alloc, control)
}

/// The set after the change.
pub(crate) fn after(alloc: Global, set: &RuleSet, change: &str) -> Result<RuleSet, Fail> {
    let control = control(alloc, change)?;
    match made(alloc, set, &control) {
        Ok(next) => Ok(next),
        Err(_fault) => Err(Fail::from("a change is refused")),
    }
}

/// The first set after these changes, one a line.
pub(crate) fn after_all(alloc: Global, changes: &str) -> Result<RuleSet, Fail> {
    let mut set = RuleSet::first(alloc)?;
    for change in changes.lines() {
        set = after(alloc, &set, change)?;
    }
    Ok(set)
}
