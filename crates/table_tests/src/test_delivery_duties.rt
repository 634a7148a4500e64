//! Tests of the crate `delivery_duties`: deliveries while time passes.
ghost use Rattle.std.specs.Prelude.{◌≡◌, IfOk, length};

use crate::changes::{names, number, optional_text};
use delivery_duties::{Duties, Fate, NewDuties, NewDuty, Outcome};
use delivery_queues::{DeadLetterAttributes, NewQueue, QueueMessage};
use json_text::{NoMemory, Text};
use shared_text::{SharedRow, SharedText, TargetRow};
use std::alloc::Global;
use std::test::Fail;
use test_rows::{all_met, last, three};

/// Acts, and what comes of them; then the messages of the queue `d`. One delivery to an endpoint, with a maximum age of 60 seconds and the
/// dead-letter queue `d`, is made at 1000. Worked by hand. The acts:
///
/// `try|MOMENT|OUTCOME`: a delivery that is due is attempted, with this outcome (`accepted`, `silent`, `old` or a code). Its number and its
/// fate come of it, or `0-` if none is due.
///
/// `add|MOMENT|TEXT` and `long|MOMENT|TEXT`: a further delivery, with a text that is not too long or is.
///
/// `forget||d`: the queue `d` is deleted.
///
/// In the first row attempts are 1, 2, 4, 8 and 16 seconds apart, and the next one would be due at 1063, past 1060. In the fourth, delivery
/// 1 is due again at 1001: after delivery 2, which was made at 1000, and before delivery 3, which was made at 1001.
const PLAYS: &str =
    "try|999|503 try|1000|503 try|1000|503 try|1001|503 try|1002|503 try|1003|503 try|1006|503 try|1007|503 try|1015|503 try|1030|503 try|1031|503|0- 1pending 0- 1pending 0- 1pending 0- 1pending 1pending 0- 1dead 1:x,STATUS_503,Target answered 503.,MaximumEventAgeInSeconds,5;
try|1000|409 try|1001|404|1pending 1dead 1:x,STATUS_404,Target answered 404.,,1;
try|1000|503 try|1061|old long|1062|{}|1pending 1dead 1:x,STATUS_503,Target answered 503.,MaximumEventAgeInSeconds,0;2:{},TEXT_TOO_LONG,The text is over 1048576 bytes.,,0;
try|1000|silent add|1000|y add|1001|z try|1001|accepted try|1001|accepted try|1001|accepted try|1001|accepted|1pending 2delivered 1delivered 3delivered 0- 
forget||d try|1000|404 long|1000|{} try|1000|accepted|1dropped 0- 
";

/// The target of all deliveries, with 185 retries and this maximum age.
fn target(alloc: Global, age: u32) -> Result<SharedRow, Fail> {
    let (rule_arn, rule_name) = names(alloc, "arn:aws:events:us-east-1:111122223333:rule/r", "r")?;
    let (target_id, endpoint) = names(alloc, "t", "http://127.0.0.1:9000/x")?;
    let dead_letter = optional_text(alloc, "arn:aws:sqs:us-east-1:111122223333:d")?;
    let row = TargetRow {
        rule_arn,
        rule_name,
        target_id,
        endpoint,
        dead_letter,
        attempts: 185,
        age,
    };
    Ok(SharedRow::new(alloc, row)?)
}

fn duty(
    alloc: Global,
    target: &SharedRow,
    text: &str,
    too_long: bool,
) -> Result<NewDuty, NoMemory> {
    let text = SharedText::new(alloc, Text::from_str(alloc, text)?)?;
    let target = target.share()?;
    Ok(NewDuty {
        target,
        text,
        too_long,
    })
}

/// A list of this delivery.
fn one(alloc: Global, duty: NewDuty) -> Result<NewDuties, NoMemory>
    ensures { IfOk result (λ ds. length ds ≡ 1) }
{
    let mut batch = NewDuties::new(alloc);
    batch.push(alloc, duty)?;
    Ok(batch)
}

/// Adds a delivery to the target, due at the moment.
fn add(
    alloc: Global,
    duties: &mut Duties,
    target: &SharedRow,
    text: &str,
    too_long: bool,
    moment: u32,
) -> Result<(), NoMemory> {
    let more = one(alloc, duty(alloc, target, text, too_long)?)?;
    if duties.counts().created < 1000 {
        duties.add(more, u64::from(moment));
    }
    Ok(())
}

/// One delivery to the target, made at the moment, and the queue `d`.
fn made(alloc: Global, target: &SharedRow, moment: u32) -> Result<Duties, NoMemory> {
    let mut duties = Duties::new(alloc)?;
    duties.create_queue(NewQueue::new(alloc, "d")?);
    add(alloc, &mut duties, target, "x", false, moment)?;
    Ok(duties)
}

/// Attempts the delivery that is due next, if there is one. Returns its number and fate.
fn step(duties: &mut Duties, moment: u32, outcome: Outcome) -> Option<(u64, Fate)> {
    match duties.claim_next(u64::from(moment)) {
        Some(claim) => {
            let number = claim.number;
            Some((number, duties.settle(claim, outcome, u64::from(moment))))
        }
        None => None,
    }
}

fn outcome(text: &str) -> Result<Outcome, Fail> {
    match text {
        "accepted" => Ok(Outcome::Accepted),
        "silent" => Ok(Outcome::NoAnswer),
        "old" => Ok(Outcome::TooOld),
        code => Ok(Outcome::Code(code.parse::<u16>()?)),
    }
}

fn push_step(
    alloc: Global,
    duties: &mut Duties,
    said: &mut String,
    moment: u32,
    outcome: Outcome,
) -> Result<(), Fail> {
    let (number, fate) = match step(duties, moment, outcome) {
        Some((number, Fate::Pending)) => (number, "pending "),
        Some((number, Fate::Delivered)) => (number, "delivered "),
        Some((number, Fate::DeadLettered)) => (number, "dead "),
        Some((number, Fate::Dropped)) => (number, "dropped "),
        None => (0, "- "),
    };
    let part = format!(in alloc; "{number}{fate}")?;
    Ok(said.push_str(&part)?)
}

/// Does what the act says, and appends what comes of it.
fn apply(
    alloc: Global,
    duties: &mut Duties,
    target: &SharedRow,
    said: &mut String,
    act: &str,
) -> Result<(), Fail> {
    let (word, moment, what) = three(act);
    if word == "forget" {
        drop(duties.forget(what));
        return Ok(());
    }
    let moment = number(moment)?;
    if word == "try" {
        return push_step(alloc, duties, said, moment, outcome(what)?);
    }
    Ok(add(alloc, duties, target, what, word == "long", moment)?)
}

fn apply_all(
    alloc: Global,
    duties: &mut Duties,
    target: &SharedRow,
    said: &mut String,
    acts: &str,
) -> Result<(), Fail> {
    for act in acts.split(' ') {
        apply(alloc, duties, target, said, act)?;
    }
    Ok(())
}

/// Appends what comes of these acts, as in `PLAYS`. Returns the deliveries after them.
pub(crate) fn play(alloc: Global, said: &mut String, acts: &str) -> Result<Duties, Fail> {
    let target = target(alloc, 60)?;
    let mut duties = made(alloc, &target, 1000)?;
    apply_all(alloc, &mut duties, &target, said, acts)?;
    Ok(duties)
}

fn push_attributes(said: &mut String, a: &DeadLetterAttributes) -> Result<(), Fail> {
    said.push_str(",")?;
    said.push_str(a.error_code.as_str())?;
    said.push_str(",")?;
    said.push_str(a.error_message.as_str())?;
    said.push_str(",")?;
    said.push_str(a.exhausted_retry_condition.as_str())?;
    said.push_str(",")?;
    Ok(said.push_str(a.retry_attempts.as_str())?)
}

fn push_message(alloc: Global, said: &mut String, message: &QueueMessage) -> Result<(), Fail> {
    let number = format!(in alloc; "{}:", message.number)?;
    said.push_str(&number)?;
    said.push_str(message.body.as_str())?;
    if let Some(attributes) = &message.attributes {
        push_attributes(said, attributes)?;
    }
    Ok(said.push_str(";")?)
}

/// Appends the messages of the queue `d`, with their attributes.
fn push_messages(alloc: Global, said: &mut String, duties: &Duties) -> Result<(), Fail> {
    for message in &duties.peek(alloc, "d", 9)? {
        push_message(alloc, said, message)?;
    }
    Ok(())
}

/// What comes of the acts, and then the messages.
fn played(alloc: Global, acts: &str) -> Result<String, Fail> {
    let mut said = String::new(alloc);
    let duties = play(alloc, &mut said, acts)?;
    push_messages(alloc, &mut said, &duties)?;
    Ok(said)
}

fn is_played(alloc: Global, row: &str) -> Result<bool, Fail> {
    let (acts, wanted) = last(row);
    Ok(played(alloc, acts)?.as_str() == wanted)
}

#[test]
fn each_delivery_ends_in_time(rt: HostRuntime) -> Result<(), Fail> {
    all_met(rt.alloc(), PLAYS, 5, is_played)
}

/// The moment of the last attempt, if there is one at each second from 0 on, and each fails with 503.
fn last_step(duties: &mut Duties) -> u32 {
    let mut last = 0;
    for moment in 0..90_000u32 {
        if step(duties, moment, Outcome::Code(503)).is_some() {
            last = moment;
        }
    }
    last
}

/// That moment, and then the messages.
fn played_long(alloc: Global) -> Result<String, Fail> {
    let mut duties = made(alloc, &target(alloc, 86_400)?, 0)?;
    let mut said = format!(in alloc; "{} ", last_step(&mut duties))?;
    push_messages(alloc, &mut said, &duties)?;
    Ok(said)
}

// 1 + 2 + 4 + .. + 512 = 1,023 seconds up to attempt 11, then 142 times 600: 86,223 seconds. The next one is due after 86,823, past 86,400.
#[test]
fn always_503_with_the_default_policy(rt: HostRuntime) -> Result<(), Fail> {
    assert_eq!(rt;
        played_long(rt.alloc())?.as_str(),
        "86223 1:x,STATUS_503,Target answered 503.,MaximumEventAgeInSeconds,152;"
    );
    Ok(())
}
