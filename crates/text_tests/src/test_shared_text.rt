//! Tests of shared_text.
use json_text::Text;
use shared_text::{SharedRow, SharedText, TargetRow};
use std::alloc::Global;
use std::test::Fail;

const RULE_ARN: &str = "arn:aws:events:us-east-1:111122223333:rule/orders/paid";

const ENDPOINT: &str = "arn:aws:sqs:us-east-1:111122223333:paid";

const DEAD_LETTER: &str = "arn:aws:sqs:us-east-1:111122223333:unpaid";

/// Accepts only values that threads may share and pass on.
fn crosses_threads<T: Send + Sync>(_value: &T) {}

fn row(alloc: Global) -> Result<SharedRow, Fail> {
    let row = TargetRow {
        rule_arn: Text::from_str(alloc, RULE_ARN)?,
        rule_name: Text::from_str(alloc, "paid")?,
        target_id: Text::from_str(alloc, "7")?,
        endpoint: Text::from_str(alloc, ENDPOINT)?,
        dead_letter: Some(Text::from_str(alloc, DEAD_LETTER)?),
        attempts: 185,
        age: 86_400,
    };
    Ok(SharedRow::new(alloc, row)?)
}

#[test]
fn a_text_stays_while_a_pointer_is_left(rt: HostRuntime) -> Result<(), Fail> {
    let alloc = rt.alloc();
    let first = SharedText::new(alloc, Text::from_str(alloc, "{\"id\":\"é\"}")?)?;
    let second = first.share()?;
    let third = second.share()?;
    crosses_threads(&first);
    assert!(rt; first.as_str() == "{\"id\":\"é\"}" && second.as_str() == first.as_str());
    drop(first);
    drop(second);
    assert!(rt; third.as_str() == "{\"id\":\"é\"}");
    Ok(())
}

#[test]
fn each_pointer_reads_the_same_row(rt: HostRuntime) -> Result<(), Fail> {
    let alloc = rt.alloc();
    let first = row(alloc)?;
    let second = first.share()?;
    crosses_threads(&first);
    drop(first);
    assert!(rt; second.rule_arn() == RULE_ARN);
    assert!(rt; second.rule_name() == "paid");
    assert!(rt; second.target_id() == "7");
    assert!(rt; second.endpoint() == ENDPOINT);
    assert!(rt; second.dead_letter() == Some(DEAD_LETTER));
    assert!(rt; second.attempts() == 185 && second.age() == 86_400);
    Ok(())
}
