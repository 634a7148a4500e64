//! Tests of event_arns.
use crate::rows::is_text;
use event_arns::{archive_of_arn, bus_of_arn, rule_of_arn};
use std::alloc::Global;
use std::test::Fail;
use test_rows::{all_met, four};

/// What has the ARN, a rule's bus, a text, and the name that it shows.
const NAMED: &str = "bus||arn:aws:events:us-east-1:111122223333:event-bus/b|b
bus||b|none
bus||arn:aws:events:us-east-1:111122223333:event-bus/a/b|none
bus||arn:aws:events:us-east-1:111122223333:event-bus/|none
archive||arn:aws:events:us-east-1:111122223333:archive/a|a
archive||arn:aws:events:us-east-1:111122223333:archive/|none
archive||arn:aws:events:us-east-1:111122223333:replay/a|none
archive||arn:aws:events:us-east-1:444455556666:archive/a|none
rule|default|arn:aws:events:us-east-1:111122223333:rule/r|r
rule|default|arn:aws:events:us-east-1:111122223333:rule/b/r|none
rule|default|arn:aws:events:us-east-1:111122223333:rule/default/r|none
rule|b|arn:aws:events:us-east-1:111122223333:rule/b/r|r
rule|b|arn:aws:events:us-east-1:111122223333:rule/r|none
rule|b|arn:aws:events:us-east-1:111122223333:rule/c/r|none
";

fn name_in<'a>(kind: &str, bus: &str, arn: &'a str) -> Option<&'a str> {
    if kind == "bus" {
        bus_of_arn(arn)
    } else if kind == "archive" {
        archive_of_arn(arn)
    } else {
        rule_of_arn(arn, bus)
    }
}

fn is_named(_: Global, row: &str) -> Result<bool, Fail> {
    let (kind, bus, arn, name) = four(row);
    Ok(is_text(name_in(kind, bus, arn), name))
}

#[test]
fn an_arn_alone_shows_its_name(rt: HostRuntime) -> Result<(), Fail> {
    all_met(rt.alloc(), NAMED, 14, is_named)
}
