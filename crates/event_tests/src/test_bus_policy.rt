//! Tests of bus_policy: verdicts on texts that are no account. Verdicts on accounts are rows of examples/tables.
use bus_policy::{Asker, Policy, Verdict};
use std::alloc::Global;
use std::test::Fail;
use test_rows::{all_met, four, last};

/// The asker with this account, bus, source and detail type.
fn asker<'a>(fields: &'a str) -> Asker<'a> {
    let (account, bus, source, detail_type) = four(fields);
    Asker {
        account,
        bus,
        source,
        detail_type,
    }
}

/// Whether the verdict is as it is wanted.
fn is_verdict(verdict: Verdict, want: &str) -> bool {
    match verdict {
        Verdict::Allowed => want == "allowed",
        Verdict::DeniedBy(_) => false,
        Verdict::NoAllow => want == "no allow",
    }
}

/// Who asks, by account, bus, source and detail type; the verdict; and the policy. Worked by hand.
const TEXTS: &str =
    r#"44445555666|default|s|x|no allow|{"Version":"2012-10-17","Statement":[{"Sid":"ok","Effect":"Allow","Principal":{"AWS":"444455556666"},"Action":"events:PutEvents","Resource":"arn:aws:events:us-east-1:111122223333:event-bus/default"},{"Sid":"no","Effect":"Deny","Principal":{"AWS":"444455556666"},"Action":"events:PutEvents","Resource":"arn:aws:events:us-east-1:111122223333:event-bus/default","Condition":{"StringEquals":{"events:source":"shop.secret"}}}]}
4444555566667|default|s|x|no allow|{"Version":"2012-10-17","Statement":[{"Sid":"ok","Effect":"Allow","Principal":{"AWS":"444455556666"},"Action":"events:PutEvents","Resource":"arn:aws:events:us-east-1:111122223333:event-bus/default"},{"Sid":"no","Effect":"Deny","Principal":{"AWS":"444455556666"},"Action":"events:PutEvents","Resource":"arn:aws:events:us-east-1:111122223333:event-bus/default","Condition":{"StringEquals":{"events:source":"shop.secret"}}}]}
|default|s|x|no allow|{"Version":"2012-10-17","Statement":[{"Sid":"ok","Effect":"Allow","Principal":{"AWS":"444455556666"},"Action":"events:PutEvents","Resource":"arn:aws:events:us-east-1:111122223333:event-bus/default"},{"Sid":"no","Effect":"Deny","Principal":{"AWS":"444455556666"},"Action":"events:PutEvents","Resource":"arn:aws:events:us-east-1:111122223333:event-bus/default","Condition":{"StringEquals":{"events:source":"shop.secret"}}}]}
arn:aws:iam::444455556666:root|a|s|x|no allow|{"Id":"lists","Version":"2008-10-17","Statement":[{"Effect":"Allow","Principal":{"AWS":["arn:aws:iam::444455556666:root","777788889999"]},"Action":["events:PutRule","events:PutEvents"],"Resource":["arn:aws:events:us-east-1:111122223333:event-bus/a","arn:aws:events:us-east-1:111122223333:event-bus/b"]}]}
no account|a|shop.x|Paid|allowed|{"Statement":[{"Effect":"Allow","Principal":{"AWS":"*"},"Action":"*","Resource":"*","Condition":{"StringLike":{"events:source":["shop.*","bank.?"]},"StringEquals":{"events:detail-type":["Order Placed","Paid"]}}}]}
"#;

fn is_answered(alloc: Global, row: &str) -> Result<bool, Fail> {
    let (front, policy) = last(row);
    let (fields, want) = last(front);
    match Policy::read(alloc, policy.as_bytes()) {
        Ok(policy) => Ok(is_verdict(policy.decide(&asker(fields)), want)),
        Err(_) => Ok(false),
    }
}

#[test]
fn a_text_that_is_no_account_is_only_everyone(rt: HostRuntime) -> Result<(), Fail> {
    all_met(rt.alloc(), TEXTS, 5, is_answered)
}
