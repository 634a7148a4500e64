//! The conditions on a target whatever the rule set is.
ghost use Rattle.std.specs.Prelude.{◌≡◌, IfOk};
ghost use Rattle.rule_targets.specs.Checks as spec;

use crate::given::GivenInput;
use crate::retry::is_retry_valid;
use crate::target::{AskedInput, AskedTarget};
use api_replies::Member;
use event_shape::{is_target_id, queue_of};
use http_target::is_endpoint;
use json_text::{NoMemory, Text};
use std::alloc::Global;

/// The first member of the target that is outside its syntax or its limits.
pub fn member_fault(alloc: Global, target: &AskedTarget) -> Result<Option<Member>, NoMemory>
    ensures { IfOk result (λ found. found ≡ spec.member_fault target.now) }
{
    if !is_target_id(target.id.as_str()) {
        return Ok(Some(Member::Id));
    }
    if !is_target_arn(alloc, target.arn.as_str())? {
        return Ok(Some(Member::Arn));
    }
    if !may_be_input(&target.input) {
        return Ok(Some(Member::Input));
    }
    if !may_be_path(&target.input_path) {
        return Ok(Some(Member::InputPath));
    }
    if !may_be_transformer(&target.transformer) {
        return Ok(Some(Member::InputTransformer));
    }
    if !is_retry_valid(&target.retry) {
        return Ok(Some(Member::RetryPolicy));
    }
    if !is_dead_letter_arn(&target.dead_letter) {
        return Ok(Some(Member::DeadLetterConfig));
    }
    Ok(None)
}

/// Whether the text is the ARN of a queue or the URL of an HTTP endpoint.
pub fn is_target_arn(alloc: Global, arn: &str) -> Result<bool, NoMemory>
    ensures { IfOk result (λ yes. yes ≡ spec.is_target_arn arn.now) }
{
    if queue_of(arn).is_some() {
        return Ok(true);
    }
    Ok(is_endpoint(alloc, arn)?)
}

/// Whether there is no dead-letter queue, or its ARN is that of a queue.
fn is_dead_letter_arn(arn: &Option<Text>) -> bool
    ensures { result ≡ spec.is_dead_letter_arn arn.now }
{
    match arn {
        Some(arn) => queue_of(arn.as_str()).is_some(),
        None => true,
    }
}

/// Whether the member Input is absent or valid.
fn may_be_input(member: &AskedInput) -> bool
    ensures { result ≡ spec.may_be_input member.now }
{
    match member {
        AskedInput::Absent => true,
        AskedInput::NotValid => false,
        AskedInput::Read(input) => match input.given() {
            GivenInput::Input(_) => true,
            GivenInput::InputPath(_) | GivenInput::InputTransformer(_) => false,
        },
    }
}

/// Whether the member InputPath is absent or valid.
fn may_be_path(member: &AskedInput) -> bool
    ensures { result ≡ spec.may_be_path member.now }
{
    match member {
        AskedInput::Absent => true,
        AskedInput::NotValid => false,
        AskedInput::Read(input) => match input.given() {
            GivenInput::InputPath(_) => true,
            GivenInput::Input(_) | GivenInput::InputTransformer(_) => false,
        },
    }
}

/// Whether the member InputTransformer is absent or valid.
fn may_be_transformer(member: &AskedInput) -> bool
    ensures { result ≡ spec.may_be_transformer member.now }
{
    match member {
        AskedInput::Absent => true,
        AskedInput::NotValid => false,
        AskedInput::Read(input) => match input.given() {
            GivenInput::InputTransformer(_) => true,
            GivenInput::Input(_) | GivenInput::InputPath(_) => false,
        },
    }
}

/// Whether the target has more than one of Input, InputPath and InputTransformer.
pub fn has_two_inputs(target: &AskedTarget) -> bool
    ensures { result ≡ spec.has_two_inputs target.now }
{
    let has_path = is_given(&target.input_path);
    let has_transformer = is_given(&target.transformer);
    (is_given(&target.input) && (has_path || has_transformer)) || (has_path && has_transformer)
}

fn is_given(member: &AskedInput) -> bool
    ensures { result ≡ spec.is_given member.now }
{
    match member {
        AskedInput::Absent => false,
        AskedInput::NotValid | AskedInput::Read(_) => true,
    }
}
