//! Targets as requests ask for them, and as rules have them.
ghost use Rattle.std.specs.Prelude.{◌≡◌, IfOk};
ghost use Rattle.std.specs.Option.{option_map};
ghost use Rattle.rule_targets.specs.Target as spec;

use crate::given::GivenInput;
use crate::retry::{GREATEST_AGE, MOST_ATTEMPTS};
use crate::shared_input::{SharedInput, share_input};
use json_text::{NoMemory, Text};
use name_rows::Row;
use std::alloc::Global;

/// A retry policy as a request asks for it. A number is `None` if its spelling is no whole number that fits.
#[derive(Clone, Copy, Debug, PartialEq, Eq)]
pub struct AskedRetry {
    /// The maximum number of retry attempts.
    pub attempts: Option<u16>,
    /// The maximum age of an event, in seconds.
    pub age: Option<u32>,
}

/// A member Input, InputPath or InputTransformer of a target, as a request asks for it.
#[derive(Debug, Drop)]
pub enum AskedInput {
    Absent,
    /// It is outside its syntax or its limits.
    NotValid,
    /// What is given, read.
    Read(SharedInput),
}

/// A target as a request asks for it: its id, which is unique in the rule, and the ARN of its queue or the URL of its HTTP endpoint.
#[derive(Debug, Drop)]
pub struct AskedTarget {
    pub id: Text,
    pub arn: Text,
    pub input: AskedInput,
    pub input_path: AskedInput,
    pub transformer: AskedInput,
    pub retry: Option<AskedRetry>,
    /// The ARN of the dead-letter queue.
    pub dead_letter: Option<Text>,
}

/// A retry policy.
#[derive(Clone, Copy, Debug, PartialEq, Eq)]
pub struct RetryPolicy {
    /// The maximum number of retry attempts.
    pub attempts: u16,
    /// The maximum age of an event, in seconds.
    pub age: u32,
}

/// A target as it is put to a rule.
#[derive(Debug, Drop)]
pub struct Target {
    pub id: Text,
    pub arn: Text,
    /// What the target gets in place of the event. Copies of the target share it.
    pub input: Option<SharedInput>,
    pub retry: Option<RetryPolicy>,
    /// The ARN of the dead-letter queue.
    pub dead_letter: Option<Text>,
}

impl Row for Target {
    ghost name_of = { λ target. target.id };

    fn row_name(&self) -> &str {
        self.id.as_str()
    }
}

impl Target {
    /// A copy of the target. Its texts are in memory of its own.
    pub fn copy(&self, alloc: Global) -> Result<Target, NoMemory>
        ensures { IfOk result (λ target. target ≡ self.now) }
    {
        Ok(Target {
            id: self.id.copy(alloc)?,
            arn: self.arn.copy(alloc)?,
            input: share_input(&self.input)?,
            retry: self.retry,
            dead_letter: copy_optional(alloc, &self.dead_letter)?,
        })
    }

    /// A request that asks for this target.
    pub fn asked(&self, alloc: Global) -> Result<AskedTarget, NoMemory>
        ensures { IfOk result (λ target. target ≡ spec.asked_of self.now) }
    {
        Ok(AskedTarget {
            id: self.id.copy(alloc)?,
            arn: self.arn.copy(alloc)?,
            input: asked_input(&self.input)?,
            input_path: asked_path(&self.input)?,
            transformer: asked_transformer(&self.input)?,
            retry: asked_retry(&self.retry),
            dead_letter: copy_optional(alloc, &self.dead_letter)?,
        })
    }
}

impl AskedInput {
    /// The member with this value, read.
    pub fn read(alloc: Global, given: Option<GivenInput>) -> Result<AskedInput, NoMemory>
        ensures { IfOk result (spec.IsAskedAs given) }
    {
        let Some(given) = given else {
            return Ok(AskedInput::Absent);
        };
        match SharedInput::read(alloc, given)? {
            Some(input) => Ok(AskedInput::Read(input)),
            None => Ok(AskedInput::NotValid),
        }
    }
}

impl AskedTarget {
    /// The target as it is put to a rule, if the request has no fault. Copies its texts, and shares its input.
    pub fn put_as(&self, alloc: Global) -> Result<Target, NoMemory>
        ensures { IfOk result (λ target. target ≡ spec.put_as self.now) }
    {
        Ok(Target {
            id: self.id.copy(alloc)?,
            arn: self.arn.copy(alloc)?,
            input: self.put_input()?,
            retry: put_retry(&self.retry),
            dead_letter: copy_optional(alloc, &self.dead_letter)?,
        })
    }

    /// The first input that is given and valid.
    fn put_input(&self) -> Result<Option<SharedInput>, NoMemory>
        ensures { IfOk result (λ input. input ≡ spec.put_input self.now) }
    {
        let input = first_read(&self.transformer, None)?;
        let input = first_read(&self.input_path, input)?;
        first_read(&self.input, input)
    }
}

/// The input that the member gives, if it is valid, and else the other one.
fn first_read(
    member: &AskedInput,
    other: Option<SharedInput>,
) -> Result<Option<SharedInput>, NoMemory>
    ensures { IfOk result (λ input. input ≡ spec.first_read member.now other) }
{
    match member {
        AskedInput::Read(input) => Ok(Some(input.share()?)),
        AskedInput::Absent | AskedInput::NotValid => Ok(other),
    }
}

/// The member Input of a request that asks for this input.
fn asked_input(input: &Option<SharedInput>) -> Result<AskedInput, NoMemory>
    ensures { IfOk result (λ member. member ≡ spec.asked_input input.now) }
{
    match input {
        Some(input) => match input.given() {
            GivenInput::Input(_) => Ok(AskedInput::Read(input.share()?)),
            GivenInput::InputPath(_) | GivenInput::InputTransformer(_) => Ok(AskedInput::Absent),
        },
        None => Ok(AskedInput::Absent),
    }
}

/// Its member InputPath.
fn asked_path(input: &Option<SharedInput>) -> Result<AskedInput, NoMemory>
    ensures { IfOk result (λ member. member ≡ spec.asked_path input.now) }
{
    match input {
        Some(input) => match input.given() {
            GivenInput::InputPath(_) => Ok(AskedInput::Read(input.share()?)),
            GivenInput::Input(_) | GivenInput::InputTransformer(_) => Ok(AskedInput::Absent),
        },
        None => Ok(AskedInput::Absent),
    }
}

/// Its member InputTransformer.
fn asked_transformer(input: &Option<SharedInput>) -> Result<AskedInput, NoMemory>
    ensures { IfOk result (λ member. member ≡ spec.asked_transformer input.now) }
{
    match input {
        Some(input) => match input.given() {
            GivenInput::InputTransformer(_) => Ok(AskedInput::Read(input.share()?)),
            GivenInput::Input(_) | GivenInput::InputPath(_) => Ok(AskedInput::Absent),
        },
        None => Ok(AskedInput::Absent),
    }
}

fn asked_retry(retry: &Option<RetryPolicy>) -> Option<AskedRetry>
    ensures { result ≡ option_map spec.asked_retry retry.now }
{
    match retry {
        Some(policy) => Some(AskedRetry {
            attempts: Some(policy.attempts),
            age: Some(policy.age),
        }),
        None => None,
    }
}

fn put_retry(retry: &Option<AskedRetry>) -> Option<RetryPolicy>
    ensures { result ≡ option_map spec.put_retry retry.now }
{
    match retry {
        Some(retry) => Some(RetryPolicy {
            attempts: retry.attempts.unwrap_or(MOST_ATTEMPTS),
            age: retry.age.unwrap_or(GREATEST_AGE),
        }),
        None => None,
    }
}

/// A copy of the text, if there is one, in memory of its own.
pub fn copy_optional(alloc: Global, text: &Option<Text>) -> Result<Option<Text>, NoMemory>
    ensures { IfOk result (λ copy. copy ≡ text.now) }
{
    match text {
        Some(text) => Ok(Some(text.copy(alloc)?)),
        None => Ok(None),
    }
}
