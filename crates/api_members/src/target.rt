//! The targets of a PutTargets.
ghost use Rattle.std.specs.Prelude.{◌≡◌, [], codes, IfOk, unwrap_or, option_and_then};
ghost use Rattle.json_text.specs.Tree.{members_of, no_members};
ghost use Rattle.json_text.specs.Access.{text_in};
ghost use Rattle.json_text.specs.View.{tree_of, pairs_of};
ghost use Rattle.rule_targets.specs.Target.{IsAskedAs};
ghost use Rattle.api_members.specs.Given.{value_at, object_in};
ghost use Rattle.api_members.specs.JsonType.{may_pass};
ghost use Rattle.api_members.specs.Target as spec;

use crate::count::count_of;
use crate::entry::read_text;
use crate::json_type::{JsonType, may_be, must_be};
use crate::members::{given, members_in, object_in, value_at};
use api_replies::Member;
use json_text::{Json, NoMemory, Text};
use rule_targets::{AskedInput, GivenInput, Transformer};
use std::alloc::Global;

/// Whether the value is an object with an Id and an Arn, whose members have their types.
pub(crate) fn is_target(value: &Json) -> bool
    ensures { result ≡ spec.is_target (tree_of value.now) }
{
    match object_in(value) {
        Some(members) => are_target_members(members),
        None => false,
    }
}

fn are_target_members(members: &[(Text, Json)]) -> bool
    ensures { result ≡ spec.are_target_members (members_of (pairs_of members.now)) }
{
    must_be(members, "Id", JsonType::Text)
        && must_be(members, "Arn", JsonType::Text)
        && may_be(members, "Input", JsonType::Text)
        && may_be(members, "InputPath", JsonType::Text)
        && may_be_transformer(members)
        && may_be_retry_policy(members)
        && may_be_dead_letter_config(members)
}

fn may_be_transformer(members: &[(Text, Json)]) -> bool
    ensures { result ≡ may_pass spec.is_transformer (value_at (codes "InputTransformer") (members_of (pairs_of members.now))) }
{
    match value_at(members, "InputTransformer") {
        Some(value) => is_transformer(value),
        None => true,
    }
}

fn is_transformer(value: &Json) -> bool
    ensures { result ≡ spec.is_transformer (tree_of value.now) }
{
    match object_in(value) {
        Some(members) => {
            may_be(members, "InputPathsMap", JsonType::TextMap)
                && must_be(members, "InputTemplate", JsonType::Text)
        }
        None => false,
    }
}

fn may_be_retry_policy(members: &[(Text, Json)]) -> bool
    ensures { result ≡ may_pass spec.is_retry_policy (value_at (codes "RetryPolicy") (members_of (pairs_of members.now))) }
{
    match value_at(members, "RetryPolicy") {
        Some(value) => is_retry_policy(value),
        None => true,
    }
}

fn is_retry_policy(value: &Json) -> bool
    ensures { result ≡ spec.is_retry_policy (tree_of value.now) }
{
    match object_in(value) {
        Some(members) => {
            may_be(members, "MaximumRetryAttempts", JsonType::Number)
                && may_be(members, "MaximumEventAgeInSeconds", JsonType::Number)
        }
        None => false,
    }
}

fn may_be_dead_letter_config(members: &[(Text, Json)]) -> bool
    ensures { result ≡ may_pass spec.is_dead_letter_config (value_at (codes "DeadLetterConfig") (members_of (pairs_of members.now))) }
{
    match value_at(members, "DeadLetterConfig") {
        Some(value) => is_dead_letter_config(value),
        None => true,
    }
}

fn is_dead_letter_config(value: &Json) -> bool
    ensures { result ≡ spec.is_dead_letter_config (tree_of value.now) }
{
    match object_in(value) {
        Some(members) => may_be(members, "Arn", JsonType::Text),
        None => false,
    }
}

/// The number of retries that a policy allows if it does not say it.
const DEFAULT_ATTEMPTS: u16 = 185;

/// The age in seconds up to which a policy allows attempts if it does not say it.
const DEFAULT_AGE: u32 = 86_400;

/// `MaximumRetryAttempts` of the policy with these members. `None` if it is no whole number that fits.
pub fn attempts_given(policy: &[(Text, Json)]) -> Option<u16>
    ensures { result ≡ spec.attempts_given (members_of (pairs_of policy.now)) }
{
    match value_at(policy, "MaximumRetryAttempts") {
        Some(value) => match count_of(value, 0, u64::from(u16::MAX)) {
            Some(attempts) => Some(attempts as u16),
            None => None,
        },
        None => Some(DEFAULT_ATTEMPTS),
    }
}

/// `MaximumEventAgeInSeconds` of the policy with these members. `None` if it is no whole number that fits.
pub fn age_given(policy: &[(Text, Json)]) -> Option<u32>
    ensures { result ≡ spec.age_given (members_of (pairs_of policy.now)) }
{
    match value_at(policy, "MaximumEventAgeInSeconds") {
        Some(value) => match count_of(value, 0, u64::from(u32::MAX)) {
            Some(age) => Some(age as u32),
            None => None,
        },
        None => Some(DEFAULT_AGE),
    }
}

/// The Arn of a target's DeadLetterConfig, in memory of its own. `None` if it gives none.
pub fn read_dead_letter(alloc: Global, members: &[(Text, Json)]) -> Result<Option<Text>, NoMemory>
    ensures { IfOk result (λ arn. arn ≡ spec.dead_letter_given (members_of (pairs_of members.now))) }
{
    match given(members, Member::DeadLetterConfig) {
        Some(config) => read_text(alloc, members_in(config), Member::Arn),
        None => Ok(None),
    }
}

/// The Input of a target, read, with its text in memory of its own.
pub fn read_input(alloc: Global, members: &[(Text, Json)]) -> Result<AskedInput, NoMemory>
    ensures { IfOk result (IsAskedAs (spec.input_given (members_of (pairs_of members.now)))) }
{
    match read_text(alloc, members, Member::Input)? {
        Some(text) => AskedInput::read(alloc, Some(GivenInput::Input(text))),
        None => AskedInput::read(alloc, None),
    }
}

/// Its InputPath.
pub fn read_input_path(alloc: Global, members: &[(Text, Json)]) -> Result<AskedInput, NoMemory>
    ensures { IfOk result (IsAskedAs (spec.path_given (members_of (pairs_of members.now)))) }
{
    match read_text(alloc, members, Member::InputPath)? {
        Some(text) => AskedInput::read(alloc, Some(GivenInput::InputPath(text))),
        None => AskedInput::read(alloc, None),
    }
}

/// Its InputTransformer.
pub fn read_transformer(alloc: Global, members: &[(Text, Json)]) -> Result<AskedInput, NoMemory>
    ensures { IfOk result (IsAskedAs (spec.transformer_given (members_of (pairs_of members.now)))) }
{
    match given(members, Member::InputTransformer) {
        Some(value) => {
            let transformer = transformer_with(alloc, members_in(value))?;
            AskedInput::read(alloc, Some(GivenInput::InputTransformer(transformer)))
        }
        None => AskedInput::read(alloc, None),
    }
}

fn transformer_with(alloc: Global, members: &[(Text, Json)]) -> Result<Transformer, NoMemory>
    ensures { IfOk result (λ t. t ≡ spec.transformer_with (members_of (pairs_of members.now))) }
{
    let paths = texts_under(alloc, map_at(members, "InputPathsMap"))?;
    let template = Text::from_str(alloc, text_at(members, "InputTemplate"))?;
    Ok(Transformer::new(paths, template))
}

/// The members of the object at the key; none if there is no object.
fn map_at<'m>(members: &'m [(Text, Json)], key: &str) -> &'m [(Text, Json)]
    ensures { members_of (pairs_of result.now) ≡ unwrap_or (option_and_then object_in (value_at key.now (members_of (pairs_of members.now)))) no_members }
{
    match value_at(members, key) {
        Some(value) => members_in(value),
        None => &[],
    }
}

/// The text at the key; empty if there is none.
fn text_at<'m>(members: &'m [(Text, Json)], key: &str) -> &'m str
    ensures { result.now ≡ unwrap_or (option_and_then text_in (value_at key.now (members_of (pairs_of members.now)))) [] }
{
    match value_at(members, key) {
        Some(value) => match value.as_text() {
            Some(text) => text,
            None => "",
        },
        None => "",
    }
}

/// The keys whose values are texts, with these texts, in memory of their own.
fn texts_under(alloc: Global, members: &[(Text, Json)]) -> Result<Vec<(Text, Text)>, NoMemory>
    ensures { IfOk result (λ texts. texts.items ≡ spec.texts_under (members_of (pairs_of members.now))) }
{
    let mut texts = Vec::with_capacity(alloc, members.len())?;
    for (key, value) in members {
        if let Json::Str(text) = value {
            let key = key.copy(alloc)?;
            texts.push((key, text.copy(alloc)?))?;
        }
    }
    Ok(texts)
}
