//! Which values are valid for a member.
ghost use Rattle.std.specs.Prelude.{◌≡◌, ◌↔◌, ◌&&◌, nat_le, None, Some, IsTrue, IfOk, MatchOption, codes, length};
ghost use Rattle.std.specs.List.{list_all};
ghost use Rattle.std.specs.Option.{option_copied};
ghost use Rattle.json_text.specs.Tree.{members_of};
ghost use Rattle.json_text.specs.View.{tree_of, trees_of, pairs_of};
ghost use Rattle.json_text.specs.Access.{IsTextThat};
ghost use Rattle.event_shape.specs.Names.{IsArchiveName, IsBusName, IsQueueName, IsShortName};
ghost use Rattle.bus_policy.specs.StatementId.{IsStatementId};
ghost use Rattle.rule_targets.specs.Checks.{IsTargetArn};
ghost use Rattle.api_members.specs.Given.{text_given, text_of};
ghost use Rattle.api_members.specs.Entry.{is_entry};
ghost use Rattle.api_members.specs.Target.{is_target};
ghost use Rattle.api_members.specs.Value as spec;

use crate::entry::is_entry;
use crate::members::{list_in, text_given, text_of};
use crate::target::is_target;
use api_replies::Member;
use bus_policy::is_statement_id;
use event_arns::bus_of_arn;
use event_shape::{
    DEFAULT_BUS, bus_of, is_account, is_archive_name, is_bus_name, is_queue_name, is_rule_name,
    is_target_id,
};
use json_text::{Json, NoMemory, Text};
use std::alloc::Global;

pub(crate) fn is_queue(value: &Json) -> bool
    ensures { IsTrue result ↔ IsTextThat IsQueueName (tree_of value.now) }
{
    match value {
        Json::Str(text) => is_queue_name(text.as_str()),
        Json::Null | Json::Truth(_) | Json::Num(_) | Json::List(_) | Json::Obj(_) => false,
    }
}

pub(crate) fn is_rule(value: &Json) -> bool
    ensures { IsTrue result ↔ IsTextThat IsShortName (tree_of value.now) }
{
    match value {
        Json::Str(text) => is_rule_name(text.as_str()),
        Json::Null | Json::Truth(_) | Json::Num(_) | Json::List(_) | Json::Obj(_) => false,
    }
}

/// Whether the value is the name of a bus; an ARN is none.
pub(crate) fn is_named_bus(value: &Json) -> bool
    ensures { IsTrue result ↔ IsTextThat IsBusName (tree_of value.now) }
{
    match value {
        Json::Str(text) => is_bus_name(text.as_str()),
        Json::Null | Json::Truth(_) | Json::Num(_) | Json::List(_) | Json::Obj(_) => false,
    }
}

pub(crate) fn is_bus(value: &Json) -> bool
    ensures { IsTrue result ↔ IsTextThat spec.GivesBus (tree_of value.now) }
{
    match value {
        Json::Str(text) => gives_bus(text.as_str()),
        Json::Null | Json::Truth(_) | Json::Num(_) | Json::List(_) | Json::Obj(_) => false,
    }
}

fn gives_bus(text: &str) -> bool
    ensures { IsTrue result ↔ spec.GivesBus text.now }
{
    match bus_of(text) {
        Some(_) => true,
        None => false,
    }
}

/// The name of the bus that the member gives as a name or as an ARN, or `default` if it gives none.
pub fn bus_given(alloc: Global, members: &[(Text, Json)], member: Member) -> Result<Text, NoMemory>
    ensures { IfOk result (λ bus. bus ≡ spec.bus_or_default (text_given member (members_of (pairs_of members.now)))) }
{
    Text::from_str(alloc, bus_name(text_given(members, member)))
}

fn bus_name(text: Option<&str>) -> &str
    ensures { result.now ≡ spec.bus_or_default (option_copied text.entry) }
{
    match text {
        Some(text) => match bus_of(text) {
            Some(bus) => bus,
            None => DEFAULT_BUS,
        },
        None => DEFAULT_BUS,
    }
}

/// Whether the value is the ARN of a bus; a name is none.
pub(crate) fn is_arn_of_bus(value: &Json) -> bool
    ensures { IsTrue result ↔ IsTextThat spec.GivesBusArn (tree_of value.now) }
{
    match value {
        Json::Str(text) => gives_bus_arn(text.as_str()),
        Json::Null | Json::Truth(_) | Json::Num(_) | Json::List(_) | Json::Obj(_) => false,
    }
}

fn gives_bus_arn(text: &str) -> bool
    ensures { IsTrue result ↔ spec.GivesBusArn text.now }
{
    bus_in_arn(text).is_some()
}

/// The name of the bus whose ARN the text is.
pub(crate) fn bus_in_arn(text: &str) -> Option<&str>
    ensures { MatchOption result (spec.bus_of_source text.now ≡ None) (λ bus. spec.bus_of_source text.now ≡ Some bus.now) }
{
    bus_of_arn(text)
}

/// The name of the bus whose ARN the member gives.
pub fn bus_of_source(members: &[(Text, Json)], member: Member) -> Option<&str>
    ensures { MatchOption result
        (spec.bus_of_source (text_of member (members_of (pairs_of members.now))) ≡ None)
        (λ bus. spec.bus_of_source (text_of member (members_of (pairs_of members.now))) ≡ Some bus.now) }
{
    bus_in_arn(text_of(members, member))
}

pub(crate) fn is_archive(value: &Json) -> bool
    ensures { IsTrue result ↔ IsTextThat IsArchiveName (tree_of value.now) }
{
    match value {
        Json::Str(text) => is_archive_name(text.as_str()),
        Json::Null | Json::Truth(_) | Json::Num(_) | Json::List(_) | Json::Obj(_) => false,
    }
}

/// Whether the value is the ARN of a queue, or an endpoint.
pub(crate) fn is_target_arn(alloc: Global, value: &Json) -> Result<bool, NoMemory>
    ensures { IfOk result (λ b. IsTrue b ↔ IsTextThat IsTargetArn (tree_of value.now)) }
{
    match value {
        Json::Str(text) => rule_targets::is_target_arn(alloc, text.as_str()),
        Json::Null | Json::Truth(_) | Json::Num(_) | Json::List(_) | Json::Obj(_) => Ok(false),
    }
}

/// Whether the value has the syntax of a StatementId.
pub(crate) fn is_sid(value: &Json) -> bool
    ensures { IsTrue result ↔ IsTextThat IsStatementId (tree_of value.now) }
{
    match value {
        Json::Str(text) => is_statement_id(text.as_str()),
        Json::Null | Json::Truth(_) | Json::Num(_) | Json::List(_) | Json::Obj(_) => false,
    }
}

pub(crate) fn is_put_events(value: &Json) -> bool
    ensures { IsTrue result ↔ IsTextThat (λ t. t ≡ codes "events:PutEvents") (tree_of value.now) }
{
    match value {
        Json::Str(text) => text.as_str() == "events:PutEvents",
        Json::Null | Json::Truth(_) | Json::Num(_) | Json::List(_) | Json::Obj(_) => false,
    }
}

pub(crate) fn is_principal(value: &Json) -> bool
    ensures { IsTrue result ↔ IsTextThat spec.IsGrantee (tree_of value.now) }
{
    match value {
        Json::Str(text) => is_grantee(text.as_str()),
        Json::Null | Json::Truth(_) | Json::Num(_) | Json::List(_) | Json::Obj(_) => false,
    }
}

fn is_grantee(text: &str) -> bool
    ensures { IsTrue result ↔ spec.IsGrantee text.now }
{
    text == "*" || is_account(text)
}

pub(crate) fn is_truth(value: &Json) -> bool
    ensures { result ≡ spec.is_truth (tree_of value.now) }
{
    match value {
        Json::Truth(_) => true,
        Json::Null | Json::Num(_) | Json::Str(_) | Json::List(_) | Json::Obj(_) => false,
    }
}

pub(crate) fn is_state(value: &Json) -> bool
    ensures { IsTrue result ↔ IsTextThat spec.IsState (tree_of value.now) }
{
    match value {
        Json::Str(text) => is_state_name(text.as_str()),
        Json::Null | Json::Truth(_) | Json::Num(_) | Json::List(_) | Json::Obj(_) => false,
    }
}

fn is_state_name(text: &str) -> bool
    ensures { IsTrue result ↔ spec.IsState text.now }
{
    text == "ENABLED" || text == "DISABLED"
}

pub(crate) fn is_archive_state(value: &Json) -> bool
    ensures { IsTrue result ↔ IsTextThat (λ t. IsTrue (spec.is_archive_state t)) (tree_of value.now) }
{
    match value {
        Json::Str(text) => is_archive_state_name(text.as_str()),
        Json::Null | Json::Truth(_) | Json::Num(_) | Json::List(_) | Json::Obj(_) => false,
    }
}

fn is_archive_state_name(text: &str) -> bool
    ensures { result ≡ spec.is_archive_state text.now }
{
    is_lasting_state(text) || is_passing_state(text)
}

fn is_lasting_state(text: &str) -> bool
    ensures { result ≡ spec.is_lasting_state text.now }
{
    text == "ENABLED" || text == "DISABLED" || text == "CREATE_FAILED" || text == "UPDATE_FAILED"
}

fn is_passing_state(text: &str) -> bool
    ensures { result ≡ spec.is_passing_state text.now }
{
    text == "CREATING" || text == "UPDATING"
}

/// Whether the value is a list of 1 to 10 entries.
pub(crate) fn are_entries(value: &Json) -> bool
    ensures { result ≡ spec.is_list_of is_entry 10 (tree_of value.now) }
{
    match list_in(value) {
        Some(values) => is_few(values, 10) && all_entries(values),
        None => false,
    }
}

/// Whether there are 1 to `most` values.
fn is_few(values: &[Json], most: usize) -> bool
    ensures { result ≡ nat_le 1 (length (trees_of values.now)) && nat_le (length (trees_of values.now)) most }
{
    1 <= values.len() && values.len() <= most
}

fn all_entries(values: &[Json]) -> bool
    ensures { result ≡ list_all is_entry (trees_of values.now) }
{
    for value in values {
        if !is_entry(value) {
            return false;
        }
    }
    true
}

/// Whether the value is a list of 1 to 100 targets.
pub(crate) fn are_targets(value: &Json) -> bool
    ensures { result ≡ spec.is_list_of is_target 100 (tree_of value.now) }
{
    match list_in(value) {
        Some(values) => is_few(values, 100) && all_targets(values),
        None => false,
    }
}

fn all_targets(values: &[Json]) -> bool
    ensures { result ≡ list_all is_target (trees_of values.now) }
{
    for value in values {
        if !is_target(value) {
            return false;
        }
    }
    true
}

/// Whether the value is a list of 1 to 100 ids of targets.
pub(crate) fn are_ids(value: &Json) -> bool
    ensures { result ≡ spec.is_list_of spec.is_id 100 (tree_of value.now) }
{
    match list_in(value) {
        Some(values) => is_few(values, 100) && all_ids(values),
        None => false,
    }
}

fn all_ids(values: &[Json]) -> bool
    ensures { result ≡ list_all spec.is_id (trees_of values.now) }
{
    for value in values {
        if !is_id(value) {
            return false;
        }
    }
    true
}

fn is_id(value: &Json) -> bool
    ensures { result ≡ spec.is_id (tree_of value.now) }
{
    match value {
        Json::Str(text) => is_target_id(text.as_str()),
        Json::Null | Json::Truth(_) | Json::Num(_) | Json::List(_) | Json::Obj(_) => false,
    }
}
