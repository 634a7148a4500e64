//! The members of a StartReplay and of a ListReplays.
ghost use Rattle.std.specs.Prelude.{◌≡◌, ◌↔◌, ℕ, None, Some, IsTrue, IfOk, MatchOption};
ghost use Rattle.std.specs.List.{list_all};
ghost use Rattle.std.specs.Option.{option_copied, option_map};
ghost use Rattle.json_text.specs.Tree.{members_of};
ghost use Rattle.json_text.specs.View.{tree_of, trees_of, pairs_of};
ghost use Rattle.json_text.specs.Access.{IsTextThat};
ghost use Rattle.event_shape.specs.Names.{IsShortName};
ghost use Rattle.api_members.specs.Given.{given, text_of};
ghost use Rattle.api_members.specs.Value as spec;

use crate::members::{given, list_in, list_or_none, members_in, text_given, text_of, value_at};
use crate::value::bus_in_arn;
use api_replies::Member;
use event_arns::{archive_of_arn, rule_of_arn};
use event_shape::{is_replay_name, read_time};
use json_text::{Json, NoMemory, Text};
use std::alloc::Global;

pub(crate) fn is_replay(value: &Json) -> bool
    ensures { IsTrue result ↔ IsTextThat IsShortName (tree_of value.now) }
{
    match value {
        Json::Str(text) => is_replay_name(text.as_str()),
        Json::Null | Json::Truth(_) | Json::Num(_) | Json::List(_) | Json::Obj(_) => false,
    }
}

/// Whether the value is the ARN of an archive; a name is none.
pub(crate) fn is_arn_of_archive(value: &Json) -> bool
    ensures { IsTrue result ↔ IsTextThat spec.GivesArchiveArn (tree_of value.now) }
{
    match value {
        Json::Str(text) => gives_archive_arn(text.as_str()),
        Json::Null | Json::Truth(_) | Json::Num(_) | Json::List(_) | Json::Obj(_) => false,
    }
}

fn gives_archive_arn(text: &str) -> bool
    ensures { IsTrue result ↔ spec.GivesArchiveArn text.now }
{
    archive_of(text).is_some()
}

/// The name of the archive whose ARN the text is.
fn archive_of(text: &str) -> Option<&str>
    ensures { MatchOption result (spec.archive_of_source text.now ≡ None) (λ archive. spec.archive_of_source text.now ≡ Some archive.now) }
{
    archive_of_arn(text)
}

/// The name of the archive whose ARN the member gives.
pub fn archive_of_source(members: &[(Text, Json)], member: Member) -> Option<&str>
    ensures { MatchOption result
        (spec.archive_of_source (text_of member (members_of (pairs_of members.now))) ≡ None)
        (λ archive. spec.archive_of_source (text_of member (members_of (pairs_of members.now))) ≡ Some archive.now) }
{
    archive_of(text_of(members, member))
}

pub(crate) fn is_replay_state(value: &Json) -> bool
    ensures { IsTrue result ↔ IsTextThat (λ t. IsTrue (spec.is_replay_state t)) (tree_of value.now) }
{
    match value {
        Json::Str(text) => is_replay_state_name(text.as_str()),
        Json::Null | Json::Truth(_) | Json::Num(_) | Json::List(_) | Json::Obj(_) => false,
    }
}

fn is_replay_state_name(text: &str) -> bool
    ensures { result ≡ spec.is_replay_state text.now }
{
    is_ended_state(text) || is_begun_state(text)
}

fn is_ended_state(text: &str) -> bool
    ensures { result ≡ spec.is_ended_state text.now }
{
    text == "COMPLETED" || text == "CANCELLED" || text == "FAILED"
}

fn is_begun_state(text: &str) -> bool
    ensures { result ≡ spec.is_begun_state text.now }
{
    text == "STARTING" || text == "RUNNING" || text == "CANCELLING"
}

/// Whether the value gives a moment.
pub(crate) fn is_time(value: &Json) -> bool
    ensures { IsTrue result ↔ spec.GivesTime (tree_of value.now) }
{
    read_time(value).is_some()
}

/// The moment that the member gives.
pub fn time_given(members: &[(Text, Json)], member: Member) -> Option<u64>
    ensures { (moment : ℕ) → (result ≡ Some moment) ↔ spec.IsTimeGiven (given member (members_of (pairs_of members.now))) moment }
{
    match given(members, member) {
        Some(value) => read_time(value),
        None => None,
    }
}

/// The name of the bus whose ARN the destination has.
pub fn destination_of(destination: &Json) -> Option<&str>
    ensures { MatchOption result
        (spec.destination_of (tree_of destination.now) ≡ None)
        (λ bus. spec.destination_of (tree_of destination.now) ≡ Some bus.now) }
{
    match text_given(members_in(destination), Member::Arn) {
        Some(arn) => bus_in_arn(arn),
        None => None,
    }
}

/// Whether the value is the destination of a replay.
pub(crate) fn is_destination(value: &Json) -> bool
    ensures { result ≡ spec.is_destination (tree_of value.now) }
{
    match destination_of(value) {
        Some(bus) => match filter_in(value) {
            Some(filter) => are_rules(filter, bus),
            None => true,
        },
        None => false,
    }
}

/// The filter of a destination, if it has one.
fn filter_in(destination: &Json) -> Option<&Json>
    ensures { option_map tree_of (option_copied result) ≡ spec.filter_in (tree_of destination.now) }
{
    value_at(members_in(destination), "FilterArns")
}

/// Whether the value is a list of ARNs of rules of the bus.
fn are_rules(value: &Json, bus: &str) -> bool
    ensures { result ≡ spec.are_rules_of bus.now (tree_of value.now) }
{
    match list_in(value) {
        Some(values) => all_rules(values, bus),
        None => false,
    }
}

fn all_rules(values: &[Json], bus: &str) -> bool
    ensures { result ≡ list_all (spec.is_rule_of bus.now) (trees_of values.now) }
{
    for value in values {
        if rule_in(value, bus).is_none() {
            return false;
        }
    }
    true
}

/// The name of the rule of the bus whose ARN the value is.
fn rule_in<'a>(value: &'a Json, bus: &str) -> Option<&'a str>
    ensures { MatchOption result
        (spec.rule_in bus.now (tree_of value.now) ≡ None)
        (λ rule. spec.rule_in bus.now (tree_of value.now) ≡ Some rule.now) }
{
    match value {
        Json::Str(text) => rule_of(text.as_str(), bus),
        Json::Null | Json::Truth(_) | Json::Num(_) | Json::List(_) | Json::Obj(_) => None,
    }
}

/// The name of the rule of the bus whose ARN the text is.
fn rule_of<'a>(text: &'a str, bus: &str) -> Option<&'a str>
    ensures { MatchOption result (spec.rule_of_source bus.now text.now ≡ None) (λ rule. spec.rule_of_source bus.now text.now ≡ Some rule.now) }
{
    rule_of_arn(text, bus)
}

/// The names of the rules of the destination's filter, in their order, if it has a filter. The destination is this bus.
pub fn filter_given(
    alloc: Global,
    destination: &Json,
    bus: &str,
) -> Result<Option<Vec<Text>>, NoMemory>
    ensures { IfOk result (λ names. option_map (λ ns. ns.items) names ≡ spec.filter_given bus.now (tree_of destination.now)) }
{
    match filter_in(destination) {
        Some(filter) => Ok(Some(rule_names(alloc, list_or_none(filter), bus)?)),
        None => Ok(None),
    }
}

/// The names of the rules of the bus whose ARNs the values are.
fn rule_names(alloc: Global, values: &[Json], bus: &str) -> Result<Vec<Text>, NoMemory>
    ensures { IfOk result (λ names. names.items ≡ spec.names_of_rules bus.now (trees_of values.now)) }
{
    let mut names = Vec::with_capacity(alloc, values.len())?;
    for value in values {
        if let Some(rule) = rule_in(value, bus) {
            names.push(Text::from_str(alloc, rule)?)?;
        }
    }
    Ok(names)
}
