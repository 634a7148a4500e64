//! The first refusal of a request's members.
ghost use Rattle.std.specs.Prelude.{◌≡◌, IsTrue, MatchResult};
ghost use Rattle.json_text.specs.Tree.{members_of};
ghost use Rattle.json_text.specs.View.{tree_of, pairs_of};
ghost use Rattle.api_members.specs.Fault.{IsCallFault};
ghost use Rattle.api_members.specs.Value.{IsValid, IsPattern, GivesPolicy};
ghost use Rattle.json_text.specs.Checks.{else_fault};
ghost use Rattle.api_members.specs.Refusal.{IsPatternRefusal, IsPolicyRefusal, IsValueRefused, IsSoundMember, asked_check, AreSound, IsFirstRefusal, RefusedFor, IsPolicyFault};
ghost use Rattle.api_members.specs.Event.{GivesEvent};

use crate::asked::{Asked, Syntax};
use crate::count::count_of;
use crate::event::read_event;
use crate::fault::CallFault;
use crate::json_type::is_text;
use crate::members::given;
use crate::replay::{is_arn_of_archive, is_destination, is_replay, is_replay_state, is_time};
use crate::value::{
    are_entries, are_ids, are_targets, is_archive, is_archive_state, is_arn_of_bus, is_bus,
    is_named_bus, is_principal, is_put_events, is_queue, is_rule, is_sid, is_state, is_target_arn,
    is_truth,
};
use crate::why::{policy_why_name, why_name};
use api_replies::{Cause, Member};
use bus_policy::{Policy, PolicyCause, PolicyFault};
use json_text::{Json, NoMemory, Text};
use pattern_read::{PatternFault, read_pattern};
use std::alloc::Global;

/// Checks the members against what is asked, in this order, and returns the first refusal. Members that are not asked are
/// ignored.
pub fn check_members(
    alloc: Global,
    asked: &[Asked],
    members: &[(Text, Json)],
) -> Result<(), CallFault>
    ensures { MatchResult result
        (λ _. AreSound asked.now (members_of (pairs_of members.now)))
        (RefusedFor (IsFirstRefusal asked.now (members_of (pairs_of members.now)))) }
{
    for one in asked {
        check_member(alloc, *one, members)?;
    }
    Ok(())
}

fn check_member(alloc: Global, asked: Asked, members: &[(Text, Json)]) -> Result<(), CallFault>
    ensures { MatchResult result
        (λ _. IsSoundMember asked (members_of (pairs_of members.now)))
        (RefusedFor (asked_check (members_of (pairs_of members.now)) asked).refuses) }
{
    match asked {
        Asked::Required(member, syntax) => match given(members, member) {
            Some(value) => check_value(alloc, member, syntax, value),
            None => Err(CallFault::Refused(Cause::Required(member))),
        },
        Asked::Optional(member, syntax) => match given(members, member) {
            Some(value) => check_value(alloc, member, syntax, value),
            None => Ok(()),
        },
    }
}

fn check_value(alloc: Global, member: Member, syntax: Syntax, value: &Json) -> Result<(), CallFault>
    ensures { MatchResult result
        (λ _. IsValid syntax (tree_of value.now))
        (RefusedFor (IsValueRefused syntax member (tree_of value.now))) }
{
    match syntax {
        Syntax::QueueName => valid_if(is_queue(value), member),
        Syntax::RuleName => valid_if(is_rule(value), member),
        Syntax::BusName => valid_if(is_named_bus(value), member),
        Syntax::Bus => valid_if(is_bus(value), member),
        Syntax::BusArn => valid_if(is_arn_of_bus(value), member),
        Syntax::ArchiveName => valid_if(is_archive(value), member),
        Syntax::ArchiveArn => valid_if(is_arn_of_archive(value), member),
        Syntax::ReplayName => valid_if(is_replay(value), member),
        Syntax::AnyText => valid_if(is_text(value), member),
        Syntax::TargetArn => valid_if(is_target_arn(alloc, value)?, member),
        Syntax::Pattern => check_pattern(alloc, member, value),
        Syntax::Event => check_event(alloc, member, value),
        Syntax::State => valid_if(is_state(value), member),
        Syntax::ArchiveState => valid_if(is_archive_state(value), member),
        Syntax::ReplayState => valid_if(is_replay_state(value), member),
        Syntax::Time => valid_if(is_time(value), member),
        Syntax::Destination => valid_if(is_destination(value), member),
        Syntax::Count { least, most } => {
            valid_if(count_of(value, least, most).is_some(), member)
        }
        Syntax::Entries => valid_if(are_entries(value), member),
        Syntax::Targets => valid_if(are_targets(value), member),
        Syntax::Ids => valid_if(are_ids(value), member),
        Syntax::Policy => check_policy(alloc, member, value),
        Syntax::StatementId => valid_if(is_sid(value), member),
        Syntax::PutEventsAction => valid_if(is_put_events(value), member),
        Syntax::Principal => valid_if(is_principal(value), member),
        Syntax::Truth => valid_if(is_truth(value), member),
        Syntax::Unserved => valid_if(false, member),
    }
}

fn valid_if(valid: bool, member: Member) -> Result<(), CallFault>
    ensures { MatchResult result
        (λ _. IsTrue valid)
        (λ fault. (fault ≡ CallFault.Refused (Cause.NotValid member)) × (¬ IsTrue valid)) }
{
    if valid {
        Ok(())
    } else {
        Err(CallFault::Refused(Cause::NotValid(member)))
    }
}

fn check_pattern(alloc: Global, member: Member, value: &Json) -> Result<(), CallFault>
    ensures { MatchResult result
        (λ _. IsValid Syntax.Pattern (tree_of value.now))
        (RefusedFor (IsValueRefused Syntax.Pattern member (tree_of value.now))) }
{
    match value {
        Json::Str(text) => check_pattern_text(alloc, text.as_str()),
        Json::Null | Json::Truth(_) | Json::Num(_) | Json::List(_) | Json::Obj(_) => {
            Err(CallFault::Refused(Cause::NotValid(member)))
        }
    }
}

/// Checks the pattern. The value that is read is dropped: it is read again once all members are sound.
fn check_pattern_text(alloc: Global, text: &str) -> Result<(), CallFault>
    ensures { MatchResult result (λ _. IsPattern text.now) (RefusedFor (IsPatternRefusal text.now)) }
{
    match read_pattern(alloc, text.as_bytes()) {
        Ok(_pattern) => Ok(()),
        Err(fault) => Err(pattern_fault(alloc, fault)),
    }
}

fn check_event(alloc: Global, member: Member, value: &Json) -> Result<(), CallFault>
    ensures { MatchResult result
        (λ _. IsValid Syntax.Event (tree_of value.now))
        (RefusedFor (IsValueRefused Syntax.Event member (tree_of value.now))) }
{
    match value {
        Json::Str(text) => check_event_text(alloc, member, text.as_str()),
        Json::Null | Json::Truth(_) | Json::Num(_) | Json::List(_) | Json::Obj(_) => {
            Err(CallFault::Refused(Cause::NotValid(member)))
        }
    }
}

/// Checks the event. The value that is read is dropped, as that of a pattern.
fn check_event_text(alloc: Global, member: Member, text: &str) -> Result<(), CallFault>
    ensures { MatchResult result (λ _. GivesEvent text.now) (RefusedFor (else_fault (GivesEvent text.now) (Cause.NotValid member)).refuses) }
{
    match read_event(alloc, text) {
        Ok(Some(_event)) => Ok(()),
        Ok(None) => Err(CallFault::Refused(Cause::NotValid(member))),
        Err(NoMemory) => Err(CallFault::NoMemory),
    }
}

fn pattern_fault(alloc: Global, fault: PatternFault) -> CallFault
    ensures { IsCallFault fault result }
{
    match fault {
        PatternFault::Refused { why, path } => match Text::from_str(alloc, why_name(why)) {
            Ok(why) => CallFault::Refused(Cause::NotAPattern { why, path }),
            Err(NoMemory) => CallFault::NoMemory,
        },
        PatternFault::NoMemory => CallFault::NoMemory,
    }
}

fn check_policy(alloc: Global, member: Member, value: &Json) -> Result<(), CallFault>
    ensures { MatchResult result
        (λ _. IsValid Syntax.Policy (tree_of value.now))
        (RefusedFor (IsValueRefused Syntax.Policy member (tree_of value.now))) }
{
    match value {
        Json::Str(text) => check_policy_text(alloc, text.as_str()),
        Json::Null | Json::Truth(_) | Json::Num(_) | Json::List(_) | Json::Obj(_) => {
            Err(CallFault::Refused(Cause::NotValid(member)))
        }
    }
}

/// Checks the policy. The value that is read is dropped, as that of a pattern.
fn check_policy_text(alloc: Global, text: &str) -> Result<(), CallFault>
    ensures { MatchResult result (λ _. GivesPolicy text.now) (RefusedFor (IsPolicyRefusal text.now)) }
{
    match Policy::read(alloc, text.as_bytes()) {
        Ok(_policy) => Ok(()),
        Err(fault) => Err(policy_fault(alloc, fault)),
    }
}

fn policy_fault(alloc: Global, fault: PolicyFault) -> CallFault
    ensures { IsPolicyFault fault result }
{
    match fault {
        PolicyFault::Bad { cause, place } => refused_policy(alloc, cause, place),
        PolicyFault::NoMemory => CallFault::NoMemory,
    }
}

fn refused_policy(alloc: Global, cause: PolicyCause, place: usize) -> CallFault
    ensures { IsPolicyFault (PolicyFault.Bad cause place) result }
{
    match cause {
        PolicyCause::TooLong => CallFault::Refused(Cause::PolicyTooLong),
        why => match Text::from_str(alloc, policy_why_name(why)) {
            Ok(why) => CallFault::Refused(Cause::NotAPolicy {
                why,
                place: place as u64,
            }),
            Err(NoMemory) => CallFault::NoMemory,
        },
    }
}
