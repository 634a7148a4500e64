//! What each request changes, and its reply.
ghost use Rattle.std.specs.Prelude.{◌≡◌, ℕ, List, IfOk, IfSome};
ghost use Rattle.std.specs.Option.{option_copied};
ghost use Rattle.json_text.specs.Moment.{IsMoment};
ghost use Rattle.rule_table.specs.RuleSet.{RuleSet};
ghost use Rattle.router_requests.specs.Request.{IsOneTurn, IsEntitled};
ghost use Rattle.router_requests.specs.View.{action_of, request_of};
ghost use Rattle.router_core.specs.Tables.{moment_at};
ghost use Rattle.router_core.specs.Ready.{IsReadyFor};
ghost use Rattle.router_requests.specs.Bounds.{IsBounded};
ghost use Rattle.router_calls.specs.Answer.{IsAnswer};
ghost use Rattle.resource_calls.specs.Decided.{decided_of, CanBeMade};
ghost use Rattle.router_calls.specs.View.{answer_of};
ghost use Rattle.router_calls.specs.Matched.{IsMatchedOn};
ghost use Rattle.router_calls.specs.Steps.{HaveAccounts, IsDecidedAs, IsSeenOn};

use crate::decided::batched;
use crate::delete_rule::delete_rule;
use crate::put_events::put_events;
use crate::put_permission::{put_policy, put_statement};
use crate::put_rule::put_rule;
use crate::put_rule_state::put_rule_state;
use crate::put_targets::put_targets;
use crate::remove_permission::{remove_policy, remove_statement};
use crate::remove_targets::remove_targets;
use crate::test_event_pattern::test_event_pattern;
use call_replies::{duty_counts, peek_messages};
use config_views::{
    describe_archive, describe_event_bus, describe_replay, describe_rule, list_archives,
    list_event_buses, list_replays, list_rule_names_by_target, list_rules, list_targets_by_rule,
};
use json_text::{NoMemory, Text};
use resource_calls::{
    Decided, cancel_replay, create_archive, create_event_bus, create_queue, delete_archive,
    delete_event_bus, delete_messages, delete_queue, read_tables, shown, start_replay,
    update_archive,
};
use router_core::{Ready, Reply, Tables};
use router_requests::{Action, Request, Seen};
use std::alloc::Global;

/// Decides a request at the moment of its turn (seconds since 1970-01-01T00:00:00Z): the batch that it writes, if any, and its reply.
/// The tables are only read. What matching found of the request moves into the batch. DeliverDue and StepReplays are not decided here:
/// each of their steps is a turn of its own.
pub fn decide(
    alloc: Global,
    tables: &Tables,
    request: &Request,
    moment: u64,
    mut seen: Seen,
) -> Result<(Option<Ready>, Reply), NoMemory>
    requires reading { IsMoment request.now.reading }
    requires at { moment ≡ moment_at tables.now request.now.reading }
    requires bounded { IsBounded (action_of request.now.action) }
    requires entitled { IsEntitled (request_of request.now) }
    requires one_turn { IsOneTurn (action_of request.now.action) }
    requires matched { (set : RuleSet) × IsMatchedOn tables.now (request_of request.now) set seen }
    ensures answer { IfOk result (λ p. (set : RuleSet) → IsMatchedOn tables.now (request_of request.now) set seen
        → IsAnswer tables.now (request_of request.now) seen.k set (answer_of p)) }
    ensures ready { IfOk result (λ p. IfSome p.0 (λ r. IsReadyFor tables.now r)) }
{
    read_tables(tables);
    let decided = answer(alloc, tables, &request.action, moment, &mut seen)?;
    batched(alloc, tables, moment, decided)
}

/// The operations that the action writes at this moment, if any, and the reply. What was found of the entries of a PutEvents is taken
/// out of `seen`.
fn answer(
    alloc: Global,
    tables: &Tables,
    action: &Action,
    moment: u64,
    seen: &mut Seen,
) -> Result<Decided, NoMemory>
    requires moment { IsMoment moment }
    requires bounded { IsBounded (action_of action.now) }
    requires accounts { HaveAccounts (action_of action.now) }
    requires one_turn { IsOneTurn (action_of action.now) }
    requires seen { (set : RuleSet) × (caller : List ℕ) × IsSeenOn tables.now set caller (action_of action.now) seen.old }
    ensures answer { IfOk result (λ d. IsDecidedAs tables.now moment seen.old (action_of action.now) (decided_of d)) }
    ensures made { IfOk result (λ d. CanBeMade tables.now moment d) }
{
    match action {
        Action::CreateEventBus { name } => create_event_bus(alloc, tables, moment, name),
        Action::DeleteEventBus { name } => delete_event_bus(alloc, tables, moment, name),
        Action::PutRule {
            bus,
            name,
            pattern,
            enabled,
        } => put_rule(alloc, tables, moment, bus, name, pattern, *enabled),
        Action::DeleteRule { bus, name } => delete_rule(alloc, tables, moment, bus, name),
        Action::PutRuleState { bus, name, enabled } => {
            put_rule_state(alloc, tables, moment, bus, name, *enabled)
        }
        Action::PutTargets { bus, rule, targets } => {
            put_targets(alloc, tables, moment, bus, rule, targets)
        }
        Action::RemoveTargets { bus, rule, ids } => {
            remove_targets(alloc, tables, moment, bus, rule, ids)
        }
        Action::PutPolicy { bus, policy } => put_policy(alloc, tables, moment, bus, policy),
        Action::PutStatement { bus, sid, account } => {
            put_statement(alloc, tables, moment, bus, sid, account)
        }
        Action::RemovePolicy { bus } => remove_policy(alloc, tables, moment, bus),
        Action::RemoveStatement { bus, sid } => remove_statement(alloc, tables, moment, bus, sid),
        Action::PutEvents { entries, size } => {
            put_events(alloc, tables, entries, *size, moment, seen)
        }
        Action::CreateArchive {
            name,
            bus,
            pattern,
            days,
        } => create_archive(alloc, tables, moment, name, bus, pattern, *days),
        Action::UpdateArchive {
            name,
            pattern,
            days,
        } => update_archive(alloc, tables, moment, name, pattern, *days),
        Action::DeleteArchive { name } => delete_archive(alloc, tables, moment, name),
        Action::DescribeArchive { name } => Ok(shown(
            alloc,
            describe_archive(
                alloc,
                tables.set(),
                tables.archives(),
                name.as_str(),
                moment,
            )?,
        )),
        Action::ListArchives {
            prefix,
            source,
            state,
        } => Ok(shown(
            alloc,
            list_archives(
                alloc,
                tables.set(),
                tables.archives(),
                text_in(prefix),
                text_in(source),
                text_in(state),
                moment,
            )?,
        )),
        Action::StartReplay { start, bus } => start_replay(alloc, tables, moment, start, bus),
        Action::CancelReplay { name } => cancel_replay(alloc, tables, moment, name),
        Action::DescribeReplay { name } => Ok(shown(
            alloc,
            describe_replay(alloc, tables.replays(), name.as_str())?,
        )),
        Action::ListReplays {
            prefix,
            source,
            state,
        } => Ok(shown(
            alloc,
            list_replays(
                alloc,
                tables.replays(),
                text_in(prefix),
                text_in(source),
                text_in(state),
            )?,
        )),
        Action::CreateQueue { name } => create_queue(alloc, tables, moment, name),
        Action::DeleteQueue { name } => delete_queue(alloc, tables, moment, name),
        Action::PeekMessages { queue, limit } => Ok(shown(
            alloc,
            peek_messages(alloc, tables.set(), tables.duties(), queue.as_str(), *limit)?,
        )),
        Action::DeleteMessages { queue, through } => {
            delete_messages(alloc, tables, moment, queue, *through)
        }
        Action::DutyCounts => Ok(shown(alloc, duty_counts(alloc, tables.duties())?)),
        Action::TestEventPattern { .. } => test_event_pattern(alloc, &seen.result),
        Action::DeliverDue { .. } | Action::StepReplays { .. } => unreachable!(),
        Action::DescribeEventBus { name } => {
            Ok(shown(
                alloc,
                describe_event_bus(alloc, tables.set(), name.as_str())?,
            ))
        }
        Action::ListEventBuses { prefix } => {
            Ok(shown(
                alloc,
                list_event_buses(alloc, tables.set(), text_in(prefix))?,
            ))
        }
        Action::DescribeRule { bus, name } => Ok(shown(
            alloc,
            describe_rule(alloc, tables.set(), bus.as_str(), name.as_str())?,
        )),
        Action::ListRules { bus, prefix } => Ok(shown(
            alloc,
            list_rules(alloc, tables.set(), bus.as_str(), text_in(prefix))?,
        )),
        Action::ListTargetsByRule { bus, rule } => Ok(shown(
            alloc,
            list_targets_by_rule(alloc, tables.set(), bus.as_str(), rule.as_str())?,
        )),
        Action::ListRuleNamesByTarget { arn, bus } => Ok(shown(
            alloc,
            list_rule_names_by_target(alloc, tables.set(), arn.as_str(), bus.as_str())?,
        )),
    }
}

fn text_in(text: &Option<Text>) -> Option<&str>
    ensures { option_copied result ≡ text.now }
{
    match text {
        Some(text) => Some(text.as_str()),
        None => None,
    }
}
