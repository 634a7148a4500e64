//! StartReplay, CancelReplay, DescribeReplay and ListReplays.
ghost use Rattle.std.specs.Prelude.{◌≡◌, ◌++◌, IfOk, OnOk};
ghost use Rattle.std.specs.Option.{option_copied};
ghost use Rattle.json_text.specs.Tree.{object, members_of};
ghost use Rattle.json_text.specs.View.{tree_of, trees_of, pairs_of};
ghost use Rattle.event_shape.specs.Names as names;
ghost use Rattle.api_replies.specs.View.{reply_of};
ghost use Rattle.config_views.specs.Archives.{is_given};
ghost use Rattle.config_views.specs.Replays as spec;

use crate::archives::push_number;
use crate::parts::{has_prefix, listing, no_replay, served};
use api_replies::Reply;
use event_shape::{archive_arn, bus_arn, replay_arn, rule_arn};
use json_text::{Items, Json, Members, NoMemory, Text, push_member, push_text};
use replay_run::{ReplayRow, ReplaySettings, ReplayState, Replays, RuleNames};
use std::alloc::Global;

/// The state of a replay that was cancelled.
const CANCELLED: &str = "CANCELLED";

/// The reply to a StartReplay: the replay's ARN, its state after the start, and the moment of the start.
pub fn started_reply(alloc: Global, row: &ReplayRow) -> Result<Reply, NoMemory>
    ensures { IfOk result (λ r. reply_of r ≡ spec.started_reply row.now) }
{
    let mut members: Members = Vec::with_capacity(alloc, 3)?;
    let arn = replay_arn(alloc, row.name())?;
    push_member(alloc, &mut members, "ReplayArn", Json::Str(arn))?;
    push_text(alloc, &mut members, "State", state_of(row))?;
    push_number(
        alloc,
        &mut members,
        "ReplayStartTime",
        u128::from(row.settings.started_at),
    )?;
    Ok(served(members))
}

/// The reply to a CancelReplay: the replay's ARN, and its state after it.
pub fn cancelled_reply(alloc: Global, name: &str) -> Result<Reply, NoMemory>
    ensures { IfOk result (λ r. reply_of r ≡ spec.cancelled_reply name.now) }
{
    let mut members: Members = Vec::with_capacity(alloc, 2)?;
    let arn = replay_arn(alloc, name)?;
    push_member(alloc, &mut members, "ReplayArn", Json::Str(arn))?;
    push_text(alloc, &mut members, "State", CANCELLED)?;
    Ok(served(members))
}

/// The reply to a DescribeReplay: the replay's name, its ARN, its state, the ARN of its archive, its destination, and its times.
pub fn describe_replay(alloc: Global, replays: &Replays, name: &str) -> Result<Reply, NoMemory>
    ensures { IfOk result (λ r. reply_of r ≡ spec.described_replay name.now replays.now) }
{
    match replays.find(name) {
        Some(row) => Ok(served(replay_members(alloc, row)?)),
        None => no_replay(alloc, name),
    }
}

/// The reply to a ListReplays: the replays whose names begin with the prefix, whose archive has the source as its ARN, and whose
/// state is the given one, as far as these are given.
pub fn list_replays(
    alloc: Global,
    replays: &Replays,
    prefix: Option<&str>,
    source: Option<&str>,
    state: Option<&str>,
) -> Result<Reply, NoMemory>
    ensures { IfOk result (λ r. reply_of r ≡ spec.listed_replays (option_copied prefix.entry) (option_copied source.entry) (option_copied state.entry)
        replays.now) }
{
    let mut items: Items = Vec::new(alloc);
    let mut names = replays.names();
    while let Some(named) = names.next() {
        push_named(
            alloc,
            &mut items,
            replays.find(named.name.as_str()),
            prefix,
            source,
            state,
        )?;
    }
    listing(alloc, "Replays", items)
}

/// Appends the item of the replay, if it is there and the list shows it.
fn push_named(
    alloc: Global,
    items: &mut Items,
    row: Option<&ReplayRow>,
    prefix: Option<&str>,
    source: Option<&str>,
    state: Option<&str>,
) -> Result<(), NoMemory>
    ensures { OnOk result (trees_of items.new.items ≡ trees_of items.old.items
        ++ spec.item_if (option_copied prefix.entry) (option_copied source.entry) (option_copied state.entry) (option_copied row.entry)) }
{
    match row {
        Some(row) => {
            if is_listed(alloc, prefix, source, state, row)? {
                items.push(item_json(alloc, row)?)?;
            }
            Ok(())
        }
        None => Ok(()),
    }
}

/// Whether the list shows the replay.
fn is_listed(
    alloc: Global,
    prefix: Option<&str>,
    source: Option<&str>,
    state: Option<&str>,
    row: &ReplayRow,
) -> Result<bool, NoMemory>
    ensures { IfOk result (λ listed. listed
        ≡ spec.is_replay_listed (option_copied prefix.entry) (option_copied source.entry) (option_copied state.entry) row.now) }
{
    let is_source = is_source(alloc, source, row.settings.archive.as_str())?;
    Ok(has_prefix(prefix, row.name()) && (is_source && is_state(state, row)))
}

/// Whether no source is given, or the archive's ARN.
fn is_source(alloc: Global, source: Option<&str>, archive: &str) -> Result<bool, NoMemory>
    ensures { IfOk result (λ same. same ≡ is_given (option_copied source.entry) (names.archive_arn archive.now)) }
{
    match source {
        Some(source) => Ok(source == archive_arn(alloc, archive)?.as_str()),
        None => Ok(true),
    }
}

/// Whether no state is given, or that of the replay.
fn is_state(state: Option<&str>, row: &ReplayRow) -> bool
    ensures { result ≡ is_given (option_copied state.entry) (spec.shown_state row.now) }
{
    match state {
        Some(state) => state == state_of(row),
        None => true,
    }
}

/// The name of the replay's state.
fn state_of(row: &ReplayRow) -> &'static str
    ensures { result.now ≡ spec.shown_state row.now }
{
    match row.replay.state() {
        ReplayState::Running => "RUNNING",
        ReplayState::Completed => "COMPLETED",
        ReplayState::Cancelled => CANCELLED,
    }
}

fn item_json(alloc: Global, row: &ReplayRow) -> Result<Json, NoMemory>
    ensures { IfOk result (λ json. tree_of json ≡ object (members_of (spec.replay_item row.now))) }
{
    let mut members: Members = Vec::with_capacity(alloc, 8)?;
    push_text(alloc, &mut members, "ReplayName", row.name())?;
    let archive = archive_arn(alloc, row.settings.archive.as_str())?;
    push_member(alloc, &mut members, "EventSourceArn", Json::Str(archive))?;
    push_text(alloc, &mut members, "State", state_of(row))?;
    push_times(alloc, &mut members, row)?;
    Ok(Json::Obj(members))
}

fn replay_members(alloc: Global, row: &ReplayRow) -> Result<Members, NoMemory>
    ensures { IfOk result (λ members. pairs_of members.items ≡ spec.replay_members row.now) }
{
    let mut members: Members = Vec::with_capacity(alloc, 10)?;
    push_text(alloc, &mut members, "ReplayName", row.name())?;
    let arn = replay_arn(alloc, row.name())?;
    push_member(alloc, &mut members, "ReplayArn", Json::Str(arn))?;
    push_text(alloc, &mut members, "State", state_of(row))?;
    let archive = archive_arn(alloc, row.settings.archive.as_str())?;
    push_member(alloc, &mut members, "EventSourceArn", Json::Str(archive))?;
    let destination = destination_json(alloc, &row.settings)?;
    push_member(alloc, &mut members, "Destination", destination)?;
    push_times(alloc, &mut members, row)?;
    Ok(members)
}

/// Appends the times of the replay.
fn push_times(alloc: Global, members: &mut Members, row: &ReplayRow) -> Result<(), NoMemory>
    ensures { OnOk result (pairs_of members.new.items ≡ pairs_of members.old.items ++ spec.replay_times row.now) }
{
    let settings = &row.settings;
    push_number(
        alloc,
        members,
        "EventStartTime",
        u128::from(settings.range.start),
    )?;
    push_number(
        alloc,
        members,
        "EventEndTime",
        u128::from(settings.range.end),
    )?;
    push_moment(alloc, members, "EventLastReplayedTime", row.replay.last())?;
    push_number(
        alloc,
        members,
        "ReplayStartTime",
        u128::from(settings.started_at),
    )?;
    push_moment(alloc, members, "ReplayEndTime", row.ended_at)?;
    Ok(())
}

/// Appends a member whose value is the moment, if there is one.
fn push_moment(
    alloc: Global,
    members: &mut Members,
    key: &str,
    moment: Option<u64>,
) -> Result<(), NoMemory>
    ensures { OnOk result (pairs_of members.new.items ≡ pairs_of members.old.items ++ spec.moment_member key.now moment) }
{
    match moment {
        Some(moment) => push_number(alloc, members, key, u128::from(moment)),
        None => Ok(()),
    }
}

fn destination_json(alloc: Global, settings: &ReplaySettings) -> Result<Json, NoMemory>
    ensures { IfOk result (λ json. tree_of json ≡ spec.destination_tree settings.now) }
{
    let mut members: Members = Vec::with_capacity(alloc, 2)?;
    let arn = bus_arn(alloc, settings.bus.as_str())?;
    push_member(alloc, &mut members, "Arn", Json::Str(arn))?;
    push_filter(alloc, &mut members, settings.bus.as_str(), &settings.rules)?;
    Ok(Json::Obj(members))
}

/// Appends the filter, if there is one.
fn push_filter(
    alloc: Global,
    members: &mut Members,
    bus: &str,
    rules: &Option<RuleNames>,
) -> Result<(), NoMemory>
    ensures { OnOk result (pairs_of members.new.items ≡ pairs_of members.old.items ++ spec.filter_member bus.now rules.now) }
{
    match rules {
        Some(rules) => {
            let arns = rule_arns(alloc, bus, rules.names())?;
            push_member(alloc, members, "FilterArns", Json::List(arns))
        }
        None => Ok(()),
    }
}

/// The ARNs of the rules of the bus that have these names.
fn rule_arns(alloc: Global, bus: &str, rules: &[Text]) -> Result<Items, NoMemory>
    ensures { IfOk result (λ items. trees_of items.items ≡ spec.arns_of bus.now rules.now) }
{
    let mut items: Items = Vec::with_capacity(alloc, rules.len())?;
    for rule in rules {
        items.push(Json::Str(rule_arn(alloc, bus, rule.as_str())?))?;
    }
    Ok(items)
}
