//! CreateArchive, UpdateArchive, DescribeArchive and ListArchives.
ghost use Rattle.std.specs.Prelude.{◌≡◌, ◌++◌, ◌∷◌, [], IfOk, OnOk, decimal};
ghost use Rattle.std.specs.Option.{option_copied};
ghost use Rattle.json_text.specs.Tree.{number, object, members_of};
ghost use Rattle.json_text.specs.View.{tree_of, trees_of, pairs_of};
ghost use Rattle.event_shape.specs.Names as names;
ghost use Rattle.name_rows.specs.Rows.{named};
ghost use Rattle.archive_keep.specs.Archives.{name_of};
ghost use Rattle.api_replies.specs.View.{reply_of};
ghost use Rattle.config_views.specs.Archives as spec;

use crate::parts::{has_prefix, listing, no_archive, served};
use api_replies::Reply;
use archive_keep::{Archive, Archives};
use event_shape::{archive_arn, bus_arn, is_bus_arn};
use json_text::{Items, Json, Members, NoMemory, Text, push_member, push_text};
use rule_table::{ArchiveRow, RuleSet};
use std::alloc::Global;

/// The state of each archive.
const ENABLED: &str = "ENABLED";

/// The reply to a CreateArchive or an UpdateArchive: the archive's ARN, the moment of its creation, and its state.
pub fn archive_reply(alloc: Global, name: &str, created: u64) -> Result<Reply, NoMemory>
    ensures { IfOk result (λ r. reply_of r ≡ spec.archive_reply name.now created) }
{
    let mut members: Members = Vec::with_capacity(alloc, 3)?;
    let arn = archive_arn(alloc, name)?;
    push_member(alloc, &mut members, "ArchiveArn", Json::Str(arn))?;
    push_number(alloc, &mut members, "CreationTime", u128::from(created))?;
    push_text(alloc, &mut members, "State", ENABLED)?;
    Ok(served(members))
}

/// The reply to a DescribeArchive: the archive's ARN, its name, its bus's ARN, its pattern's text as it was given if it has one, and
/// what it keeps at the moment.
pub fn describe_archive(
    alloc: Global,
    set: &RuleSet,
    archives: &Archives,
    name: &str,
    moment: u64,
) -> Result<Reply, NoMemory>
    ensures { IfOk result (λ r. reply_of r ≡ spec.described_archive name.now moment set.now archives.now) }
{
    match set.archive(name) {
        Some(row) => match archives.find(name) {
            Some(archive) => Ok(served(archive_members(alloc, row, archive, moment)?)),
            None => no_archive(alloc, name),
        },
        None => no_archive(alloc, name),
    }
}

/// The reply to a ListArchives: the archives whose names begin with the prefix, whose bus has the source as its ARN, and whose state is
/// the given one, as far as these are given, each with what it keeps at the moment.
pub fn list_archives(
    alloc: Global,
    set: &RuleSet,
    archives: &Archives,
    prefix: Option<&str>,
    source: Option<&str>,
    state: Option<&str>,
    moment: u64,
) -> Result<Reply, NoMemory>
    ensures { IfOk result (λ r. reply_of r ≡ spec.listed_archives (option_copied prefix.entry) (option_copied source.entry) (option_copied state.entry)
        moment set.now archives.now) }
{
    let mut items: Items = Vec::new(alloc);
    let mut rows = set.archives();
    while let Some(row) = rows.next() {
        if is_listed(prefix, source, state, row) {
            push_item(alloc, &mut items, archives, row, moment)?;
        }
    }
    listing(alloc, "Archives", items)
}

/// Whether the list shows the archive.
fn is_listed(
    prefix: Option<&str>,
    source: Option<&str>,
    state: Option<&str>,
    row: &ArchiveRow,
) -> bool
    ensures { result ≡ spec.is_listed (option_copied prefix.entry) (option_copied source.entry) (option_copied state.entry) row.now }
{
    has_prefix(prefix, row.name()) && is_source(source, row.bus()) && is_enabled(state)
}

/// Whether no source is given, or the bus's ARN.
fn is_source(source: Option<&str>, bus: &str) -> bool
    ensures { result ≡ spec.is_given (option_copied source.entry) (names.bus_arn bus.now) }
{
    match source {
        Some(source) => is_bus_arn(source, bus),
        None => true,
    }
}

/// Whether no state is given, or that of each archive.
fn is_enabled(state: Option<&str>) -> bool
    ensures { result ≡ spec.is_given (option_copied state.entry) spec.archive_state }
{
    match state {
        Some(state) => state == ENABLED,
        None => true,
    }
}

/// Appends the archive's item, if its events are there.
fn push_item(
    alloc: Global,
    items: &mut Items,
    archives: &Archives,
    row: &ArchiveRow,
    moment: u64,
) -> Result<(), NoMemory>
    ensures { OnOk result (trees_of items.new.items
        ≡ trees_of items.old.items ++ spec.item_of moment row.now (named name_of row.now.name archives.now)) }
{
    match archives.find(row.name()) {
        Some(archive) => {
            items.push(item_json(alloc, row, archive, moment)?)?;
            Ok(())
        }
        None => Ok(()),
    }
}

fn item_json(
    alloc: Global,
    row: &ArchiveRow,
    archive: &Archive,
    moment: u64,
) -> Result<Json, NoMemory>
    ensures { IfOk result (λ json. tree_of json ≡ object (members_of (spec.listed_members moment row.now archive.now))) }
{
    let mut members: Members = Vec::with_capacity(alloc, 7)?;
    push_source(alloc, &mut members, row)?;
    push_kept(alloc, &mut members, archive, moment)?;
    Ok(Json::Obj(members))
}

fn archive_members(
    alloc: Global,
    row: &ArchiveRow,
    archive: &Archive,
    moment: u64,
) -> Result<Members, NoMemory>
    ensures { IfOk result (λ members. pairs_of members.items ≡ spec.archive_members moment row.now archive.now) }
{
    let mut members: Members = Vec::with_capacity(alloc, 9)?;
    let arn = archive_arn(alloc, row.name())?;
    push_member(alloc, &mut members, "ArchiveArn", Json::Str(arn))?;
    push_source(alloc, &mut members, row)?;
    push_pattern(alloc, &mut members, row)?;
    push_kept(alloc, &mut members, archive, moment)?;
    Ok(members)
}

/// Appends the archive's name and its bus's ARN.
fn push_source(alloc: Global, members: &mut Members, row: &ArchiveRow) -> Result<(), NoMemory>
    ensures { OnOk result (pairs_of members.new.items ≡ pairs_of members.old.items ++ spec.source_members row.now) }
{
    push_text(alloc, members, "ArchiveName", row.name())?;
    let arn = bus_arn(alloc, row.bus())?;
    push_member(alloc, members, "EventSourceArn", Json::Str(arn))?;
    Ok(())
}

/// Appends the archive's pattern, if it has one.
fn push_pattern(alloc: Global, members: &mut Members, row: &ArchiveRow) -> Result<(), NoMemory>
    ensures { OnOk result (pairs_of members.new.items ≡ pairs_of members.old.items ++ spec.pattern_member row.now.pattern) }
{
    match row.pattern() {
        Some(pattern) => push_text(
            alloc,
            members,
            "EventPattern",
            pattern.pattern().text().as_str(),
        ),
        None => Ok(()),
    }
}

/// Appends what the archive keeps at the moment.
fn push_kept(
    alloc: Global,
    members: &mut Members,
    archive: &Archive,
    moment: u64,
) -> Result<(), NoMemory>
    ensures { OnOk result (pairs_of members.new.items ≡ pairs_of members.old.items ++ spec.keeping_members moment archive.now) }
{
    let (events, bytes) = archive.counts(moment);
    push_text(alloc, members, "State", ENABLED)?;
    push_number(alloc, members, "RetentionDays", u128::from(archive.days()))?;
    push_number(alloc, members, "SizeBytes", bytes)?;
    push_number(alloc, members, "EventCount", u128::from(events))?;
    push_number(
        alloc,
        members,
        "CreationTime",
        u128::from(archive.created()),
    )?;
    Ok(())
}

/// Appends a member whose value is this number.
pub(crate) fn push_number(
    alloc: Global,
    members: &mut Members,
    key: &str,
    value: u128,
) -> Result<(), NoMemory>
    ensures { OnOk result (pairs_of members.new.items ≡ pairs_of members.old.items ++ (key.now, number (decimal value)) ∷ []) }
{
    let number = Json::Num(Text::from(format!(in alloc; "{value}")?));
    push_member(alloc, members, key, number)
}
