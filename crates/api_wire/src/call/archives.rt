//! Calls on archives.
ghost use Rattle.std.specs.Prelude.{◌≡◌, Some, IfOk};
ghost use Rattle.json_text.specs.Tree.{members_of};
ghost use Rattle.json_text.specs.View.{pairs_of};
ghost use Rattle.router_requests.specs.View.{action_of};
ghost use Rattle.api_members.specs.Refusal.{AreSound};
ghost use Rattle.api_wire.specs.Call.{action_in, asked, creation_in, days_given};
ghost use Rattle.api_wire.specs.declared.call.operation.Operation.TheVariants.{CreateArchive, UpdateArchive, DeleteArchive, DescribeArchive, ListArchives};

use super::operation::MOST_DAYS;
use super::pattern::pattern_given;
use api_members::{bus_of_source, count_given, read_text, text_of};
use api_replies::Member;
use json_text::{Json, NoMemory, Text};
use router_requests::Action;
use std::alloc::Global;

pub(super) fn create_archive(alloc: Global, members: &[(Text, Json)]) -> Result<Action, NoMemory>
    requires sound { AreSound (asked CreateArchive (members_of (pairs_of members.now))) (members_of (pairs_of members.now)) }
    ensures { IfOk result (λ a. action_in CreateArchive (members_of (pairs_of members.now)) ≡ Some (action_of a)) }
{
    match bus_of_source(members, Member::EventSourceArn) {
        Some(bus) => creation_on(alloc, members, bus),
        None => unreachable!(),
    }
}

/// The creation of an archive of the bus of this name.
fn creation_on(alloc: Global, members: &[(Text, Json)], bus: &str) -> Result<Action, NoMemory>
    requires sound { AreSound (asked CreateArchive (members_of (pairs_of members.now))) (members_of (pairs_of members.now)) }
    ensures { IfOk result (λ a. creation_in (members_of (pairs_of members.now)) bus.now ≡ action_of a) }
{
    let name = Text::from_str(alloc, text_of(members, Member::ArchiveName))?;
    let bus = Text::from_str(alloc, bus)?;
    let pattern = pattern_given(alloc, members)?;
    let days = days_given(members).unwrap_or(0);
    Ok(Action::CreateArchive {
        name,
        bus,
        pattern,
        days,
    })
}

/// The number of days that RetentionDays gives.
fn days_given(members: &[(Text, Json)]) -> Option<u32>
    ensures { result ≡ days_given (members_of (pairs_of members.now)) }
{
    match count_given(members, Member::RetentionDays, 0, MOST_DAYS) {
        Some(days) => Some(days as u32),
        None => None,
    }
}

pub(super) fn update_archive(alloc: Global, members: &[(Text, Json)]) -> Result<Action, NoMemory>
    requires sound { AreSound (asked UpdateArchive (members_of (pairs_of members.now))) (members_of (pairs_of members.now)) }
    ensures { IfOk result (λ a. action_in UpdateArchive (members_of (pairs_of members.now)) ≡ Some (action_of a)) }
{
    let name = Text::from_str(alloc, text_of(members, Member::ArchiveName))?;
    let pattern = pattern_given(alloc, members)?;
    let days = days_given(members);
    Ok(Action::UpdateArchive {
        name,
        pattern,
        days,
    })
}

pub(super) fn delete_archive(alloc: Global, members: &[(Text, Json)]) -> Result<Action, NoMemory>
    ensures { IfOk result (λ a. action_in DeleteArchive (members_of (pairs_of members.now)) ≡ Some (action_of a)) }
{
    let name = Text::from_str(alloc, text_of(members, Member::ArchiveName))?;
    Ok(Action::DeleteArchive { name })
}

pub(super) fn describe_archive(alloc: Global, members: &[(Text, Json)]) -> Result<Action, NoMemory>
    ensures { IfOk result (λ a. action_in DescribeArchive (members_of (pairs_of members.now)) ≡ Some (action_of a)) }
{
    let name = Text::from_str(alloc, text_of(members, Member::ArchiveName))?;
    Ok(Action::DescribeArchive { name })
}

pub(super) fn list_archives(alloc: Global, members: &[(Text, Json)]) -> Result<Action, NoMemory>
    ensures { IfOk result (λ a. action_in ListArchives (members_of (pairs_of members.now)) ≡ Some (action_of a)) }
{
    let prefix = read_text(alloc, members, Member::NamePrefix)?;
    let source = read_text(alloc, members, Member::EventSourceArn)?;
    let state = read_text(alloc, members, Member::State)?;
    Ok(Action::ListArchives {
        prefix,
        source,
        state,
    })
}
