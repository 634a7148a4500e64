//! What a batch changes of archives. No call takes memory.
ghost use Rattle.std.specs.Prelude.{◌≡◌, ◌+◌, ◌^◌, ◌<◌, ◌≤◌, ℕ, List, Option, All, length, map, take, drop};
ghost use Rattle.archive_keep.specs.declared.event_ref.KeptEvent.{KeptEvent};
ghost use Rattle.archive_keep.specs.Archives.{all_purged, most_archives, name_of};
ghost use Rattle.rule_table.specs.Control.{archive_created};
ghost use Rattle.rule_table.specs.View.{control_of};
ghost use Rattle.router_core.specs.Tables.{archives_after, kept_by};
ghost use Rattle.router_core.specs.Keeping.{CanKeep};
ghost use Rattle.router_core.specs.Ready.{HasArchive};

use crate::released::Released;
use archive_keep::{Archive, Archives, EventRef};
use json_text::Text;
use key_tree::cut;
use rule_table::{Control, RuleSet};
use std::collections::LinkedList;
use std::mem;

/// The archives of these names keep the event, of which there is a pointer for each.
pub(crate) fn keep_each(archives: &mut Archives, names: &[Text], kept: LinkedList<EventRef>)
    requires { CanKeep names.now archives.old kept }
    ensures { (e : KeptEvent) → All (λ k. k ≡ e) kept → archives.new ≡ kept_by names.now e archives.old }
{
    let mut left = kept;
    for name in names {
        let first = take_first(&mut left);
        archives.keep(name.as_str(), first);
    }
}

/// Takes the first pointer off the list.
fn take_first(list: &mut LinkedList<EventRef>) -> LinkedList<EventRef>
    requires { 1 ≤ length list.old }
    ensures first { result ≡ take 1 list.old }
    ensures rest { list.new ≡ drop 1 list.old }
{
    let rest = cut(list, 1);
    mem::replace(list, rest)
}

/// Drops what the archives of the rule set do not retain at the moment, and returns it.
pub(crate) fn purge(set: &RuleSet, archives: &mut Archives, moment: u64) -> LinkedList<EventRef>
    requires names { map name_of archives.old ≡ map (λ archive. archive.name) set.now.archives }
    requires few { (events : ℕ) × (events < 2 ^ 49) × All (λ a. length a.events ≤ events) archives.old }
    ensures { archives.new ≡ all_purged moment archives.old }
{
    // The rule set is sound, so there are at most 100 archives.
    let _version = set.control_count();
    archives.purge(moment)
}

/// Makes the change of the archives. `released` receives what it removes.
pub(crate) fn change_archives(
    archives: &mut Archives,
    control: &Control,
    new_archive: Option<Archive>,
    moment: u64,
    released: &mut Released,
)
    requires made { HasArchive (control_of control.now) moment new_archive }
    requires room { (name bus : List ℕ) (pattern : Option (List ℕ)) (days : ℕ) → control_of control.now ≡ archive_created name bus pattern days
        → length archives.old < most_archives }
    ensures { archives.new ≡ archives_after (control_of control.now) moment archives.old }
{
    match control {
        Control::ArchiveCreated { .. } => match new_archive {
            Some(archive) => archives.create(archive),
            None => unreachable!(),
        },
        Control::ArchiveUpdated {
            name,
            pattern: _,
            days,
        } => released.dropped = archives.keep_for(name.as_str(), *days, moment),
        Control::ArchiveDeleted { name } => released.archive = archives.remove(name.as_str()),
        Control::BusCreated { .. }
        | Control::BusDeleted { .. }
        | Control::RulePut { .. }
        | Control::RuleDeleted { .. }
        | Control::StatePut { .. }
        | Control::TargetsPut { .. }
        | Control::TargetsRemoved { .. }
        | Control::PolicyPut { .. }
        | Control::QueueCreated { .. }
        | Control::QueueDeleted { .. } => (),
    }
}
