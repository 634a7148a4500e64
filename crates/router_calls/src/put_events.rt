//! PutEvents.
ghost use Rattle.std.specs.Prelude.{◌≡◌, ◌<◌, ◌+◌, ◌^◌, ℕ, List, length, map, Ok, IfOk, OnOk, All};
ghost use Rattle.json_text.specs.Moment.{IsMoment};
ghost use Rattle.json_text.specs.View.{tree_of};
ghost use Rattle.event_time.specs.Time.{IsIso};
ghost use Rattle.archive_keep.specs.Kept.{IsTextOfEvent};
ghost use Rattle.rule_table.specs.RuleSet.{RuleSet as Set};
ghost use Rattle.router_requests.specs.Request.{put_events};
ghost use Rattle.router_requests.specs.View.{accepted_of};
ghost use Rattle.router_requests.specs.Matching.{AreSeenEntries, IsSeenEntry};
ghost use Rattle.router_requests.specs.Duties.{AreDuties};
ghost use Rattle.router_requests.specs.Bounds.{IsBounded};
ghost use Rattle.router_calls.specs.Accepted.{archives_kept, entries_seen, found_of, is_still_there, numbered_text, numbered_tree, IsAcceptedAs, IsPlaced};
ghost use Rattle.router_calls.specs.Answer.{entry_report};
ghost use Rattle.resource_calls.specs.Decided.{decided_of, CanBeMade};
ghost use Rattle.router_calls.specs.Steps.{placed_of, placed_decided, Places, AreReady, AreSeenOn, HasAccount, IsEventAdded, IsPublication, IsRefusalAdded, IsSeenOn};

use call_replies::{entry_cause, items_reply};
use delivery_duties::NewDuty;
use event_shape::{EntryFault, Unnumbered, event_id};
use json_text::{Items, Json, Members, NoMemory, Text, push_member};
use resource_calls::{Decided, read_tables, refused};
use router_core::{Cause, Member, Part, Tables, push_failure};
use router_requests::{
    AcceptedEvent, Entry, Seen, SeenArchive, SeenArchives, SeenEntries, SeenEntry, SeenResult,
    SeenTargets, SeenVerdict, duties_of, need_tree,
};
use rule_table::RuleSet;
use shared_text::SharedText;
use std::alloc::Global;
use std::collections::VecDeque;

/// The greatest number of bytes that the entries of one request have together.
const SIZE_LIMIT: u64 = 262_144;

/// Accepts each entry that matching found allowed, at this moment. If all fail, nothing is changed. The results of matching are taken
/// out of `seen`.
pub(crate) fn put_events(
    alloc: Global,
    tables: &Tables,
    entries: &[Result<Unnumbered, EntryFault>],
    size: u64,
    moment: u64,
    seen: &mut Seen,
) -> Result<Decided, NoMemory>
    requires moment { IsMoment moment }
    requires bounded { IsBounded (put_events entries.now size) }
    requires accounts { All HasAccount entries.now }
    requires seen { (set : Set) × (caller : List ℕ) × IsSeenOn tables.now set caller (put_events entries.now size) seen.old }
    ensures answer { IfOk result (λ d. IsPublication tables.now seen.old.k moment entries.now (entries_seen tables.now.set seen.old.result) size (decided_of d)) }
    ensures made { IfOk result (λ d. CanBeMade tables.now moment d) }
{
    match &mut seen.result {
        SeenResult::Entries(found) => {
            publish(alloc, tables, entries, size, moment, seen.k, found)
        }
        SeenResult::Tested(_) | SeenResult::Nothing => unreachable!(),
    }
}

/// Accepts each entry that is allowed. The results of matching, on configuration version `k`, are taken out of `found`.
fn publish(
    alloc: Global,
    tables: &Tables,
    entries: &[Result<Unnumbered, EntryFault>],
    size: u64,
    moment: u64,
    k: u64,
    found: &mut SeenEntries,
) -> Result<Decided, NoMemory>
    requires moment { IsMoment moment }
    requires bounded { IsBounded (put_events entries.now size) }
    requires accounts { All HasAccount entries.now }
    requires seen { (set : Set) × (caller : List ℕ) × AreSeenOn tables.now set caller entries.now k found.old.items }
    ensures answer { IfOk result (λ d. IsPublication tables.now k moment entries.now (map (found_of tables.now.set) found.old.items) size (decided_of d)) }
    ensures made { IfOk result (λ d. CanBeMade tables.now moment d) }
{
    if size > SIZE_LIMIT {
        return refused(alloc, &Cause::TooLargeTogether);
    }
    read_tables(tables);
    let mut all = PlacedEntries {
        entries: Vec::with_capacity(alloc, entries.len())?,
        parts: VecDeque::with_capacity(alloc, entries.len())?,
        reports: Vec::with_capacity(alloc, entries.len())?,
        failed: 0,
    };
    place_all(
        alloc,
        tables.set(),
        entries,
        k,
        moment,
        found,
        tables.events() + 1,
        &mut all,
    )?;
    reported(alloc, tables, moment, all)
}

/// The events of a batch of this moment with their parts, and the reply.
fn reported(
    alloc: Global,
    tables: &Tables,
    moment: u64,
    all: PlacedEntries,
) -> Result<Decided, NoMemory>
    requires ready { AreReady tables.now moment all }
    ensures answer { IfOk result (λ d. decided_of d ≡ placed_decided all) }
    ensures made { IfOk result (λ d. CanBeMade tables.now moment d) }
{
    let PlacedEntries {
        entries,
        parts,
        reports,
        failed,
    } = all;
    let reply = items_reply(alloc, failed, "Entries", reports)?;
    Ok(Decided {
        entries,
        parts,
        reply,
    })
}

/// What entries became.
#[derive(Drop)]
pub(crate) struct PlacedEntries {
    /// The accepted events, as entries of a batch.
    entries: Vec<Entry>,
    /// The part of each event.
    parts: VecDeque<Part>,
    /// An item for each entry of the request.
    reports: Items,
    /// The number of entries that failed.
    failed: u64,
}

/// Places the entries in their order, each by what was found of it. The first event gets this number. The rule set is that of the tables.
fn place_all(
    alloc: Global,
    set: &RuleSet,
    entries: &[Result<Unnumbered, EntryFault>],
    k: u64,
    moment: u64,
    found: &mut SeenEntries,
    number: u64,
    all: &mut PlacedEntries,
) -> Result<(), NoMemory>
    requires moment { IsMoment moment }
    requires seen { (s : Set) × (caller : List ℕ) × AreSeenEntries s caller entries.now found.old.items }
    requires number { number + length entries.now < 2 ^ 63 }
    requires failed { all.old.failed + length entries.now < 2 ^ 63 }
    ensures { OnOk result ((time : List ℕ) → IsIso moment time
        → Places k number moment time entries.now (map (found_of set.now) found.old.items) all.old all.new) }
{
    match entries {
        [entry, rest @ ..] => match found.pop_front() {
            Some(seen) => match place(alloc, set, entry, k, moment, seen, number)? {
                Ok(event) => {
                    push_event(alloc, event, moment, all)?;
                    place_all(alloc, set, rest, k, moment, found, number + 1, all)
                }
                Err(cause) => {
                    push_refusal(alloc, &cause, all)?;
                    place_all(alloc, set, rest, k, moment, found, number, all)
                }
            },
            None => unreachable!(),
        },
        [] => Ok(()),
    }
}

/// Adds the event, its part in a batch of this moment, and its item.
fn push_event(
    alloc: Global,
    event: AcceptedEvent,
    moment: u64,
    all: &mut PlacedEntries,
) -> Result<(), NoMemory>
    requires { IsTextOfEvent event.text }
    ensures { OnOk result (IsEventAdded moment event all.old all.new) }
{
    all.reports.push(event_json(alloc, &event)?)?;
    all.parts.push_back(Part::of_event(alloc, &event, moment)?)?;
    all.entries.push(Entry::Accepted(event))?;
    Ok(())
}

/// Adds the item of an entry that is refused.
fn push_refusal(alloc: Global, cause: &Cause, all: &mut PlacedEntries) -> Result<(), NoMemory>
    requires { all.old.failed < 2 ^ 63 }
    ensures { OnOk result (IsRefusalAdded cause.now all.old all.new) }
{
    let mut members: Members = Vec::with_capacity(alloc, 2)?;
    push_failure(alloc, &mut members, cause)?;
    all.reports.push(Json::Obj(members))?;
    all.failed += 1;
    Ok(())
}

/// What becomes of the entry by what was found of it, if the next event gets this number.
fn place(
    alloc: Global,
    set: &RuleSet,
    entry: &Result<Unnumbered, EntryFault>,
    k: u64,
    moment: u64,
    seen: SeenEntry,
    number: u64,
) -> Result<Result<AcceptedEvent, Cause>, NoMemory>
    requires moment { IsMoment moment }
    requires seen { (s : Set) × (caller : List ℕ) × IsSeenEntry s caller entry.now seen }
    ensures placed { IfOk result (λ p. (time : List ℕ) → IsIso moment time → IsPlaced k number time entry.now (found_of set.now seen) (placed_of p)) }
    ensures text { IfOk result (λ p. IfOk p (λ e. IsTextOfEvent e.text)) }
{
    let SeenEntry {
        verdict,
        targets,
        archives,
    } = seen;
    match verdict {
        SeenVerdict::Fault(fault) => Ok(Err(entry_cause(fault))),
        SeenVerdict::NoBus => Ok(Err(Cause::Parameter(Member::EventBusName))),
        SeenVerdict::DeniedBy(statement) => Ok(Err(Cause::DeniedBy { statement })),
        SeenVerdict::NotAllowed => Ok(Err(Cause::NotAllowed)),
        SeenVerdict::Allowed => match entry {
            Ok(event) => {
                let archives = names_there(alloc, set, archives)?;
                Ok(Ok(accept(alloc, event, k, moment, targets, archives, number)?))
            }
            Err(_) => unreachable!(),
        },
    }
}

/// The event with this number, kept by the archives of these names, and a duty for each of these targets, filled at this moment.
fn accept(
    alloc: Global,
    event: &Unnumbered,
    k: u64,
    moment: u64,
    targets: SeenTargets,
    archives: Vec<Text>,
    number: u64,
) -> Result<AcceptedEvent, NoMemory>
    requires { IsMoment moment }
    ensures accepted { IfOk result (λ e. (time : List ℕ) → IsIso moment time
        → IsAcceptedAs k number time event.now targets.items archives.items (accepted_of e)) }
    ensures text { IfOk result (λ e. IsTextOfEvent e.text) }
{
    let text = SharedText::new(alloc, event.numbered(alloc, number)?)?;
    let duties = duties(alloc, event, number, moment, targets, &text)?;
    let bus = Text::from_str(alloc, event.bus())?;
    Ok(AcceptedEvent {
        number,
        bus,
        k,
        time: event.moment(),
        text,
        archives,
        duties,
    })
}

/// The names of the archives that are still there, of those that matching found.
fn names_there(alloc: Global, set: &RuleSet, found: SeenArchives) -> Result<Vec<Text>, NoMemory>
    ensures { IfOk result (λ names. names.items ≡ archives_kept set.now found.items) }
{
    let mut names = Vec::with_capacity(alloc, found.len())?;
    for archive in found {
        if is_still_there(set, &archive) {
            names.push(Text::from_str(alloc, archive.name.as_str())?)?;
        }
    }
    Ok(names)
}

/// Whether the archive that matching found is still there: one of its name may have been created after it was deleted.
fn is_still_there(set: &RuleSet, found: &SeenArchive) -> bool
    ensures { result ≡ is_still_there set.now found.now }
{
    match set.archive(found.name.as_str()) {
        Some(archive) => archive.made() == found.made,
        None => false,
    }
}

/// The duties of the event with this number and text. Its tree is made only if a target has a path or a template.
fn duties(
    alloc: Global,
    event: &Unnumbered,
    number: u64,
    moment: u64,
    targets: SeenTargets,
    text: &SharedText,
) -> Result<Vec<NewDuty>, NoMemory>
    requires moment { IsMoment moment }
    requires text { text.now ≡ numbered_text number event.now }
    ensures { IfOk result (λ duties. (time : List ℕ) → IsIso moment time
        → AreDuties (numbered_tree number event.now) time targets.items duties.items) }
{
    if need_tree(&targets) {
        let tree = event.numbered_tree(alloc, number)?;
        duties_of(alloc, targets, text, Some(&tree), moment)
    } else {
        duties_of(alloc, targets, text, None, moment)
    }
}

fn event_json(alloc: Global, event: &AcceptedEvent) -> Result<Json, NoMemory>
    ensures { IfOk result (λ j. tree_of j ≡ entry_report (Ok (accepted_of event.now))) }
{
    let id = event_id(alloc, event.number)?;
    let mut members: Members = Vec::with_capacity(alloc, 1)?;
    push_member(alloc, &mut members, "EventId", Json::Str(id))?;
    Ok(Json::Obj(members))
}
