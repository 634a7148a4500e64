//! Batches that are ready to be applied.
ghost use Rattle.std.specs.Prelude.{◌≡◌, ◌⊎◌, ◌<◌, ◌^◌, ◌∷◌, [], ℕ, IfOk, IfErr, IfSome, IfNone, MatchOption, List, Option, All, length, map};
ghost use Rattle.rule_table.specs.Control.{Control as Change};
ghost use Rattle.rule_table.specs.RuleSet.{RuleSet as Set};
ghost use Rattle.rule_table.specs.Refusal.{IsAllowed, refusal};
ghost use Rattle.rule_table.specs.View.{control_of};
ghost use Rattle.router_requests.specs.Batch.{control as change, accepted, replay_started, replay_stepped};
ghost use Rattle.router_core.specs.Admitted.{IsStartAdmitted};
ghost use Rattle.router_requests.specs.View.{accepted_of, entry_of, stepped_of};
ghost use Rattle.archive_keep.specs.Archive.{Archive as ArchiveView};
ghost use Rattle.archive_keep.specs.Kept.{IsTextOfEvent};
ghost use Rattle.router_core.specs.Ready.{IsPartOf, IsMadeOn, IsOneChange, HasPlace, HasArchive, AreKeptAs};
ghost use Rattle.router_core.specs.declared.ready.Part.{Part as PartView};
ghost use Rattle.router_core.specs.declared.ready.Part.TheVariants.{Configuration, Start};
ghost use Rattle.replay_run.specs.declared.replays.NewReplay.{NewReplay as NewReplayView};

use crate::tables::Tables;
use archive_keep::{Archive, EventRef, KeptEvent};
use delivery_duties::{NewDuties, NewDuty};
use delivery_queues::NewQueue;
use json_text::NoMemory;
use replay_run::{NewReplay, ReplayRow};
use router_requests::{AcceptedEvent, Batch, Entry, StartedReplay, SteppedReplay};
use rule_table::{Control, ControlFault, RuleSet};
use std::alloc::Global;
use std::collections::{LinkedList, VecDeque};

/// What applying one entry of a batch needs. All its memory is allocated. A part is made from its entry, and of a change also from the rule
/// set before it; nothing else of the tables is in it, but that a replay which starts has its selection of an archive, its number, and the
/// names of all replays. So a journal that reads batches back can make their parts again, each on the rule set after the entries before
/// it, and a start's on the tables after the batches before its own. An attempt has no part: `Tables::finish` applies it with its claim, and `Tables::settle_at` by its duty's
/// number.
#[derive(Drop)]
pub enum Part {
    /// Of a change: the rule set after it, and the new queue or the new archive if it creates one.
    Configuration {
        set: RuleSet,
        new_queue: Option<NewQueue>,
        new_archive: Option<Archive>,
    },
    /// Of an event: the rows of its duties, and a pointer to its record for each archive that keeps it.
    Event {
        duties: NewDuties,
        kept: LinkedList<EventRef>,
    },
    /// Of a replay that starts: the replay, with its selection.
    Start {
        new_replay: NewReplay,
    },
    /// Of a replay's step: the rows of its duties.
    Step {
        duties: NewDuties,
    },
    /// Of a cancelled replay.
    Cancellation,
    /// Of deleted messages.
    Nothing,
}

/// A batch, with one part for each of its entries.
#[derive(Drop)]
pub struct Ready {
    pub(crate) batch: Batch,
    pub(crate) parts: VecDeque<Part>,
}

impl Part {
    /// The part of the change on this rule set, of a batch of this moment, or the change's first refusal.
    pub fn of_control(
        alloc: Global,
        set: &RuleSet,
        control: &Control,
        moment: u64,
    ) -> Result<Part, ControlFault>
        requires { set.now.count < 2 ^ 63 }
        ensures part { IfOk result (λ part. IsAllowed (control_of control.now) set.now × IsPartOf moment set.now (change (control_of control.now)) part) }
        ensures refused { IfErr result (λ fault. (fault ≡ ControlFault.NoMemory) ⊎ (refusal (control_of control.now) set.now ≡ Some fault)) }
    {
        let set = set.apply(alloc, control)?;
        let new_queue = new_queue(alloc, control)?;
        let new_archive = new_archive(alloc, control, moment)?;
        Ok(Part::Configuration {
            set,
            new_queue,
            new_archive,
        })
    }

    /// The part of the event in a batch of this moment. Its duties share their texts and their targets' rows with those of the
    /// event, and its record shares the event's text.
    pub fn of_event(alloc: Global, event: &AcceptedEvent, moment: u64) -> Result<Part, NoMemory>
        requires { IsTextOfEvent event.now.text }
        ensures { IfOk result (λ part. (set : Set) → IsPartOf moment set (accepted (accepted_of event.now)) part) }
    {
        let duties = shared(alloc, &event.duties)?;
        let kept = kept(alloc, event, moment)?;
        Ok(Part::Event { duties, kept })
    }

    /// The part of the start in a batch of this moment, made on the archives and the replays of these tables.
    pub fn of_start(
        alloc: Global,
        tables: &Tables,
        start: &StartedReplay,
        moment: u64,
    ) -> Result<Part, NoMemory>
        requires { IsStartAdmitted tables.now start.now }
        ensures part { IfOk result (λ part. (set : Set) → IsPartOf moment set (replay_started start.now) part) }
        ensures made { IfOk result (λ part. IsMadeOn moment tables.now (replay_started start.now) part) }
    {
        let new_replay = tables.new_replay(alloc, start, moment)?;
        Ok(Part::Start { new_replay })
    }

    /// The replay of a start.
    pub fn started(&self) -> Option<&ReplayRow>
        ensures { MatchOption result
            ((new : NewReplayView) → ¬ (self.now ≡ Start new))
            (λ row. (new : NewReplayView) × (self.now ≡ Start new) × (row.now ≡ new.row)) }
    {
        match self {
            Part::Start { new_replay } => Some(new_replay.row.value()),
            Part::Configuration { .. }
            | Part::Event { .. }
            | Part::Step { .. }
            | Part::Cancellation
            | Part::Nothing => None,
        }
    }

    /// The part of the step. Its duties share their texts and their targets' rows with those of the step.
    pub fn of_step(alloc: Global, step: &SteppedReplay) -> Result<Part, NoMemory>
        ensures { IfOk result (λ part. (moment : ℕ) (set : Set) → IsPartOf moment set (replay_stepped (stepped_of step.now)) part) }
    {
        let duties = shared(alloc, &step.duties)?;
        Ok(Part::Step { duties })
    }
}

impl Ready {
    /// The batch with these parts.
    pub fn new(batch: Batch, parts: VecDeque<Part>) -> Ready
        ensures batch { result.batch ≡ batch }
        ensures parts { result.parts.items ≡ parts.items }
    {
        Ready { batch, parts }
    }

    pub fn batch(&self) -> &Batch
        ensures { result.now ≡ self.now.batch }
    {
        &self.batch
    }

    /// The change and the rule set after it, if the batch is one change.
    pub fn control(&self) -> Option<(&Control, &RuleSet)>
        ensures some { IfSome result (λ found. IsOneChange self.now (control_of found.0.now) found.1.now) }
        ensures none { IfNone result ((c : Change) (set : Set) → ¬ IsOneChange self.now c set) }
    {
        match only_change(&self.batch.entries) {
            Some(control) => match first_set(&self.parts) {
                Some(set) => Some((control, set)),
                None => None,
            },
            None => None,
        }
    }
}

/// The change, if it is the only entry.
fn only_change(entries: &[Entry]) -> Option<&Control>
    ensures { MatchOption result
        ((c : Change) → ¬ (map entry_of entries.now ≡ change c ∷ []))
        (λ control. map entry_of entries.now ≡ change (control_of control.now) ∷ []) }
{
    match entries {
        [Entry::Control(control)] => Some(control),
        [Entry::Accepted(_)]
        | [Entry::Attempt { .. }]
        | [Entry::ReplayStarted(_)]
        | [Entry::ReplayStepped(_)]
        | [Entry::ReplayCancelled { .. }]
        | [Entry::MessagesDeleted { .. }] => None,
        [] | [_, _, ..] => None,
    }
}

/// The rule set of the first part, if that is a change's.
fn first_set(parts: &VecDeque<Part>) -> Option<&RuleSet>
    ensures { MatchOption result
        ((set : Set) (queue : Option (List ℕ)) (archive : Option ArchiveView) (others : List PartView) → ¬ (parts.now.items ≡ Configuration set queue archive ∷ others))
        (λ set. (queue : Option (List ℕ)) × (archive : Option ArchiveView) × (others : List PartView) × (parts.now.items ≡ Configuration set.now queue archive ∷ others)) }
{
    match parts.front() {
        Some(Part::Configuration { set, .. }) => Some(set),
        Some(Part::Event { .. })
        | Some(Part::Start { .. })
        | Some(Part::Step { .. })
        | Some(Part::Cancellation)
        | Some(Part::Nothing)
        | None => None,
    }
}

/// The queue that the change creates, if it creates one.
fn new_queue(alloc: Global, control: &Control) -> Result<Option<NewQueue>, NoMemory>
    ensures { IfOk result (λ queue. HasPlace (control_of control.now) queue) }
{
    match control {
        Control::QueueCreated { name } => Ok(Some(NewQueue::new(alloc, name.as_str())?)),
        Control::BusCreated { .. }
        | Control::BusDeleted { .. }
        | Control::RulePut { .. }
        | Control::RuleDeleted { .. }
        | Control::StatePut { .. }
        | Control::TargetsPut { .. }
        | Control::TargetsRemoved { .. }
        | Control::PolicyPut { .. }
        | Control::QueueDeleted { .. }
        | Control::ArchiveCreated { .. }
        | Control::ArchiveUpdated { .. }
        | Control::ArchiveDeleted { .. } => Ok(None),
    }
}

/// The archive that the change creates at this moment, if it creates one.
fn new_archive(alloc: Global, control: &Control, moment: u64) -> Result<Option<Archive>, NoMemory>
    ensures { IfOk result (λ archive. HasArchive (control_of control.now) moment archive) }
{
    match control {
        Control::ArchiveCreated {
            name,
            bus: _,
            pattern: _,
            days,
        } => Ok(Some(Archive::new(alloc, name.copy(alloc)?, *days, moment))),
        Control::BusCreated { .. }
        | Control::BusDeleted { .. }
        | Control::RulePut { .. }
        | Control::RuleDeleted { .. }
        | Control::StatePut { .. }
        | Control::TargetsPut { .. }
        | Control::TargetsRemoved { .. }
        | Control::PolicyPut { .. }
        | Control::QueueCreated { .. }
        | Control::QueueDeleted { .. }
        | Control::ArchiveUpdated { .. }
        | Control::ArchiveDeleted { .. } => Ok(None),
    }
}

/// A pointer to the event's record for each archive that keeps it. Without an archive there is no record.
fn kept(alloc: Global, event: &AcceptedEvent, moment: u64) -> Result<LinkedList<EventRef>, NoMemory>
    requires { IsTextOfEvent event.now.text }
    ensures { IfOk result (λ kept. AreKeptAs moment (accepted_of event.now) kept) }
{
    if event.archives.is_empty() {
        return Ok(LinkedList::new(alloc));
    }
    let text = event.text.share()?;
    let made = KeptEvent {
        number: event.number,
        accepted: moment,
        time: event.time,
        text,
    };
    let first = EventRef::new(alloc, made)?;
    copies(alloc, &first, event.archives.len())
}

/// This number of pointers to the event.
fn copies(alloc: Global, event: &EventRef, count: usize) -> Result<LinkedList<EventRef>, NoMemory>
    ensures { IfOk result (λ list. All (λ k. k ≡ event.now) list × (length list ≡ count)) }
{
    let mut list = LinkedList::new(alloc);
    for _ in 0..count {
        list.push_back(event.share()?)?;
    }
    Ok(list)
}

/// The same duties, which share their texts and rows.
fn shared(alloc: Global, duties: &[NewDuty]) -> Result<NewDuties, NoMemory>
    ensures { IfOk result (λ rows. rows ≡ duties.now) }
{
    let mut rows = NewDuties::new(alloc);
    for duty in duties {
        rows.push(alloc, share(duty)?)?;
    }
    Ok(rows)
}

fn share(duty: &NewDuty) -> Result<NewDuty, NoMemory>
    ensures { IfOk result (λ other. other ≡ duty.now) }
{
    Ok(NewDuty {
        target: duty.target.share()?,
        text: duty.text.share()?,
        too_long: duty.too_long,
    })
}
