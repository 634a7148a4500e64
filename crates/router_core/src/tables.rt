//! The router's tables, and the calls that change them.
ghost use Rattle.std.specs.Prelude.{◌≡◌, ◌+◌, ◌*◌, ◌^◌, ◌<◌, ◌≤◌, ◌⊎◌, ℕ, List, IfOk, IfSome, IfNone, OnErr, Some, None, true, false, length};
ghost use Rattle.std.specs.Option.{option_copied};
ghost use Rattle.json_text.specs.Moment.{IsMoment};
ghost use Rattle.delivery_duties.specs.declared.duty.DutyRow.{DutyRow};
ghost use Rattle.delivery_duties.specs.declared.outcome.Outcome.{Outcome as Ended};
ghost use Rattle.delivery_queues.specs.Queues.{message_count};
ghost use Rattle.delivery_duties.specs.Duties.{NoneDue, IsOut, pending_row};
ghost use Rattle.router_requests.specs.Batch.{Accepted as Event, Stepped as Step, accepted, control as change, messages_deleted};
ghost use Rattle.router_requests.specs.Batch.{replay_started, replay_stepped, replay_cancelled};
ghost use Rattle.router_requests.specs.declared.batch.StartedReplay.{StartedReplay as Start};
ghost use Rattle.router_requests.specs.View.{batch_of, entry_of};
ghost use Rattle.router_core.specs.Tables.{first_tables, after_entry, after_batch, is_full, number_limit, settings_of, IsConsistent};
ghost use Rattle.router_core.specs.Admitted.{IsAdmitted, IsEntryAdmitted, IsStartAdmitted};
ghost use Rattle.router_core.specs.Ready.{IsPartOf, IsMadeOn, IsNewReplay, IsReadyFor};
ghost use Rattle.router_core.specs.declared.ready.Part.TheVariants.{Configuration, Event as EventPart, Start as StartPart, Step as StepPart};
ghost use Rattle.name_rows.specs.Rows.{named};
ghost use Rattle.archive_keep.specs.Archives.{name_of};
ghost use Rattle.rule_table.specs.RuleSet.{archive_at, has_archive};
ghost use Rattle.rule_table.specs.Control.{Control as Change};
ghost use Rattle.router_core.specs.Parts.{deleted_by, with_created, with_forgotten};
ghost use Rattle.rule_table.specs.View.{control_of};
ghost use Rattle.router_core.specs.Steps.{IsErrandOf, IsClaimed, IsRecordedAs, record_of, putting_back, fate_after};

use crate::errand::Errand;
use crate::keeping::{change_archives, keep_each, purge};
use crate::ready::{Part, Ready};
use crate::released::Released;
use archive_keep::{Archive, Archives, EventRef};
use delivery_duties::{Duties, Fate, NewDuties, Outcome};
use delivery_queues::{NewQueue, RemovedQueue};
use event_shape::queue_of;
use json_text::{NoMemory, Text};
use replay_run::{NewReplay, ReplaySettings, Replays, RuleNames};
use router_requests::{Batch, Entry, StartedReplay, copied_rules};
use rule_table::{ArchiveRow, Control, RuleSet};
use shared_text::{SharedRow, SharedText};
use std::alloc::Global;
use std::collections::LinkedList;
use std::marker::Model;
use std::mem;

/// No further batch is made once there are this many entries or duties.
const NUMBER_LIMIT: u64 = 1 << 48;

/// The rule set, the duties and the queues' messages, the archives with their events, the replays, and the numbers of events, entries and
/// batches so far.
#[derive(Drop)]
pub struct Tables {
    set: RuleSet,
    duties: Duties,
    archives: Archives,
    replays: Replays,
    events: u64,
    entries: u64,
    batches: u64,
    moment: u64,
}

impl Model for Tables {
    ghost use Rattle.router_core.specs.Tables.{Tables as View, IsConsistent};

    ghost Value = { View };

    ghost view = { λ t. record {
      set = t.set;
      duties = t.duties;
      archives = t.archives;
      replays = t.replays;
      events = t.events;
      entries = t.entries;
      batches = t.batches;
      moment = t.moment;
    } };

    ghost invariant = { λ t. IsConsistent (record {
      set = t.set;
      duties = t.duties;
      archives = t.archives;
      replays = t.replays;
      events = t.events;
      entries = t.entries;
      batches = t.batches;
      moment = t.moment;
    }) };
}

impl Tables {
    /// The tables before any batch.
    pub fn first(alloc: Global) -> Result<Tables, NoMemory>
        ensures { IfOk result (λ t. t ≡ first_tables) }
    {
        Ok(Tables {
            set: RuleSet::first(alloc)?,
            duties: Duties::new(alloc)?,
            archives: Archives::new(alloc)?,
            replays: Replays::new(alloc)?,
            events: 0,
            entries: 0,
            batches: 0,
            moment: 0,
        })
    }

    /// Whether the number limit is reached, so that no further batch can be made.
    pub fn full(&self) -> bool
        ensures full { result ≡ is_full self.now }
        ensures consistent { IsConsistent self.now }
    {
        self.entries >= NUMBER_LIMIT || self.duties.counts().created >= NUMBER_LIMIT
    }

    /// The current rule set.
    pub fn set(&self) -> &RuleSet
        ensures { result.now ≡ self.now.set }
    {
        &self.set
    }

    /// The duties and the messages of the queues.
    pub fn duties(&self) -> &Duties
        ensures { result.now ≡ self.now.duties }
    {
        &self.duties
    }

    /// The archives, with the events that they keep.
    pub fn archives(&self) -> &Archives
        ensures { result.now ≡ self.now.archives }
    {
        &self.archives
    }

    /// All replays.
    pub fn replays(&self) -> &Replays
        ensures { result.now ≡ self.now.replays }
    {
        &self.replays
    }

    /// The number of events accepted so far.
    pub fn events(&self) -> u64
        ensures { result ≡ self.now.events }
    {
        self.events
    }

    /// The number of entries of all batches so far.
    pub fn entries(&self) -> u64
        ensures { result ≡ self.now.entries }
    {
        self.entries
    }

    /// The number of messages of all queues. Visits each queue once.
    pub fn messages(&self) -> u64
        ensures { result ≡ message_count self.now.duties.queues }
    {
        let _version = self.set.control_count();
        self.duties.messages()
    }

    /// The number of batches so far.
    pub fn batches(&self) -> u64
        ensures { result ≡ self.now.batches }
    {
        self.batches
    }

    /// The moment of the last batch, in seconds since 1970-01-01T00:00:00Z; 0 before the first.
    pub fn moment(&self) -> u64
        ensures { result ≡ self.now.moment }
    {
        self.moment
    }

    /// Applies the batch, and returns what it leaves over. Takes no memory.
    pub fn apply(&mut self, ready: Ready) -> Released
        requires ready { IsReadyFor self.old ready }
        ensures { self.new ≡ after_batch (batch_of ready.batch) self.old }
    {
        let Ready { batch, mut parts } = ready;
        let moment = batch.moment;
        let batches = self.batches + 1;
        // An admitted batch is one entry, or only events. If a batch had several changes, `released` would keep what the last one of each kind
        // leaves over, and the rest would be dropped here. No call makes such a batch.
        let mut released = Released::nothing();
        for entry in &batch.entries {
            match parts.pop_front() {
                Some(part) => self.join(entry, part, moment, &mut released),
                None => unreachable!(),
            }
        }
        released.expired = Some(purge(&self.set, &mut self.archives, moment));
        self.batches = batches;
        self.moment = moment;
        released.batch = Some(batch);
        released.parts = Some(parts);
        released
    }

    /// Applies one entry, whose part this is. `released` receives what it leaves over.
    fn join(&mut self, entry: &Entry, part: Part, moment: u64, released: &mut Released)
        requires part { IsPartOf moment self.old.set (entry_of entry.now) part }
        requires made { IsMadeOn moment self.old (entry_of entry.now) part }
        requires admitted { IsEntryAdmitted moment (entry_of entry.now) self.old }
        requires moment { IsMoment moment }
        requires later { self.old.moment ≤ moment }
        requires entries { self.old.entries + 1 < number_limit + 2 ^ 20 }
        requires created { self.old.duties.created + 1500 < number_limit + 2 ^ 20 }
        ensures joined { self.new ≡ after_entry moment (entry_of entry.now) self.old }
        ensures created { self.new.duties.created ≤ self.old.duties.created + 1500 }
    {
        match part {
            Part::Configuration {
                set,
                new_queue,
                new_archive,
            } => self.configure(entry, set, new_queue, new_archive, moment, released),
            Part::Event { duties, kept } => self.publish(entry, duties, kept, moment),
            Part::Start { new_replay } => self.start_replay(entry, new_replay, moment),
            Part::Step { duties } => self.step_replay(entry, duties, moment, released),
            Part::Cancellation => self.cancel_replay(entry, moment, released),
            Part::Nothing => self.delete_messages(entry, released),
        }
    }

    /// Applies the change that is this entry, with the rule set after it, and the queue or the archive that it creates, if it creates one.
    /// `released` receives the rule set before it, and what it removes.
    fn configure(
        &mut self,
        entry: &Entry,
        set: RuleSet,
        new_queue: Option<NewQueue>,
        new_archive: Option<Archive>,
        moment: u64,
        released: &mut Released,
    )
        requires change { (c : Change) × (entry_of entry.now ≡ change c) }
        requires part { IsPartOf moment self.old.set (entry_of entry.now) (Configuration set new_queue new_archive) }
        requires admitted { IsEntryAdmitted moment (entry_of entry.now) self.old }
        requires entries { self.old.entries + 1 < number_limit + 2 ^ 20 }
        ensures configured { self.new ≡ after_entry moment (entry_of entry.now) self.old }
        ensures created { self.new.duties.created ≡ self.old.duties.created }
    {
        match entry {
            Entry::Control(control) => {
                released.set = Some(mem::replace(&mut self.set, set));
                create_queue(&mut self.duties, new_queue);
                released.queue = forget_queue(&mut self.duties, deleted_by(control));
                change_archives(&mut self.archives, control, new_archive, moment, released);
                self.entries += 1;
            }
            Entry::Accepted(_)
            | Entry::Attempt { .. }
            | Entry::ReplayStarted(_)
            | Entry::ReplayStepped(_)
            | Entry::ReplayCancelled { .. }
            | Entry::MessagesDeleted { .. } => unreachable!(),
        }
    }

    /// Applies the event that is this entry, whose duties these are, and of whose record there is a pointer for each of its archives.
    fn publish(&mut self, entry: &Entry, duties: NewDuties, kept: LinkedList<EventRef>, moment: u64)
        requires event { (e : Event) × (entry_of entry.now ≡ accepted e) }
        requires part { IsPartOf moment self.old.set (entry_of entry.now) (EventPart duties kept) }
        requires admitted { IsEntryAdmitted moment (entry_of entry.now) self.old }
        requires moment { IsMoment moment }
        requires later { self.old.moment ≤ moment }
        requires entries { self.old.entries + 1 < number_limit + 2 ^ 20 }
        requires created { self.old.duties.created + length duties < number_limit + 2 ^ 20 }
        ensures added { self.new ≡ after_entry moment (entry_of entry.now) self.old }
        ensures created { self.new.duties.created ≡ self.old.duties.created + length duties }
    {
        match entry {
            Entry::Accepted(event) => {
                self.duties.add(duties, moment);
                keep_each(&mut self.archives, &event.archives, kept);
                self.events += 1;
                self.entries += 1;
                self.moment = moment;
            }
            Entry::Control(_)
            | Entry::Attempt { .. }
            | Entry::ReplayStarted(_)
            | Entry::ReplayStepped(_)
            | Entry::ReplayCancelled { .. }
            | Entry::MessagesDeleted { .. } => unreachable!(),
        }
    }

    /// What the start adds in a batch of this moment: a replay of what its archive retains then.
    pub(crate) fn new_replay(
        &self,
        alloc: Global,
        start: &StartedReplay,
        moment: u64,
    ) -> Result<NewReplay, NoMemory>
        requires { IsStartAdmitted self.now start.now }
        ensures { IfOk result (λ new. IsNewReplay moment start.now self.now new) }
    {
        let row = row_in(&self.set, start.archive.as_str());
        let archive = archive_in(&self.archives, start.archive.as_str());
        let settings = settings_of(alloc, row, start, moment)?;
        self.replays.prepare(alloc, archive, settings)
    }

    /// Applies the start that is this entry.
    fn start_replay(&mut self, entry: &Entry, new_replay: NewReplay, moment: u64)
        requires start { (s : Start) × (entry_of entry.now ≡ replay_started s) }
        requires made { IsMadeOn moment self.old (entry_of entry.now) (StartPart new_replay) }
        requires admitted { IsEntryAdmitted moment (entry_of entry.now) self.old }
        requires entries { self.old.entries + 1 < number_limit + 2 ^ 20 }
        ensures started { self.new ≡ after_entry moment (entry_of entry.now) self.old }
        ensures created { self.new.duties.created ≡ self.old.duties.created }
    {
        let _of_a_batch = moment;
        let _the_start = entry;
        self.replays.start(new_replay);
        self.entries += 1;
    }

    /// Applies the step that is this entry, whose duties these are. `released` receives the event, and the list of a replay that it completes.
    fn step_replay(
        &mut self,
        entry: &Entry,
        duties: NewDuties,
        moment: u64,
        released: &mut Released,
    )
        requires step { (s : Step) × (entry_of entry.now ≡ replay_stepped s) }
        requires part { IsPartOf moment self.old.set (entry_of entry.now) (StepPart duties) }
        requires admitted { IsEntryAdmitted moment (entry_of entry.now) self.old }
        requires moment { IsMoment moment }
        requires entries { self.old.entries + 1 < number_limit + 2 ^ 20 }
        requires created { self.old.duties.created + length duties < number_limit + 2 ^ 20 }
        ensures stepped { self.new ≡ after_entry moment (entry_of entry.now) self.old }
        ensures created { self.new.duties.created ≡ self.old.duties.created + length duties }
    {
        match entry {
            Entry::ReplayStepped(step) => {
                self.duties.add(duties, moment);
                released.stepped = self.replays.step(step.name.as_str(), moment);
                self.entries += 1;
            }
            Entry::Control(_)
            | Entry::Accepted(_)
            | Entry::Attempt { .. }
            | Entry::ReplayStarted(_)
            | Entry::ReplayCancelled { .. }
            | Entry::MessagesDeleted { .. } => unreachable!(),
        }
    }

    /// Applies the cancellation that is this entry. `released` receives what the replay has not repeated.
    fn cancel_replay(&mut self, entry: &Entry, moment: u64, released: &mut Released)
        requires cancellation { (name : List ℕ) × (entry_of entry.now ≡ replay_cancelled name) }
        requires entries { self.old.entries + 1 < number_limit + 2 ^ 20 }
        ensures cancelled { self.new ≡ after_entry moment (entry_of entry.now) self.old }
        ensures created { self.new.duties.created ≡ self.old.duties.created }
    {
        match entry {
            Entry::ReplayCancelled { name } => {
                released.rest = self.replays.cancel(name.as_str(), moment);
                self.entries += 1;
            }
            Entry::Control(_)
            | Entry::Accepted(_)
            | Entry::Attempt { .. }
            | Entry::ReplayStarted(_)
            | Entry::ReplayStepped(_)
            | Entry::MessagesDeleted { .. } => unreachable!(),
        }
    }

    /// Applies the deletion of messages that is this entry. `released` receives the messages.
    fn delete_messages(&mut self, entry: &Entry, released: &mut Released)
        requires deletion { (queue : List ℕ) × (through : ℕ) × (entry_of entry.now ≡ messages_deleted queue through) }
        requires entries { self.old.entries + 1 < number_limit + 2 ^ 20 }
        ensures deleted { (moment : ℕ) → self.new ≡ after_entry moment (entry_of entry.now) self.old }
        ensures created { self.new.duties.created ≡ self.old.duties.created }
    {
        match entry {
            Entry::MessagesDeleted { queue, through } => {
                released.messages = self.duties.delete_through(queue.as_str(), *through);
                self.entries += 1;
            }
            Entry::Control(_)
            | Entry::Accepted(_)
            | Entry::Attempt { .. }
            | Entry::ReplayStarted(_)
            | Entry::ReplayStepped(_)
            | Entry::ReplayCancelled { .. } => unreachable!(),
        }
    }

    /// Claims the duty that is due first; none if no unclaimed duty is due. No batch records it. After an error nothing is claimed.
    pub fn claim(&mut self, alloc: Global, moment: u64) -> Result<Option<Errand>, NoMemory>
        ensures some { IfOk result (λ found. IfSome found (λ e. IsClaimed self.old moment e self.new)) }
        ensures none { IfOk result (λ found. IfNone found (NoneDue self.old.duties moment × (self.new ≡ self.old))) }
        ensures unchanged { OnErr result (self.new ≡ self.old) }
    {
        if self.duties.counts().pending == 0 {
            return Ok(None);
        }
        let entries = Vec::with_capacity(alloc, 1)?;
        let Some(claim) = self.duties.claim_next(moment) else {
            return Ok(None);
        };
        match self.shared(claim.number) {
            Ok(
                Shared {
                    target,
                    text,
                    accepted,
                },
            ) => Ok(Some(Errand {
                claim,
                target,
                text,
                accepted,
                moment,
                batch: Batch { moment, entries },
            })),
            Err(NoMemory) => {
                self.duties.unclaim(claim);
                Err(NoMemory)
            }
        }
    }

    /// What an errand shares with the duty of this number.
    fn shared(&self, number: u64) -> Result<Shared, NoMemory>
        requires { IsOut number self.now.duties }
        ensures { IfOk result (λ s. (row : DutyRow) × (pending_row number self.now.duties ≡ Some row) × (s.target ≡ row.duty.target)
            × (s.text ≡ row.duty.text) × (s.accepted ≡ row.accepted)) }
    {
        match self.duties.pending(number) {
            Some(row) => Ok(Shared {
                target: row.duty.target.share()?,
                text: row.duty.text.share()?,
                accepted: row.accepted,
            }),
            None => unreachable!(),
        }
    }

    /// Makes the batch that records the outcome of the errand's attempt, and returns the outcome that it records. If a queue accepted the
    /// text, this decides whether the queue exists. Takes no memory.
    pub fn record_outcome(&self, errand: &mut Errand, outcome: Outcome, moment: u64) -> Outcome
        requires errand { IsErrandOf self.now errand.old }
        requires numbered { is_full self.now ≡ false }
        requires moment { IsMoment moment }
        requires later { self.now.moment ≤ moment }
        requires due { errand.old.moment ≤ moment }
        ensures recorded { IsRecordedAs self.now.duties.queues errand.old.target.endpoint outcome result
            × (batch_of errand.new.batch ≡ record_of moment errand.old.claim.number result) }
        ensures admitted { IsAdmitted self.now (batch_of errand.new.batch) }
        ensures same { errand.new ≡ record errand.old { batch = errand.new.batch; room = errand.new.room } }
    {
        let outcome = self.recorded(errand.target.endpoint(), outcome);
        let duty = errand.claim.number;
        errand.batch.moment = moment;
        errand.batch.entries.clear();
        match errand.batch.entries.push(Entry::Attempt { duty, outcome }) {
            Ok(()) => (),
            Err(_) => unreachable!(),
        }
        outcome
    }

    /// What is recorded of an attempt to reach the endpoint that ended so.
    fn recorded(&self, endpoint: &str, outcome: Outcome) -> Outcome
        ensures { IsRecordedAs self.now.duties.queues endpoint.now outcome result }
    {
        match outcome {
            Outcome::Accepted => match queue_of(endpoint) {
                Some(queue) => {
                    if self.duties.has_queue(queue) {
                        Outcome::Accepted
                    } else {
                        Outcome::NoQueue
                    }
                }
                None => Outcome::Accepted,
            },
            Outcome::Code(code) => Outcome::Code(code),
            Outcome::NoAnswer => Outcome::NoAnswer,
            Outcome::NoQueue => Outcome::NoQueue,
            Outcome::TooOld => Outcome::TooOld,
        }
    }

    /// Applies the batch that records the errand's attempt. Returns the duty's fate, and what the errand leaves over. Takes no memory.
    pub fn finish(&mut self, errand: Errand) -> (Fate, Released)
        requires errand { IsErrandOf self.old errand }
        requires admitted { IsAdmitted self.old (batch_of errand.batch) }
        requires recorded { (outcome : Ended) × (batch_of errand.batch ≡ record_of errand.batch.moment errand.claim.number outcome) }
        ensures fate { (row : DutyRow) (outcome : Ended) → pending_row errand.claim.number self.old.duties ≡ Some row
            → batch_of errand.batch ≡ record_of errand.batch.moment errand.claim.number outcome
            → result.0 ≡ fate_after self.old.duties.queues errand.batch.moment row outcome }
        ensures tables { self.new ≡ after_batch (batch_of errand.batch) self.old }
    {
        let Errand {
            claim,
            target,
            text,
            accepted: _,
            moment: _,
            batch: Batch {
                moment,
                mut entries,
            },
        } = errand;
        let mut released = Released::nothing();
        match entries.pop() {
            Some(Entry::Attempt { duty: _, outcome }) => {
                let fate = self.duties.settle(claim, outcome, moment);
                released.expired = Some(purge(&self.set, &mut self.archives, moment));
                self.entries += 1;
                self.batches += 1;
                self.moment = moment;
                released.batch = Some(Batch { moment, entries });
                released.target = Some(target);
                released.text = Some(text);
                (fate, released)
            }
            Some(_) | None => unreachable!(),
        }
    }

    /// Applies the batch that records an attempt of the duty of this number, which is pending and not claimed. Returns the duty's fate. Takes
    /// no memory. Visits the unclaimed duties that come before it.
    pub fn settle_at(&mut self, duty: u64, outcome: Outcome, moment: u64) -> Fate
        requires admitted { IsAdmitted self.old (record_of moment duty outcome) }
        requires free { (row : DutyRow) × (pending_row duty self.old.duties ≡ Some row) × (row.claimed ≡ false) × (row.number ≡ duty) }
        ensures fate { (row : DutyRow) → pending_row duty self.old.duties ≡ Some row → result ≡ fate_after self.old.duties.queues moment row outcome }
        ensures tables { self.new ≡ after_batch (record_of moment duty outcome) self.old }
    {
        let claim = self.duties.claim_at(duty);
        let fate = self.duties.settle(claim, outcome, moment);
        let _expired = purge(&self.set, &mut self.archives, moment);
        self.entries += 1;
        self.batches += 1;
        self.moment = moment;
        fate
    }

    /// Releases the errand's claim: the duty can be claimed again.
    pub fn put_back(&mut self, errand: Errand)
        requires { IsErrandOf self.old errand }
        ensures { self.new ≡ putting_back errand.claim.number self.old }
    {
        let Errand {
            claim,
            target: _target,
            text: _text,
            accepted: _,
            moment: _,
            batch: _batch,
        } = errand;
        self.duties.unclaim(claim);
    }
}

/// What an errand shares with its duty.
struct Shared {
    target: SharedRow,
    text: SharedText,
    accepted: u64,
}

/// What the rule set has of the archive of this name, which is there.
fn row_in<'a>(set: &'a RuleSet, name: &str) -> &'a ArchiveRow
    requires { has_archive name.now set.now ≡ true }
    ensures { archive_at name.now set.now ≡ Some result.now }
{
    match set.archive(name) {
        Some(row) => row,
        None => unreachable!(),
    }
}

/// The archive of this name, which is there.
fn archive_in<'a>(archives: &'a Archives, name: &str) -> &'a Archive
    requires { ¬ (named name_of name.now archives.now ≡ None) }
    ensures { named name_of name.now archives.now ≡ Some result.now }
{
    match archives.find(name) {
        Some(archive) => archive,
        None => unreachable!(),
    }
}

/// What a replay of the archive of this row is asked for, at this moment.
fn settings_of(
    alloc: Global,
    row: &ArchiveRow,
    start: &StartedReplay,
    moment: u64,
) -> Result<ReplaySettings, NoMemory>
    ensures { IfOk result (λ settings. settings ≡ settings_of moment row.now start.now) }
{
    let name = start.name.copy(alloc)?;
    let archive = start.archive.copy(alloc)?;
    let bus = Text::from_str(alloc, row.bus())?;
    let rules = copied_rules(alloc, &start.rules)?;
    Ok(ReplaySettings {
        name,
        archive,
        bus,
        range: start.range,
        rules,
        started_at: moment,
    })
}

/// Creates the queue, if there is one to create.
fn create_queue(duties: &mut Duties, new_queue: Option<NewQueue>)
    requires { IfSome new_queue (λ name. length duties.old.queues < 1000) }
    ensures { duties.new ≡ with_created new_queue duties.old }
{
    if let Some(new_queue) = new_queue {
        duties.create_queue(new_queue);
    }
}

/// Deletes the queue of this name, if there is one to delete, and returns it with its messages.
fn forget_queue(duties: &mut Duties, deleted: Option<&str>) -> Option<RemovedQueue>
    ensures { duties.new ≡ with_forgotten (option_copied deleted.entry) duties.old }
{
    match deleted {
        Some(queue) => duties.forget(queue),
        None => None,
    }
}

/// The name of the queue that the change deletes, if it deletes one.
fn deleted_by(control: &Control) -> Option<&str>
    ensures { option_copied result ≡ deleted_by (control_of control.now) }
{
    match control {
        Control::QueueDeleted { name } => Some(name.as_str()),
        Control::BusCreated { .. }
        | Control::BusDeleted { .. }
        | Control::RulePut { .. }
        | Control::RuleDeleted { .. }
        | Control::StatePut { .. }
        | Control::TargetsPut { .. }
        | Control::TargetsRemoved { .. }
        | Control::PolicyPut { .. }
        | Control::QueueCreated { .. }
        | Control::ArchiveCreated { .. }
        | Control::ArchiveUpdated { .. }
        | Control::ArchiveDeleted { .. } => None,
    }
}
