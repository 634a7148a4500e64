//! The steps of replays: which event is repeated next, and the batch that repeats it.
ghost use Rattle.std.specs.Prelude.{◌≡◌, ◌≤◌, [], ℕ, List, Some, IfOk, IfSome, IfNone, MatchOption, false, filter};
ghost use Rattle.std.specs.List.{list_any};
ghost use Rattle.std.specs.Str.{bytes_eq};
ghost use Rattle.json_text.specs.Moment.{IsMoment};
ghost use Rattle.event_time.specs.Time.{IsIso};
ghost use Rattle.event_shape.specs.Event.{IsEventText, event_tree};
ghost use Rattle.replay_run.specs.Replays.{running};
ghost use Rattle.router_core.specs.Tables.{is_full};
ghost use Rattle.router_requests.specs.View.{batch_of, stepped_of};
ghost use Rattle.router_requests.specs.Matching.{IsSeenEvent};
ghost use Rattle.router_requests.specs.Duties.{AreDuties};
ghost use Rattle.router_core.specs.Ready.{IsReadyFor};
ghost use Rattle.router_core.specs.Replaying.{IsNextOf, IsNextReplayed, IsOneStep, IsReplayStep, passes};

use crate::ready::{Part, Ready};
use crate::tables::Tables;
use archive_keep::EventRef;
use delivery_duties::NewDuty;
use event_shape::Event;
use json_text::{NoMemory, Text};
use replay_run::{ReplayRow, RuleNames};
use router_requests::{Batch, Entry, SeenTargets, SteppedReplay, duties_of, need_tree};
use shared_text::SharedText;
use std::alloc::Global;
use std::collections::VecDeque;

/// The event that is repeated next, if a replay is running: the name of its bus, the event, and the name of its replay. It is the next event of
/// the replay that started first of those that are running.
pub fn replayed(alloc: Global, tables: &Tables) -> Result<Option<(Text, Event, Text)>, NoMemory>
    ensures some { IfOk result (λ found. IfSome found (λ x. IsNextReplayed tables.now x.0 x.1 x.2)) }
    ensures none { IfOk result (λ found. IfNone found (running tables.now.replays ≡ [])) }
{
    match next_event(tables) {
        Some((row, kept)) => {
            let event = event_of(alloc, kept)?;
            let bus = row.settings.bus.copy(alloc)?;
            let name = row.settings.name.copy(alloc)?;
            Ok(Some((bus, event, name)))
        }
        None => Ok(None),
    }
}

/// The replay that is stepped next, and its next event.
fn next_event(tables: &Tables) -> Option<(&ReplayRow, &EventRef)>
    ensures { MatchOption result (running tables.now.replays ≡ []) (λ x. IsNextOf tables.now x.0.now x.1.now) }
{
    match tables.replays().next() {
        Some(row) => match row.replay.next() {
            Some(kept) => Some((row, kept)),
            None => unreachable!(),
        },
        None => None,
    }
}

/// The event whose text is kept.
fn event_of(alloc: Global, kept: &EventRef) -> Result<Event, NoMemory>
    ensures { IfOk result (λ event. IsEventText kept.now.text event) }
{
    match Event::read(alloc, kept.text().as_bytes())? {
        Some(event) => Ok(event),
        None => unreachable!(),
    }
}

/// The batch of this moment that repeats the event, which `replayed` gave. `seen` is what matching found of it on the rule set of these tables:
/// the targets of all rules of its bus. Those that the replay's filter does not name are dropped.
pub fn step(
    alloc: Global,
    tables: &Tables,
    moment: u64,
    replayed: (Text, Event, Text),
    seen: (u64, SeenTargets),
) -> Result<Ready, NoMemory>
    requires next { IsNextReplayed tables.now replayed.0 replayed.1 replayed.2 }
    requires seen { IsSeenEvent tables.now.set replayed.0 (event_tree replayed.1 (Some replayed.2)) seen.0 seen.1.items }
    requires moment { IsMoment moment }
    requires later { tables.now.moment ≤ moment }
    requires numbered { is_full tables.now ≡ false }
    ensures ready { IfOk result (λ r. IsReadyFor tables.now r) }
    ensures step { IfOk result (λ r. IsReplayStep tables.now moment (batch_of r.batch)) }
{
    // The rule set is sound, so the event has few targets.
    let _version = tables.set().control_count();
    let (_bus, event, name) = replayed;
    let (_known, targets) = seen;
    match next_event(tables) {
        Some((row, kept)) => {
            let targets = passing(alloc, targets, &row.settings.rules)?;
            let duties = duties(alloc, &event, &name, targets, moment)?;
            let step = SteppedReplay {
                name,
                event: kept.number(),
                duties,
            };
            ready(alloc, step, moment)
        }
        None => unreachable!(),
    }
}

/// The targets of the rules that pass the filter of a replay.
fn passing(
    alloc: Global,
    mut targets: SeenTargets,
    rules: &Option<RuleNames>,
) -> Result<SeenTargets, NoMemory>
    ensures { IfOk result (λ left. left.items ≡ filter (λ seen. passes rules.now seen.row.rule_name) targets.items) }
{
    let mut left = VecDeque::new(alloc);
    while let Some(seen) = targets.pop_front() {
        if passes(rules, seen.row.rule_name()) {
            left.push_back(seen)?;
        }
    }
    Ok(left)
}

/// Whether a replay with this filter repeats events for the rule of this name.
fn passes(rules: &Option<RuleNames>, name: &str) -> bool
    ensures { result ≡ passes rules.now name.now }
{
    match rules {
        Some(rules) => is_among(rules.names(), name),
        None => true,
    }
}

/// Whether the name is one of the names.
fn is_among(names: &[Text], name: &str) -> bool
    ensures { result ≡ list_any (bytes_eq name.now) names.now }
{
    names.iter().any(|other| name == other.as_str())
}

/// The duties of the event, which this replay repeats. Its tree is made only if a target has a path or a template.
fn duties(
    alloc: Global,
    event: &Event,
    name: &Text,
    targets: SeenTargets,
    moment: u64,
) -> Result<Vec<NewDuty>, NoMemory>
    requires { IsMoment moment }
    ensures { IfOk result (λ duties. (time : List ℕ) → IsIso moment time
        → AreDuties (event_tree event.now (Some name.now)) time targets.items duties.items) }
{
    let text = SharedText::new(alloc, event.text(alloc, Some(name.as_str()))?)?;
    if need_tree(&targets) {
        let tree = event.tree(alloc, Some(name.as_str()))?;
        duties_of(alloc, targets, &text, Some(&tree), moment)
    } else {
        duties_of(alloc, targets, &text, None, moment)
    }
}

/// The batch of this step alone, with its part.
fn ready(alloc: Global, step: SteppedReplay, moment: u64) -> Result<Ready, NoMemory>
    ensures { IfOk result (λ r. IsOneStep moment (stepped_of step) r) }
{
    let part = Part::of_step(alloc, &step)?;
    let mut parts = VecDeque::with_capacity(alloc, 1)?;
    parts.push_back(part)?;
    let mut entries = Vec::with_capacity(alloc, 1)?;
    entries.push(Entry::ReplayStepped(step))?;
    Ok(Ready::new(Batch { moment, entries }, parts))
}
