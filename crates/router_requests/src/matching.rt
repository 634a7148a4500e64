//! Which rules match an event.
ghost use Rattle.std.specs.Prelude.{◌≡◌, ◌↔◌, ◌++◌, ◌∷◌, [], true, ℕ, List, None, Some, map, IsTrue, IsFalse, IfOk, OnOk, Ok};
ghost use Rattle.std.specs.Option.{option_copied};
ghost use Rattle.json_text.specs.View.{tree_of};
ghost use Rattle.json_text.specs.Compact.{IsValue};
ghost use Rattle.event_shape.specs.Event.{event_tree};
ghost use Rattle.rule_table.specs.RuleSet.{archives_of, rules_of};
ghost use Rattle.std.specs.Str.{bytes_eq};
ghost use Rattle.bus_policy.specs.View.{verdict_of as policy_verdict_of};
ghost use Rattle.router_requests.specs.View.{request_of, action_of};
ghost use Rattle.router_requests.specs.Verdict.{IsEntryVerdict, IsVerdictOn, seen_verdict};
ghost use Rattle.router_requests.specs.Matching.{TextMatches, Matches, seen_target, AreMatched, AreTargetsOf, IsSeenEntry, AreSeenEntries, IsSeenResult};
ghost use Rattle.router_requests.specs.Matching.{IsSeen, HasValue, IsSeenEvent, AreArchivesOf, AreKeeping, Keeps, MatchesIfGiven, seen_archive};

use crate::finder::Finder;
use crate::request::{Action, Request};
use crate::seen::{
    Seen, SeenArchive, SeenArchives, SeenEntries, SeenEntry, SeenResult, SeenTarget, SeenTargets,
    SeenVerdict,
};
use bus_policy::{Asker, Verdict, bus_verdict};
use event_shape::{EntryFault, Event, Unnumbered};
use json_text::{Json, NoMemory, Text};
use pattern_meaning::plain_holds;
use pattern_read::{PatternText, SharedPattern};
use rule_table::{ArchiveRow, Bus, Rule, RuleSet};
use rule_targets::share_input;
use std::alloc::Global;
use std::collections::VecDeque;

/// Matches the request against the rule set: what becomes of each entry of a PutEvents, and whether the pattern of a
/// TestEventPattern matches. It needs no number of an event, so it may come before the request's turn.
pub fn see_plain(alloc: Global, set: &RuleSet, request: &Request) -> Result<Seen, NoMemory>
    requires { HasValue (action_of request.now.action) }
    ensures { IfOk result (λ seen. IsSeen set.now (request_of request.now) seen) }
{
    see_with(alloc, set, request)
}

/// The same as `see_plain`, on the rule set of this finder.
pub fn see_with<F: Finder>(alloc: Global, finder: &F, request: &Request) -> Result<Seen, NoMemory>
    requires { HasValue (action_of request.now.action) }
    ensures { IfOk result (λ seen. IsSeen (F.set_of finder.now) (request_of request.now) seen) }
{
    Ok(Seen {
        k: finder.rule_set().control_count(),
        result: found(alloc, finder, request.caller.as_str(), &request.action)?,
    })
}

/// What matching finds for the action of this caller.
fn found<F: Finder>(
    alloc: Global,
    finder: &F,
    caller: &str,
    action: &Action,
) -> Result<SeenResult, NoMemory>
    requires { HasValue (action_of action.now) }
    ensures { IfOk result (λ found. IsSeenResult (F.set_of finder.now) caller.now (action_of action.now) found) }
{
    match action {
        Action::PutEvents { entries, size: _ } => {
            Ok(SeenResult::Entries(see_entries(alloc, finder, caller, entries)?))
        }
        Action::TestEventPattern { pattern, event } => {
            Ok(SeenResult::Tested(pattern_matches(pattern.pattern(), event)))
        }
        Action::CreateEventBus { .. }
        | Action::DeleteEventBus { .. }
        | Action::DescribeEventBus { .. }
        | Action::ListEventBuses { .. }
        | Action::PutRule { .. }
        | Action::DeleteRule { .. }
        | Action::PutRuleState { .. }
        | Action::DescribeRule { .. }
        | Action::ListRules { .. }
        | Action::PutTargets { .. }
        | Action::RemoveTargets { .. }
        | Action::ListTargetsByRule { .. }
        | Action::ListRuleNamesByTarget { .. }
        | Action::PutPolicy { .. }
        | Action::PutStatement { .. }
        | Action::RemovePolicy { .. }
        | Action::RemoveStatement { .. }
        | Action::CreateArchive { .. }
        | Action::UpdateArchive { .. }
        | Action::DeleteArchive { .. }
        | Action::DescribeArchive { .. }
        | Action::ListArchives { .. }
        | Action::StartReplay { .. }
        | Action::CancelReplay { .. }
        | Action::DescribeReplay { .. }
        | Action::ListReplays { .. }
        | Action::CreateQueue { .. }
        | Action::DeleteQueue { .. }
        | Action::PeekMessages { .. }
        | Action::DeleteMessages { .. }
        | Action::DeliverDue { .. }
        | Action::StepReplays { .. }
        | Action::DutyCounts => Ok(SeenResult::Nothing),
    }
}

/// Matches each entry of this caller.
fn see_entries<F: Finder>(
    alloc: Global,
    finder: &F,
    caller: &str,
    entries: &[Result<Unnumbered, EntryFault>],
) -> Result<SeenEntries, NoMemory>
    ensures { IfOk result (λ all. AreSeenEntries (F.set_of finder.now) caller.now entries.now all.items) }
{
    let mut all = VecDeque::with_capacity(alloc, entries.len())?;
    for entry in entries {
        all.push_back(see_entry(alloc, finder, caller, entry)?)?;
    }
    Ok(all)
}

/// The verdict on an entry of this caller, and the targets that match its event if it is allowed.
fn see_entry<F: Finder>(
    alloc: Global,
    finder: &F,
    caller: &str,
    entry: &Result<Unnumbered, EntryFault>,
) -> Result<SeenEntry, NoMemory>
    ensures { IfOk result (λ seen. IsSeenEntry (F.set_of finder.now) caller.now entry.now seen) }
{
    match entry {
        Ok(event) => see_event(alloc, finder, caller, event),
        Err(fault) => Ok(SeenEntry {
            verdict: SeenVerdict::Fault(*fault),
            targets: VecDeque::new(alloc),
            archives: VecDeque::new(alloc),
        }),
    }
}

/// The verdict on an event of this caller that has no number yet, and the targets that match it if it is allowed.
fn see_event<F: Finder>(
    alloc: Global,
    finder: &F,
    caller: &str,
    event: &Unnumbered,
) -> Result<SeenEntry, NoMemory>
    ensures { IfOk result (λ seen. IsSeenEntry (F.set_of finder.now) caller.now (Ok event.now) seen) }
{
    let verdict = verdict_on(alloc, finder.rule_set(), caller, event)?;
    let targets = targets_if_allowed(alloc, finder, event, &verdict)?;
    let archives = archives_if_allowed(alloc, finder, event, &verdict)?;
    Ok(SeenEntry {
        verdict,
        targets,
        archives,
    })
}

/// The verdict on an event of this caller.
fn verdict_on(
    alloc: Global,
    set: &RuleSet,
    caller: &str,
    event: &Unnumbered,
) -> Result<SeenVerdict, NoMemory>
    ensures { IfOk result (λ verdict. IsEntryVerdict set.now caller.now (Ok event.now) verdict) }
{
    match set.bus(event.bus()) {
        Some(bus) => policy_verdict(alloc, bus, caller, event),
        None => Ok(SeenVerdict::NoBus),
    }
}

/// The targets of an event with this verdict: those of the rules that match it if it is allowed, else none.
fn targets_if_allowed<F: Finder>(
    alloc: Global,
    finder: &F,
    event: &Unnumbered,
    verdict: &SeenVerdict,
) -> Result<SeenTargets, NoMemory>
    ensures { IfOk result (λ targets. AreTargetsOf (F.set_of finder.now) (Ok event.now) verdict.now targets.items) }
{
    match verdict {
        SeenVerdict::Allowed => finder.targets(alloc, event.bus(), event.tree()),
        SeenVerdict::Fault(_)
        | SeenVerdict::NoBus
        | SeenVerdict::DeniedBy(_)
        | SeenVerdict::NotAllowed => Ok(VecDeque::new(alloc)),
    }
}

/// The archives of an event with this verdict: those that keep it if it is allowed, else none.
fn archives_if_allowed<F: Finder>(
    alloc: Global,
    finder: &F,
    event: &Unnumbered,
    verdict: &SeenVerdict,
) -> Result<SeenArchives, NoMemory>
    ensures { IfOk result (λ archives. AreArchivesOf (F.set_of finder.now) (Ok event.now) verdict.now archives.items) }
{
    match verdict {
        SeenVerdict::Allowed => finder.archives(alloc, event.bus(), event.tree()),
        SeenVerdict::Fault(_)
        | SeenVerdict::NoBus
        | SeenVerdict::DeniedBy(_)
        | SeenVerdict::NotAllowed => Ok(VecDeque::new(alloc)),
    }
}

/// Matches one event that has its number against the rules of its bus. `replay` is the name of the replay that sends the event, if one does.
pub fn see_plain_event(
    alloc: Global,
    set: &RuleSet,
    bus: &str,
    event: &Event,
    replay: Option<&str>,
) -> Result<(u64, SeenTargets), NoMemory>
    ensures { IfOk result (λ seen. IsSeenEvent set.now bus.now (event_tree event.now (option_copied replay.entry)) seen.0 seen.1.items) }
{
    see_event_with(alloc, set, bus, event, replay)
}

/// The same as `see_plain_event`, on the rule set of this finder.
pub fn see_event_with<F: Finder>(
    alloc: Global,
    finder: &F,
    bus: &str,
    event: &Event,
    replay: Option<&str>,
) -> Result<(u64, SeenTargets), NoMemory>
    ensures { IfOk result (λ seen. IsSeenEvent (F.set_of finder.now) bus.now (event_tree event.now (option_copied replay.entry)) seen.0 seen.1.items) }
{
    let tree = event.tree(alloc, replay)?;
    let targets = finder.targets(alloc, bus, &tree)?;
    Ok((finder.rule_set().control_count(), targets))
}

/// The verdict on an event for this bus.
fn policy_verdict(
    alloc: Global,
    bus: &Bus,
    caller: &str,
    event: &Unnumbered,
) -> Result<SeenVerdict, NoMemory>
    ensures { IfOk result (λ seen. IsVerdictOn (Some bus.now) caller.now event.now seen) }
{
    let asker = Asker {
        account: caller,
        bus: event.bus(),
        source: event.source(),
        detail_type: event.detail_type(),
    };
    match bus.policy() {
        Some(policy) => owned(alloc, policy.policy().decide(&asker)),
        None => owned(alloc, bus_verdict(None, &asker)),
    }
}

/// The verdict, with its text copied.
fn owned(alloc: Global, verdict: Verdict) -> Result<SeenVerdict, NoMemory>
    ensures { IfOk result (λ seen. seen ≡ seen_verdict (policy_verdict_of verdict.entry)) }
{
    match verdict {
        Verdict::Allowed => Ok(SeenVerdict::Allowed),
        Verdict::DeniedBy(name) => Ok(SeenVerdict::DeniedBy(Text::from_str(alloc, name)?)),
        Verdict::NoAllow => Ok(SeenVerdict::NotAllowed),
    }
}

/// The targets of the rules of the bus that match the event; none if there is no such bus.
pub(crate) fn matched(
    alloc: Global,
    set: &RuleSet,
    bus: &str,
    event: &Json,
) -> Result<SeenTargets, NoMemory>
    requires { IsValue (tree_of event.now) }
    ensures { IfOk result (λ targets. AreMatched (rules_of bus.now set.now) (tree_of event.now) targets.items) }
{
    let mut targets = VecDeque::new(alloc);
    let Some(found) = set.bus(bus) else {
        return Ok(targets);
    };
    let mut rules = found.rules();
    while let Some(rule) = rules.next() {
        if matches(rule, event) {
            push_targets(rule, &mut targets)?;
        }
    }
    Ok(targets)
}

/// The archives of the bus that keep the event, by name.
pub fn archives_keeping(
    alloc: Global,
    set: &RuleSet,
    bus: &str,
    event: &Json,
) -> Result<SeenArchives, NoMemory>
    requires { IsValue (tree_of event.now) }
    ensures { IfOk result (λ archives. AreKeeping (archives_of bus.now set.now) (tree_of event.now) archives.items) }
{
    let mut found = VecDeque::new(alloc);
    let mut archives = set.archives();
    while let Some(archive) = archives.next() {
        if keeps(archive, bus, event) {
            push_archive(archive, &mut found)?;
        }
    }
    Ok(found)
}

/// Whether the archive is the bus's and keeps the event.
fn keeps(archive: &ArchiveRow, bus: &str, event: &Json) -> bool
    requires { IsValue (tree_of event.now) }
    ensures yes { IsTrue result → (bytes_eq archive.now.bus bus.now ≡ true) × Keeps archive.now (tree_of event.now) }
    ensures not { IsFalse result → bytes_eq archive.now.bus bus.now ≡ true → ¬ Keeps archive.now (tree_of event.now) }
{
    if archive.bus() == bus {
        matches_if_given(archive.pattern(), event)
    } else {
        false
    }
}

/// Whether there is no pattern, or it matches the event.
fn matches_if_given(pattern: Option<&SharedPattern>, event: &Json) -> bool
    requires { IsValue (tree_of event.now) }
    ensures { IsTrue result ↔ MatchesIfGiven (option_copied pattern.entry) (tree_of event.now) }
{
    match pattern {
        Some(pattern) => pattern_matches(pattern.pattern(), event),
        None => true,
    }
}

/// Appends the archive.
fn push_archive(archive: &ArchiveRow, found: &mut SeenArchives) -> Result<(), NoMemory>
    ensures { OnOk result (found.new.items ≡ found.old.items ++ seen_archive archive.now ∷ []) }
{
    found.push_back(SeenArchive {
        name: archive.share_name()?,
        made: archive.made(),
    })?;
    Ok(())
}

/// Whether the rule is enabled and its pattern matches the event.
fn matches(rule: &Rule, event: &Json) -> bool
    requires { IsValue (tree_of event.now) }
    ensures yes { IsTrue result → Matches rule.now (tree_of event.now) }
    ensures not { IsFalse result → ¬ Matches rule.now (tree_of event.now) }
{
    rule.is_enabled() && pattern_matches(rule.pattern(), event)
}

/// Whether the pattern holds of the event. It takes no memory.
pub fn pattern_matches(pattern: &PatternText, event: &Json) -> bool
    requires { IsValue (tree_of event.now) }
    ensures { IsTrue result ↔ TextMatches pattern.now (tree_of event.now) }
{
    plain_holds(pattern.pattern(), event)
}

/// Appends the targets of the rule.
pub fn push_targets(rule: &Rule, targets: &mut SeenTargets) -> Result<(), NoMemory>
    ensures { OnOk result (targets.new.items ≡ targets.old.items ++ map (seen_target rule.now) rule.now.targets) }
{
    for target in rule.targets() {
        targets.push_back(SeenTarget {
            row: target.row().share()?,
            input: share_input(target.input())?,
        })?;
    }
    Ok(())
}
