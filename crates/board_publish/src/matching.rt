//! Matching by the automaton of a bus.
ghost use Rattle.std.specs.Prelude.{◌≡◌, ◌<◌, ◌++◌, ℕ, List, All, IfOk, OnOk, length, flat_map};
ghost use Rattle.std.specs.Option.{option_copied};
ghost use Rattle.json_text.specs.Compact.{IsValue};
ghost use Rattle.json_text.specs.View.{tree_of};
ghost use Rattle.event_shape.specs.Event.{event_tree};
ghost use Rattle.rule_table.specs.RuleSet.{RuleSet as Set, rule_at, rules_of};
ghost use Rattle.rule_table.specs.Sound.{IsSound};
ghost use Rattle.router_requests.specs.Matching.{AreMatched, HasValue, IsSeen, IsSeenEvent};
ghost use Rattle.router_requests.specs.View.{action_of, request_of};
ghost use Rattle.board_publish.specs.Matchers.{HasRule, IsKnown, enabled_at};
ghost use Rattle.board_publish.specs.Found.{found_for, seen_of};

use crate::board::Board;
use crate::entered::Entered;
use crate::matcher::Matcher;
use crate::numbers::no_marks;
use event_flatten::Fields;
use event_shape::Event;
use json_text::{Json, NoMemory};
use name_rows::{Row, Rows};
use numeric_keys::Marks;
use router_requests::{
    Finder, Request, Seen, SeenArchives, SeenTargets, archives_keeping, push_targets,
    see_event_with, see_with,
};
use rule_table::RuleSet;
use std::alloc::Global;
use std::collections::VecDeque;

impl Board {
    /// The rule set.
    pub fn set(&self) -> &RuleSet
        ensures { result.now ≡ self.now }
    {
        &self.set
    }

    /// Matches the request, as `see_plain` on the rule set.
    pub fn seen(&self, alloc: Global, request: &Request) -> Result<Seen, NoMemory>
        requires { HasValue (action_of request.now.action) }
        ensures { IfOk result (λ seen. IsSeen self.now (request_of request.now) seen) }
    {
        see_with(alloc, self, request)
    }

    /// Matches one event that has its number, as `see_plain_event` on the rule set.
    pub fn seen_event(
        &self,
        alloc: Global,
        bus: &str,
        event: &Event,
        replay: Option<&str>,
    ) -> Result<(u64, SeenTargets), NoMemory>
        ensures { IfOk result (λ seen. IsSeenEvent self.now bus.now (event_tree event.now (option_copied replay.entry)) seen.0 seen.1.items) }
    {
        see_event_with(alloc, self, bus, event, replay)
    }

    /// The automaton of this bus, if the bus has an enabled rule.
    fn matcher(&self, bus: &str) -> Option<&Matcher>
        ensures known { (name : List ℕ) → IsKnown (enabled_at bus.now name self.now) name (option_copied result) }
        ensures sound { IsSound self.now }
    {
        let _version = self.set.control_count();
        self.matchers.find(bus)
    }

    /// The targets of the rules of the bus that match the event, in the order of the rules; none if there is no such bus.
    fn matched(&self, alloc: Global, bus: &str, event: &Json) -> Result<SeenTargets, NoMemory>
        requires { IsValue (tree_of event.now) }
        ensures { IfOk result (λ targets. AreMatched (rules_of bus.now self.now) (tree_of event.now) targets.items) }
    {
        match self.matcher(bus) {
            Some(matcher) => targets(alloc, &self.set, matcher, bus, event),
            None => Ok(VecDeque::new(alloc)),
        }
    }
}

/// Tries the rules that the bus's automaton finds, and each archive of the bus.
impl Finder for Board {
    ghost set_of = { λ set. set };

    fn rule_set(&self) -> &RuleSet {
        &self.set
    }

    fn targets(&self, alloc: Global, bus: &str, event: &Json) -> Result<SeenTargets, NoMemory> {
        self.matched(alloc, bus, event)
    }

    fn archives(&self, alloc: Global, bus: &str, event: &Json) -> Result<SeenArchives, NoMemory> {
        archives_keeping(alloc, &self.set, bus, event)
    }
}

/// The targets of the bus's rules that match the event.
fn targets(
    alloc: Global,
    set: &RuleSet,
    matcher: &Matcher,
    bus: &str,
    event: &Json,
) -> Result<SeenTargets, NoMemory>
    requires value { IsValue (tree_of event.now) }
    requires sound { IsSound set.now }
    requires known { (name : List ℕ) → HasRule matcher.now name (enabled_at bus.now name set.now) }
    ensures { IfOk result (λ targets. AreMatched (rules_of bus.now set.now) (tree_of event.now) targets.items) }
{
    let mut marks = no_marks(alloc, matcher.places)?;
    let fields = Fields::of(alloc, matcher.automaton.paths(), event)?;
    matcher.automaton.matches(event, &fields, &mut marks);
    marked_targets(alloc, set, bus, &matcher.entered, &marks)
}

/// The targets of the rules that are marked, in the order of the names.
fn marked_targets(
    alloc: Global,
    set: &RuleSet,
    bus: &str,
    entered: &Rows<Entered>,
    marks: &Marks,
) -> Result<SeenTargets, NoMemory>
    requires { All (λ rule. rule.number < length marks.now) entered.now }
    ensures { IfOk result (λ targets. targets.items ≡ flat_map (found_for set.now bus.now marks.now) entered.now) }
{
    let mut targets = VecDeque::new(alloc);
    let mut left = entered.iter();
    while let Some(rule) = left.next() {
        if marks.has(rule.number) {
            push_targets_of(set, bus, rule.name.as_str(), &mut targets)?;
        }
    }
    Ok(targets)
}

/// Appends the targets of the rule of this name.
fn push_targets_of(
    set: &RuleSet,
    bus: &str,
    name: &str,
    targets: &mut SeenTargets,
) -> Result<(), NoMemory>
    ensures { OnOk result (targets.new.items ≡ targets.old.items ++ seen_of (rule_at bus.now name.now set.now)) }
{
    match set.rule(bus, name) {
        Some(rule) => push_targets(rule, targets),
        None => Ok(()),
    }
}
