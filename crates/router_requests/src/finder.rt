//! Which rules match an event, and which archives keep it: what matching asks of a rule set.
ghost use Rattle.std.specs.Prelude.{◌≡◌, IfOk};
ghost use Rattle.json_text.specs.Compact.{IsValue};
ghost use Rattle.json_text.specs.View.{tree_of};
ghost use Rattle.rule_table.specs.RuleSet.{RuleSet as Set, archives_of, rules_of};
ghost use Rattle.router_requests.specs.Matching.{AreKeeping, AreMatched};

use crate::matching::{archives_keeping, matched};
use crate::seen::{SeenArchives, SeenTargets};
use json_text::{Json, NoMemory};
use rule_table::RuleSet;
use std::alloc::Global;

/// A rule set by which events are matched.
pub trait Finder {
    ghost set_of: { Self → Set };

    fn rule_set(&self) -> &RuleSet
        ensures { result.now ≡ set_of self.now };

    /// The targets of the rules of the bus that match the event, in the order of the rules; none if there is no such bus.
    fn targets(&self, alloc: Global, bus: &str, event: &Json) -> Result<SeenTargets, NoMemory>
        requires { IsValue (tree_of event.now) }
        ensures { IfOk result (λ targets. AreMatched (rules_of bus.now (set_of self.now)) (tree_of event.now) targets.items) };

    /// The archives of the bus that keep the event, by name.
    fn archives(&self, alloc: Global, bus: &str, event: &Json) -> Result<SeenArchives, NoMemory>
        requires { IsValue (tree_of event.now) }
        ensures { IfOk result (λ archives. AreKeeping (archives_of bus.now (set_of self.now)) (tree_of event.now) archives.items) };
}

/// Tries each rule in turn.
impl Finder for RuleSet {
    ghost set_of = { λ set. set };

    fn rule_set(&self) -> &RuleSet {
        self
    }

    fn targets(&self, alloc: Global, bus: &str, event: &Json) -> Result<SeenTargets, NoMemory> {
        matched(alloc, self, bus, event)
    }

    fn archives(&self, alloc: Global, bus: &str, event: &Json) -> Result<SeenArchives, NoMemory> {
        archives_keeping(alloc, self, bus, event)
    }
}
