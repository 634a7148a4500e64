//! The board after a change of the rule set.
ghost use Rattle.std.specs.Prelude.{◌≡◌, ◌⊎◌, ℕ, List, None, IfOk};
ghost use Rattle.std.specs.Option.{option_copied};
ghost use Rattle.rule_table.specs.RuleSet.{applied};
ghost use Rattle.rule_table.specs.View.{control_of};
ghost use Rattle.board_publish.specs.Matchers.{enabled_at};

use crate::board::Board;
use crate::matchers::{with_rule, without_rule};
use json_text::NoMemory;
use pattern_read::SharedPattern;
use rule_table::{Control, RuleSet};
use std::alloc::Global;

impl Board {
    /// The board of this rule set, which is that of this board after the change. It shares the automata of all buses but the changed one's.
    pub fn after(&self, alloc: Global, control: &Control, set: &RuleSet) -> Result<Board, NoMemory>
        requires { set.now ≡ applied (control_of control.now) self.now }
        ensures { IfOk result (λ board. board ≡ set.now) }
    {
        match control {
            Control::RulePut {
                bus,
                name,
                pattern: _,
                enabled: _,
            } => self.with_rule_of(alloc, set, bus.as_str(), name.as_str()),
            Control::RuleDeleted { bus, name } => self.with_rule_of(
                alloc,
                set,
                bus.as_str(),
                name.as_str(),
            ),
            Control::StatePut {
                bus,
                name,
                enabled: _,
            } => self.with_rule_of(alloc, set, bus.as_str(), name.as_str()),
            Control::BusCreated { name } => self.without_bus(alloc, set, name.as_str()),
            Control::BusDeleted { name } => self.without_bus(alloc, set, name.as_str()),
            Control::TargetsPut { .. }
            | Control::TargetsRemoved { .. }
            | Control::PolicyPut { .. }
            | Control::QueueCreated { .. }
            | Control::QueueDeleted { .. }
            | Control::ArchiveCreated { .. }
            | Control::ArchiveUpdated { .. }
            | Control::ArchiveDeleted { .. } => self.with_set(alloc, set),
        }
    }

    /// The rule set alone is another one: each rule matches as before.
    fn with_set(&self, alloc: Global, set: &RuleSet) -> Result<Board, NoMemory>
        requires { (bus name : List ℕ) → enabled_at bus name set.now ≡ enabled_at bus name self.now }
        ensures { IfOk result (λ board. board ≡ set.now) }
    {
        let _alloc = alloc;
        let set = set.share()?;
        let matchers = self.matchers.share()?;
        Ok(Board { set, matchers })
    }

    /// The bus has no rule in the new set.
    fn without_bus(&self, alloc: Global, set: &RuleSet, bus: &str) -> Result<Board, NoMemory>
        requires none { (name : List ℕ) → enabled_at bus.now name set.now ≡ None }
        requires others { (other name : List ℕ) → ¬ (bus.now ≡ other) → enabled_at other name set.now ≡ enabled_at other name self.now }
        ensures { IfOk result (λ board. board ≡ set.now) }
    {
        let set = set.share()?;
        let matchers = self.matchers.without(alloc, bus)?;
        Ok(Board { set, matchers })
    }

    /// Only the rule of this name on this bus may match otherwise than before.
    fn with_rule_of(
        &self,
        alloc: Global,
        set: &RuleSet,
        bus: &str,
        name: &str,
    ) -> Result<Board, NoMemory>
        requires { (other one : List ℕ) → (¬ (bus.now ≡ other)) ⊎ (¬ (name.now ≡ one)) → enabled_at other one set.now ≡ enabled_at other one self.now }
        ensures { IfOk result (λ board. board ≡ set.now) }
    {
        let shared = set.share()?;
        let left = without_rule(alloc, &self.matchers, bus, name)?;
        match enabled_pattern(set, bus, name) {
            Some(pattern) => {
                let matchers = with_rule(alloc, &left, bus, name, pattern)?;
                Ok(Board {
                    set: shared,
                    matchers,
                })
            }
            None => Ok(Board {
                set: shared,
                matchers: left,
            }),
        }
    }
}

/// The pattern of the rule of this name on this bus, if the rule is enabled.
fn enabled_pattern<'a>(set: &'a RuleSet, bus: &str, name: &str) -> Option<&'a SharedPattern>
    ensures { option_copied result ≡ enabled_at bus.now name.now set.now }
{
    match set.rule(bus, name) {
        Some(rule) => {
            if rule.is_enabled() {
                Some(rule.shared_pattern())
            } else {
                None
            }
        }
        None => None,
    }
}
