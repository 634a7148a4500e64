//! Laws of changes: what a change leaves as it was.
ghost use Rattle.std.specs.Prelude.{◌≡◌, ◌⊎◌, ℕ, true, false, List, [], Option, Some, Contains};
ghost use Rattle.name_rows.specs.Rows.{named};
ghost use Rattle.rule_targets.specs.declared.target.Target.{Target};
ghost use Rattle.rule_table.specs.Control.{Control, bus_deleted, rule_deleted, targets_put, targets_removed, policy_put, queue_created, queue_deleted, archive_deleted};
ghost use Rattle.rule_table.specs.RuleSet.{RuleSet, rules_of, has_bus, has_rule, has_queue, has_archive, archives_of, is_queue_used, applied};
ghost use Rattle.rule_table.specs.Refusal.{IsAllowed};
ghost use Rattle.rule_table.specs.Sound.{IsSound};
ghost use Rattle.rule_table.specs.Altered.{changed_bus, matching_of, has_target_of_rule};

/// A change leaves every bus that it does not name as it was.
pub fn other_buses_stay()
    ensures { (control : Control) (set : RuleSet) (bus : List ℕ) → ¬ (changed_bus control ≡ Some bus)
        → named (λ b. b.name) bus (applied control set).buses ≡ named (λ b. b.name) bus set.buses }
{}

/// Targets that are put or removed, a policy, and a queue that is created or deleted leave the rules, their patterns and their
/// states as they were, and the archives.
pub fn matching_stays()
    ensures targets { (bus rule : List ℕ) (targets : List Target) (set : RuleSet)
        → matching_of (applied (targets_put bus rule targets) set) ≡ matching_of set }
    ensures removed { (bus rule : List ℕ) (ids : List (List ℕ)) (set : RuleSet)
        → matching_of (applied (targets_removed bus rule ids) set) ≡ matching_of set }
    ensures policy { (bus : List ℕ) (policy : Option (List ℕ)) (set : RuleSet)
        → matching_of (applied (policy_put bus policy) set) ≡ matching_of set }
    ensures queue { (name : List ℕ) (set : RuleSet) → matching_of (applied (queue_created name) set) ≡ matching_of set }
    ensures no_queue { (name : List ℕ) (set : RuleSet) → matching_of (applied (queue_deleted name) set) ≡ matching_of set }
{}

/// A bus is removed only by its deletion, while it has no rule and no archive; a rule only by its deletion; a target only by a
/// removal that lists its id; a queue only by its deletion, while no target names it; an archive only by its deletion.
pub fn only_its_call_removes()
    ensures buses { (control : Control) (set : RuleSet) (bus : List ℕ) → IsAllowed control set → has_bus bus set ≡ true
        → (has_bus bus (applied control set) ≡ true) ⊎ ((control ≡ bus_deleted bus) × (rules_of bus set ≡ []) × (archives_of bus set ≡ [])) }
    ensures rules { (control : Control) (set : RuleSet) (bus name : List ℕ) → IsAllowed control set → has_rule bus name set ≡ true
        → (has_rule bus name (applied control set) ≡ true) ⊎ (control ≡ rule_deleted bus name) }
    ensures targets { (control : Control) (set : RuleSet) (bus rule id : List ℕ) → IsAllowed control set → IsSound set → has_target_of_rule bus rule id set ≡ true
        → (has_target_of_rule bus rule id (applied control set) ≡ true)
        ⊎ ((ids : List (List ℕ)) × (control ≡ targets_removed bus rule ids) × Contains ids id) }
    ensures queues { (control : Control) (set : RuleSet) (queue : List ℕ) → IsAllowed control set → has_queue queue set ≡ true
        → (has_queue queue (applied control set) ≡ true) ⊎ ((control ≡ queue_deleted queue) × (is_queue_used queue set ≡ false)) }
    ensures archives { (control : Control) (set : RuleSet) (archive : List ℕ) → IsAllowed control set → has_archive archive set ≡ true
        → (has_archive archive (applied control set) ≡ true) ⊎ (control ≡ archive_deleted archive) }
{}
