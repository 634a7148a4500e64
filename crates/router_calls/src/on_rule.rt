//! What calls on a rule have in common: a missing rule, and items that fail one by one.
ghost use Rattle.std.specs.Prelude.{◌≡◌, ◌<◌, None, length, codes, if◌then◌else◌, IsTrue, IsFalse, ℕ, IfOk};
ghost use Rattle.json_text.specs.View.{trees_of};
ghost use Rattle.rule_table.specs.Refusal.{IsAllowed};
ghost use Rattle.rule_table.specs.RuleSet.{Rule as RuleView, rule_at};
ghost use Rattle.rule_table.specs.View.{control_of};
ghost use Rattle.rule_table.specs.WellFormed.{IsWellFormed};
ghost use Rattle.router_core.specs.Admitted.{IsUnnamed};
ghost use Rattle.router_requests.specs.Batch.{control as change};
ghost use Rattle.router_core.specs.Tables.{Tables as TablesView};
ghost use Rattle.call_replies.specs.Replies.{items_reply};
ghost use Rattle.api_replies.specs.declared.kind.Kind.TheVariants as kind_is;
ghost use Rattle.api_replies.specs.declared.cause.Cause.TheVariants as cause_is;
ghost use Rattle.resource_calls.specs.Decision.{Decided as View, refusal, shown, writes};
ghost use Rattle.router_calls.specs.Answer.{on_rule};
ghost use Rattle.resource_calls.specs.Decided.{decided_of, CanBeMade};

use call_replies::items_reply;
use json_text::{Items, NoMemory, Text};
use resource_calls::{Decided, configure, refused, shown};
use router_core::{Cause, Kind, Tables};
use rule_table::{Control, RuleSet};
use std::alloc::Global;

/// The refusal of a rule that is not there: the bus is missing, or the rule.
pub(crate) fn no_rule(
    alloc: Global,
    set: &RuleSet,
    bus: &Text,
    rule: &Text,
) -> Result<Decided, NoMemory>
    requires missing { rule_at bus.now rule.now set.now ≡ None }
    ensures answer { IfOk result (λ d. (decide : RuleView → View) → decided_of d ≡ on_rule set.now bus.now rule.now decide) }
    ensures made { IfOk result (λ d. (t : TablesView) (moment : ℕ) → CanBeMade t moment d) }
{
    if set.bus(bus.as_str()).is_some() {
        let name = rule.copy(alloc)?;
        let kind = Kind::Rule;
        refused(alloc, &Cause::NotFound { kind, name })
    } else {
        no_bus(alloc, bus)
    }
}

/// The refusal that the bus does not exist.
pub(crate) fn no_bus(alloc: Global, bus: &Text) -> Result<Decided, NoMemory>
    ensures answer { IfOk result (λ d. decided_of d ≡ refusal (cause_is.NotFound kind_is.EventBus bus.now)) }
    ensures made { IfOk result (λ d. (t : TablesView) (moment : ℕ) → CanBeMade t moment d) }
{
    let name = bus.copy(alloc)?;
    let kind = Kind::EventBus;
    refused(alloc, &Cause::NotFound { kind, name })
}

/// Whether there is an item.
pub(crate) fn are_some<T>(items: &[T]) -> bool
    ensures some { IsTrue result → 0 < length items.now }
    ensures none { IsFalse result → length items.now ≡ 0 }
{
    !items.is_empty()
}

/// The change if some items succeeded, with the items that failed as its reply; else that reply alone.
pub(crate) fn change_with_reports(
    alloc: Global,
    tables: &Tables,
    moment: u64,
    some: bool,
    control: Control,
    reports: Items,
) -> Result<Decided, NoMemory>
    requires allowed { IsTrue some → IsAllowed (control_of control) tables.now.set }
    requires form { IsTrue some → IsWellFormed (control_of control) }
    requires unnamed { IsUnnamed (control_of control) tables.now }
    ensures answer { IfOk result (λ d. decided_of d ≡ (if some
        then writes (change (control_of control)) (items_reply (length reports.items) (codes "FailedEntries") (trees_of reports.items))
        else shown (items_reply (length reports.items) (codes "FailedEntries") (trees_of reports.items)))) }
    ensures made { IfOk result (λ d. CanBeMade tables.now moment d) }
{
    let reply = items_reply(alloc, reports.len() as u64, "FailedEntries", reports)?;
    if some {
        configure(alloc, tables, moment, control, reply)
    } else {
        Ok(shown(alloc, reply))
    }
}
