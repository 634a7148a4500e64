//! DeleteRule.
ghost use Rattle.std.specs.Prelude.{◌≡◌, IfOk};
ghost use Rattle.rule_table.specs.Control.{rule_deleted};
ghost use Rattle.rule_targets.specs.WellFormed.{NamesRule};
ghost use Rattle.call_replies.specs.Replies.{empty_reply};
ghost use Rattle.resource_calls.specs.Decision.{controlled};
ghost use Rattle.router_calls.specs.Answer.{lacks_rule, rule_deletion};
ghost use Rattle.resource_calls.specs.Decided.{decided_of, CanBeMade};

use call_replies::empty_reply;
use json_text::{NoMemory, Text};
use resource_calls::{Decided, configure, shown};
use router_core::Tables;
use rule_table::{Control, RuleSet};
use std::alloc::Global;

/// Deletes the rule. A rule that does not exist on an existing bus is no fault, and nothing is changed.
pub(crate) fn delete_rule(
    alloc: Global,
    tables: &Tables,
    moment: u64,
    bus: &Text,
    name: &Text,
) -> Result<Decided, NoMemory>
    requires names { NamesRule bus.now name.now }
    ensures answer { IfOk result (λ d. decided_of d ≡ rule_deletion tables.now.set bus.now name.now) }
    ensures made { IfOk result (λ d. CanBeMade tables.now moment d) }
{
    if lacks_rule(tables.set(), bus.as_str(), name.as_str()) {
        Ok(shown(alloc, empty_reply(alloc)))
    } else {
        delete(alloc, tables, moment, bus, name)
    }
}

/// Whether the bus exists, and has no rule of this name.
fn lacks_rule(set: &RuleSet, bus: &str, name: &str) -> bool
    ensures { result ≡ lacks_rule bus.now name.now set.now }
{
    set.bus(bus).is_some() && set.rule(bus, name).is_none()
}

/// Deletes the rule, or refuses the change.
fn delete(
    alloc: Global,
    tables: &Tables,
    moment: u64,
    bus: &Text,
    name: &Text,
) -> Result<Decided, NoMemory>
    requires names { NamesRule bus.now name.now }
    ensures answer { IfOk result (λ d. decided_of d ≡ controlled tables.now.set (rule_deleted bus.now name.now) empty_reply) }
    ensures made { IfOk result (λ d. CanBeMade tables.now moment d) }
{
    let control = Control::RuleDeleted {
        bus: bus.copy(alloc)?,
        name: name.copy(alloc)?,
    };
    configure(alloc, tables, moment, control, empty_reply(alloc))
}
