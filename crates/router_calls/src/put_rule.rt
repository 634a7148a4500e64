//! PutRule.
ghost use Rattle.std.specs.Prelude.{◌≡◌, ◌∷◌, [], IfOk, codes};
ghost use Rattle.json_text.specs.Tree.{text};
ghost use Rattle.event_shape.specs.Names.{rule_arn};
ghost use Rattle.rule_table.specs.Control.{rule_put};
ghost use Rattle.api_replies.specs.Reply as replies;
ghost use Rattle.rule_table.specs.View.{control_of};
ghost use Rattle.rule_table.specs.WellFormed.{IsWellFormed};
ghost use Rattle.resource_calls.specs.Decision.{controlled};
ghost use Rattle.resource_calls.specs.Decided.{decided_of, CanBeMade};

use call_replies::text_reply;
use event_shape::rule_arn;
use json_text::{NoMemory, Text};
use pattern_read::SharedPattern;
use resource_calls::{Decided, configure};
use router_core::Tables;
use rule_table::Control;
use std::alloc::Global;

pub(crate) fn put_rule(
    alloc: Global,
    tables: &Tables,
    moment: u64,
    bus: &Text,
    name: &Text,
    pattern: &SharedPattern,
    enabled: bool,
) -> Result<Decided, NoMemory>
    requires form { IsWellFormed (rule_put bus.now name.now pattern.now enabled) }
    ensures answer { IfOk result (λ d. decided_of d ≡ controlled tables.now.set (rule_put bus.now name.now pattern.now enabled)
        (replies.served ((codes "RuleArn", text (rule_arn bus.now name.now)) ∷ []))) }
    ensures made { IfOk result (λ d. CanBeMade tables.now moment d) }
{
    let arn = rule_arn(alloc, bus.as_str(), name.as_str())?;
    let reply = text_reply(alloc, "RuleArn", arn)?;
    let control = rule_put(alloc, bus, name, pattern, enabled)?;
    configure(alloc, tables, moment, control, reply)
}

/// The change that puts the rule.
fn rule_put(
    alloc: Global,
    bus: &Text,
    name: &Text,
    pattern: &SharedPattern,
    enabled: bool,
) -> Result<Control, NoMemory>
    ensures { IfOk result (λ control. control_of control ≡ rule_put bus.now name.now pattern.now enabled) }
{
    Ok(Control::RulePut {
        bus: bus.copy(alloc)?,
        name: name.copy(alloc)?,
        pattern: pattern.share()?,
        enabled,
    })
}
