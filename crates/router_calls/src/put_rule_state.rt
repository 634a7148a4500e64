//! EnableRule and DisableRule.
ghost use Rattle.std.specs.Prelude.{◌≡◌, IfOk};
ghost use Rattle.rule_table.specs.Control.{state_put};
ghost use Rattle.rule_targets.specs.WellFormed.{NamesRule};
ghost use Rattle.call_replies.specs.Replies.{empty_reply};
ghost use Rattle.resource_calls.specs.Decision.{controlled};
ghost use Rattle.resource_calls.specs.Decided.{decided_of, CanBeMade};

use call_replies::empty_reply;
use json_text::{NoMemory, Text};
use resource_calls::{Decided, configure};
use router_core::Tables;
use rule_table::Control;
use std::alloc::Global;

pub(crate) fn put_rule_state(
    alloc: Global,
    tables: &Tables,
    moment: u64,
    bus: &Text,
    name: &Text,
    enabled: bool,
) -> Result<Decided, NoMemory>
    requires names { NamesRule bus.now name.now }
    ensures answer { IfOk result (λ d. decided_of d ≡ controlled tables.now.set (state_put bus.now name.now enabled) empty_reply) }
    ensures made { IfOk result (λ d. CanBeMade tables.now moment d) }
{
    let control = Control::StatePut {
        bus: bus.copy(alloc)?,
        name: name.copy(alloc)?,
        enabled,
    };
    configure(alloc, tables, moment, control, empty_reply(alloc))
}
