//! Changes of the configuration.
ghost use Rattle.std.specs.Prelude.{◌≡◌, IfOk};
ghost use Rattle.rule_table.specs.Refusal.{IsAllowed};
ghost use Rattle.rule_table.specs.View.{control_of};
ghost use Rattle.rule_table.specs.WellFormed.{IsWellFormed};
ghost use Rattle.api_replies.specs.View.{reply_of};
ghost use Rattle.router_core.specs.Admitted.{IsUnnamed};
ghost use Rattle.resource_calls.specs.Decision.{controlled};
ghost use Rattle.resource_calls.specs.Decided.{decided_of, CanBeMade};

use crate::decided::{Decided, refused, writes};
use crate::tables::read_tables;
use call_replies::change_cause;
use json_text::NoMemory;
use router_core::{Part, Reply, Tables};
use router_requests::Entry;
use rule_table::Control;
use std::alloc::Global;

/// The change of the configuration with its reply if the change is allowed, else its refusal.
pub fn configure(
    alloc: Global,
    tables: &Tables,
    moment: u64,
    control: Control,
    reply: Reply,
) -> Result<Decided, NoMemory>
    requires form { IsAllowed (control_of control) tables.now.set → IsWellFormed (control_of control) }
    requires unnamed { IsAllowed (control_of control) tables.now.set → IsUnnamed (control_of control) tables.now }
    ensures answer { IfOk result (λ d. decided_of d ≡ controlled tables.now.set (control_of control) (reply_of reply)) }
    ensures made { IfOk result (λ d. CanBeMade tables.now moment d) }
{
    read_tables(tables);
    match Part::of_control(alloc, tables.set(), &control, moment) {
        Ok(part) => writes(alloc, Entry::Control(control), part, reply),
        Err(fault) => {
            let cause = change_cause(alloc, &control, fault)?;
            refused(alloc, &cause)
        }
    }
}
