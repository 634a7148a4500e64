//! Calls on event buses.
ghost use Rattle.std.specs.Prelude.{◌≡◌, ◌∷◌, [], IfOk, codes, true};
ghost use Rattle.json_text.specs.Tree.{text};
ghost use Rattle.event_shape.specs.Names.{IsBusName, bus_arn};
ghost use Rattle.rule_table.specs.Control.{bus_created, bus_deleted};
ghost use Rattle.rule_table.specs.View.{control_of};
ghost use Rattle.replay_run.specs.Replays.{is_sent_to};
ghost use Rattle.api_replies.specs.Reply as replies;
ghost use Rattle.resource_calls.specs.Decision.{controlled, bus_deletion, refusal};
ghost use Rattle.resource_calls.specs.Decided.{decided_of, CanBeMade};

use crate::changes::configure;
use crate::decided::{Decided, refused};
use crate::tables::read_tables;
use call_replies::{change_cause, empty_reply, text_reply};
use event_shape::bus_arn;
use json_text::{NoMemory, Text};
use router_core::{Cause, Kind, Part, Tables};
use rule_table::Control;
use std::alloc::Global;

pub fn create_event_bus(
    alloc: Global,
    tables: &Tables,
    moment: u64,
    name: &Text,
) -> Result<Decided, NoMemory>
    requires bus { IsBusName name.now }
    ensures answer { IfOk result (λ d. decided_of d ≡ controlled tables.now.set (bus_created name.now)
        (replies.served ((codes "EventBusArn", text (bus_arn name.now)) ∷ []))) }
    ensures made { IfOk result (λ d. CanBeMade tables.now moment d) }
{
    let arn = bus_arn(alloc, name.as_str())?;
    let reply = text_reply(alloc, "EventBusArn", arn)?;
    let control = Control::BusCreated {
        name: name.copy(alloc)?,
    };
    configure(alloc, tables, moment, control, reply)
}

/// Deletes the bus. A bus that has a rule or an archive, or to which a running replay sends its events, is in use.
pub fn delete_event_bus(
    alloc: Global,
    tables: &Tables,
    moment: u64,
    name: &Text,
) -> Result<Decided, NoMemory>
    requires bus { IsBusName name.now }
    ensures answer { IfOk result (λ d. decided_of d ≡ bus_deletion tables.now name.now) }
    ensures made { IfOk result (λ d. CanBeMade tables.now moment d) }
{
    if tables.replays().goes_to(name.as_str()) {
        return keep_bus(alloc, tables, moment, name);
    }
    let control = Control::BusDeleted {
        name: name.copy(alloc)?,
    };
    configure(alloc, tables, moment, control, empty_reply(alloc))
}

/// Why a bus to which a running replay sends its events stays.
fn keep_bus(alloc: Global, tables: &Tables, moment: u64, name: &Text) -> Result<Decided, NoMemory>
    requires used { is_sent_to name.now tables.now.replays ≡ true }
    ensures answer { IfOk result (λ d. decided_of d ≡ bus_deletion tables.now name.now) }
    ensures made { IfOk result (λ d. CanBeMade tables.now moment d) }
{
    let control = Control::BusDeleted {
        name: name.copy(alloc)?,
    };
    let cause = cause_to_keep(alloc, tables, moment, &control, name)?;
    refused(alloc, &cause)
}

/// What the rule set says comes first.
fn cause_to_keep(
    alloc: Global,
    tables: &Tables,
    moment: u64,
    control: &Control,
    name: &Text,
) -> Result<Cause, NoMemory>
    requires control { control_of control.now ≡ bus_deleted name.now }
    requires used { is_sent_to name.now tables.now.replays ≡ true }
    ensures { IfOk result (λ cause. refusal cause ≡ bus_deletion tables.now name.now) }
{
    read_tables(tables);
    match Part::of_control(alloc, tables.set(), control, moment) {
        Ok(_) => in_use(alloc, name),
        Err(fault) => change_cause(alloc, control, fault),
    }
}

fn in_use(alloc: Global, name: &Text) -> Result<Cause, NoMemory>
    ensures { IfOk result (λ cause. cause ≡ Cause.InUse Kind.EventBus name.now) }
{
    Ok(Cause::InUse {
        kind: Kind::EventBus,
        name: name.copy(alloc)?,
    })
}
