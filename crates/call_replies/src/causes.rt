//! Why a change, an entry or a target is refused, as replies report it.
ghost use Rattle.std.specs.Prelude.{◌≡◌, Some, IfOk};
ghost use Rattle.rule_table.specs.View.{control_of};
ghost use Rattle.api_replies.specs.declared.kind.Kind.TheVariants as kind;
ghost use Rattle.api_replies.specs.declared.cause.Cause.TheVariants as is;
ghost use Rattle.call_replies.specs.Causes as spec;

use api_replies::{Cause, Kind, Member};
use event_shape::EntryFault;
use json_text::{NoMemory, Text};
use rule_table::{Control, ControlFault, TargetFault};
use std::alloc::Global;

/// The refusal of the change for this fault, with the name that the change has for what is missing, exists already or is in use. The
/// fault `NoMemory` is the error.
pub fn change_cause(
    alloc: Global,
    control: &Control,
    fault: ControlFault,
) -> Result<Cause, NoMemory>
    ensures { IfOk result (λ cause. spec.change_cause (control_of control.now) fault ≡ Some cause) }
{
    match fault {
        ControlFault::ResourceNotFound(kind) => {
            let name = name_in(control, kind).copy(alloc)?;
            Ok(Cause::NotFound { kind, name })
        }
        ControlFault::AlreadyExists(kind) => {
            let name = name_in(control, kind).copy(alloc)?;
            Ok(Cause::Exists { kind, name })
        }
        ControlFault::LimitExceeded(kind) => Ok(Cause::LimitReached(kind)),
        ControlFault::InUse(kind) => {
            let name = name_in(control, kind).copy(alloc)?;
            Ok(Cause::InUse { kind, name })
        }
        ControlFault::HasTargets => {
            let name = name_in(control, Kind::Rule).copy(alloc)?;
            Ok(Cause::HasTargets { name })
        }
        ControlFault::DefaultBus => Ok(Cause::DefaultBusStays),
        ControlFault::Validation(member) => Ok(Cause::NotValid(member)),
        ControlFault::PolicyTooLong => Ok(Cause::PolicyTooLong),
        ControlFault::NoMemory => Err(NoMemory),
    }
}

/// The name that the change has for a thing of this kind.
fn name_in(control: &Control, kind: Kind) -> &Text
    ensures { result.now ≡ spec.name_in (control_of control.now) kind }
{
    match control {
        Control::RulePut { bus, name, .. }
        | Control::RuleDeleted { bus, name }
        | Control::StatePut { bus, name, .. } => match kind {
            Kind::EventBus => bus,
            Kind::Rule | Kind::Target | Kind::Archive | Kind::Replay | Kind::Queue => name,
        },
        Control::ArchiveCreated { name, bus, .. } => match kind {
            Kind::EventBus => bus,
            Kind::Rule | Kind::Target | Kind::Archive | Kind::Replay | Kind::Queue => name,
        },
        Control::TargetsPut { bus, rule, .. } | Control::TargetsRemoved { bus, rule, .. } =>
            match kind {
                Kind::EventBus => bus,
                Kind::Rule | Kind::Target | Kind::Archive | Kind::Replay | Kind::Queue => rule,
            },
        Control::PolicyPut { bus, .. } => bus,
        Control::BusCreated { name }
        | Control::BusDeleted { name }
        | Control::QueueCreated { name }
        | Control::QueueDeleted { name }
        | Control::ArchiveUpdated { name, .. }
        | Control::ArchiveDeleted { name } => name,
    }
}

/// The refusal of a target for this fault. Takes no memory.
pub fn target_cause(fault: TargetFault) -> Cause
    ensures { result ≡ spec.target_cause fault }
{
    match fault {
        TargetFault::Member(member) => Cause::NotValid(member),
        TargetFault::TwoInputs => Cause::MoreThanOneInput,
        TargetFault::NoQueue(name) => no_queue(name),
        TargetFault::NoDeadLetterQueue(name) => no_queue(name),
        TargetFault::Sixth => Cause::LimitReached(Kind::Target),
    }
}

/// The refusal that the queue of this name does not exist.
fn no_queue(name: Text) -> Cause
    ensures { result ≡ is.NotFound kind.Queue name }
{
    Cause::NotFound {
        kind: Kind::Queue,
        name,
    }
}

/// The refusal of an entry with this fault of its own. Takes no memory.
pub fn entry_cause(fault: EntryFault) -> Cause
    ensures { result ≡ spec.entry_cause fault }
{
    match fault {
        EntryFault::Source => Cause::Parameter(Member::Source),
        EntryFault::DetailType => Cause::Parameter(Member::DetailType),
        EntryFault::Detail => Cause::Parameter(Member::Detail),
        EntryFault::Time => Cause::Parameter(Member::Time),
        EntryFault::Bus => Cause::Parameter(Member::EventBusName),
        EntryFault::Malformed => Cause::MalformedDetail,
        EntryFault::NotAuthorized => Cause::NotAuthorized,
    }
}
