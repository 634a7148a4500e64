//! Configuration changes as bytes.
ghost use Rattle.std.specs.Prelude.{◌≡◌, ◌++◌, ◌∷◌, length, take, IfOk, OnOk, OnErr, MatchResult};
ghost use Rattle.std.specs.Option.{option_map};
ghost use Rattle.rule_table.specs.Control.{rule_put, state_put, policy_put};
ghost use Rattle.rule_table.specs.Control as change;
ghost use Rattle.rule_table.specs.View.{control_of};
ghost use Rattle.rule_table.specs.WellFormed.{IsSpelled, IsSomePattern, IsNoneOrStored, IsBusPolicy};
ghost use Rattle.entry_bytes.specs.Fields.{text_bytes, IsText};
ghost use Rattle.entry_bytes.specs.Change.{change_bytes, IsChange};
ghost use Rattle.entry_bytes.specs.Reading.{Gives, Finds, Blames, made_at, pair_at, text_at, flag_at, list_at};
ghost use Rattle.entry_bytes.specs.TargetReading.{rule_of};
ghost use Rattle.entry_bytes.specs.ChangeReading.{rule_put_at, rule_deleted_of, state_put_of, targets_put_at, targets_removed_of, policy_put_at, plain_at, kind_at, change_at};

use crate::archive::{put_archive, put_update, take_archive_created, take_archive_updated};
use crate::fault::ReadFault;
use crate::lists::{put_list, take_list};
use crate::numbers::{put_u8, take_u8};
use crate::target::take_targets;
use crate::texts::{
    put_flag, put_optional_text, put_text, take_flag, take_optional_str, take_str, take_text,
};
use bus_policy::{Policy, PolicyFault};
use json_text::{Bytes, NoMemory, Text};
use pattern_read::{PatternFault, SharedPattern};
use rule_table::{Control, StoredPolicy};
use rule_targets::Target;
use std::alloc::Global;

/// After an `Err` the bytes before are as they were.
pub fn put_change(control: &Control, out: &mut Bytes) -> Result<(), NoMemory>
    ensures bytes { OnOk result (out.new ≡ out.old ++ change_bytes (control_of control.now)) }
    ensures fits { OnOk result (IsChange (control_of control.now)) }
    ensures err { OnErr result (take (length out.old) out.new ≡ out.old) }
{
    match control {
        Control::BusCreated { name } => put_name(1, name, out),
        Control::BusDeleted { name } => put_name(2, name, out),
        Control::RulePut {
            bus,
            name,
            pattern,
            enabled,
        } => put_rule(bus, name, pattern, *enabled, out),
        Control::RuleDeleted { bus, name } => put_names(4, bus, name, out),
        Control::StatePut { bus, name, enabled } => put_state(bus, name, *enabled, out),
        Control::TargetsPut { bus, rule, targets } => {
            put_names(6, bus, rule, out)?;
            put_list(targets, out)
        }
        Control::TargetsRemoved { bus, rule, ids } => {
            put_names(7, bus, rule, out)?;
            put_list(ids, out)
        }
        Control::PolicyPut { bus, policy } => put_policy(bus, policy, out),
        Control::QueueCreated { name } => put_name(9, name, out),
        Control::QueueDeleted { name } => put_name(10, name, out),
        Control::ArchiveCreated {
            name,
            bus,
            pattern,
            days,
        } => put_archive(name, bus, pattern, *days, out),
        Control::ArchiveUpdated {
            name,
            pattern,
            days,
        } => put_update(name, pattern, *days, out),
        Control::ArchiveDeleted { name } => put_name(13, name, out),
    }
}

pub(crate) fn put_name(kind: u8, name: &Text, out: &mut Bytes) -> Result<(), NoMemory>
    ensures bytes { OnOk result (out.new ≡ out.old ++ (kind ∷ text_bytes name.now)) }
    ensures fits { OnOk result (IsText name.now) }
    ensures err { OnErr result (take (length out.old) out.new ≡ out.old) }
{
    put_u8(kind, out)?;
    put_text(name.as_str(), out)
}

pub(crate) fn put_names(kind: u8, bus: &Text, name: &Text, out: &mut Bytes) -> Result<(), NoMemory>
    ensures bytes { OnOk result (out.new ≡ out.old ++ (kind ∷ (text_bytes bus.now ++ text_bytes name.now))) }
    ensures fits { OnOk result (IsText bus.now × IsText name.now) }
    ensures err { OnErr result (take (length out.old) out.new ≡ out.old) }
{
    put_name(kind, bus, out)?;
    put_text(name.as_str(), out)
}

fn put_rule(
    bus: &Text,
    name: &Text,
    pattern: &SharedPattern,
    enabled: bool,
    out: &mut Bytes,
) -> Result<(), NoMemory>
    ensures bytes { OnOk result (out.new ≡ out.old ++ change_bytes (rule_put bus.now name.now pattern.now enabled)) }
    ensures fits { OnOk result (IsChange (rule_put bus.now name.now pattern.now enabled)) }
    ensures err { OnErr result (take (length out.old) out.new ≡ out.old) }
{
    put_names(3, bus, name, out)?;
    put_text(pattern.pattern().text().as_str(), out)?;
    put_flag(enabled, out)
}

fn put_state(bus: &Text, name: &Text, enabled: bool, out: &mut Bytes) -> Result<(), NoMemory>
    ensures bytes { OnOk result (out.new ≡ out.old ++ change_bytes (state_put bus.now name.now enabled)) }
    ensures fits { OnOk result (IsChange (state_put bus.now name.now enabled)) }
    ensures err { OnErr result (take (length out.old) out.new ≡ out.old) }
{
    put_names(5, bus, name, out)?;
    put_flag(enabled, out)
}

fn put_policy(bus: &Text, policy: &Option<StoredPolicy>, out: &mut Bytes) -> Result<(), NoMemory>
    ensures bytes { OnOk result (out.new ≡ out.old ++ change_bytes (policy_put bus.now policy.now)) }
    ensures fits { OnOk result (IsChange (policy_put bus.now policy.now)) }
    ensures err { OnErr result (take (length out.old) out.new ≡ out.old) }
{
    put_name(8, bus, out)?;
    put_optional_text(text_of(policy), out)
}

fn text_of(policy: &Option<StoredPolicy>) -> Option<&str>
    ensures { option_map (λ t. t.now) result ≡ policy.now }
{
    match policy {
        Some(policy) => Some(policy.as_str()),
        None => None,
    }
}

/// The change at the front, and the bytes after it. Refused if its pattern, its policy or an input is not valid.
#[tactic(auto, unfolding(crate::specs::ChangeReading::change_at))]
pub fn take_change(alloc: Global, bytes: &[u8]) -> Result<(Control, &[u8]), ReadFault>
    ensures { Finds (λ x. (control_of x.0, x.1.now)) IsSpelled result (change_at bytes.now) }
{
    match take_u8(bytes) {
        Ok((kind, rest)) => take_kind(alloc, kind, rest),
        Err(fault) => Err(fault),
    }
}

#[tactic(auto, unfolding(crate::specs::ChangeReading::kind_at))]
fn take_kind(alloc: Global, kind: u8, bytes: &[u8]) -> Result<(Control, &[u8]), ReadFault>
    ensures { Finds (λ x. (control_of x.0, x.1.now)) IsSpelled result (kind_at kind bytes.now) }
{
    match kind {
        3 => take_rule_put(alloc, bytes),
        6 => take_targets_put(alloc, bytes),
        8 => take_policy_put(alloc, bytes),
        11 => take_archive_created(alloc, bytes),
        12 => take_archive_updated(alloc, bytes),
        _ => take_plain(alloc, kind, bytes),
    }
}

/// A change whose texts may be any.
#[tactic(auto, unfolding(crate::specs::ChangeReading::plain_at))]
fn take_plain(alloc: Global, kind: u8, bytes: &[u8]) -> Result<(Control, &[u8]), ReadFault>
    ensures gives { Gives (λ x. (control_of x.0, x.1.now)) result (plain_at kind bytes.now) }
    ensures spelled { IfOk result (λ x. IsSpelled (control_of x.0)) }
{
    match kind {
        1 => {
            let (name, rest) = take_text(alloc, bytes)?;
            Ok((Control::BusCreated { name }, rest))
        }
        2 => {
            let (name, rest) = take_text(alloc, bytes)?;
            Ok((Control::BusDeleted { name }, rest))
        }
        4 => take_rule_deleted(alloc, bytes),
        5 => take_state_put(alloc, bytes),
        7 => take_targets_removed(alloc, bytes),
        9 => {
            let (name, rest) = take_text(alloc, bytes)?;
            Ok((Control::QueueCreated { name }, rest))
        }
        10 => {
            let (name, rest) = take_text(alloc, bytes)?;
            Ok((Control::QueueDeleted { name }, rest))
        }
        13 => {
            let (name, rest) = take_text(alloc, bytes)?;
            Ok((Control::ArchiveDeleted { name }, rest))
        }
        _ => Err(ReadFault::NotSpelled),
    }
}

fn take_rule_deleted(alloc: Global, bytes: &[u8]) -> Result<(Control, &[u8]), ReadFault>
    ensures gives { Gives (λ x. (control_of x.0, x.1.now)) result (made_at rule_deleted_of (pair_at text_at text_at) bytes.now) }
    ensures spelled { IfOk result (λ x. IsSpelled (control_of x.0)) }
{
    let (bus, rest) = take_str(bytes)?;
    let (name, rest) = take_str(rest)?;
    let bus = Text::from_str(alloc, bus)?;
    let name = Text::from_str(alloc, name)?;
    Ok((Control::RuleDeleted { bus, name }, rest))
}

fn take_state_put(alloc: Global, bytes: &[u8]) -> Result<(Control, &[u8]), ReadFault>
    ensures gives { Gives (λ x. (control_of x.0, x.1.now)) result (made_at state_put_of (pair_at text_at (pair_at text_at flag_at)) bytes.now) }
    ensures spelled { IfOk result (λ x. IsSpelled (control_of x.0)) }
{
    let (bus, rest) = take_str(bytes)?;
    let (name, rest) = take_str(rest)?;
    let (enabled, rest) = take_flag(rest)?;
    let bus = Text::from_str(alloc, bus)?;
    let name = Text::from_str(alloc, name)?;
    Ok((Control::StatePut { bus, name, enabled }, rest))
}

fn take_targets_removed(alloc: Global, bytes: &[u8]) -> Result<(Control, &[u8]), ReadFault>
    ensures gives { Gives (λ x. (control_of x.0, x.1.now)) result (made_at targets_removed_of (pair_at text_at (pair_at text_at (list_at text_at))) bytes.now) }
    ensures spelled { IfOk result (λ x. IsSpelled (control_of x.0)) }
{
    let (bus, rest) = take_str(bytes)?;
    let (rule, rest) = take_str(rest)?;
    let (ids, rest) = take_list(alloc, rest)?;
    let bus = Text::from_str(alloc, bus)?;
    let rule = Text::from_str(alloc, rule)?;
    Ok((Control::TargetsRemoved { bus, rule, ids }, rest))
}

/// The fields of a rule that is put. Its pattern may be none.
#[derive(Clone, Copy)]
pub(crate) struct RuleParts<'a> {
    pub bus: &'a str,
    pub name: &'a str,
    pub pattern: &'a str,
    pub enabled: bool,
}

fn take_rule_put(alloc: Global, bytes: &[u8]) -> Result<(Control, &[u8]), ReadFault>
    ensures { Finds (λ x. (control_of x.0, x.1.now)) IsSpelled result (rule_put_at bytes.now) }
{
    match take_rule_parts(bytes) {
        Ok((parts, rest)) => match made_rule(alloc, parts) {
            Ok(control) => Ok((control, rest)),
            Err(fault) => Err(fault),
        },
        Err(fault) => Err(fault),
    }
}

#[tactic(auto, unfolding(crate::specs::ChangeReading::rule_put_at))]
fn take_rule_parts(bytes: &[u8]) -> Result<(RuleParts<'_>, &[u8]), ReadFault>
    ensures { Gives (λ x. (rule_of x.0, x.1.now)) result (rule_put_at bytes.now) }
{
    let (bus, rest) = take_str(bytes)?;
    let (name, rest) = take_str(rest)?;
    let (pattern, rest) = take_str(rest)?;
    let (enabled, rest) = take_flag(rest)?;
    let parts = RuleParts {
        bus,
        name,
        pattern,
        enabled,
    };
    Ok((parts, rest))
}

/// The change with these fields. Refused if the pattern is none.
fn made_rule(alloc: Global, parts: RuleParts<'_>) -> Result<Control, ReadFault>
    ensures { MatchResult result
        (λ control. (control_of control ≡ rule_of parts.entry) × IsSpelled (rule_of parts.entry))
        (Blames (¬ IsSpelled (rule_of parts.entry))) }
{
    let bus = Text::from_str(alloc, parts.bus)?;
    let name = Text::from_str(alloc, parts.name)?;
    let pattern = read_pattern(alloc, parts.pattern)?;
    Ok(Control::RulePut {
        bus,
        name,
        pattern,
        enabled: parts.enabled,
    })
}

pub(crate) fn read_pattern(alloc: Global, text: &str) -> Result<SharedPattern, ReadFault>
    ensures { MatchResult result (λ p. (p ≡ text.now) × IsSomePattern text.now) (Blames (¬ IsSomePattern text.now)) }
{
    let text = Text::from_str(alloc, text)?;
    match SharedPattern::read(alloc, text) {
        Ok(pattern) => Ok(pattern),
        Err(PatternFault::NoMemory) => Err(ReadFault::NoMemory),
        Err(PatternFault::Refused { .. }) => Err(ReadFault::NotSpelled),
    }
}

fn take_targets_put(alloc: Global, bytes: &[u8]) -> Result<(Control, &[u8]), ReadFault>
    ensures { Finds (λ x. (control_of x.0, x.1.now)) IsSpelled result (targets_put_at bytes.now) }
{
    match take_two_names(bytes) {
        Ok((bus, rule, left)) => match take_targets(alloc, left) {
            Ok((targets, rest)) => {
                let control = targets_put(alloc, bus, rule, targets)?;
                Ok((control, rest))
            }
            Err(fault) => Err(fault),
        },
        Err(fault) => Err(fault),
    }
}

fn targets_put(
    alloc: Global,
    bus: &str,
    rule: &str,
    targets: Vec<Target>,
) -> Result<Control, NoMemory>
    ensures { IfOk result (λ control. control_of control ≡ change.targets_put bus.now rule.now targets.items) }
{
    let bus = Text::from_str(alloc, bus)?;
    let rule = Text::from_str(alloc, rule)?;
    Ok(Control::TargetsPut { bus, rule, targets })
}

fn take_two_names(bytes: &[u8]) -> Result<(&str, &str, &[u8]), ReadFault>
    ensures { Gives (λ x. ((x.0.now, x.1.now), x.2.now)) result (pair_at text_at text_at bytes.now) }
{
    let (bus, rest) = take_str(bytes)?;
    let (rule, rest) = take_str(rest)?;
    Ok((bus, rule, rest))
}

fn take_policy_put(alloc: Global, bytes: &[u8]) -> Result<(Control, &[u8]), ReadFault>
    ensures { Finds (λ x. (control_of x.0, x.1.now)) IsSpelled result (policy_put_at bytes.now) }
{
    match take_policy_parts(bytes) {
        Ok((bus, policy, rest)) => match made_policy(alloc, bus, policy) {
            Ok(control) => Ok((control, rest)),
            Err(fault) => Err(fault),
        },
        Err(fault) => Err(fault),
    }
}

#[tactic(auto, unfolding(crate::specs::ChangeReading::policy_put_at))]
fn take_policy_parts(bytes: &[u8]) -> Result<(&str, Option<&str>, &[u8]), ReadFault>
    ensures { Gives (λ x. (policy_put x.0.now (option_map (λ t. t.now) x.1), x.2.now)) result (policy_put_at bytes.now) }
{
    let (bus, rest) = take_str(bytes)?;
    let (policy, rest) = take_optional_str(rest)?;
    Ok((bus, policy, rest))
}

/// The change with these fields. Refused if the policy is none as it is stored.
fn made_policy(alloc: Global, bus: &str, policy: Option<&str>) -> Result<Control, ReadFault>
    ensures { MatchResult result
        (λ control. (control_of control ≡ policy_put bus.now (option_map (λ t. t.now) policy.entry)) × IsNoneOrStored (option_map (λ t. t.now) policy.entry))
        (Blames (¬ IsNoneOrStored (option_map (λ t. t.now) policy.entry))) }
{
    let bus = Text::from_str(alloc, bus)?;
    match policy {
        Some(text) => match read_policy(alloc, text) {
            Ok(policy) => Ok(Control::PolicyPut {
                bus,
                policy: Some(policy),
            }),
            Err(fault) => Err(fault),
        },
        None => Ok(Control::PolicyPut { bus, policy: None }),
    }
}

/// The policy whose text as it is stored is this one.
fn read_policy(alloc: Global, text: &str) -> Result<StoredPolicy, ReadFault>
    ensures { MatchResult result (λ p. (p ≡ text.now) × IsBusPolicy text.now) (Blames (¬ IsBusPolicy text.now)) }
{
    match Policy::read(alloc, text.as_bytes()) {
        Ok(policy) => {
            if policy.text() == text {
                Ok(StoredPolicy::new(alloc, policy)?)
            } else {
                Err(ReadFault::NotSpelled)
            }
        }
        Err(PolicyFault::NoMemory) => Err(ReadFault::NoMemory),
        Err(PolicyFault::Bad { .. }) => Err(ReadFault::NotSpelled),
    }
}
