//! Rule sets, and the rule set after a change.
ghost use Rattle.std.specs.Prelude.{◌≡◌, ◌+◌, ◌^◌, ◌<◌, ◌≤◌, ◌&&◌, ℕ, List, Option, None, false, true, Some, All, map, nat_le, if◌then◌else◌, IfOk, MatchOption, MatchResult, length};
ghost use Rattle.std.specs.Option.{option_map, option_and_then};
ghost use Rattle.std.specs.Str.{bytes_eq};
ghost use Rattle.json_text.specs.Checks.{first_fault};
ghost use Rattle.event_shape.specs.Names.{default_bus, queue_in};
ghost use Rattle.name_rows.specs.Rows.{named, placed, replacing};
ghost use Rattle.rule_table.specs.Control.{bus_created, bus_deleted, rule_put, rule_deleted, state_put, targets_put, targets_removed, policy_put};
ghost use Rattle.rule_table.specs.Control.{queue_created, queue_deleted, archive_created, archive_updated, archive_deleted};
ghost use Rattle.rule_table.specs.RuleSet as spec;
ghost use Rattle.rule_table.specs.Refusal as refusal;
ghost use Rattle.rule_table.specs.Refusal.{IsChanged};
ghost use Rattle.rule_table.specs.Sound.{IsSound};
ghost use Rattle.rule_table.specs.WellFormed.{HasValidInput};
ghost use Rattle.rule_table.specs.Target.{target_of, stored_in, IsStoredOf};
ghost use Rattle.rule_table.specs.View.{control_of};

use crate::archive_row::ArchiveRow;
use crate::bus::Bus;
use crate::control::{Control, ControlFault, TargetFault};
use crate::policy::{StoredPolicy, short_policy};
use crate::rule::Rule;
use crate::rule_target::RuleTarget;
use crate::targets::{after_removal, is_sixth, pointers, put_in_order};
use api_replies::{Kind, Member};
use archive_keep::MOST_ARCHIVES;
use event_shape::{DEFAULT_BUS, queue_of};
use json_text::{NoMemory, Text};
use name_rows::{Rows, RowsFrom};
use pattern_read::SharedPattern;
use rule_targets::{AskedTarget, Target, has_two_inputs, member_fault};
use std::alloc::Global;
use std::marker::Model;

/// The greatest number of queues.
const MOST_QUEUES: usize = 1000;

/// The greatest number of buses.
const MOST_BUSES: usize = 100;

/// Buses with their rules, queues, and archives without their events. A change makes a new rule set, which shares unchanged parts with
/// the old one.
#[derive(Debug, Drop)]
pub struct RuleSet {
    buses: Rows<Bus>,
    queues: Rows<Text>,
    archives: Rows<ArchiveRow>,
    count: u64,
}

impl Model for RuleSet {
    ghost use Rattle.rule_table.specs.RuleSet.{RuleSet as View};
    ghost use Rattle.rule_table.specs.Sound.{IsSound};

    ghost Value = { View };

    ghost view = { λ s. record { buses = s.buses; queues = s.queues; archives = s.archives; count = s.count } };

    ghost invariant = { λ s. IsSound (record { buses = s.buses; queues = s.queues; archives = s.archives; count = s.count }) };
}

impl RuleSet {
    /// The rule set before any change: the bus `default`, with no rule, no queue and no archive.
    pub fn first(alloc: Global) -> Result<RuleSet, NoMemory>
        ensures { IfOk result (λ set. set ≡ spec.first_set) }
    {
        let bus = Bus {
            name: Text::from_str(alloc, DEFAULT_BUS)?,
            policy: None,
            rules: Rows::new(alloc)?,
        };
        Ok(RuleSet {
            buses: Rows::new(alloc)?.with(alloc, bus)?,
            queues: Rows::new(alloc)?,
            archives: Rows::new(alloc)?,
            count: 0,
        })
    }

    /// The same rule set, which shares all its parts. Copies three pointers.
    pub fn share(&self) -> Result<RuleSet, NoMemory>
        ensures { IfOk result (λ set. set ≡ self.now) }
    {
        Ok(RuleSet {
            buses: self.buses.share()?,
            queues: self.queues.share()?,
            archives: self.archives.share()?,
            count: self.count,
        })
    }

    /// The rule set after the change, or the change's first refusal. Shares the parts that do not change with the old set, which stays as
    /// it was.
    pub fn apply(&self, alloc: Global, control: &Control) -> Result<RuleSet, ControlFault>
        requires { self.now.count < 2 ^ 63 }
        ensures { IsChanged (control_of control.now) self.now result }
    {
        match control {
            Control::RulePut {
                bus,
                name,
                pattern,
                enabled,
            } => self.put_rule(alloc, bus, name, pattern, *enabled),
            Control::TargetsPut { bus, rule, targets } => self.put_targets(
                alloc, bus, rule, targets,
            ),
            Control::BusCreated { name } => self.create_bus(alloc, name),
            Control::BusDeleted { name } => self.delete_bus(alloc, name),
            Control::RuleDeleted { bus, name } => self.delete_rule(alloc, bus, name),
            Control::StatePut { bus, name, enabled } => self.put_state(alloc, bus, name, *enabled),
            Control::TargetsRemoved { bus, rule, ids } => {
                self.remove_targets(alloc, bus, rule, ids)
            }
            Control::PolicyPut { bus, policy } => self.put_policy(alloc, bus, policy),
            Control::QueueCreated { name } => self.create_queue(alloc, name),
            Control::QueueDeleted { name } => self.delete_queue(alloc, name),
            Control::ArchiveCreated {
                name,
                bus,
                pattern,
                days,
            } => { self.create_archive(alloc, name, bus, pattern, *days) }
            Control::ArchiveUpdated {
                name,
                pattern,
                days,
            } => { self.update_archive(alloc, name, pattern, *days) }
            Control::ArchiveDeleted { name } => self.delete_archive(alloc, name),
        }
    }

    /// The buses in the byte order of their names.
    pub fn buses(&self) -> RowsFrom<'_, Bus>
        ensures { result ≡ self.now.buses }
    {
        self.buses.iter()
    }

    /// The bus with this name.
    pub fn bus(&self, name: &str) -> Option<&Bus>
        ensures { MatchOption result
            (spec.has_bus name.now self.now ≡ false)
            (λ bus. named (λ b. b.name) name.now self.now.buses ≡ Some bus.now) }
    {
        self.found(name)
    }

    /// The rule of this name on the bus.
    pub fn rule(&self, bus: &str, name: &str) -> Option<&Rule>
        ensures { MatchOption result
            (spec.rule_at bus.now name.now self.now ≡ None)
            (λ rule. spec.rule_at bus.now name.now self.now ≡ Some rule.now) }
    {
        match self.found(bus) {
            Some(bus) => bus.rule(name),
            None => None,
        }
    }

    /// The targets of the rule, in the byte order of their ids; none if there is no such rule. Rule sets share them.
    pub fn targets(&self, bus: &str, rule: &str) -> &[RuleTarget]
        ensures targets { map target_of result.now ≡ spec.targets_in (spec.rule_at bus.now rule.now self.now) }
        ensures rows { result.now ≡ stored_in (spec.rule_at bus.now rule.now self.now) }
    {
        match self.rule(bus, rule) {
            Some(rule) => rule.targets(),
            None => &[],
        }
    }

    /// The first fault of the target if it is put to a rule that has these targets. `apply` decides on targets by the same checks.
    pub fn target_fault(
        &self,
        alloc: Global,
        targets: &[Target],
        target: &AskedTarget,
    ) -> Result<Option<TargetFault>, NoMemory>
        ensures { IfOk result (λ found. found ≡ refusal.target_fault self.now targets.now target.now) }
    {
        match self.own_fault(alloc, target)? {
            Some(fault) => Ok(Some(fault)),
            None => Ok(room_fault(is_sixth(targets, target.id.as_str()))),
        }
    }

    /// The same, of the targets that a rule stores.
    fn stored_fault(
        &self,
        alloc: Global,
        targets: &[RuleTarget],
        target: &AskedTarget,
    ) -> Result<Option<TargetFault>, NoMemory>
        ensures { IfOk result (λ found. found ≡ refusal.target_fault self.now (map target_of targets.now) target.now) }
    {
        match self.own_fault(alloc, target)? {
            Some(fault) => Ok(Some(fault)),
            None => Ok(room_fault(is_sixth(targets, target.id.as_str()))),
        }
    }

    /// The first fault of the target, whatever targets the rule has.
    fn own_fault(
        &self,
        alloc: Global,
        target: &AskedTarget,
    ) -> Result<Option<TargetFault>, NoMemory>
        ensures { IfOk result (λ found. found ≡ first_fault (refusal.own_checks self.now target.now)) }
    {
        if let Some(member) = member_fault(alloc, target)? {
            return Ok(Some(TargetFault::Member(member)));
        }
        if has_two_inputs(target) {
            return Ok(Some(TargetFault::TwoInputs));
        }
        if let Some(queue) = self.missing(target.arn.as_str()) {
            return Ok(Some(TargetFault::NoQueue(Text::from_str(alloc, queue)?)));
        }
        if let Some(queue) = self.missing_dead_letter(&target.dead_letter) {
            return Ok(Some(TargetFault::NoDeadLetterQueue(Text::from_str(alloc, queue)?)));
        }
        Ok(None)
    }

    /// The name of the queue, if the text is the ARN of a queue that does not exist.
    fn missing<'a>(&self, arn: &'a str) -> Option<&'a str>
        ensures { option_map (λ queue. queue.now) result ≡ refusal.missing_in self.now (queue_in arn.now) }
    {
        match queue_of(arn) {
            Some(queue) => if self.queue(queue) { None } else { Some(queue) },
            None => None,
        }
    }

    /// The name of the dead-letter queue, if its ARN is given and it does not exist.
    fn missing_dead_letter<'a>(&self, arn: &'a Option<Text>) -> Option<&'a str>
        ensures { option_map (λ queue. queue.now) result ≡ refusal.missing_in self.now (option_and_then queue_in arn.now) }
    {
        match arn {
            Some(arn) => self.missing(arn.as_str()),
            None => None,
        }
    }

    /// Whether a queue has this name.
    pub fn queue(&self, name: &str) -> bool
        ensures { result ≡ spec.has_queue name.now self.now }
    {
        self.queues.find(name).is_some()
    }

    /// The names of the queues, in their byte order.
    pub fn queues(&self) -> RowsFrom<'_, Text>
        ensures { result ≡ self.now.queues }
    {
        self.queues.iter()
    }

    /// The archive with this name.
    pub fn archive(&self, name: &str) -> Option<&ArchiveRow>
        ensures { MatchOption result
            (spec.archive_at name.now self.now ≡ None)
            (λ archive. spec.archive_at name.now self.now ≡ Some archive.now) }
    {
        self.archives.find(name)
    }

    /// The archives, in the byte order of their names.
    pub fn archives(&self) -> RowsFrom<'_, ArchiveRow>
        ensures { result ≡ self.now.archives }
    {
        self.archives.iter()
    }

    /// The number of changes that made this rule set.
    pub fn control_count(&self) -> u64
        ensures count { result ≡ self.now.count }
        ensures sound { IsSound self.now }
    {
        self.count
    }

    fn put_rule(
        &self,
        alloc: Global,
        bus: &Text,
        name: &Text,
        pattern: &SharedPattern,
        enabled: bool,
    ) -> Result<RuleSet, ControlFault>
        requires { self.now.count < 2 ^ 63 }
        ensures { IsChanged (rule_put bus.now name.now pattern.now enabled) self.now result }
    {
        let old = self.bus_in(bus)?;
        let Some(new) = old.with_rule(alloc, name, pattern, enabled)? else {
            return Err(ControlFault::LimitExceeded(Kind::Rule));
        };
        Ok(self.with_bus(alloc, new)?)
    }

    fn put_targets(
        &self,
        alloc: Global,
        bus: &Text,
        rule: &Text,
        targets: &[Target],
    ) -> Result<RuleSet, ControlFault>
        requires { self.now.count < 2 ^ 63 }
        ensures { IsChanged (targets_put bus.now rule.now targets.now) self.now result }
    {
        let (old, rule) = self.rule_in(bus, rule)?;
        let Some(targets) = self.after_put(alloc, rule, targets)? else {
            return Err(ControlFault::Validation(Member::Targets));
        };
        let new = old.with(alloc, rule.with_targets(alloc, targets)?)?;
        Ok(self.with_bus(alloc, new)?)
    }

    /// The rule's targets with the new ones put to them in order. `None` if there is no new one, or one has a fault.
    fn after_put(
        &self,
        alloc: Global,
        rule: &Rule,
        news: &[Target],
    ) -> Result<Option<Vec<RuleTarget>>, NoMemory>
        ensures { IfOk result (λ found. MatchOption found
            (refusal.are_some_put self.now news.now rule.now.targets ≡ false)
            (λ others. (refusal.are_some_put self.now news.now rule.now.targets ≡ true)
            × (map target_of others.items ≡ spec.put_targets news.now rule.now.targets) × All (IsStoredOf rule.now) others.items
            × All HasValidInput news.now)) }
    {
        if news.is_empty() {
            return Ok(None);
        }
        let mut others = pointers(alloc, rule.targets())?;
        for new in news {
            let asked = new.asked(alloc)?;
            if self.stored_fault(alloc, &others, &asked)?.is_some() {
                return Ok(None);
            }
            put_in_order(&mut others, rule.stored(alloc, new)?)?;
        }
        Ok(Some(others))
    }

    fn create_bus(&self, alloc: Global, name: &Text) -> Result<RuleSet, ControlFault>
        requires { self.now.count < 2 ^ 63 }
        ensures { IsChanged (bus_created name.now) self.now result }
    {
        if self.has_bus(name.as_str()) {
            return Err(ControlFault::AlreadyExists(Kind::EventBus));
        }
        if self.buses.reach(MOST_BUSES) {
            return Err(ControlFault::LimitExceeded(Kind::EventBus));
        }
        let bus = Bus {
            name: name.copy(alloc)?,
            policy: None,
            rules: Rows::new(alloc)?,
        };
        Ok(self.with_bus(alloc, bus)?)
    }

    fn delete_bus(&self, alloc: Global, name: &Text) -> Result<RuleSet, ControlFault>
        requires { self.now.count < 2 ^ 63 }
        ensures { IsChanged (bus_deleted name.now) self.now result }
    {
        if is_default(name.as_str()) {
            return Err(ControlFault::DefaultBus);
        }
        let bus = self.bus_in(name)?;
        if !self.is_unused(name, bus) {
            return Err(ControlFault::InUse(Kind::EventBus));
        }
        Ok(self.without_bus(alloc, name)?)
    }

    fn delete_rule(&self, alloc: Global, bus: &Text, name: &Text) -> Result<RuleSet, ControlFault>
        requires { self.now.count < 2 ^ 63 }
        ensures { IsChanged (rule_deleted bus.now name.now) self.now result }
    {
        let (old, rule) = self.rule_in(bus, name)?;
        if !rule.targets().is_empty() {
            return Err(ControlFault::HasTargets);
        }
        let new = old.without(alloc, name.as_str())?;
        Ok(self.with_bus(alloc, new)?)
    }

    fn put_state(
        &self,
        alloc: Global,
        bus: &Text,
        name: &Text,
        enabled: bool,
    ) -> Result<RuleSet, ControlFault>
        requires { self.now.count < 2 ^ 63 }
        ensures { IsChanged (state_put bus.now name.now enabled) self.now result }
    {
        let (old, rule) = self.rule_in(bus, name)?;
        let new = old.with(alloc, rule.with_state(alloc, enabled)?)?;
        Ok(self.with_bus(alloc, new)?)
    }

    fn remove_targets(
        &self,
        alloc: Global,
        bus: &Text,
        rule: &Text,
        ids: &[Text],
    ) -> Result<RuleSet, ControlFault>
        requires { self.now.count < 2 ^ 63 }
        ensures { IsChanged (targets_removed bus.now rule.now ids.now) self.now result }
    {
        let (old, rule) = self.rule_in(bus, rule)?;
        let Some(targets) = after_removal(alloc, rule, ids)? else {
            return Err(ControlFault::Validation(Member::Ids));
        };
        let new = old.with(alloc, rule.with_targets(alloc, targets)?)?;
        Ok(self.with_bus(alloc, new)?)
    }

    fn put_policy(
        &self,
        alloc: Global,
        bus: &Text,
        policy: &Option<StoredPolicy>,
    ) -> Result<RuleSet, ControlFault>
        requires { self.now.count < 2 ^ 63 }
        ensures { IsChanged (policy_put bus.now policy.now) self.now result }
    {
        let old = self.bus_in(bus)?;
        let Some(policy) = short_policy(policy)? else {
            return Err(ControlFault::PolicyTooLong);
        };
        let new = old.with_policy(alloc, policy)?;
        Ok(self.with_bus(alloc, new)?)
    }

    fn create_queue(&self, alloc: Global, name: &Text) -> Result<RuleSet, ControlFault>
        requires { self.now.count < 2 ^ 63 }
        ensures { IsChanged (queue_created name.now) self.now result }
    {
        if self.queue(name.as_str()) {
            return Err(ControlFault::AlreadyExists(Kind::Queue));
        }
        if self.queues.reach(MOST_QUEUES) {
            return Err(ControlFault::LimitExceeded(Kind::Queue));
        }
        Ok(self.with_queue(alloc, name.copy(alloc)?)?)
    }

    fn delete_queue(&self, alloc: Global, name: &Text) -> Result<RuleSet, ControlFault>
        requires { self.now.count < 2 ^ 63 }
        ensures { IsChanged (queue_deleted name.now) self.now result }
    {
        if !self.queue(name.as_str()) {
            return Err(ControlFault::ResourceNotFound(Kind::Queue));
        }
        if self.uses_queue(name.as_str()) {
            return Err(ControlFault::InUse(Kind::Queue));
        }
        Ok(self.without_queue(alloc, name)?)
    }

    fn create_archive(
        &self,
        alloc: Global,
        name: &Text,
        bus: &Text,
        pattern: &Option<SharedPattern>,
        _days: u32,
    ) -> Result<RuleSet, ControlFault>
        requires { self.now.count < 2 ^ 63 }
        ensures { IsChanged (archive_created name.now bus.now pattern.now _days) self.now result }
    {
        self.bus_in(bus)?;
        if self.has_archive(name.as_str()) {
            return Err(ControlFault::AlreadyExists(Kind::Archive));
        }
        if self.archives.reach(MOST_ARCHIVES) {
            return Err(ControlFault::LimitExceeded(Kind::Archive));
        }
        let row = ArchiveRow::new(alloc, name, bus, pattern, self.next_count())?;
        Ok(self.with_archive(alloc, row)?)
    }

    fn update_archive(
        &self,
        alloc: Global,
        name: &Text,
        pattern: &Option<SharedPattern>,
        _days: u32,
    ) -> Result<RuleSet, ControlFault>
        requires { self.now.count < 2 ^ 63 }
        ensures { IsChanged (archive_updated name.now pattern.now _days) self.now result }
    {
        let old = self.archive_in(name)?;
        if !old.keeps_pattern(pattern) {
            return Err(ControlFault::Validation(Member::EventPattern));
        }
        let new = old.with_pattern(pattern)?;
        Ok(self.with_archive(alloc, new)?)
    }

    fn delete_archive(&self, alloc: Global, name: &Text) -> Result<RuleSet, ControlFault>
        requires { self.now.count < 2 ^ 63 }
        ensures { IsChanged (archive_deleted name.now) self.now result }
    {
        self.archive_in(name)?;
        Ok(self.without_archive(alloc, name)?)
    }

    /// The archive of this name, or its fault, in a rule set that is sound.
    fn archive_in(&self, name: &Text) -> Result<&ArchiveRow, ControlFault>
        ensures found { MatchResult result
            (λ archive. spec.archive_at name.now self.now ≡ Some archive.now)
            (λ fault. (spec.archive_at name.now self.now ≡ None) × (fault ≡ ControlFault.ResourceNotFound Kind.Archive)) }
        ensures sound { IsSound self.now }
    {
        match self.archives.find(name.as_str()) {
            Some(archive) => Ok(archive),
            None => Err(ControlFault::ResourceNotFound(Kind::Archive)),
        }
    }

    fn has_archive(&self, name: &str) -> bool
        ensures { result ≡ spec.has_archive name.now self.now }
    {
        self.archive(name).is_some()
    }

    /// Whether the bus, which has this name, has no rule and no archive.
    fn is_unused(&self, name: &Text, bus: &Bus) -> bool
        ensures { result ≡ (nat_le (length bus.now.rules) 0 && nat_le (length (spec.archives_of name.now self.now)) 0) }
    {
        if bus.has_rules() {
            false
        } else {
            self.has_no_archive(name.as_str())
        }
    }

    /// Whether the bus has no archive.
    fn has_no_archive(&self, bus: &str) -> bool
        ensures { result ≡ nat_le (length (spec.archives_of bus.now self.now)) 0 }
    {
        let mut archives = self.archives.iter();
        while let Some(archive) = archives.next() {
            if archive.bus() == bus {
                return false;
            }
        }
        true
    }

    /// Whether a target of some rule names the queue, as its own or as its dead-letter queue, in a rule set that is sound.
    fn uses_queue(&self, queue: &str) -> bool
        ensures used { result ≡ spec.is_queue_used queue.now self.now }
        ensures sound { IsSound self.now }
    {
        let mut buses = self.buses.iter();
        while let Some(bus) = buses.next() {
            if bus.uses_queue(queue) {
                return true;
            }
        }
        false
    }

    /// The bus with this name, of a rule set that is sound.
    fn found(&self, name: &str) -> Option<&Bus>
        ensures found { MatchOption result
            (spec.has_bus name.now self.now ≡ false)
            (λ bus. named (λ b. b.name) name.now self.now.buses ≡ Some bus.now) }
        ensures sound { IsSound self.now }
    {
        self.buses.find(name)
    }

    /// The bus with this name, or its fault.
    fn bus_in(&self, name: &Text) -> Result<&Bus, ControlFault>
        ensures found { MatchResult result
            (λ bus. named (λ b. b.name) name.now self.now.buses ≡ Some bus.now)
            (λ fault. refusal.bus_check name.now self.now ≡ Some fault) }
        ensures sound { IsSound self.now }
    {
        match self.found(name.as_str()) {
            Some(bus) => Ok(bus),
            None => Err(ControlFault::ResourceNotFound(Kind::EventBus)),
        }
    }

    /// The bus and its rule with these names, or the fault of the first that is missing.
    fn rule_in(&self, bus: &Text, name: &Text) -> Result<(&Bus, &Rule), ControlFault>
        ensures found { MatchResult result
            (λ p. (named (λ b. b.name) bus.now self.now.buses ≡ Some p.0.now) × (named (λ r. r.name) name.now p.0.now.rules ≡ Some p.1.now))
            (λ fault. first_fault (refusal.rule_checks bus.now name.now self.now) ≡ Some fault) }
        ensures sound { IsSound self.now }
    {
        let bus = self.bus_in(bus)?;
        match bus.rule(name.as_str()) {
            Some(rule) => Ok((bus, rule)),
            None => Err(ControlFault::ResourceNotFound(Kind::Rule)),
        }
    }

    fn has_bus(&self, name: &str) -> bool
        ensures { result ≡ spec.has_bus name.now self.now }
    {
        self.found(name).is_some()
    }

    /// The set with this bus in place of the one of its name.
    fn with_bus(&self, alloc: Global, bus: Bus) -> Result<RuleSet, NoMemory>
        requires count { self.now.count < 2 ^ 63 }
        requires sound { IsSound (record self.now { buses = placed (λ b. b.name) replacing bus self.now.buses; count = self.now.count + 1 }) }
        ensures { IfOk result (λ set. set ≡ record self.now {
          buses = placed (λ b. b.name) replacing bus self.now.buses;
          count = self.now.count + 1;
        }) }
    {
        Ok(RuleSet {
            buses: self.buses.with(alloc, bus)?,
            queues: self.queues.share()?,
            archives: self.archives.share()?,
            count: self.next_count(),
        })
    }

    /// The set without the bus of this name.
    fn without_bus(&self, alloc: Global, name: &Text) -> Result<RuleSet, NoMemory>
        requires count { self.now.count < 2 ^ 63 }
        requires sound { IsSound (record self.now { buses = spec.without_bus name.now self.now.buses; count = self.now.count + 1 }) }
        ensures { IfOk result (λ set. set ≡ record self.now { buses = spec.without_bus name.now self.now.buses; count = self.now.count + 1 }) }
    {
        Ok(RuleSet {
            buses: self.buses.without(alloc, name.as_str())?,
            queues: self.queues.share()?,
            archives: self.archives.share()?,
            count: self.next_count(),
        })
    }

    /// The set with this queue.
    fn with_queue(&self, alloc: Global, queue: Text) -> Result<RuleSet, NoMemory>
        requires count { self.now.count < 2 ^ 63 }
        requires sound { IsSound (record self.now { queues = spec.put_queue queue self.now.queues; count = self.now.count + 1 }) }
        ensures { IfOk result (λ set. set ≡ record self.now { queues = spec.put_queue queue self.now.queues; count = self.now.count + 1 }) }
    {
        Ok(RuleSet {
            buses: self.buses.share()?,
            queues: self.queues.with(alloc, queue)?,
            archives: self.archives.share()?,
            count: self.next_count(),
        })
    }

    /// The set without the queue of this name.
    fn without_queue(&self, alloc: Global, name: &Text) -> Result<RuleSet, NoMemory>
        requires count { self.now.count < 2 ^ 63 }
        requires sound { IsSound (record self.now { queues = spec.without_queue name.now self.now.queues; count = self.now.count + 1 }) }
        ensures { IfOk result (λ set. set ≡ record self.now { queues = spec.without_queue name.now self.now.queues; count = self.now.count + 1 }) }
    {
        Ok(RuleSet {
            buses: self.buses.share()?,
            queues: self.queues.without(alloc, name.as_str())?,
            archives: self.archives.share()?,
            count: self.next_count(),
        })
    }

    /// The set with this archive in place of the one of its name.
    fn with_archive(&self, alloc: Global, archive: ArchiveRow) -> Result<RuleSet, NoMemory>
        requires count { self.now.count < 2 ^ 63 }
        requires sound { IsSound (record self.now { archives = spec.put_archive archive self.now.archives; count = self.now.count + 1 }) }
        ensures { IfOk result (λ set. set ≡ record self.now { archives = spec.put_archive archive self.now.archives; count = self.now.count + 1 }) }
    {
        Ok(RuleSet {
            buses: self.buses.share()?,
            queues: self.queues.share()?,
            archives: self.archives.with(alloc, archive)?,
            count: self.next_count(),
        })
    }

    /// The set without the archive of this name.
    fn without_archive(&self, alloc: Global, name: &Text) -> Result<RuleSet, NoMemory>
        requires count { self.now.count < 2 ^ 63 }
        requires sound { IsSound (record self.now { archives = spec.without_archive name.now self.now.archives; count = self.now.count + 1 }) }
        ensures { IfOk result (λ set. set ≡ record self.now { archives = spec.without_archive name.now self.now.archives; count = self.now.count + 1 }) }
    {
        Ok(RuleSet {
            buses: self.buses.share()?,
            queues: self.queues.share()?,
            archives: self.archives.without(alloc, name.as_str())?,
            count: self.next_count(),
        })
    }

    fn next_count(&self) -> u64
        requires { self.now.count < 2 ^ 63 }
        ensures { result ≡ self.now.count + 1 }
    {
        self.count + 1
    }
}

/// Whether this is the name of the bus that is never deleted.
fn is_default(name: &str) -> bool
    ensures { result ≡ bytes_eq name.now default_bus }
{
    name == DEFAULT_BUS
}

/// The fault of a target that is one too many.
fn room_fault(is_sixth: bool) -> Option<TargetFault>
    ensures { result ≡ (if is_sixth then Some TargetFault.Sixth else None) }
{
    if is_sixth {
        Some(TargetFault::Sixth)
    } else {
        None
    }
}
