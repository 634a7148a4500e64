//! Targets of one rule, in the byte order of their ids.
ghost use Rattle.std.specs.Prelude.{◌≡◌, true, false, not, nat_le, map, All, IfOk, OnOk, OnErr, MatchOption, length};
ghost use Rattle.std.specs.List.{list_any};
ghost use Rattle.name_rows.specs.Place.{IsPlace};
ghost use Rattle.name_rows.specs.Rows.{AreSorted, placed, replacing};
ghost use Rattle.rule_table.specs.RuleSet as spec;
ghost use Rattle.rule_table.specs.Refusal.{are_some_removable};
ghost use Rattle.rule_table.specs.Target.{target_of, IsStoredOf};

use crate::rule::Rule;
use crate::rule_target::RuleTarget;
use json_text::{NoMemory, Text};
use name_rows::{Place, Row};
use rule_targets::Target;
use std::alloc::Global;
use std::cmp::Ordering;

/// The greatest number of targets of a rule.
const MOST_TARGETS: usize = 5;

/// Pointers to the same targets.
pub(crate) fn pointers(alloc: Global, targets: &[RuleTarget]) -> Result<Vec<RuleTarget>, NoMemory>
    ensures { IfOk result (λ others. others.items ≡ targets.now) }
{
    let mut others = Vec::with_capacity(alloc, targets.len())?;
    for target in targets {
        others.push(target.share()?)?;
    }
    Ok(others)
}

/// Whether one of the targets names the queue, as its own or as its dead-letter queue.
pub(crate) fn any_uses(targets: &[RuleTarget], queue: &str) -> bool
    ensures { result ≡ list_any (λ stored. spec.is_used_by_target queue.now (target_of stored)) targets.now }
{
    targets.iter().any(|target| target.uses_queue(queue))
}

/// The place of the id in the targets.
fn place_of<R: Row>(targets: &[R], id: &str) -> Place
    ensures { IsPlace R.name_of id.now targets.now result }
{
    for (at, target) in targets.iter().enumerate() {
        match id.cmp(target.row_name()) {
            Ordering::Less => return Place::Before(at),
            Ordering::Equal => return Place::Here(at),
            Ordering::Greater => (),
        }
    }
    Place::Before(targets.len())
}

/// Whether the rule would have more than five targets with one of this id.
pub(crate) fn is_sixth<R: Row>(targets: &[R], id: &str) -> bool
    ensures { result ≡ not (nat_le (length (placed (λ n. n) replacing id.now (map R.name_of targets.now))) 5) }
{
    match place_of(targets, id) {
        Place::Here(_) => targets.len() > MOST_TARGETS,
        Place::Before(_) => targets.len() >= MOST_TARGETS,
    }
}

/// Puts the target to a rule's targets, in the byte order of ids; a target with the same id is replaced. After an error the
/// targets are as they were.
pub fn put_target(targets: &mut Vec<Target>, new: Target) -> Result<(), NoMemory>
    ensures put { OnOk result (targets.new.items ≡ spec.put_target new targets.old.items) }
    ensures unchanged { OnErr result (targets.new.items ≡ targets.old.items) }
{
    put_in_order(targets, new)
}

/// The same, of targets in any form.
pub(crate) fn put_in_order<R: Row + Drop>(targets: &mut Vec<R>, new: R) -> Result<(), NoMemory>
    ensures put { OnOk result (targets.new.items ≡ placed R.name_of replacing new targets.old.items) }
    ensures unchanged { OnErr result (targets.new.items ≡ targets.old.items) }
{
    match place_of(targets.as_slice(), new.row_name()) {
        Place::Here(at) => targets[at] = new,
        Place::Before(at) => targets.insert(at, new)?,
    }
    Ok(())
}

/// The targets of the rule without those of these ids. `None` if there is no id, or one is no target's, or comes twice.
pub(crate) fn after_removal(
    alloc: Global,
    rule: &Rule,
    ids: &[Text],
) -> Result<Option<Vec<RuleTarget>>, NoMemory>
    requires { AreSorted (λ target. target.id) rule.now.targets }
    ensures { IfOk result (λ found. MatchOption found
        (are_some_removable ids.now rule.now.targets ≡ false)
        (λ others. (are_some_removable ids.now rule.now.targets ≡ true)
        × (map target_of others.items ≡ spec.without_targets ids.now rule.now.targets) × All (IsStoredOf rule.now) others.items)) }
{
    if ids.is_empty() {
        return Ok(None);
    }
    let mut others = pointers(alloc, rule.targets())?;
    for id in ids {
        match place_of(others.as_slice(), id.as_str()) {
            Place::Here(at) => {
                let _removed = others.remove(at);
            }
            Place::Before(_) => return Ok(None),
        }
    }
    Ok(Some(others))
}
