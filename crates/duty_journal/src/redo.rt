//! Batches that are applied again, as they are read from a journal.
ghost use Rattle.std.specs.Prelude.{◌≡◌, ◌<◌, ◌≤◌, ◌^◌, [], ◌∷◌, List, ℕ, map, length, IfOk, Err};
ghost use Rattle.std.specs.List.{AllByRecursion};
ghost use Rattle.router_requests.specs.Batch.{Batch as BatchView};
ghost use Rattle.router_requests.specs.View.{batch_of, entry_of};
ghost use Rattle.router_core.specs.Tables.{after_batch};
ghost use Rattle.router_core.specs.Admitted.{AreAdmitted, AreOfOneTurn, IsAdmitted};
ghost use Rattle.router_core.specs.Ready.{ArePartsOf};
ghost use Rattle.duty_journal.specs.Batch.{HasValidTexts};
ghost use Rattle.duty_journal.specs.Redo.{HasNoClaim, IsPlanOf, IsRedoOf};

use crate::admit::{Need, admit_events, admit_one, is_on_time};
use crate::fault::ReplayFault;
use delivery_duties::Outcome;
use router_core::{Part, Ready, Tables};
use router_requests::{Batch, Entry};
use std::alloc::Global;
use std::collections::VecDeque;

/// A batch that tables admit, with what applying it needs.
#[derive(Drop)]
pub enum Redo {
    Ready(Ready),
    /// The record of an attempt: its moment, the number of its duty, and its outcome.
    Attempt(u64, u64, Outcome),
}

/// What operations need to be applied.
#[derive(Drop)]
pub enum Plan {
    Parts(VecDeque<Part>),
    OneAttempt(u64, Outcome),
}

/// The batch with what applying it needs, if the tables admit it. No duty of them may be claimed.
pub fn replay_batch(alloc: Global, tables: &Tables, batch: Batch) -> Result<Redo, ReplayFault>
    requires valid { AllByRecursion HasValidTexts (batch_of batch).entries }
    requires unclaimed { HasNoClaim tables.now }
    ensures ready { IfOk result (λ redo. IsRedoOf tables.now (batch_of batch) redo × IsAdmitted tables.now (batch_of batch)) }
    ensures refused { result ≡ Err ReplayFault.NotAdmitted → ¬ IsAdmitted tables.now (batch_of batch) }
{
    if !is_on_time(tables, batch.moment) {
        return Err(ReplayFault::NotAdmitted);
    }
    match planned(alloc, tables, batch.moment, &batch.entries) {
        Ok(needed) => match needed {
            Plan::Parts(parts) => Ok(Redo::Ready(Ready::new(batch, parts))),
            Plan::OneAttempt(duty, outcome) => Ok(Redo::Attempt(batch.moment, duty, outcome)),
        },
        Err(fault) => Err(fault),
    }
}

impl Redo {
    /// Applies it to the tables that admit it. Takes no memory.
    pub fn apply(self, tables: &mut Tables)
        requires { (b : BatchView) × IsRedoOf tables.old b self }
        ensures { (b : BatchView) → IsRedoOf tables.old b self → tables.new ≡ after_batch b tables.old }
    {
        match self {
            Redo::Ready(ready) => {
                let _released = tables.apply(ready);
            }
            Redo::Attempt(moment, duty, outcome) => {
                let _fate = tables.settle_at(duty, outcome, moment);
            }
        }
    }
}

fn planned(
    alloc: Global,
    tables: &Tables,
    moment: u64,
    entries: &[Entry],
) -> Result<Plan, ReplayFault>
    requires valid { AllByRecursion HasValidTexts (map entry_of entries.now) }
    requires unclaimed { HasNoClaim tables.now }
    requires count { tables.now.set.count < 2 ^ 63 }
    requires events { tables.now.events < 2 ^ 63 }
    ensures ok { IfOk result (λ p. AreOfOneTurn (map entry_of entries.now) × AreAdmitted moment (map entry_of entries.now) tables.now
        × IsPlanOf tables.now moment (map entry_of entries.now) p) }
    ensures refused { result ≡ Err ReplayFault.NotAdmitted →
        ¬ (AreOfOneTurn (map entry_of entries.now) × AreAdmitted moment (map entry_of entries.now) tables.now) }
{
    match entries {
        [entry] => match admit_one(alloc, tables, moment, entry) {
            Ok(need) => match need {
                Need::OfPart(part) => one_part(alloc, part),
                Need::OfAttempt(duty, outcome) => Ok(Plan::OneAttempt(duty, outcome)),
            },
            Err(fault) => Err(fault),
        },
        [] => Err(ReplayFault::NotAdmitted),
        [_, _, ..] => plan_events(alloc, tables, moment, entries),
    }
}

fn one_part(alloc: Global, part: Part) -> Result<Plan, ReplayFault>
    ensures part { IfOk result (λ p. (parts : VecDeque Part Global) × (p ≡ Plan.Parts parts) × (parts.items ≡ part ∷ [])) }
    ensures refused { ¬ (result ≡ Err ReplayFault.NotAdmitted) }
{
    let mut parts = VecDeque::new(alloc);
    match parts.push_back(part) {
        Ok(()) => Ok(Plan::Parts(parts)),
        Err(_) => Err(ReplayFault::NoMemory),
    }
}

/// What several operations need, which have to be events.
fn plan_events(
    alloc: Global,
    tables: &Tables,
    moment: u64,
    entries: &[Entry],
) -> Result<Plan, ReplayFault>
    requires several { 2 ≤ length entries.now }
    requires events { tables.now.events < 2 ^ 63 }
    ensures ok { IfOk result (λ p. AreOfOneTurn (map entry_of entries.now) × AreAdmitted moment (map entry_of entries.now) tables.now
        × IsPlanOf tables.now moment (map entry_of entries.now) p) }
    ensures refused { result ≡ Err ReplayFault.NotAdmitted →
        ¬ (AreOfOneTurn (map entry_of entries.now) × AreAdmitted moment (map entry_of entries.now) tables.now) }
{
    if entries.len() > 10 {
        return Err(ReplayFault::NotAdmitted);
    }
    let mut parts = VecDeque::new(alloc);
    let number = tables.events() + 1;
    match admit_events(alloc, tables.set(), moment, number, entries, &mut parts) {
        Ok(()) => Ok(Plan::Parts(parts)),
        Err(fault) => Err(fault),
    }
}
