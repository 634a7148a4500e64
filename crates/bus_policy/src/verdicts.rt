//! The verdict of a bus's policy.
ghost use Rattle.std.specs.Option.{option_copied};
ghost use Rattle.bus_policy.specs.View.{asker_of, verdict_of};
ghost use Rattle.bus_policy.specs.Verdict.{IsBusVerdict};

use crate::asker::Asker;
use crate::deciding::verdict;
use crate::policy::Policy;
use crate::verdict::Verdict;

/// The verdict of a bus's policy. A bus without one has no statement, so that the owner alone is allowed. Takes no memory.
pub fn bus_verdict<'a>(policy: Option<&'a Policy>, asker: &Asker) -> Verdict<'a>
    ensures { IsBusVerdict (option_copied policy.entry) (asker_of asker.now) (verdict_of result) }
{
    match policy {
        Some(policy) => policy.decide(asker),
        None => verdict(&[], &[], asker),
    }
}
