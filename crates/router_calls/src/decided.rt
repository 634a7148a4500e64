//! The batch that a decision becomes.
ghost use Rattle.std.specs.Prelude.{◌≡◌, ◌≤◌, IfOk, IfSome};
ghost use Rattle.json_text.specs.Moment.{IsMoment};
ghost use Rattle.router_core.specs.Ready.{IsReadyFor};
ghost use Rattle.router_calls.specs.Answer.{answer_at};
ghost use Rattle.resource_calls.specs.Decided.{decided_of, CanBeMade};
ghost use Rattle.router_calls.specs.View.{answer_of};

use json_text::NoMemory;
use resource_calls::Decided;
use router_core::{Cause, Ready, Reply, Tables, refused_reply};
use router_requests::Batch;
use std::alloc::Global;

/// The batch of what was decided, if it writes something, and the reply. At the number limit the request is refused instead.
pub(crate) fn batched(
    alloc: Global,
    tables: &Tables,
    moment: u64,
    decided: Decided,
) -> Result<(Option<Ready>, Reply), NoMemory>
    requires moment { IsMoment moment }
    requires later { tables.now.moment ≤ moment }
    requires made { CanBeMade tables.now moment decided }
    ensures answer { IfOk result (λ p. answer_of p ≡ answer_at tables.now moment (decided_of decided)) }
    ensures ready { IfOk result (λ p. IfSome p.0 (λ r. IsReadyFor tables.now r)) }
{
    let Decided {
        entries,
        parts,
        reply,
    } = decided;
    if entries.is_empty() {
        return Ok((None, reply));
    }
    if tables.full() {
        let reply = refused_reply(alloc, &Cause::NumberLimit)?;
        return Ok((None, reply));
    }
    let ready = Ready::new(Batch { moment, entries }, parts);
    Ok((Some(ready), reply))
}
