//! DutyCounts.
ghost use Rattle.std.specs.Prelude.{◌≡◌, ◌++◌, ◌∷◌, [], IfOk, OnOk, decimal};
ghost use Rattle.json_text.specs.Tree.{number};
ghost use Rattle.json_text.specs.View.{pairs_of};
ghost use Rattle.api_replies.specs.View.{reply_of};
ghost use Rattle.call_replies.specs.Replies.{duties_reply};

use crate::replies::number_json;
use api_replies::Reply;
use delivery_duties::Duties;
use json_text::{Json, Members, NoMemory, push_member};
use std::alloc::Global;

/// The reply to a DutyCounts: the number of deliveries made so far, and the number in each state.
pub fn duty_counts(alloc: Global, duties: &Duties) -> Result<Reply, NoMemory>
    ensures { IfOk result (λ r. reply_of r ≡ duties_reply duties.now) }
{
    let counts = duties.counts();
    let mut members: Members = Vec::with_capacity(alloc, 5)?;
    push_count(alloc, &mut members, "Created", counts.created)?;
    push_count(alloc, &mut members, "Pending", counts.pending)?;
    push_count(alloc, &mut members, "Delivered", counts.delivered)?;
    push_count(alloc, &mut members, "DeadLettered", counts.dead_lettered)?;
    push_count(alloc, &mut members, "Dropped", counts.dropped)?;
    let body = Json::Obj(members);
    Ok(Reply { status: 200, body })
}

/// Adds a member whose value is this number.
fn push_count(alloc: Global, members: &mut Members, key: &str, count: u64) -> Result<(), NoMemory>
    ensures { OnOk result (pairs_of members.new.items ≡ pairs_of members.old.items ++ (key.now, number (decimal count)) ∷ []) }
{
    let value = number_json(alloc, count)?;
    push_member(alloc, members, key, value)
}
