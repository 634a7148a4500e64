//! The body of a message.
ghost use Rattle.std.specs.Prelude.{◌≡◌, MatchOption, MatchResult};
ghost use Rattle.json_text.specs.Tree.{Members as MembersView, object, members_of};
ghost use Rattle.json_text.specs.View.{tree_of, pairs_of};
ghost use Rattle.api_wire.specs.Call.{IsBody};
ghost use Rattle.api_wire.specs.CallAnswers.{IsBodyFault};

use api_members::CallFault;
use api_replies::Cause;
use json_text::{Json, Members, read};
use std::alloc::Global;

/// The number of levels of lists and objects that a body may have.
const BODY_LEVELS: u32 = 100;

/// The members of the object that the bytes are. An empty body counts as `{}`.
pub(super) fn read_body(alloc: Global, bytes: &[u8]) -> Result<Members, CallFault>
    ensures read { MatchResult result
        (λ ms. IsBody bytes.now (members_of (pairs_of ms.items)))
        (IsBodyFault bytes.now) }
    ensures only { MatchResult result
        (λ ms. (other : MembersView) → IsBody bytes.now other → members_of (pairs_of ms.items) ≡ other)
        (λ _. Unit {0}) }
{
    if bytes.is_empty() {
        return Ok(Vec::new(alloc));
    }
    match members_of(read(alloc, bytes, BODY_LEVELS)?) {
        Some(members) => Ok(members),
        None => Err(CallFault::Refused(Cause::NoObject)),
    }
}

/// The members of the object that the value is.
fn members_of(value: Json) -> Option<Members>
    ensures { MatchOption result
        ((members : MembersView) → tree_of value ≡ object members → ⊥)
        (λ members. tree_of value ≡ object (members_of (pairs_of members.items))) }
{
    match value {
        Json::Obj(members) => Some(members),
        Json::Null | Json::Truth(_) | Json::Num(_) | Json::Str(_) | Json::List(_) => None,
    }
}
