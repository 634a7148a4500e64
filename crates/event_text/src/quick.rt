//! One pass over the text of an event, without memory.
ghost use Rattle.std.specs.Prelude.{IfSome, IsTrue};
ghost use Rattle.event_text.specs.Numbered.{IsNumberedText};
ghost use Rattle.event_text.specs.Written.{BeginsEvent};

use crate::fields::{after_account, after_resources, after_some_string, after_source, after_time};
use crate::front::after;
use crate::id::after_id;
use crate::value::after_members;

/// The number of levels that the values in a detail may have: one less than the detail.
const LEVELS: u32 = 98;

/// Whether one pass over the bytes shows that they are the text of an event whose number is at least 1 and whose account has
/// 12 digits. It shows that of each such text, which has at most 100 levels, unless its number is at least 2^48, an object has
/// more than 64 keys, two keys of an object have one hash of 32 bits, or a control character is written as `\u00xx`.
pub fn is_numbered_in_one_pass(text: &[u8]) -> bool
    ensures { IsTrue result → IsNumberedText text.now }
{
    match after_event(text) {
        Some(rest) => rest.is_empty(),
        None => false,
    }
}

/// What follows the text of such an event. Each name is what begins inside the member: after its first quotation mark,
/// bracket or brace.
fn after_event(text: &[u8]) -> Option<&[u8]>
    ensures { IfSome result (λ rest. BeginsEvent text.now rest.now) }
{
    let id = after(text, b"{\"version\":\"0\",\"id\":\"")?;
    let detail_type = after(after_id(id)?, b",\"detail-type\":\"")?;
    let source = after(after_some_string(detail_type)?, b",\"source\":\"")?;
    let account = after(after_source(source)?, b",\"account\":\"")?;
    let time = after(after_account(account)?, b",\"time\":\"")?;
    let resources = after(
        after_time(time)?,
        b",\"region\":\"us-east-1\",\"resources\":[",
    )?;
    let detail = after(after_resources(resources)?, b",\"detail\":{")?;
    after(after_members(detail, LEVELS)?, b"}")
}
