//! The replies to bytes that are refused.
ghost use Rattle.std.specs.Prelude.{◌≡◌, true};
ghost use Rattle.api_replies.specs.Written.{reply_text};
ghost use Rattle.message_streams.specs.Farewell.{refusal_reply};

use api_messages::Refusal;
use api_replies::{bad_head_reply, head_too_large_reply, length_required_reply, too_large_reply};

/// The bytes of the reply to bytes that are refused. They need no memory.
pub fn refusal_bytes(why: Refusal) -> &'static [u8]
    ensures { result.now ≡ reply_text (refusal_reply why) true }
{
    match why {
        Refusal::BadHead => bad_head_reply(),
        Refusal::LengthRequired => length_required_reply(),
        Refusal::TooLarge => too_large_reply(),
        Refusal::HeadTooLarge => head_too_large_reply(),
    }
}
