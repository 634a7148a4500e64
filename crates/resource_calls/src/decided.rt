//! What is decided of a call.
ghost use Rattle.std.specs.Prelude.{◌≡◌, ◌∷◌, [], ℕ, IfOk};
ghost use Rattle.api_replies.specs.View.{reply_of};
ghost use Rattle.router_requests.specs.View.{entry_of};
ghost use Rattle.router_core.specs.Tables.{Tables as TablesView};
ghost use Rattle.resource_calls.specs.Decision.{shown, refusal, writes};
ghost use Rattle.resource_calls.specs.Decided.{decided_of, CanBeMade};

use json_text::NoMemory;
use router_core::{Cause, Part, Reply, refused_reply};
use router_requests::Entry;
use std::alloc::Global;
use std::collections::VecDeque;

/// The operations that a request writes, with the part of each, and its reply.
#[derive(Drop)]
pub struct Decided {
    pub entries: Vec<Entry>,
    pub parts: VecDeque<Part>,
    pub reply: Reply,
}

/// A reply, and nothing to write.
pub fn shown(alloc: Global, reply: Reply) -> Decided
    ensures answer { decided_of result ≡ shown (reply_of reply) }
    ensures made { (t : TablesView) (moment : ℕ) → CanBeMade t moment result }
{
    Decided {
        entries: Vec::new(alloc),
        parts: VecDeque::new(alloc),
        reply,
    }
}

/// A refusal, and nothing to write.
pub fn refused(alloc: Global, cause: &Cause) -> Result<Decided, NoMemory>
    ensures answer { IfOk result (λ d. decided_of d ≡ refusal cause.now) }
    ensures made { IfOk result (λ d. (t : TablesView) (moment : ℕ) → CanBeMade t moment d) }
{
    Ok(shown(alloc, refused_reply(alloc, cause)?))
}

/// One operation with its part and its reply.
pub fn writes(alloc: Global, entry: Entry, part: Part, reply: Reply) -> Result<Decided, NoMemory>
    ensures answer { IfOk result (λ d. decided_of d ≡ writes (entry_of entry) (reply_of reply)) }
    ensures entry { IfOk result (λ d. d.entries.items ≡ entry ∷ []) }
    ensures part { IfOk result (λ d. d.parts.items ≡ part ∷ []) }
{
    let mut entries = Vec::with_capacity(alloc, 1)?;
    entries.push(entry)?;
    let mut parts = VecDeque::with_capacity(alloc, 1)?;
    parts.push_back(part)?;
    Ok(Decided {
        entries,
        parts,
        reply,
    })
}
