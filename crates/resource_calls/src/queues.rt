//! Calls on queues.
ghost use Rattle.std.specs.Prelude.{◌≡◌, ◌∷◌, [], IfOk, codes, ◌&&◌, true, ◌<◌, ◌^◌, length};
ghost use Rattle.json_text.specs.Tree.{text};
ghost use Rattle.event_shape.specs.Names.{IsQueueName, queue_arn};
ghost use Rattle.rule_table.specs.Control.{queue_created};
ghost use Rattle.rule_table.specs.RuleSet.{has_queue};
ghost use Rattle.delivery_duties.specs.Duties.{names_queue};
ghost use Rattle.delivery_queues.specs.Queues.{messages_of, messages_through};
ghost use Rattle.api_replies.specs.View.{reply_of};
ghost use Rattle.router_requests.specs.Batch.{messages_deleted};
ghost use Rattle.api_replies.specs.Reply as replies;
ghost use Rattle.resource_calls.specs.Decision.{controlled, queue_deletion, messages_deletion, writes};
ghost use Rattle.resource_calls.specs.Decided.{decided_of, CanBeMade};

use crate::changes::configure;
use crate::decided::{Decided, refused, shown, writes};
use call_replies::{empty_reply, number_reply, text_reply};
use event_shape::queue_arn;
use json_text::{NoMemory, Text};
use router_core::{Cause, Kind, Part, Reply, Tables};
use router_requests::Entry;
use rule_table::Control;
use std::alloc::Global;

pub fn create_queue(
    alloc: Global,
    tables: &Tables,
    moment: u64,
    name: &Text,
) -> Result<Decided, NoMemory>
    requires queue { IsQueueName name.now }
    ensures answer { IfOk result (λ d. decided_of d ≡ controlled tables.now.set (queue_created name.now)
        (replies.served ((codes "QueueArn", text (queue_arn name.now)) ∷ []))) }
    ensures made { IfOk result (λ d. CanBeMade tables.now moment d) }
{
    let arn = queue_arn(alloc, name.as_str())?;
    let reply = text_reply(alloc, "QueueArn", arn)?;
    let control = Control::QueueCreated {
        name: name.copy(alloc)?,
    };
    configure(alloc, tables, moment, control, reply)
}

/// Deletes the queue. A queue that a target, a dead-letter setting, a pending delivery or a message names is in use.
pub fn delete_queue(
    alloc: Global,
    tables: &Tables,
    moment: u64,
    name: &Text,
) -> Result<Decided, NoMemory>
    requires queue { IsQueueName name.now }
    ensures answer { IfOk result (λ d. decided_of d ≡ queue_deletion tables.now name.now) }
    ensures made { IfOk result (λ d. CanBeMade tables.now moment d) }
{
    if is_queue_named(tables, name.as_str()) {
        let name = name.copy(alloc)?;
        let kind = Kind::Queue;
        return refused(alloc, &Cause::InUse { kind, name });
    }
    let control = Control::QueueDeleted {
        name: name.copy(alloc)?,
    };
    configure(alloc, tables, moment, control, empty_reply(alloc))
}

/// Whether the queue exists, and a pending delivery or a message names it.
fn is_queue_named(tables: &Tables, queue: &str) -> bool
    ensures { result ≡ (has_queue queue.now tables.now.set && names_queue queue.now tables.now.duties) }
{
    tables.set().queue(queue) && tables.duties().names(queue)
}

/// Deletes the messages of the queue with numbers up to this one. Without such a message nothing is changed. Applying the deletion takes no
/// memory.
pub fn delete_messages(
    alloc: Global,
    tables: &Tables,
    moment: u64,
    queue: &Text,
    through: u64,
) -> Result<Decided, NoMemory>
    requires through { through < 2 ^ 48 }
    ensures answer { IfOk result (λ d. decided_of d ≡ messages_deletion tables.now queue.now through) }
    ensures made { IfOk result (λ d. CanBeMade tables.now moment d) }
{
    if !tables.set().queue(queue.as_str()) {
        let name = queue.copy(alloc)?;
        let kind = Kind::Queue;
        return refused(alloc, &Cause::NotFound { kind, name });
    }
    let count = tables.duties().count_through(queue.as_str(), through);
    let reply = number_reply(alloc, "Deleted", count)?;
    if count == 0 {
        Ok(shown(alloc, reply))
    } else {
        one_deletion(alloc, tables, moment, queue, through, reply)
    }
}

/// The deletion of the messages.
fn one_deletion(
    alloc: Global,
    tables: &Tables,
    moment: u64,
    queue: &Text,
    through: u64,
    reply: Reply,
) -> Result<Decided, NoMemory>
    requires through { through < 2 ^ 48 }
    requires some { 0 < length (messages_through through (messages_of queue.now tables.now.duties.queues)) }
    ensures answer { IfOk result (λ d. decided_of d ≡ writes (messages_deleted queue.now through) (reply_of reply)) }
    ensures made { IfOk result (λ d. CanBeMade tables.now moment d) }
{
    let queue = queue.copy(alloc)?;
    writes(
        alloc,
        Entry::MessagesDeleted { queue, through },
        Part::Nothing,
        reply,
    )
}
