//! Parts of replies that several calls share.
ghost use Rattle.std.specs.Prelude.{◌≡◌, Some, IfOk};
ghost use Rattle.std.specs.Option.{option_copied};
ghost use Rattle.json_text.specs.View.{trees_of, pairs_of};
ghost use Rattle.api_replies.specs.declared.kind.Kind.TheVariants as kind_is;
ghost use Rattle.api_replies.specs.declared.cause.Cause.TheVariants as cause_is;
ghost use Rattle.api_replies.specs.Reply as replies;
ghost use Rattle.api_replies.specs.View.{reply_of};
ghost use Rattle.config_views.specs.Views as spec;

use api_replies::{Cause, Kind, Reply, refused_reply};
use json_text::{Items, Json, Members, NoMemory, Text, push_member};
use std::alloc::Global;

/// A reply whose only member is a list.
pub(crate) fn listing(alloc: Global, key: &str, items: Items) -> Result<Reply, NoMemory>
    ensures { IfOk result (λ r. reply_of r ≡ spec.listing key.now (trees_of items.items)) }
{
    let mut members: Members = Vec::with_capacity(alloc, 1)?;
    push_member(alloc, &mut members, key, Json::List(items))?;
    Ok(served(members))
}

/// A reply with these members.
pub(crate) fn served(members: Members) -> Reply
    ensures { reply_of result ≡ replies.served (pairs_of members.items) }
{
    Reply {
        status: 200,
        body: Json::Obj(members),
    }
}

/// Whether no prefix is given, or the name begins with it.
pub(crate) fn has_prefix(prefix: Option<&str>, name: &str) -> bool
    ensures { result ≡ spec.has_prefix (option_copied prefix.entry) name.now }
{
    match prefix {
        Some(prefix) => begins_with(name, prefix),
        None => true,
    }
}

fn begins_with(name: &str, prefix: &str) -> bool
    ensures { result ≡ spec.has_prefix (Some prefix.now) name.now }
{
    name.starts_with(prefix)
}

/// The reply that the bus does not exist.
pub(crate) fn no_bus(alloc: Global, name: &str) -> Result<Reply, NoMemory>
    ensures { IfOk result (λ r. reply_of r ≡ replies.refused (cause_is.NotFound kind_is.EventBus name.now)) }
{
    let name = Text::from_str(alloc, name)?;
    refused_reply(
        alloc,
        &Cause::NotFound {
            kind: Kind::EventBus,
            name,
        },
    )
}

/// The reply that the rule does not exist.
pub(crate) fn no_rule(alloc: Global, name: &str) -> Result<Reply, NoMemory>
    ensures { IfOk result (λ r. reply_of r ≡ replies.refused (cause_is.NotFound kind_is.Rule name.now)) }
{
    let name = Text::from_str(alloc, name)?;
    refused_reply(
        alloc,
        &Cause::NotFound {
            kind: Kind::Rule,
            name,
        },
    )
}

/// The reply that the archive does not exist.
pub(crate) fn no_archive(alloc: Global, name: &str) -> Result<Reply, NoMemory>
    ensures { IfOk result (λ r. reply_of r ≡ replies.refused (cause_is.NotFound kind_is.Archive name.now)) }
{
    let name = Text::from_str(alloc, name)?;
    refused_reply(
        alloc,
        &Cause::NotFound {
            kind: Kind::Archive,
            name,
        },
    )
}

/// The reply that the replay does not exist.
pub(crate) fn no_replay(alloc: Global, name: &str) -> Result<Reply, NoMemory>
    ensures { IfOk result (λ r. reply_of r ≡ replies.refused (cause_is.NotFound kind_is.Replay name.now)) }
{
    let name = Text::from_str(alloc, name)?;
    refused_reply(
        alloc,
        &Cause::NotFound {
            kind: Kind::Replay,
            name,
        },
    )
}
