//! The members of an event before its detail.
ghost use Rattle.std.specs.Prelude.{◌≡◌, IfOk};
ghost use Rattle.json_text.specs.View.{pairs_of};
ghost use Rattle.event_shape.specs.Parts.{front_members};

use crate::names::REGION;
use crate::writing::push_own;
use json_text::{Items, Json, Members, NoMemory, Text, push_member, push_text};
use std::alloc::Global;

/// The values of these members, except version and region, which are the same in every event.
#[derive(Drop)]
pub(crate) struct Front {
    pub(crate) id: Text,
    pub(crate) detail_type: Text,
    pub(crate) source: Text,
    pub(crate) account: Text,
    pub(crate) time: Text,
    pub(crate) resources: Items,
}

/// The members, with room for two more. The texts are moved into them.
pub(crate) fn members_of(alloc: Global, front: Front) -> Result<Members, NoMemory>
    ensures { IfOk result (λ members. pairs_of members.items ≡ front_members front) }
{
    let Front {
        id,
        detail_type,
        source,
        account,
        time,
        resources,
    } = front;
    let mut members = Vec::with_capacity(alloc, 10)?;
    push_text(alloc, &mut members, "version", "0")?;
    push_own(alloc, &mut members, "id", id)?;
    push_own(alloc, &mut members, "detail-type", detail_type)?;
    push_own(alloc, &mut members, "source", source)?;
    push_own(alloc, &mut members, "account", account)?;
    push_own(alloc, &mut members, "time", time)?;
    push_text(alloc, &mut members, "region", REGION)?;
    push_member(alloc, &mut members, "resources", Json::List(resources))?;
    Ok(members)
}
