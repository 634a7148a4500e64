//! JSON values.
ghost use Rattle.std.specs.Prelude.{◌≡◌, IfOk, ◌++◌, map, take};
ghost use Rattle.json_text.specs.View.{tree_of};

use super::{NoMemory, Text};
use std::alloc::Global;

/// A JSON value (RFC 8259, section 3). A number is its spelling. An object has its members in order.
#[derive(Debug, Drop)]
pub enum Json {
    Null,
    Truth(bool),
    Num(Text),
    Str(Text),
    List(Items),
    Obj(Members),
}

pub type Items = Vec<Json>;

/// Each member is its key and its value.
pub type Members = Vec<(Text, Json)>;

/// A copy of the value, in memory of its own.
pub fn copy(alloc: Global, json: &Json) -> Result<Json, NoMemory>
    ensures { IfOk result (λ other. tree_of other ≡ tree_of json.now) }
{
    match json {
        Json::Null => Ok(Json::Null),
        Json::Truth(b) => Ok(Json::Truth(*b)),
        Json::Num(spelling) => Ok(Json::Num(spelling.copy(alloc)?)),
        Json::Str(text) => Ok(Json::Str(text.copy(alloc)?)),
        Json::List(items) => {
            let mut copies = Vec::with_capacity(alloc, items.len())?;
            for item in items {
                copies.push(copy(alloc, item)?)?;
            }
            Ok(Json::List(copies))
        }
        Json::Obj(members) => {
            let mut copies = Vec::with_capacity(alloc, members.len())?;
            for (key, value) in members {
                copies.push((key.copy(alloc)?, copy(alloc, value)?))?;
            }
            Ok(Json::Obj(copies))
        }
    }
}
