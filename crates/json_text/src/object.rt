//! The members of an object while it is read: each key once, at its first place.
ghost use Rattle.std.specs.Prelude.{◌≡◌, ◌<◌, ◌+◌, ℕ, List, [], ◌∷◌, ◌++◌, Some, None, length, IfOk, OnOk, OnErr, if◌then◌else◌};
ghost use Rattle.std.specs.Str.{bytes_eq};
ghost use Rattle.std.specs.BTreeMap.{get_by_text};
ghost use Rattle.json_text.specs.View.{pairs_of, tree_of};
ghost use Rattle.json_text.specs.Objects.{HasHashes, IsIndex, Reserves, hash_of, slot_from, with_value};
ghost use Rattle.json_text.specs.Tree.{null};

use super::{Json, Members, NoMemory, Text};
use std::alloc::Global;
use std::collections::BTreeMap;

/// Members in the order of their keys' first places, and the index of each key. A key is new if no other had its hash. Only
/// if one had it, the map is looked up; it is made then.
#[derive(Drop)]
pub(crate) struct ObjectBuilder {
    pub(crate) members: Members,
    /// A bit for each hash, set if a key has it.
    hashes: u128,
    slots: BTreeMap<String, usize>,
    ghost hashed: { HasHashes hashes members.items },
    ghost indexed: { IsIndex slots members.items },
}

impl ObjectBuilder {
    pub(crate) fn new(alloc: Global) -> ObjectBuilder
        ensures { pairs_of result.members.items ≡ [] }
    {
        ObjectBuilder {
            members: Vec::new(alloc),
            hashes: 0,
            slots: BTreeMap::new(alloc),
        }
    }

    /// The index of the member with this key, and whether it was there before. If not, it is added at the end.
    pub(crate) fn reserve(&mut self, alloc: Global, key: Text) -> Result<(usize, bool), NoMemory>
        ensures place { IfOk result
            (λ r. Reserves (pairs_of self.old.members.items) (pairs_of self.new.members.items) key r.0 r.1) }
        ensures within { IfOk result (λ r. r.0 < length self.new.members.items) }
    {
        let hash = hash_of(key.as_str());
        match self.slot_of(alloc, key.as_str(), hash)? {
            Some(slot) => Ok((slot, true)),
            None => Ok((self.push(alloc, key, hash)?, false)),
        }
    }

    fn slot_of(&mut self, alloc: Global, key: &str, hash: u32) -> Result<Option<usize>, NoMemory>
        requires hash { hash ≡ hash_of key.now }
        requires small { hash < 128 }
        ensures slot { IfOk result (λ slot. slot ≡ slot_from 0 key.now self.old.members.items) }
        ensures same { self.new.members ≡ self.old.members }
    {
        if self.hashes >> hash & 1 == 0 {
            return Ok(None);
        }
        if self.slots.is_empty() {
            self.slots = index_of(alloc, &self.members)?;
        }
        Ok(self.slots.get(key).copied())
    }

    /// Puts a member with a new key at the end, with no value yet.
    fn push(&mut self, alloc: Global, key: Text, hash: u32) -> Result<usize, NoMemory>
        requires hash { hash ≡ hash_of key }
        requires small { hash < 128 }
        requires new { slot_from 0 key self.old.members.items ≡ None }
        ensures place { IfOk result (λ slot. slot ≡ length self.old.members.items) }
        ensures pushed { OnOk result (pairs_of self.new.members.items ≡ pairs_of self.old.members.items ++ (key, null) ∷ []) }
        ensures len { OnOk result (length self.new.members.items ≡ length self.old.members.items + 1) }
    {
        let slot = self.members.len();
        self.members.try_reserve(1)?;
        index_next(alloc, &mut self.slots, &self.members, key.as_str())?;
        self.hashes |= 1 << hash;
        match self.members.push((key, Json::Null)) {
            Ok(()) => Ok(slot),
            Err(_) => unreachable!(),
        }
    }

    /// Gives the member at the place its value.
    pub(crate) fn set(&mut self, slot: usize, value: Json)
        requires { slot < length self.old.members.items }
        ensures { pairs_of self.new.members.items ≡ with_value slot (tree_of value) (pairs_of self.old.members.items) }
    {
        self.members[slot].1 = value;
    }
}

fn hash_of(key: &str) -> u32
    ensures hash { result ≡ hash_of key.now }
    ensures small { result < 128 }
{
    let mut hash = 0;
    for byte in key.as_bytes() {
        hash = (hash * 29 + u32::from(*byte)) % 128;
    }
    hash
}

/// Reserves room in the map, if it has been made, for a member with a new key.
fn index_next(
    alloc: Global,
    slots: &mut BTreeMap<String, usize>,
    members: &[(Text, Json)],
    key: &str,
) -> Result<(), NoMemory>
    requires indexed { IsIndex slots.old members.now }
    requires new { slot_from 0 key.now members.now ≡ None }
    ensures ok { OnOk result ((json : Json) → IsIndex slots.new (members.now ++ (key.now, json) ∷ [])) }
    ensures err { OnErr result (IsIndex slots.new members.now) }
{
    if slots.is_empty() {
        return Ok(());
    }
    insert_key(alloc, slots, key, members.len())
}

/// The place of each member's key.
fn index_of(alloc: Global, members: &[(Text, Json)]) -> Result<BTreeMap<String, usize>, NoMemory>
    ensures { IfOk result (λ slots. (key : List ℕ) → get_by_text slots key ≡ slot_from 0 key members.now) }
{
    let mut slots = BTreeMap::new(alloc);
    let mut n = members.len();
    while n > 0 {
        n -= 1;
        insert_key(alloc, &mut slots, members[n].0.as_str(), n)?;
    }
    Ok(slots)
}

fn insert_key(
    alloc: Global,
    slots: &mut BTreeMap<String, usize>,
    key: &str,
    slot: usize,
) -> Result<(), NoMemory>
    ensures ok { OnOk result ((other : List ℕ)
        → get_by_text slots.new other ≡ (if bytes_eq key.now other then Some slot else get_by_text slots.old other)) }
    ensures err { OnErr result ((other : List ℕ) → get_by_text slots.new other ≡ get_by_text slots.old other) }
{
    let name = String::from_str(alloc, key)?;
    slots.insert(name, slot)?;
    Ok(())
}
