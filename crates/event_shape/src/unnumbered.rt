//! Events that have no number yet.
ghost use Rattle.std.specs.Prelude.{◌≡◌, ◌<◌, ◌^◌, ◌++◌, ℕ, List, None, Some, unwrap_or, IfOk};
ghost use Rattle.json_text.specs.Moment.{IsMoment};
ghost use Rattle.json_text.specs.Tree.{text};
ghost use Rattle.json_text.specs.View.{tree_of};
ghost use Rattle.json_text.specs.Access.{member_of};
ghost use Rattle.json_text.specs.Compact.{compact_text, IsValue};
ghost use Rattle.event_time.specs.Time.{IsIso};
ghost use Rattle.event_shape.specs.Event.{Event as Members, event_tree, IsMade, IsEvent};
ghost use Rattle.event_shape.specs.Id as ids;
ghost use Rattle.event_shape.specs.Unnumbered.{with_number, zero_front, text_after_id};

use crate::checking::Checked;
use crate::event::Event;
use crate::id::{event_id, push_id};
use crate::names::after_prefix;
use crate::writing::text_of_value;
use json_text::{Json, NoMemory, Text, copy};
use std::alloc::Global;
use std::marker::Model;
use std::snapshot::Snapshot;

/// The first bytes of an event's text: what comes before its id.
const FRONT: &str = "{\"version\":\"0\",\"id\":\"";

/// These bytes and the id of number 0.
const OPEN: &str = "{\"version\":\"0\",\"id\":\"00000000-0000-8000-8000-000000000000";

/// An event but for its number, with its tree, its text and its bus. In the tree and in the text the id of number 0 represents
/// the open one; in the text it is the 36 bytes from byte 21 on.
#[derive(Drop)]
pub struct Unnumbered {
    /// The event with number 0, for contracts alone. It takes no room.
    event: Snapshot<Event>,
    bus: Text,
    moment: u64,
    tree: Json,
    text: Text,
}

impl Model for Unnumbered {
    ghost use Rattle.json_text.specs.View.{tree_of};
    ghost use Rattle.event_shape.specs.Unnumbered.{Unnumbered as View, unnumbered_code, IsOpenAt};

    ghost Value = { View };

    ghost coded = { unnumbered_code };

    ghost view = { λ u. record { bus = u.bus; moment = u.moment; event = u.event.value } };

    ghost invariant = { λ u. IsOpenAt u.moment u.event.value (tree_of u.tree) u.text };
}

impl Unnumbered {
    /// The event of the entry, with this account. Its time is the entry's, or else the reading of the clock. Takes over the
    /// detail without a copy.
    pub fn make(
        alloc: Global,
        checked: Checked,
        reading: u64,
        account: &str,
    ) -> Result<Unnumbered, NoMemory>
        requires { IsMoment reading }
        ensures made { IfOk result (λ u. IsMade checked 0 reading account.now u.event) }
        ensures bus { IfOk result (λ u. u.bus ≡ checked.bus) }
        ensures moment { IfOk result (λ u. u.moment ≡ unwrap_or checked.time reading) }
    {
        let moment = checked.moment(reading);
        let (event, bus) = Event::with_bus(alloc, checked, 0, reading, account)?;
        let given = Snapshot::of(&event);
        let tree = event.into_tree(alloc)?;
        let text = text_of_value(alloc, &tree)?;
        Ok(Unnumbered {
            event: given,
            bus,
            moment,
            tree,
            text,
        })
    }

    /// The event as a JSON object, with the id of number 0. No pattern tests an event's id.
    pub fn tree(&self) -> &Json
        ensures tree { tree_of result.now ≡ event_tree self.now.event None }
        ensures value { IsValue (tree_of result.now) }
    {
        &self.tree
    }

    /// The text of the event with this number, copied once. No JSON is written.
    pub fn numbered(&self, alloc: Global, number: u64) -> Result<Text, NoMemory>
        ensures text { IfOk result (λ t. t ≡ compact_text (event_tree (with_number number self.now.event) None)) }
        ensures event { IsEvent (with_number number self.now.event) }
    {
        let rest = self.after_id();
        let mut text = String::with_capacity(alloc, self.text.as_str().len())?;
        text.push_str(FRONT)?;
        push_id(number, &mut text)?;
        text.push_str(rest)?;
        Ok(Text::from(text))
    }

    /// The event as a JSON object, with the id of this number. Copies the tree.
    pub fn numbered_tree(&self, alloc: Global, number: u64) -> Result<Json, NoMemory>
        ensures tree { IfOk result (λ json. tree_of json ≡ event_tree (with_number number self.now.event) None) }
        ensures value { IfOk result (λ json. IsValue (tree_of json)) }
    {
        let id = event_id(alloc, number)?;
        let tree = copy(alloc, &self.tree)?;
        Ok(with_id(tree, id))
    }

    /// The text after the id.
    fn after_id(&self) -> &str
        ensures text { result.now ≡ text_after_id self.now.event }
        ensures event { (n : ℕ) → n < 2 ^ 64 → IsEvent (with_number n self.now.event) }
    {
        after_zero(self.text.as_str())
    }

    /// The moment of the member `time`.
    pub fn moment(&self) -> u64
        ensures value { result ≡ self.now.moment }
        ensures moment { IsMoment result }
        ensures shown { IsIso result self.now.event.time }
    {
        self.moment
    }

    /// The name of the bus.
    pub fn bus(&self) -> &str
        ensures { result.now ≡ self.now.bus }
    {
        self.bus.as_str()
    }

    pub fn source(&self) -> &str
        ensures { result.now ≡ self.now.event.source }
    {
        text_member(&self.tree, "source")
    }

    pub fn detail_type(&self) -> &str
        ensures { result.now ≡ self.now.event.detail_type }
    {
        text_member(&self.tree, "detail-type")
    }
}

/// The tree of an event, with this id in the place of its own.
fn with_id(tree: Json, id: Text) -> Json
    requires { (e : Members) × (tree_of tree ≡ event_tree e None) }
    ensures { (e : Members) (n : ℕ) → tree_of tree ≡ event_tree e None → id ≡ ids.event_id n
        → tree_of result ≡ event_tree (with_number n e) None }
{
    match tree {
        Json::Obj(mut members) => {
            members[1].1 = Json::Str(id);
            Json::Obj(members)
        }
        Json::Null | Json::Truth(_) | Json::Num(_) | Json::Str(_) | Json::List(_) => unreachable!(),
    }
}

/// The text after the id of number 0.
fn after_zero(text: &str) -> &str
    requires { (rest : List ℕ) × (text.now ≡ zero_front ++ rest) }
    ensures { text.now ≡ zero_front ++ result.now }
{
    match after_prefix(text, OPEN) {
        Some(rest) => rest,
        None => unreachable!(),
    }
}

/// The text of a member that is a string.
fn text_member<'a>(tree: &'a Json, key: &str) -> &'a str
    requires { (t : List ℕ) × (member_of key.now (tree_of tree.now) ≡ Some (text t)) }
    ensures { member_of key.now (tree_of tree.now) ≡ Some (text result.now) }
{
    match tree.member(key) {
        Some(value) => match value.as_text() {
            Some(text) => text,
            None => unreachable!(),
        },
        None => unreachable!(),
    }
}
