//! Events.
ghost use Rattle.std.specs.Prelude.{◌≡◌, take, Some, None, IfOk, MatchOption};
ghost use Rattle.std.specs.Option.{option_copied};
ghost use Rattle.std.specs.Str.{IsUtf8};
ghost use Rattle.json_text.specs.Moment.{IsMoment};
ghost use Rattle.json_text.specs.View.{tree_of, pairs_of};
ghost use Rattle.json_text.specs.Compact.{compact_text, IsValue};
ghost use Rattle.event_time.specs.Time.{IsIso};
ghost use Rattle.event_shape.specs.Event.{IsEventText};

use crate::checking::Checked;
use crate::front::{Front, members_of};
use crate::id::event_id;
use crate::reading::{event_of, if_written_as, none_unless_memory};
use crate::time::iso;
use crate::writing::{push_replay, text_items, text_of_bytes, write_open};
use json_text::{Bytes, Json, Members, NoMemory, Text, copy, push_member, push_text, read, write};
use std::alloc::Global;
use std::marker::Model;

/// The number of levels of lists and objects that an event's text may have: one more than its detail.
const LEVELS: u32 = 100;

/// An event, as it is matched, delivered and archived. Its bus is not one of its members.
#[derive(Debug, Drop)]
pub struct Event {
    pub(crate) number: u64,
    pub(crate) detail_type: Text,
    pub(crate) source: Text,
    pub(crate) account: Text,
    pub(crate) moment: u64,
    pub(crate) time: Text,
    pub(crate) resources: Vec<Text>,
    pub(crate) detail: Json,
}

impl Model for Event {
    ghost use Rattle.json_text.specs.View.{tree_of};
    ghost use Rattle.event_shape.specs.Event.{Event as View, event_code, IsEventAt};

    ghost Value = { View };

    ghost coded = { event_code };

    ghost view = { λ e. record {
      number = e.number;
      detail_type = e.detail_type;
      source = e.source;
      account = e.account;
      time = e.time;
      resources = e.resources.items;
      detail = tree_of e.detail;
    } };

    ghost invariant = { λ e. IsEventAt e.moment (record {
      number = e.number;
      detail_type = e.detail_type;
      source = e.source;
      account = e.account;
      time = e.time;
      resources = e.resources.items;
      detail = tree_of e.detail;
    }) };
}

impl Event {
    ghost use Rattle.event_shape.specs.Event.{Event as View, event_members, event_tree, IsMade, IsEvent, IsEventText};

    /// The event of the entry, with this number and this account. Its time is the entry's, or else the `time` given.
    pub fn make(
        alloc: Global,
        checked: Checked,
        number: u64,
        time: u64,
        account: &str,
    ) -> Result<Event, NoMemory>
        requires { IsMoment time }
        ensures made { IfOk result (λ e. IsMade checked number time account.now e) }
        ensures event { IfOk result (λ e. IsEvent e) }
    {
        let (event, _bus) = Event::with_bus(alloc, checked, number, time, account)?;
        Ok(event)
    }

    /// The event of the entry, and the name of the entry's bus.
    pub(crate) fn with_bus(
        alloc: Global,
        checked: Checked,
        number: u64,
        time: u64,
        account: &str,
    ) -> Result<(Event, Text), NoMemory>
        requires { IsMoment time }
        ensures made { IfOk result (λ p. IsMade checked number time account.now p.0) }
        ensures event { IfOk result (λ p. IsEvent p.0) }
        ensures bus { IfOk result (λ p. p.1 ≡ checked.bus) }
    {
        let moment = checked.moment(time);
        let account = Text::from_str(alloc, account)?;
        let time = iso(alloc, moment)?;
        let Checked {
            source,
            detail_type,
            resources,
            detail,
            bus,
            ..
        } = checked;
        let event = Event {
            number,
            detail_type,
            source,
            account,
            moment,
            time,
            resources,
            detail,
        };
        Ok((event, bus))
    }

    /// The event whose text the bytes are, without a replay's name. `None` if they are no event's text.
    pub fn read(alloc: Global, text: &[u8]) -> Result<Option<Event>, NoMemory>
        ensures found { IfOk result (λ o. MatchOption o
            ((e : View) → ¬ IsEventText text.now e)
            (λ e. IsEventText text.now e)) }
        ensures only { (e : View) → IsEventText text.now e → IfOk result (λ o. o ≡ Some e) }
    {
        match read(alloc, text, LEVELS) {
            Ok(json) => match event_of(alloc, json)? {
                Some(event) => if_written_as(alloc, event, text),
                None => Ok(None),
            },
            Err(fault) => none_unless_memory(fault),
        }
    }

    /// The event as a JSON object. The event of a replay has the replay's name as its last member.
    pub fn tree(&self, alloc: Global, replay: Option<&str>) -> Result<Json, NoMemory>
        ensures tree { IfOk result (λ json. tree_of json ≡ event_tree self.now (option_copied replay.entry)) }
        ensures value { IfOk result (λ json. IsValue (tree_of json)) }
    {
        let mut members = self.own_members(alloc)?;
        match replay {
            Some(name) => {
                push_text(alloc, &mut members, "replay-name", name)?;
                Ok(Json::Obj(members))
            }
            None => Ok(Json::Obj(members)),
        }
    }

    /// The compact text of the event's tree.
    pub fn text(&self, alloc: Global, replay: Option<&str>) -> Result<Text, NoMemory>
        ensures text { IfOk result (λ t. t ≡ compact_text (event_tree self.now (option_copied replay.entry))) }
        ensures event { IsEvent self.now }
        ensures own { option_copied replay.entry ≡ None → IfOk result (λ t. IsEventText t self.now) }
    {
        let written = self.written(alloc, replay)?;
        text_of_bytes(alloc, &written)
    }

    /// The bytes of the text. The detail is written without a copy.
    pub(crate) fn written(&self, alloc: Global, replay: Option<&str>) -> Result<Bytes, NoMemory>
        ensures bytes { IfOk result (λ out. out ≡ compact_text (event_tree self.now (option_copied replay.entry))) }
        ensures event { IsEvent self.now }
        ensures utf8 { IfOk result (λ out. IsUtf8 out) }
    {
        let mut out = Bytes::new(alloc);
        write_open(self.front_members(alloc)?, &mut out)?;
        out.extend(b",\"detail\":")?;
        write(&self.detail, &mut out)?;
        push_replay(alloc, replay, &mut out)?;
        out.extend(b"}")?;
        Ok(out)
    }

    fn own_members(&self, alloc: Global) -> Result<Members, NoMemory>
        ensures members { IfOk result (λ members. pairs_of members.items ≡ event_members self.now) }
        ensures event { IsEvent self.now }
    {
        let mut members = self.front_members(alloc)?;
        let detail = copy(alloc, &self.detail)?;
        push_member(alloc, &mut members, "detail", detail)?;
        Ok(members)
    }

    /// The members before the detail.
    fn front_members(&self, alloc: Global) -> Result<Members, NoMemory>
        ensures members { IfOk result (λ members. pairs_of members.items ≡ take 8 (event_members self.now)) }
        ensures event { IsEvent self.now }
    {
        let id = event_id(alloc, self.number)?;
        let detail_type = self.detail_type.copy(alloc)?;
        let source = self.source.copy(alloc)?;
        let account = self.account.copy(alloc)?;
        let time = self.time.copy(alloc)?;
        let resources = text_items(alloc, &self.resources)?;
        let front = Front {
            id,
            detail_type,
            source,
            account,
            time,
            resources,
        };
        members_of(alloc, front)
    }

    /// The event as a JSON object. The detail and the texts but the resources are moved into the object.
    pub(crate) fn into_tree(self, alloc: Global) -> Result<Json, NoMemory>
        ensures tree { IfOk result (λ json. tree_of json ≡ event_tree self None) }
        ensures value { IfOk result (λ json. IsValue (tree_of json)) }
    {
        let id = event_id(alloc, self.number)?;
        let resources = text_items(alloc, &self.resources)?;
        let Event {
            detail_type,
            source,
            account,
            time,
            detail,
            ..
        } = self;
        let front = Front {
            id,
            detail_type,
            source,
            account,
            time,
            resources,
        };
        let mut members = members_of(alloc, front)?;
        push_member(alloc, &mut members, "detail", detail)?;
        Ok(Json::Obj(members))
    }

    /// The moment of the member `time`.
    pub fn moment(&self) -> u64
        ensures moment { IsMoment result }
        ensures shown { IsIso result self.now.time }
    {
        self.moment
    }

    pub fn number(&self) -> u64
        ensures { result ≡ self.now.number }
    {
        self.number
    }

    pub fn source(&self) -> &str
        ensures { result.now ≡ self.now.source }
    {
        self.source.as_str()
    }

    pub fn detail_type(&self) -> &str
        ensures { result.now ≡ self.now.detail_type }
    {
        self.detail_type.as_str()
    }

    pub fn account(&self) -> &str
        ensures { result.now ≡ self.now.account }
    {
        self.account.as_str()
    }
}
