//! One pass over a text, with a stack of the lists and objects that are not closed.
ghost use Rattle.std.specs.Prelude.{◌≡◌, ◌≤◌, ◌<◌, ◌+◌, ◌^◌, ℕ, List, [], ◌∷◌, Option, Some, None, Ok, Err, Result, IfOk, IfErr, OnOk, MatchOption, MatchBool, false, if◌then◌else◌, length, drop, take, reverse, vec_len};
ghost use Rattle.json_text.specs.View.{tree_of};
ghost use Rattle.json_text.specs.Node.{Node, value_of, first_of, first_repeat, first_repeat_after};
ghost use Rattle.json_text.specs.Grammar.{is_space, IsSpace};
ghost use Rattle.json_text.specs.Reading.{State, Waiting, Member, read_text, value, first_item, first_key, next_key, put, between, fields_of};
ghost use Rattle.json_text.specs.Scan.{scan_string};
ghost use Rattle.json_text.specs.Kept.{IsState, FailsSo, KeepsAll, HoldsMembers, repeat_of, read_at, Goes, GoesOn, SkipsSpace, StartsWithNoSpace, StartsWith, BeginsNumber, BeginsWord, StringFault, Opens};
ghost use Rattle.json_text.specs.Parts.{part_of};

use super::fault::TokenFault;
use super::number::{Part, number_len};
use super::object::ObjectBuilder;
use super::state::{Kept, KeptObject, Next, Open, Place};
use super::string::string;
use super::word::word_len;
use super::{Items, Json, JsonFault, Text};
use std::alloc::Global;

/// A value, and the place of the first repeated key.
#[derive(Drop)]
pub(crate) struct Read {
    pub(crate) json: Json,
    pub(crate) repeat: Option<usize>,
}

/// The open lists and objects, the innermost last, and the place of the first repeated key so far.
#[derive(Drop)]
struct Reader {
    alloc: Global,
    levels: usize,
    waiting: Vec<Kept>,
    repeat: Option<usize>,
}

/// Reads the whole of a text.
pub(crate) fn read_all(alloc: Global, bytes: &[u8], levels: u32) -> Result<Read, JsonFault>
    ensures ok { IfOk result (λ r. (n : Node) × (read_text levels bytes.now ≡ Ok n)
        × (tree_of r.json ≡ value_of n) × (r.repeat ≡ first_repeat n)) }
    ensures err { IfErr result (FailsSo (read_text levels bytes.now)) }
{
    let mut reader = Reader {
        alloc,
        levels: levels as usize,
        waiting: Vec::new(alloc),
        repeat: None,
    };
    let mut next = Next::Value;
    let mut place = Place { rest: bytes, at: 0 }.without_space();
    while let Some(byte) = place.first() {
        let (then, there) = match reader.turn(next, byte, place) {
            Ok(gone) => gone,
            Err(fault) => return Err(fault),
        };
        next = then;
        place = there.without_space();
    }
    match next {
        Next::End(json) => Ok(Read {
            json,
            repeat: reader.repeat,
        }),
        _ => Err(JsonFault::NotJson { at: place.at }),
    }
}

/// What comes next and its place, or the fault.
type Gone<'a> = Result<(Next, Place<'a>), JsonFault>;

impl<'a> Place<'a> {
    fn first(self) -> Option<u8>
        ensures { MatchOption result (self.entry.rest.now ≡ [])
            (λ byte. StartsWith byte self.entry.rest.now) }
    {
        self.rest.first().copied()
    }

    fn starts_with(self, byte: u8) -> bool
        ensures { MatchBool result (StartsWith byte self.entry.rest.now) (¬ (StartsWith byte self.entry.rest.now)) }
    {
        match self.first() {
            Some(first) => first == byte,
            None => false,
        }
    }

    fn after(self, len: usize) -> Place<'a>
        requires { len ≤ length self.rest.now }
        ensures rest { result.rest.now ≡ drop len self.entry.rest.now }
        ensures at { result.at ≡ self.entry.at + len }
    {
        let (_, rest) = self.rest.split_at(len);
        Place {
            rest,
            at: self.at + len,
        }
    }

    fn without_space(self) -> Place<'a>
        ensures same { (levels : ℕ) (s : State) → SkipsSpace levels s
            → read_at levels self.entry s ≡ read_at levels result s }
        ensures no_space { StartsWithNoSpace result.rest.now }
        ensures later { length result.rest.now ≤ length self.entry.rest.now }
    {
        self.after(space_len(self.rest))
    }

    fn not_json(self) -> JsonFault
        ensures { result ≡ JsonFault.NotJson self.entry.at }
    {
        JsonFault::NotJson { at: self.at }
    }
}

impl Reader {
    /// Reads the token at the place, whose first byte is given, and returns what comes next.
    fn turn<'a>(&mut self, next: Next, byte: u8, place: Place<'a>) -> Gone<'a>
        requires first { StartsWith byte place.rest.now }
        requires no_space { is_space byte ≡ false }
        ensures goes { (s : State) → IsState next self.old.waiting.items self.old.repeat s
            → Goes self.old.levels s place.entry result self.new.waiting.items self.new.repeat }
        ensures levels { self.new.levels ≡ self.old.levels }
    {
        match next {
            Next::Value => self.value(byte, place),
            Next::FirstItem => self.first_item(byte, place),
            Next::AfterItem(items) => self.after_item(items, byte, place),
            Next::FirstKey => self.first_key(byte, place),
            Next::NextKey(object) => self.next_key(object, byte, place),
            Next::AfterMember(object) => self.after_member(object, byte, place),
            Next::End(_) => Err(place.not_json()),
        }
    }

    fn value<'a>(&mut self, byte: u8, place: Place<'a>) -> Gone<'a>
        requires first { StartsWith byte place.rest.now }
        requires no_space { is_space byte ≡ false }
        ensures goes { GoesOn value self.old.levels place.entry result self.old.waiting.items self.old.repeat self.new.waiting.items self.new.repeat }
        ensures levels { self.new.levels ≡ self.old.levels }
    {
        match byte {
            b'"' => self.string(place),
            b'[' => self.opened(Next::FirstItem, place),
            b'{' => self.opened(Next::FirstKey, place),
            b'-' => self.number(Part::Minus, place),
            b'0' => self.number(Part::Zero, place),
            b'1'..=b'9' => self.number(Part::Int, place),
            b'n' => self.word(b"ull", Json::Null, place),
            b't' => self.word(b"rue", Json::Truth(true), place),
            b'f' => self.word(b"alse", Json::Truth(false), place),
            _ => Err(place.not_json()),
        }
    }

    /// What comes after an opening bracket.
    fn opened<'a>(&self, next: Next, place: Place<'a>) -> Gone<'a>
        requires { Opens next place.rest.now }
        ensures { GoesOn value self.now.levels place.entry result self.now.waiting.items self.now.repeat self.now.waiting.items self.now.repeat }
    {
        if self.waiting.len() >= self.levels {
            return Err(JsonFault::TooDeep { at: place.at });
        }
        Ok((next, place.after(1)))
    }

    fn first_item<'a>(&mut self, byte: u8, place: Place<'a>) -> Gone<'a>
        requires first { StartsWith byte place.rest.now }
        requires no_space { is_space byte ≡ false }
        ensures goes { GoesOn first_item self.old.levels place.entry result self.old.waiting.items self.old.repeat self.new.waiting.items self.new.repeat }
        ensures levels { self.new.levels ≡ self.old.levels }
    {
        if byte == b']' {
            let next = self.put(Json::List(Vec::new(self.alloc)))?;
            return Ok((next, place.after(1)));
        }
        self.waiting.push(Kept::List(Vec::new(self.alloc)))?;
        self.value(byte, place)
    }

    fn after_item<'a>(&mut self, items: Items, byte: u8, place: Place<'a>) -> Gone<'a>
        requires first { StartsWith byte place.rest.now }
        requires no_space { is_space byte ≡ false }
        ensures goes { (s : State)
            → IsState (Next.AfterItem items) self.old.waiting.items self.old.repeat s
            → Goes self.old.levels s place.entry result self.new.waiting.items self.new.repeat }
        ensures levels { self.new.levels ≡ self.old.levels }
    {
        match byte {
            b',' => {
                self.waiting.push(Kept::List(items))?;
                Ok((Next::Value, place.after(1)))
            }
            b']' => {
                let next = self.put(Json::List(items))?;
                Ok((next, place.after(1)))
            }
            _ => Err(place.not_json()),
        }
    }

    fn first_key<'a>(&mut self, byte: u8, place: Place<'a>) -> Gone<'a>
        requires first { StartsWith byte place.rest.now }
        requires no_space { is_space byte ≡ false }
        ensures goes { GoesOn first_key self.old.levels place.entry result self.old.waiting.items self.old.repeat self.new.waiting.items self.new.repeat }
        ensures levels { self.new.levels ≡ self.old.levels }
    {
        match byte {
            b'"' => {
                let object = Box::new(self.alloc, ObjectBuilder::new(self.alloc))?;
                self.key(object, place)
            }
            b'}' => {
                let next = self.put(Json::Obj(Vec::new(self.alloc)))?;
                Ok((next, place.after(1)))
            }
            _ => Err(place.not_json()),
        }
    }

    fn next_key<'a>(&mut self, object: Open, byte: u8, place: Place<'a>) -> Gone<'a>
        requires first { StartsWith byte place.rest.now }
        requires no_space { is_space byte ≡ false }
        ensures goes { (s : State)
            → IsState (Next.NextKey object) self.old.waiting.items self.old.repeat s
            → Goes self.old.levels s place.entry result self.new.waiting.items self.new.repeat }
        ensures levels { self.new.levels ≡ self.old.levels }
    {
        match byte {
            b'"' => self.key(object, place),
            _ => Err(place.not_json()),
        }
    }

    /// Reads a member's key, whose quotation mark is at the place, and its colon.
    fn key<'a>(&mut self, mut object: Open, place: Place<'a>) -> Gone<'a>
        requires { StartsWith 34 place.rest.now }
        ensures goes { (ms : List Member) (outer : List Waiting)
            → KeepsAll (reverse self.old.waiting.items) outer
            → self.old.repeat ≡ first_of (repeat_of outer) (first_repeat_after [] (fields_of ms))
            → HoldsMembers object.value.members.items ms
            → Goes self.old.levels (next_key ms outer) place.entry result self.new.waiting.items self.new.repeat }
        ensures levels { self.new.levels ≡ self.old.levels }
    {
        let (key, after) = match text(self.alloc, place) {
            Ok(read) => read,
            Err(fault) => return Err(fault),
        };
        let there = after.without_space();
        if !there.starts_with(b':') {
            return Err(there.not_json());
        }
        let (slot, is_repeated) = object.reserve(self.alloc, key)?;
        self.repeat = first_repeat_of(self.repeat, is_repeated, place.at);
        self.waiting
            .push(Kept::Object(KeptObject { object, slot }))?;
        Ok((Next::Value, there.after(1)))
    }

    fn after_member<'a>(&mut self, object: Open, byte: u8, place: Place<'a>) -> Gone<'a>
        requires first { StartsWith byte place.rest.now }
        requires no_space { is_space byte ≡ false }
        ensures goes { (s : State)
            → IsState (Next.AfterMember object) self.old.waiting.items self.old.repeat s
            → Goes self.old.levels s place.entry result self.new.waiting.items self.new.repeat }
        ensures levels { self.new.levels ≡ self.old.levels }
    {
        match byte {
            b',' => Ok((Next::NextKey(object), place.after(1))),
            b'}' => {
                let ObjectBuilder { members, .. } = Box::into_inner(object);
                let next = self.put(Json::Obj(members))?;
                Ok((next, place.after(1)))
            }
            _ => Err(place.not_json()),
        }
    }

    /// Gives a whole value to what waits for it.
    fn put(&mut self, json: Json) -> Result<Next, JsonFault>
        ensures ok { IfOk result (λ next. (n : Node) (outer : List Waiting)
            → tree_of json ≡ value_of n → KeepsAll (reverse self.old.waiting.items) outer
            → self.old.repeat ≡ first_of (repeat_of outer) (first_repeat n)
            → IsState next self.new.waiting.items self.new.repeat (put n outer)) }
        ensures err { IfErr result (λ e. e ≡ JsonFault.NoMemory) }
        ensures levels { self.new.levels ≡ self.old.levels }
    {
        match self.waiting.pop() {
            None => Ok(Next::End(json)),
            Some(Kept::List(mut items)) => {
                items.push(json)?;
                Ok(Next::AfterItem(items))
            }
            Some(Kept::Object(KeptObject { mut object, slot })) => {
                object.set(slot, json);
                Ok(Next::AfterMember(object))
            }
        }
    }

    fn string<'a>(&mut self, place: Place<'a>) -> Gone<'a>
        requires { StartsWith 34 place.rest.now }
        ensures goes { GoesOn value self.old.levels place.entry result self.old.waiting.items self.old.repeat self.new.waiting.items self.new.repeat }
        ensures levels { self.new.levels ≡ self.old.levels }
    {
        match text(self.alloc, place) {
            Ok((text, there)) => {
                let next = self.put(Json::Str(text))?;
                Ok((next, there))
            }
            Err(fault) => Err(fault),
        }
    }

    fn number<'a>(&mut self, first: Part, place: Place<'a>) -> Gone<'a>
        requires { BeginsNumber (part_of first) place.rest.now }
        ensures goes { GoesOn value self.old.levels place.entry result self.old.waiting.items self.old.repeat self.new.waiting.items self.new.repeat }
        ensures levels { self.new.levels ≡ self.old.levels }
    {
        let inside = place.after(1);
        match number_len(first, inside.rest) {
            Ok(len) => {
                let spelling = Text::from_utf8(self.alloc, &place.rest[..1 + len])?;
                let next = self.put(Json::Num(spelling))?;
                Ok((next, inside.after(len)))
            }
            Err(n) => Err(JsonFault::NotJson { at: inside.at + n }),
        }
    }

    fn word<'a>(&mut self, word: &[u8], json: Json, place: Place<'a>) -> Gone<'a>
        requires { (n : Node) × (tree_of json ≡ value_of n) × (first_repeat n ≡ None)
            × BeginsWord word.now n place.rest.now }
        ensures goes { GoesOn value self.old.levels place.entry result self.old.waiting.items self.old.repeat self.new.waiting.items self.new.repeat }
        ensures levels { self.new.levels ≡ self.old.levels }
    {
        let inside = place.after(1);
        match word_len(inside.rest, word) {
            Ok(len) => {
                let next = self.put(json)?;
                Ok((next, inside.after(len)))
            }
            Err(n) => Err(JsonFault::NotJson { at: inside.at + n }),
        }
    }
}

/// A string, whose quotation mark is at the place, and the place after it.
fn text<'a>(alloc: Global, place: Place<'a>) -> Result<(Text, Place<'a>), JsonFault>
    requires { StartsWith 34 place.rest.now }
    ensures ok { IfOk result (λ r. (n : ℕ)
        × (scan_string between [] 0 (drop 1 place.entry.rest.now) ≡ Ok (r.0, n))
        × (r.1.at ≡ place.entry.at + 1 + n)
        × (r.1.rest.now ≡ drop n (drop 1 place.entry.rest.now))
        × (length r.1.rest.now < length place.entry.rest.now)) }
    ensures err { IfErr result (StringFault place.entry) }
{
    let inside = place.after(1);
    match string(alloc, inside.rest) {
        Ok((text, len)) => Ok((text, inside.after(len))),
        Err(TokenFault::Stop(n)) => Err(JsonFault::NotJson { at: inside.at + n }),
        Err(TokenFault::NoMemory) => Err(JsonFault::NoMemory),
    }
}

/// The earlier repeated key, or else this one's place if it is repeated.
fn first_repeat_of(earlier: Option<usize>, is_repeated: bool, at: usize) -> Option<usize>
    ensures { result ≡ first_of earlier (if is_repeated then Some at else None) }
{
    match earlier {
        None if is_repeated => Some(at),
        _ => earlier,
    }
}

/// The number of bytes of white space at the front.
fn space_len(bytes: &[u8]) -> usize
    ensures within { result ≤ length bytes.now }
    ensures space { IsSpace (take result bytes.now) }
    ensures ends { StartsWithNoSpace (drop result bytes.now) }
{
    for (n, byte) in bytes.iter().enumerate() {
        if !is_white(*byte) {
            return n;
        }
    }
    bytes.len()
}

fn is_white(byte: u8) -> bool
    ensures { result ≡ is_space byte }
{
    (byte == b' ') | ((byte == b'\t') | ((byte == b'\n') | (byte == b'\r')))
}
