//! The fields of a head that are read, each with its rule.
ghost use Rattle.std.specs.Prelude.{◌≡◌, List, [], ◌∷◌, ◌++◌, ◌&&◌, codes, length, map, All, if◌then◌else◌};
ghost use Rattle.std.specs.List.{list_all};
ghost use Rattle.std.specs.Char.{is_ascii_digit};
ghost use Rattle.httparse.specs.Spans.{IsHeaderWithin, header_bytes};
ghost use Rattle.api_messages.specs.Fields.{Pair, known_of, is_named, is_close, is_host_sound, is_absent, is_repeated, is_sound, length_of, length_at, body_length_by};
ghost use Rattle.api_messages.specs.Reading.{occurrence_in, and_also, known};

use crate::message::Refusal;
use crate::method::Method;
use httparse::spans::HeaderSpan;

const DIGITS_LIMIT: usize = 10;

const BODY_LIMIT: usize = 1_048_576;

/// How often a field is in a head, and its value if it is there once.
#[derive(Clone, Copy, Debug)]
pub(crate) enum Found<'b> {
    Absent,
    Once(&'b [u8]),
    Repeated,
}

impl<'b> Found<'b> {
    /// One more field, if it is there.
    fn and(self, is_there: bool, value: &'b [u8]) -> Found<'b>
        ensures { occurrence_in result ≡ (if is_there then and_also (occurrence_in self.entry) value.now else occurrence_in self.entry) }
    {
        if !is_there {
            return self;
        }
        match self {
            Found::Absent => Found::Once(value),
            Found::Once(_) | Found::Repeated => Found::Repeated,
        }
    }

    fn is_host_sound(self, minor: u8) -> bool
        ensures { result ≡ is_host_sound minor (occurrence_in self.entry) }
    {
        match self {
            Found::Absent => minor == 0,
            Found::Once(_) => true,
            Found::Repeated => false,
        }
    }

    fn is_absent(self) -> bool
        ensures { result ≡ is_absent (occurrence_in self.entry) }
    {
        match self {
            Found::Absent => true,
            Found::Once(_) | Found::Repeated => false,
        }
    }

    fn is_repeated(self) -> bool
        ensures { result ≡ is_repeated (occurrence_in self.entry) }
    {
        match self {
            Found::Absent | Found::Once(_) => false,
            Found::Repeated => true,
        }
    }

    fn length(self, method: Method) -> Result<usize, Refusal>
        ensures { result ≡ length_at method (occurrence_in self.entry) }
    {
        match self {
            Found::Once(value) => length_of(value),
            Found::Absent if method.is_post() => Err(Refusal::LengthRequired),
            Found::Absent => Ok(0),
            Found::Repeated => Err(Refusal::BadHead),
        }
    }
}

fn are_digits(value: &[u8]) -> bool
    ensures { result ≡ list_all is_ascii_digit value.now }
{
    value.iter().all(|byte| byte.is_ascii_digit())
}

/// The number of a Content-Length value, within the bounds.
fn length_of(value: &[u8]) -> Result<usize, Refusal>
    ensures { result ≡ length_of value.now }
{
    if value.is_empty() || value.len() > DIGITS_LIMIT {
        return Err(Refusal::BadHead);
    }
    let mut number: usize = 0;
    for digit in value {
        if !digit.is_ascii_digit() {
            return Err(Refusal::BadHead);
        }
        number = number * 10 + (*digit - b'0') as usize;
        if number > BODY_LIMIT {
            return Err(too_large_if_sound(value));
        }
    }
    Ok(number)
}

/// Why a value whose number is too large is refused.
fn too_large_if_sound(value: &[u8]) -> Refusal
    ensures { result ≡ (if list_all is_ascii_digit value.now then Refusal.TooLarge else Refusal.BadHead) }
{
    if are_digits(value) {
        Refusal::TooLarge
    } else {
        Refusal::BadHead
    }
}

fn is_named(name: &[u8], field: &[u8]) -> bool
    ensures { result ≡ is_named name.now field.now }
{
    field.eq_ignore_ascii_case(name)
}

/// Whether a field is `Connection: close`.
fn is_close(name: &[u8], value: &[u8]) -> bool
    ensures { result ≡ (is_named (codes "connection") name.now && is_close value.now) }
{
    is_named(b"connection", name) && is_named(b"close", value)
}

/// The fields of a head that are read.
#[derive(Clone, Copy, Debug)]
pub(crate) struct Fields<'b> {
    pub host: Found<'b>,
    pub length: Found<'b>,
    pub coding: Found<'b>,
    pub target: Found<'b>,
    pub caller: Found<'b>,
    /// A field `Connection: close` is there.
    pub close: bool,
}

impl<'b> Fields<'b> {
    /// No field yet. The bytes are not read: they give the lifetime of the fields to come.
    fn none(_bytes: &'b [u8]) -> Fields<'b>
        ensures { known result ≡ known_of [] }
    {
        Fields {
            host: Found::Absent,
            length: Found::Absent,
            coding: Found::Absent,
            target: Found::Absent,
            caller: Found::Absent,
            close: false,
        }
    }

    /// These fields and one more.
    fn and(self, name: &[u8], value: &'b [u8]) -> Fields<'b>
        ensures { (pairs : List Pair) → known self.entry ≡ known_of pairs
            → known result ≡ known_of (pairs ++ (name.now, value.now) ∷ []) }
    {
        Fields {
            host: self.host.and(is_named(b"host", name), value),
            length: self.length.and(is_named(b"content-length", name), value),
            coding: self.coding.and(is_named(b"transfer-encoding", name), value),
            target: self.target.and(is_named(b"x-amz-target", name), value),
            caller: self.caller.and(is_named(b"x-caller-account", name), value),
            close: self.close || is_close(name, value),
        }
    }

    pub(crate) fn of(bytes: &'b [u8], headers: &[HeaderSpan]) -> Fields<'b>
        requires { All (IsHeaderWithin (length bytes.now)) headers.now }
        ensures { known result ≡ known_of (map (header_bytes bytes.now) headers.now) }
    {
        let mut fields = Fields::none(bytes);
        for header in headers {
            fields = fields.and(header.name.of(bytes), header.value.of(bytes));
        }
        fields
    }

    fn is_sound(&self, minor: u8) -> bool
        ensures { result ≡ is_sound minor (known self.now) }
    {
        self.host.is_host_sound(minor)
            && self.coding.is_absent()
            && !self.target.is_repeated()
            && !self.caller.is_repeated()
    }

    /// The length of the body after the head, or why a rule refuses the head.
    pub(crate) fn body_length(&self, method: Method, minor: u8) -> Result<usize, Refusal>
        ensures { result ≡ body_length_by method minor (known self.now) }
    {
        if self.is_sound(minor) {
            self.length.length(method)
        } else {
            Err(Refusal::BadHead)
        }
    }
}
