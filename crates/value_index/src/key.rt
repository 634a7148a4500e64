//! By which signature a test is found, and at which length.
ghost use Rattle.std.specs.Prelude.{◌≡◌};
ghost use Rattle.json_text.specs.View.{tree_of};
ghost use Rattle.pattern_meaning.specs.PatternView.{test_of};
ghost use Rattle.value_index.specs.Key as spec;

use crate::lengths::Length;
use crate::signature::{ASKED, Side, TEXT, UNSIGNED, network, seed_of, signed, whole};
use json_text::Json;
use leaf_match::Cidr;
use pattern_meaning::LeafTest;

#[derive(Clone, Copy)]
pub(crate) struct Key {
    pub(crate) signature: u64,
    pub(crate) length: Length,
}

/// The key of a test. That of a wildcard needs letters before its first `*`.
pub(crate) fn key_of(test: &LeafTest) -> Key
    ensures { result ≡ spec.key_of (test_of test.now) }
{
    match test {
        LeafTest::Same(scalar) => scalar_key(scalar),
        LeafTest::EqualsIgnoringCase(text) => text_key(text.as_str().as_bytes()),
        LeafTest::Prefix(front) | LeafTest::PrefixIgnoringCase(front) => end_key(
            Side::Front,
            front.as_str().as_bytes(),
        ),
        LeafTest::Suffix(end) | LeafTest::SuffixIgnoringCase(end) => end_key(
            Side::Back,
            end.as_str().as_bytes(),
        ),
        LeafTest::Wildcard(pieces) => letters_key(pieces.literal_front()),
        LeafTest::Cidr(addresses) => network_key(addresses),
        LeafTest::AnythingBut(_) | LeafTest::Exists => plain_key(ASKED),
        LeafTest::Numeric(_) | LeafTest::Missing => plain_key(UNSIGNED),
    }
}

fn plain_key(signature: u64) -> Key
    ensures { result ≡ spec.plain_key signature }
{
    Key {
        signature,
        length: Length::Any,
    }
}

fn scalar_key(scalar: &Json) -> Key
    ensures { result ≡ spec.scalar_key (tree_of scalar.now) }
{
    match scalar {
        Json::Str(text) => text_key(text.as_str().as_bytes()),
        Json::Null | Json::Truth(_) | Json::Num(_) | Json::List(_) | Json::Obj(_) => plain_key(
            whole(scalar),
        ),
    }
}

fn text_key(text: &[u8]) -> Key
    ensures { result ≡ spec.text_key text.now }
{
    Key {
        signature: signed(TEXT, Side::Front, text),
        length: Length::Whole(text.len()),
    }
}

fn end_key(side: Side, bytes: &[u8]) -> Key
    ensures { result ≡ spec.end_key side bytes.now }
{
    Key {
        signature: signed(seed_of(side), side, bytes),
        length: Length::End(side, bytes.len()),
    }
}

/// By the letters at the front, if there are any.
fn letters_key(letters: &[u8]) -> Key
    ensures { result ≡ spec.letters_key letters.now }
{
    match letters {
        [] => plain_key(ASKED),
        _ => end_key(Side::Front, letters),
    }
}

fn network_key(addresses: &Cidr) -> Key
    ensures { result ≡ spec.network_key addresses.now }
{
    let family = addresses.family();
    let length = addresses.length() as usize;
    Key {
        signature: network(family, length, addresses.first_bits()),
        length: Length::Network(family, length),
    }
}
