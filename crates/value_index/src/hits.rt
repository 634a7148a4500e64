//! The marks of the tests that a scalar meets.
ghost use Rattle.std.specs.Prelude.{◌≡◌, ◌<◌, true, [], ◌∷◌, All, Some, length};
ghost use Rattle.std.specs.List.{filter_map};
ghost use Rattle.std.specs.List.Sorted.{IsNonDecreasingBy};
ghost use Rattle.json_text.specs.Tree.{number};
ghost use Rattle.json_text.specs.View.{tree_of};
ghost use Rattle.pattern_meaning.specs.View.{leaf_at};
ghost use Rattle.leaf_match.specs.Cidr.{leading_bits};
ghost use Rattle.value_index.specs.Adds.{Adds, HasText, HasWhole, HasEnd, HasBitsBelow, HasNetwork, IsNumeric, IsReached};
ghost use Rattle.value_index.specs.Hits.{AddsMet};
ghost use Rattle.value_index.specs.Index.{entries_of};
ghost use Rattle.value_index.specs.Lengths.{lengths_from};
ghost use Rattle.value_index.specs.Rows.{range_in};
ghost use Rattle.value_index.specs.Signature.{network};

use crate::address::Address;
use crate::index::PathIndex;
use crate::leaf::is_met;
use crate::lengths::{Lengths, has};
use crate::row::{Row, with};
use crate::signature::{ASKED, Side, TEXT, byte_from, network, seed_of, signed, whole, with_byte};
use json_text::Json;
use numeric_keys::{Marks, Ranges, millionths};

impl PathIndex {
    /// Adds the mark of each test that the scalar meets. Takes no memory.
    pub fn hits(&self, scalar: &Json, marks: &mut Marks)
        requires scalar { leaf_at [] (tree_of scalar.now) ≡ Some (tree_of scalar.now) }
        requires marks { All (λ entry. entry.1 < length marks.old) (entries_of self.now) }
        ensures { AddsMet (entries_of self.now) (tree_of scalar.now) marks.old marks.new }
    {
        decide_scalar(&self.rows, &self.lengths, &self.ranges, scalar, marks);
    }
}

fn decide_scalar(rows: &[Row], lengths: &Lengths, ranges: &Ranges, scalar: &Json, marks: &mut Marks)
    requires scalar { leaf_at [] (tree_of scalar.now) ≡ Some (tree_of scalar.now) }
    requires marks { All (λ row. row.mark < length marks.old) rows.now }
    requires sorted { IsNonDecreasingBy (λ row. row.signature) rows.now }
    requires ranges { ranges.now ≡ filter_map range_in rows.now }
    ensures { Adds (IsReached lengths.now (tree_of scalar.now)) rows.now (tree_of scalar.now) marks.old marks.new }
{
    decide_with(rows, ASKED, scalar, marks);
    match scalar {
        Json::Str(text) => decide_text(rows, lengths, text.as_str(), scalar, marks),
        Json::Num(spelling) => {
            decide_with(rows, whole(scalar), scalar, marks);
            decide_number(rows, ranges, spelling.as_str(), marks);
        }
        Json::Null | Json::Truth(_) | Json::List(_) | Json::Obj(_) => decide_with(
            rows,
            whole(scalar),
            scalar,
            marks,
        ),
    }
}

/// The rows that are found by a text.
fn decide_text(rows: &[Row], lengths: &Lengths, text: &str, scalar: &Json, marks: &mut Marks)
    requires scalar { leaf_at [] (tree_of scalar.now) ≡ Some (tree_of scalar.now) }
    requires marks { All (λ row. row.mark < length marks.old) rows.now }
    requires sorted { IsNonDecreasingBy (λ row. row.signature) rows.now }
    ensures { Adds (HasText lengths.now text.now) rows.now (tree_of scalar.now) marks.old marks.new }
{
    let bytes = text.as_bytes();
    decide_whole(rows, &lengths.wholes, bytes, scalar, marks);
    decide_ends(rows, lengths, Side::Front, bytes, scalar, marks);
    decide_ends(rows, lengths, Side::Back, bytes, scalar, marks);
    decide_address(rows, lengths, text, scalar, marks);
}

/// The rows that are found by a whole text.
fn decide_whole(rows: &[Row], listed: &[bool], bytes: &[u8], scalar: &Json, marks: &mut Marks)
    requires scalar { leaf_at [] (tree_of scalar.now) ≡ Some (tree_of scalar.now) }
    requires marks { All (λ row. row.mark < length marks.old) rows.now }
    requires sorted { IsNonDecreasingBy (λ row. row.signature) rows.now }
    ensures { Adds (HasWhole listed.now bytes.now) rows.now (tree_of scalar.now) marks.old marks.new }
{
    if has(listed, bytes.len()) {
        decide_with(rows, signed(TEXT, Side::Front, bytes), scalar, marks);
    }
}

/// The rows that are found by the first bytes of a text, or the last.
fn decide_ends(
    rows: &[Row],
    lengths: &Lengths,
    side: Side,
    bytes: &[u8],
    scalar: &Json,
    marks: &mut Marks,
)
    requires scalar { leaf_at [] (tree_of scalar.now) ≡ Some (tree_of scalar.now) }
    requires marks { All (λ row. row.mark < length marks.old) rows.now }
    requires sorted { IsNonDecreasingBy (λ row. row.signature) rows.now }
    ensures { Adds (HasEnd (lengths_from side lengths.now) side bytes.now) rows.now (tree_of scalar.now) marks.old marks.new }
{
    let listed = lengths.of_side(side);
    let mut signature = seed_of(side);
    for (number, is_listed) in listed.iter().enumerate() {
        decide_if(*is_listed, rows, signature, scalar, marks);
        if number == bytes.len() {
            return;
        }
        signature = with_byte(signature, byte_from(side, bytes, number));
    }
}

/// The rows that are found by the address that a text writes.
fn decide_address(rows: &[Row], lengths: &Lengths, text: &str, scalar: &Json, marks: &mut Marks)
    requires scalar { leaf_at [] (tree_of scalar.now) ≡ Some (tree_of scalar.now) }
    requires marks { All (λ row. row.mark < length marks.old) rows.now }
    requires sorted { IsNonDecreasingBy (λ row. row.signature) rows.now }
    ensures { Adds (HasNetwork lengths.now text.now) rows.now (tree_of scalar.now) marks.old marks.new }
{
    if !lengths.has_networks() {
        return;
    }
    match Address::read(text) {
        Some(address) => decide_networks(
            rows,
            lengths.of_family(address.family),
            address,
            scalar,
            marks,
        ),
        None => {}
    }
}

fn decide_networks(
    rows: &[Row],
    listed: &[bool],
    address: Address,
    scalar: &Json,
    marks: &mut Marks,
)
    requires scalar { leaf_at [] (tree_of scalar.now) ≡ Some (tree_of scalar.now) }
    requires marks { All (λ row. row.mark < length marks.old) rows.now }
    requires sorted { IsNonDecreasingBy (λ row. row.signature) rows.now }
    ensures { Adds (HasBitsBelow (length listed.now) listed.now address.family address.bits) rows.now (tree_of scalar.now) marks.old marks.new }
{
    for (number, is_listed) in listed.iter().enumerate() {
        decide_network(*is_listed, rows, address, number, scalar, marks);
    }
}

fn decide_network(
    is_listed: bool,
    rows: &[Row],
    address: Address,
    number: usize,
    scalar: &Json,
    marks: &mut Marks,
)
    requires scalar { leaf_at [] (tree_of scalar.now) ≡ Some (tree_of scalar.now) }
    requires marks { All (λ row. row.mark < length marks.old) rows.now }
    requires sorted { IsNonDecreasingBy (λ row. row.signature) rows.now }
    ensures { Adds (λ row. (is_listed ≡ true) × (row.signature ≡ network address.family number (leading_bits address.family number address.bits)))
        rows.now (tree_of scalar.now) marks.old marks.new }
{
    if is_listed {
        let signature = network(address.family, number, address.leading_bits(number));
        decide_with(rows, signature, scalar, marks);
    }
}

/// The rows with the signature, if it is of a length that is listed.
fn decide_if(is_listed: bool, rows: &[Row], signature: u64, scalar: &Json, marks: &mut Marks)
    requires scalar { leaf_at [] (tree_of scalar.now) ≡ Some (tree_of scalar.now) }
    requires marks { All (λ row. row.mark < length marks.old) rows.now }
    requires sorted { IsNonDecreasingBy (λ row. row.signature) rows.now }
    ensures { Adds (λ row. (is_listed ≡ true) × (row.signature ≡ signature)) rows.now (tree_of scalar.now) marks.old marks.new }
{
    if is_listed {
        decide_with(rows, signature, scalar, marks);
    }
}

/// The rows with the signature.
fn decide_with(rows: &[Row], signature: u64, scalar: &Json, marks: &mut Marks)
    requires scalar { leaf_at [] (tree_of scalar.now) ≡ Some (tree_of scalar.now) }
    requires marks { All (λ row. row.mark < length marks.old) rows.now }
    requires sorted { IsNonDecreasingBy (λ row. row.signature) rows.now }
    ensures { Adds (λ row. row.signature ≡ signature) rows.now (tree_of scalar.now) marks.old marks.new }
{
    decide_all(with(rows, signature), scalar, marks);
}

fn decide_all(rows: &[Row], scalar: &Json, marks: &mut Marks)
    requires scalar { leaf_at [] (tree_of scalar.now) ≡ Some (tree_of scalar.now) }
    requires marks { All (λ row. row.mark < length marks.old) rows.now }
    ensures { Adds (λ _. Unit {0}) rows.now (tree_of scalar.now) marks.old marks.new }
{
    for row in rows {
        decide(row, scalar, marks);
    }
}

/// Adds the mark of one row, if the scalar meets its test.
fn decide(row: &Row, scalar: &Json, marks: &mut Marks)
    requires scalar { leaf_at [] (tree_of scalar.now) ≡ Some (tree_of scalar.now) }
    requires mark { row.now.mark < length marks.old }
    ensures { Adds (λ _. Unit {0}) (row.now ∷ []) (tree_of scalar.now) marks.old marks.new }
{
    if is_met(&row.test, scalar) {
        marks.set(row.mark);
    }
}

/// The rows of `numeric`, by their ranges.
fn decide_number(rows: &[Row], ranges: &Ranges, spelling: &str, marks: &mut Marks)
    requires ranges { ranges.now ≡ filter_map range_in rows.now }
    requires marks { All (λ row. row.mark < length marks.old) rows.now }
    ensures { Adds IsNumeric rows.now (number spelling.now) marks.old marks.new }
{
    match millionths(spelling) {
        Some(number) => ranges.hits(number, marks),
        None => {}
    }
}
