//! Patterns.
use crate::comparison::Comparison;
use json_text::{Json, Text};
use leaf_match::{Cidr, Wild};

/// A pattern: all its fields are required together, and of the branches of its `$or`, if it has any, one.
#[cycle(pattern)]
#[derive(Debug, Drop)]
pub struct Pattern {
    pub fields: Vec<(Text, Field)>,
    pub branches: Vec<Pattern>,
}

/// The value of a field: tests, one of which is enough, or a pattern.
#[cycle(pattern)]
#[derive(Debug, Drop)]
pub enum Field {
    Tests(LeafTests),
    Below(Pattern),
}

pub type Fields = Vec<(Text, Field)>;

pub type LeafTests = Vec<LeafTest>;

/// A test of a leaf.
#[derive(Debug, Drop)]
pub enum LeafTest {
    /// The leaf is this scalar; numbers are compared by their spelling.
    Same(Json),
    /// The leaf is a string that begins with this one.
    Prefix(Text),
    /// The same, without regard to the case of ASCII letters.
    PrefixIgnoringCase(Text),
    /// The leaf is a string that ends with this one.
    Suffix(Text),
    /// The same, without regard to the case of ASCII letters.
    SuffixIgnoringCase(Text),
    /// The leaf is this string, without regard to the case of ASCII letters.
    EqualsIgnoringCase(Text),
    /// The leaf is a string that fits.
    Wildcard(Wild),
    /// The leaf meets none of these tests.
    AnythingBut(Vec<LeafTest>),
    /// The leaf is a number that meets each comparison.
    Numeric(Vec<Comparison>),
    /// The leaf is the text of an address with the same first bits.
    Cidr(Cidr),
    /// There is a leaf.
    Exists,
    /// No view of the event has a leaf at the path.
    Missing,
}
