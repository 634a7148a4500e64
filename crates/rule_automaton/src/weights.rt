//! What a part of a pattern is likely to find, by which anchors are chosen. No clause depends on it.
use json_text::{Json, NoMemory, Text};
use pattern_meaning::{Field, LeafTest, Pattern};
use std::alloc::Global;

/// The weight of what has no anchors.
pub(crate) const NONE: u64 = u64::MAX;

/// `prefix`, `suffix`, `cidr`, and a wildcard that begins with letters.
const END: u64 = 8;

const RANGE: u64 = 16;

const OTHER: u64 = 64;

/// The signature of the path without keys.
pub(crate) const ROOT: u64 = 14_695_981_039_346_656_037;

const FACTOR: u64 = 1_099_511_628_211;

/// The signatures of the exact tests of rules: for each test one, made of its path and its operand, in ascending order.
#[derive(Drop)]
pub(crate) struct Weights {
    signatures: Vec<u64>,
}

impl Weights {
    pub(crate) fn none(alloc: Global) -> Weights {
        Weights {
            signatures: Vec::new(alloc),
        }
    }

    /// The same signatures, in memory of their own.
    pub(crate) fn copy(&self, alloc: Global) -> Result<Weights, NoMemory> {
        Ok(Weights {
            signatures: Vec::from_slice(alloc, &self.signatures)?,
        })
    }

    /// Adds the exact tests of the pattern.
    pub(crate) fn add(&mut self, pattern: &Pattern) -> Result<(), NoMemory> {
        add_pattern(pattern, ROOT, &mut self.signatures)
    }

    /// In their order, which `add` does not keep.
    pub(crate) fn sort(&mut self) {
        self.signatures.sort_unstable();
    }

    /// Removes the exact tests of the pattern, each once.
    pub(crate) fn remove(&mut self, alloc: Global, pattern: &Pattern) -> Result<(), NoMemory> {
        let mut gone = Vec::new(alloc);
        add_pattern(pattern, ROOT, &mut gone)?;
        for signature in gone {
            if let Ok(place) = self.signatures.binary_search(&signature) {
                if place < self.signatures.len() {
                    self.signatures.remove(place);
                }
            }
        }
        Ok(())
    }

    /// How many exact tests have the signature, and one more.
    fn of_exact(&self, signature: u64) -> u64 {
        let from = self.signatures.partition_point(|other| *other < signature);
        let to = self.signatures.partition_point(|other| *other <= signature);
        (to.saturating_sub(from) as u64).saturating_add(1)
    }

    /// What the test at the path with this signature is likely to find.
    fn of_test(&self, test: &LeafTest, at: u64) -> u64 {
        match test {
            LeafTest::Same(scalar) => self.of_exact(of_scalar(at, scalar)),
            LeafTest::EqualsIgnoringCase(text) => self.of_exact(of_text(at, 0, text.as_str())),
            LeafTest::Prefix(_)
            | LeafTest::PrefixIgnoringCase(_)
            | LeafTest::Suffix(_)
            | LeafTest::SuffixIgnoringCase(_)
            | LeafTest::Cidr(_) => END,
            LeafTest::Wildcard(pieces) => {
                if pieces.literal_front().is_empty() {
                    OTHER
                } else {
                    END
                }
            }
            LeafTest::Numeric(_) => RANGE,
            LeafTest::AnythingBut(_) | LeafTest::Exists => OTHER,
            LeafTest::Missing => NONE,
        }
    }

    /// What an array of tests is likely to find.
    pub(crate) fn of_tests(&self, tests: &[LeafTest], at: u64) -> u64 {
        let mut weight: u64 = 0;
        for test in tests {
            weight = weight.saturating_add(self.of_test(test, at));
        }
        weight
    }
}

/// The signature of a path with one more key.
pub(crate) fn below(at: u64, key: &str) -> u64 {
    of_text(at, 1, key)
}

/// ASCII letters are taken in lower case, as by `PathIndex`.
fn of_text(at: u64, kind: u8, text: &str) -> u64 {
    let mut sum = with_byte(at, kind);
    for byte in text.as_bytes() {
        sum = with_byte(sum, byte.to_ascii_lowercase());
    }
    with_byte(sum, 255)
}

fn with_byte(sum: u64, byte: u8) -> u64 {
    (sum ^ u64::from(byte)).wrapping_mul(FACTOR)
}

fn of_scalar(at: u64, scalar: &Json) -> u64 {
    match scalar {
        Json::Str(text) => of_text(at, 0, text.as_str()),
        Json::Num(spelling) => of_text(at, 2, spelling.as_str()),
        Json::Truth(true) => with_byte(at, 3),
        Json::Truth(false) => with_byte(at, 4),
        Json::Null => with_byte(at, 5),
        Json::List(_) | Json::Obj(_) => with_byte(at, 6),
    }
}

#[cycle(add)]
fn add_pattern(pattern: &Pattern, at: u64, signatures: &mut Vec<u64>) -> Result<(), NoMemory> {
    add_fields(&pattern.fields, at, signatures)?;
    for branch in &pattern.branches {
        add_pattern(branch, at, signatures)?;
    }
    Ok(())
}

#[cycle(add)]
fn add_fields(
    fields: &[(Text, Field)],
    at: u64,
    signatures: &mut Vec<u64>,
) -> Result<(), NoMemory> {
    for (key, field) in fields {
        let here = below(at, key.as_str());
        match field {
            Field::Tests(tests) => add_tests(tests, here, signatures)?,
            Field::Below(pattern) => add_pattern(pattern, here, signatures)?,
        }
    }
    Ok(())
}

fn add_tests(tests: &[LeafTest], at: u64, signatures: &mut Vec<u64>) -> Result<(), NoMemory> {
    for test in tests {
        match test {
            LeafTest::Same(scalar) => signatures.push(of_scalar(at, scalar))?,
            LeafTest::EqualsIgnoringCase(text) => signatures.push(of_text(at, 0, text.as_str()))?,
            _ => {}
        }
    }
    Ok(())
}
