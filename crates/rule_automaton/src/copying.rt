//! Copies of tests, in memory of their own.
ghost use Rattle.std.specs.Prelude.{◌≡◌, IfOk, map};
ghost use Rattle.std.specs.Arc.{arc_value};
ghost use Rattle.pattern_meaning.specs.PatternView.{test_of};

use json_text::{NoMemory, copy};
use leaf_match::Wild;
use pattern_meaning::{Comparison, LeafTest};
use std::alloc::Global;
use std::sync::Arc;

/// Copies of these tests, each to be shared.
pub(crate) fn copies(alloc: Global, tests: &[LeafTest]) -> Result<Vec<Arc<LeafTest>>, NoMemory>
    ensures { IfOk result (λ copies. map (λ test. test_of (arc_value test)) copies.items ≡ map test_of tests.now) }
{
    let mut copies = Vec::with_capacity(alloc, tests.len())?;
    for test in tests {
        copies.push(Arc::new(alloc, copy_test(alloc, test)?)?)?;
    }
    Ok(copies)
}

#[cycle(copy)]
fn copy_test(alloc: Global, test: &LeafTest) -> Result<LeafTest, NoMemory>
    ensures { IfOk result (λ other. test_of other ≡ test_of test.now) }
{
    Ok(match test {
        LeafTest::Same(scalar) => LeafTest::Same(copy(alloc, scalar)?),
        LeafTest::Prefix(text) => LeafTest::Prefix(text.copy(alloc)?),
        LeafTest::PrefixIgnoringCase(text) => LeafTest::PrefixIgnoringCase(text.copy(alloc)?),
        LeafTest::Suffix(text) => LeafTest::Suffix(text.copy(alloc)?),
        LeafTest::SuffixIgnoringCase(text) => LeafTest::SuffixIgnoringCase(text.copy(alloc)?),
        LeafTest::EqualsIgnoringCase(text) => LeafTest::EqualsIgnoringCase(text.copy(alloc)?),
        LeafTest::Wildcard(pieces) => LeafTest::Wildcard(copy_wild(alloc, pieces)?),
        LeafTest::AnythingBut(tests) => LeafTest::AnythingBut(copy_tests(alloc, tests)?),
        LeafTest::Numeric(comparisons) => LeafTest::Numeric(copy_comparisons(alloc, comparisons)?),
        LeafTest::Cidr(network) => LeafTest::Cidr(*network),
        LeafTest::Exists => LeafTest::Exists,
        LeafTest::Missing => LeafTest::Missing,
    })
}

#[cycle(copy)]
fn copy_tests(alloc: Global, tests: &[LeafTest]) -> Result<Vec<LeafTest>, NoMemory>
    ensures { IfOk result (λ copies. map test_of copies.items ≡ map test_of tests.now) }
{
    let mut copies = Vec::with_capacity(alloc, tests.len())?;
    for test in tests {
        copies.push(copy_test(alloc, test)?)?;
    }
    Ok(copies)
}

fn copy_wild(alloc: Global, pieces: &Wild) -> Result<Wild, NoMemory>
    ensures { IfOk result (λ copy. copy ≡ pieces.now) }
{
    match pieces.copy(alloc) {
        Ok(copy) => Ok(copy),
        Err(_refused) => Err(NoMemory),
    }
}

fn copy_comparisons(alloc: Global, comparisons: &[Comparison]) -> Result<Vec<Comparison>, NoMemory>
    ensures { IfOk result (λ copies. copies.items ≡ comparisons.now) }
{
    Ok(Vec::from_slice(alloc, comparisons)?)
}
