//! Tests of numeric_keys.
ghost use Rattle.std.specs.Prelude.{◌<◌};
ghost use Rattle.std.specs.List.{All};

use numeric_keys::{Marks, NoMemory, Ranges, millionths};
use std::alloc::{AllocError, Global};
use std::test::Fail;
use test_rows::{all_met, two};

/// Spellings and their millionths. The first four are samples of RFC 8259, section 13, and the next two of section 6. The others
/// were worked by hand: zero; a fraction, an exponent, both; the limit and one step inside; past the limit or no whole number of
/// millionths; no numbers.
const SPELLINGS: &str = "37.7668|37766800
-122.3959|-122395900
-122.026020|-122026020
38793|38793000000
1E400|none
3.141592653589793238462643383279|none
0|0
-0|0
-0.000e5|0
0e99999999999999999999|0
-1|-1000000
0.001|1000
1.0000000|1000000
1e007|10000000000000
1E+2|100000000
-1e-6|-1
20e-7|2
12.5e-5|125
-5000000000|-5000000000000000
5e9|5000000000000000
0.000005e15|5000000000000000
50000000000e-1|5000000000000000
-4999999999.999999|-4999999999999999
5000000000.000001|none
-5000000001|none
1e10|none
1e400|none
0.0000001|none
25e-7|none
1e-99999999999999999999|none
|none
 |none
 1|none
1 |none
007|none
-01|none
+1|none
-|none
--1|none
.5|none
5.|none
1.e5|none
1e|none
1E-|none
1e5.0|none
0x10|none
1,000|none
NaN|none
\u{661}|none
";

/// Exponents and runs of zeros far longer than any machine number: `Z` is 1,000 zeros and `N` 1,000 nines. Worked by hand.
const LONG_SPELLINGS: &str = "0.Z5e1000|500000
7Ze-1000|7000000
1eZ2|100000000
0eN|0
0.Ze-N|0
1eN|none
1e-N|none
N|none
";

/// Whether the field is this number. `none` is no number.
fn is_number(found: Option<i64>, field: &str) -> Result<bool, Fail> {
    match found {
        Some(found) => Ok(field.parse::<i64>()? == found),
        None => Ok(field == "none"),
    }
}

fn is_spelled(_: Global, row: &str) -> Result<bool, Fail> {
    let (text, want) = two(row);
    is_number(millionths(text), want)
}

#[test]
fn number_spellings(rt: HostRuntime) -> Result<(), Fail> {
    all_met(rt.alloc(), SPELLINGS, 49, is_spelled)
}

/// The spelling with its runs of zeros and nines.
fn full(alloc: Global, text: &str) -> Result<String, AllocError> {
    let zeros = "0".repeat(alloc, 1000)?;
    let nines = "9".repeat(alloc, 1000)?;
    text.replace(alloc, "Z", &zeros)?
        .as_str()
        .replace(alloc, "N", &nines)
}

fn is_long_spelled(alloc: Global, row: &str) -> Result<bool, Fail> {
    let (text, want) = two(row);
    is_number(millionths(&full(alloc, text)?), want)
}

#[test]
fn long_spellings(rt: HostRuntime) -> Result<(), Fail> {
    all_met(rt.alloc(), LONG_SPELLINGS, 8, is_long_spelled)
}

/// How many places are marked.
fn count(marks: &Marks) -> u32 {
    let mut count: u32 = 0;
    for place in 0..marks.places() {
        if marks.has(place) {
            count = count.saturating_add(1);
        }
    }
    count
}

#[test]
fn marked_places(rt: HostRuntime) -> Result<(), Fail> {
    let mut marks = Marks::of(rt.alloc(), 130)?;
    marks.set(0);
    marks.set(63);
    marks.set(64);
    marks.set(129);
    assert!(rt; marks.has(0) & marks.has(63) & marks.has(64) & marks.has(129));
    assert!(rt; marks.places() == 130 && count(&marks) == 4);
    marks.clear();
    assert!(rt; marks.places() == 130 && count(&marks) == 0);
    Ok(())
}

const PLACES: u32 = 8;

// The marks that a value hits, the mark of place `n` at bit n; place 7 was marked before.
fn hits(alloc: Global, ranges: &Ranges, value: i64) -> Result<u32, NoMemory>
    requires { All (λ range. range.2 < PLACES) ranges.now }
{
    let mut marks = Marks::of(alloc, PLACES)?;
    marks.set(7);
    ranges.hits(value, &mut marks);
    let mut found = 0;
    for place in 0..PLACES {
        if marks.has(place) {
            found |= 1 << place;
        }
    }
    Ok(found)
}

/// Whether the value of the row hits the marks of the row, in binary.
fn is_hit(alloc: Global, ranges: &Ranges, row: &str) -> Result<bool, Fail>
    requires { All (λ range. range.2 < PLACES) ranges.now }
{
    let (value, want) = two(row);
    let found = hits(alloc, ranges, value.parse::<i64>()?)?;
    Ok(found == (1 << 7 | u32::from_str_radix(want, 2)?))
}

/// Fails with the first row that these ranges do not meet.
fn all_hit(alloc: Global, ranges: &[(i64, i64, u32)], rows: &str, count: usize) -> Result<(), Fail>
    requires { All (λ range. range.2 < PLACES) ranges.now }
{
    let ranges = Ranges::of(alloc, ranges)?;
    all_met(alloc, rows, count, |alloc, row| is_hit(alloc, &ranges, row))
}

/// Values, and the ranges of the next test that hold them, the first at the last digit. Worked by hand.
const AT_BOTH_ENDS: &str = "-1|0
0|01
2|11
3|10
5|10
6|0
";

#[test]
fn ranges_hold_both_ends(rt: HostRuntime) -> Result<(), Fail> {
    all_hit(rt.alloc(), &[(0, 2, 0), (2, 5, 1)], AT_BOTH_ENDS, 6)
}

/// The same for the first and the last value of the type, 0 and 1.
const AT_THE_ENDS: &str = "-9223372036854775808|101
9223372036854775807|011
0|001
1|001
";

#[test]
fn ranges_at_the_ends_of_the_type(rt: HostRuntime) -> Result<(), Fail> {
    let (first, last) = (i64::MIN, i64::MAX);
    let reversed = (last, first, 4);
    let ranges = [
        (first, last, 0),
        (last, last, 1),
        (first, first, 2),
        (1, 0, 3),
        reversed,
    ];
    all_hit(rt.alloc(), &ranges, AT_THE_ENDS, 4)
}

/// The same for ranges in one another, equal ones, and one mark twice.
const OVERLAPS: &str = "-3|01111
4|00011
5|00001
6|00001
7|0
20|10000
";

#[test]
fn ranges_that_overlap(rt: HostRuntime) -> Result<(), Fail> {
    let ranges = [
        (-5, 5, 0),
        (10, 20, 4),
        (-4, 4, 1),
        (-3, 3, 2),
        (-3, 3, 3),
        (6, 6, 0),
    ];
    all_hit(rt.alloc(), &ranges, OVERLAPS, 6)
}

#[test]
fn no_ranges(rt: HostRuntime) -> Result<(), Fail> {
    let ranges = Ranges::of(rt.alloc(), &[])?;
    assert_eq!(rt; hits(rt.alloc(), &ranges, 0)?, 1 << 7);
    Ok(())
}
