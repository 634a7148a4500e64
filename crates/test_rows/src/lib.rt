//! Goes through the rows of a table. A table is one text with one row a line, and a row has its fields apart by `|`. The last
//! field is the result that the row wants.
#![tactic(auto)]

use std::alloc::Global;
use std::test::Fail;

/// The last field of a row with too few fields. No result is this text, so the row fails.
const NO_FIELD: &str = "no field";

/// The first field of a row, and the rest.
pub fn two(row: &str) -> (&str, &str) {
    match row.split_once('|') {
        Some(fields) => fields,
        None => ("", NO_FIELD),
    }
}

/// The first two fields of a row, and the rest.
pub fn three(row: &str) -> (&str, &str, &str) {
    let (first, rest) = two(row);
    let (second, third) = two(rest);
    (first, second, third)
}

/// The first three fields of a row, and the rest.
pub fn four(row: &str) -> (&str, &str, &str, &str) {
    let (first, second, rest) = three(row);
    let (third, fourth) = two(rest);
    (first, second, third, fourth)
}

/// All fields of a row but the last, and the last.
pub fn last(row: &str) -> (&str, &str) {
    match row.rsplit_once('|') {
        Some((front, last)) => (front, last),
        None => ("", NO_FIELD),
    }
}

/// Fails with the first row that is not met, or if the rows are not `count`.
pub fn all_met<F: Fn(Global, &str) -> Result<bool, Fail>>(
    alloc: Global,
    rows: &str,
    count: usize,
    is_met: F,
) -> Result<(), Fail>
    requires { F.IsAlwaysCallable is_met }
{
    if rows.lines().count() != count {
        return Err(Fail::new("another number of rows"));
    }
    for row in rows.lines() {
        if !is_met(alloc, row)? {
            return Err(Fail::new(row));
        }
    }
    Ok(())
}
