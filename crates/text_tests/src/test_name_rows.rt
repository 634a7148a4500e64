//! Tests of name_rows.
use json_text::Text;
use name_rows::Rows;
use std::alloc::Global;
use std::test::Fail;
use test_rows::{all_met, two};

/// A name of four digits, so that names are in the order of their numbers.
fn name(alloc: Global, number: u32) -> Result<Text, Fail> {
    let digits = [number / 1000, number / 100, number / 10, number];
    let digits = digits.map(|digit| b'0' + (digit % 10) as u8);
    Ok(Text::from_str(alloc, str::from_utf8(&digits)?)?)
}

fn added(alloc: Global, rows: &Rows<Text>, number: u32) -> Result<Rows<Text>, Fail> {
    Ok(rows.with(alloc, name(alloc, number)?)?)
}

/// The names 1000 to 1999, put in a bad order.
fn thousand(alloc: Global) -> Result<Rows<Text>, Fail> {
    let mut rows = Rows::new(alloc)?;
    for at in 0..1000u32 {
        rows = added(alloc, &rows, 1000 + at * 367 % 1000)?;
    }
    Ok(rows)
}

fn removed(alloc: Global, rows: &Rows<Text>, number: u32) -> Result<Rows<Text>, Fail> {
    Ok(rows.without(alloc, name(alloc, number)?.as_str())?)
}

/// The rows without the names of this remainder modulo 40.
fn thinned(alloc: Global, rows: &Rows<Text>, remainder: u8) -> Result<Rows<Text>, Fail> {
    let mut left = rows.share()?;
    for forty in 25..50u32 {
        left = removed(alloc, &left, 40 * forty + u32::from(remainder))?;
    }
    Ok(left)
}

/// The names, one after the other.
fn shown(alloc: Global, rows: &Rows<Text>) -> Result<String, Fail> {
    let mut out = String::new(alloc);
    for row in rows.iter() {
        out.push_str(row.as_str())?;
        out.push_str(" ")?;
    }
    Ok(out)
}

/// The names from 1000 to 1999 whose remainder modulo 40 is at least this one.
fn expected(alloc: Global, remainder: u32) -> Result<String, Fail> {
    let mut out = String::new(alloc);
    for number in 1000..2000u32 {
        if number % 40 >= remainder {
            out.push_str(name(alloc, number)?.as_str())?;
            out.push_str(" ")?;
        }
    }
    Ok(out)
}

fn has(rows: &Rows<Text>, name: &str) -> bool {
    match rows.find(name) {
        Some(row) => row.as_str() == name,
        None => false,
    }
}

fn count_from(rows: &Rows<Text>, name: &str) -> usize {
    let mut count: usize = 0;
    for _row in rows.from(name) {
        count = count.saturating_add(1);
    }
    count
}

#[test]
fn a_thousand_rows_in_a_bad_order(rt: HostRuntime) -> Result<(), Fail> {
    let alloc = rt.alloc();
    let rows = thousand(alloc)?;
    assert!(rt; shown(alloc, &rows)?.as_str() == expected(alloc, 0)?.as_str());
    assert!(rt; rows.reach(1000) && !rows.reach(1001));
    assert!(rt; has(&rows, "1000") && has(&rows, "1999") && has(&rows, "1517"));
    assert!(rt; !has(&rows, "0999") && !has(&rows, "2000") && !has(&rows, "1517a"));
    Ok(())
}

#[test]
fn removed_rows_are_gone_and_the_others_stay(rt: HostRuntime) -> Result<(), Fail> {
    let alloc = rt.alloc();
    let rows = thousand(alloc)?;
    let mut left = rows.share()?;
    for remainder in 0..39u8 {
        left = thinned(alloc, &left, remainder)?;
    }
    assert!(rt; shown(alloc, &left)?.as_str() == expected(alloc, 39)?.as_str());
    assert!(rt; left.reach(25) && !left.reach(26));
    assert!(rt; shown(alloc, &rows)?.as_str() == expected(alloc, 0)?.as_str());
    let none = thinned(alloc, &left, 39)?;
    assert!(rt; !none.reach(1) && none.iter().next().is_none());
    Ok(())
}

/// A name, and how many of the names 1000 to 1999 are not before it.
const FROM: &str = "1000|1000
|1000
1998|2
19975|2
1999|1
2|0
";

fn is_counted(rows: &Rows<Text>, row: &str) -> Result<bool, Fail> {
    let (name, count) = two(row);
    Ok(count_from(rows, name) == count.parse::<usize>()?)
}

#[test]
fn rows_from_a_name_on(rt: HostRuntime) -> Result<(), Fail> {
    let rows = thousand(rt.alloc())?;
    all_met(rt.alloc(), FROM, 6, |_, row| is_counted(&rows, row))
}

#[test]
fn a_row_of_the_same_name_is_replaced(rt: HostRuntime) -> Result<(), Fail> {
    let alloc = rt.alloc();
    let rows = Rows::new(alloc)?
        .with(alloc, name(alloc, 1002)?)?
        .with(alloc, name(alloc, 1001)?)?
        .with(alloc, name(alloc, 1002)?)?;
    assert!(rt; shown(alloc, &rows)?.as_str() == "1001 1002 ");
    let less = rows.without(alloc, "1003")?.without(alloc, "1001")?;
    assert!(rt; shown(alloc, &less)?.as_str() == "1002 ");
    Ok(())
}
