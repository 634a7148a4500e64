//! Tests of event_time.
use crate::rows::is_number;
use event_time::{iso, text_moment};
use std::alloc::Global;
use std::test::Fail;
use test_rows::{all_met, two};

/// Civil dates in UTC and their seconds since 1970, by the rules of the Gregorian calendar, computed outside this project.
const DATES: &str = "1970-01-01T00:00:00Z|0
1970-02-28T23:59:59Z|5097599
1970-12-31T23:59:59Z|31535999
1971-01-01T00:00:00Z|31536000
1972-02-29T12:00:00Z|68212800
1972-03-01T00:00:00Z|68256000
1973-02-28T23:59:59Z|99791999
1999-12-31T23:59:59Z|946684799
2000-01-01T00:00:00Z|946684800
2000-02-28T23:59:59Z|951782399
2000-02-29T00:00:00Z|951782400
2000-03-01T00:00:00Z|951868800
2001-09-09T01:46:40Z|1000000000
2004-12-31T00:00:00Z|1104451200
2016-12-31T23:59:59Z|1483228799
2023-04-30T23:59:59Z|1682899199
2023-11-14T22:13:20Z|1700000000
2024-02-29T23:59:59Z|1709251199
2024-03-01T00:00:00Z|1709251200
2038-01-19T03:14:08Z|2147483648
2096-02-29T00:00:00Z|3981312000
2100-02-28T23:59:59Z|4107542399
2100-03-01T00:00:00Z|4107542400
2104-02-29T00:00:00Z|4233686400
2199-12-31T23:59:59Z|7258118399
2400-02-29T00:00:00Z|13574563200
2400-03-01T00:00:00Z|13574649600
4000-02-29T06:30:15Z|64065709815
9000-02-28T23:59:59Z|221850489599
9892-03-08T12:26:40Z|250000000000
9999-12-30T22:00:00Z|253402207200
";

/// A text and the second that it shows.
const TEXTS: &str = "2023-11-14T22:13:20.75Z|1700000000
2023-11-14T22:13:60Z|none
2023-11-14T24:00:00Z|none
2023-11-14T22:60:00Z|none
2023-02-29T00:00:00Z|none
2023-04-31T00:00:00Z|none
2100-02-29T00:00:00Z|none
2023-11-14T22:13:20.Z|none
2023-11-14t22:13:20Z|none
2023-11-14T22:13:20z|none
2023-11-14T22:13:20+00:00|none
2023-11-14T22:13:20|none
2023-11-14T22:13:20Z |none
1969-12-31T23:59:59Z|none
9892-03-08T12:26:41Z|250000000001
9999-12-31T23:59:59Z|253402300799
10000-01-01T00:00:00Z|none
";

fn is_shown(_: Global, row: &str) -> Result<bool, Fail> {
    let (time, moment) = two(row);
    Ok(is_number(text_moment(time.as_bytes()), moment))
}

/// Whether the date is the one text of its second.
fn is_written(alloc: Global, row: &str) -> Result<bool, Fail> {
    let (date, moment) = two(row);
    let moment = moment.parse::<u64>()?;
    if 253_402_207_200 < moment {
        return Ok(false);
    }
    Ok(iso(alloc, moment)?.as_str() == date)
}

#[test]
fn civil_dates_are_their_seconds(rt: HostRuntime) -> Result<(), Fail> {
    all_met(rt.alloc(), DATES, 31, is_shown)?;
    all_met(rt.alloc(), DATES, 31, is_written)
}

#[test]
fn a_text_shows_its_second_or_none(rt: HostRuntime) -> Result<(), Fail> {
    all_met(rt.alloc(), TEXTS, 17, is_shown)
}
