//! A pattern asked of two events in turn. It holds of the first, and of the second its last test fails.
ghost use Rattle.std.specs.Prelude.{IfOk};
ghost use Rattle.json_text.specs.Compact.{IsValue};
ghost use Rattle.json_text.specs.View.{tree_of};

use anyhow::{Result, bail};
use json_text::{Json, read};
use pattern_meaning::{Pattern, plain_holds};
use pattern_read::read_pattern;
use std::alloc::Global;
use std::rt::Clock;
use std::time::{Duration, Instant};

/// An event of some 800 bytes, up to its source.
const FRONT: [&str; 2] = [
    r#"{"version":"0","id":"017f22e2-79b0-7cc3-98c4-dc0c0c07398f","#,
    r#""detail-type":"Order Placed","source":""#,
];

/// From there to the state of its payment. The list comes after it.
const MIDDLE: [&str; 9] = [
    r#"","account":"123456789012","time":"2026-11-26T12:00:00Z","region":"eu-central-1","#,
    r#""resources":[],"detail":{"order":12,"placed":"web","#,
    r#""customer":{"id":"c-48151623","name":"Ada Lovelace","country":"DE","level":"gold"},"#,
    r#""address":{"street":"Example Street 12","town":"Berlin","code":"10115"},"#,
    r#""note":"Please leave it with the neighbour on the second floor, or at the shop "#,
    r#"on the corner if nobody is at home.","#,
    r#""parcel":{"weight":1250,"height":20,"width":30,"length":40,"carrier":"post"},"#,
    r#""gift":false,"coupon":null,"language":"en","channel":"app","version":"4.18.2","#,
    r#""payment":{"amount":59.85,"currency":"EUR","by":"card","state":""#,
];

/// Six tests, three objects deep.
const NESTED: [&str; 2] = [
    r#"{"detail-type":["Order Placed"],"detail":{"placed":["web"],"#,
    r#""customer":{"country":["DE"],"level":["gold"]},"payment":{"by":["card"],"state":["paid"]}}}"#,
];

/// Three `$or`s of ten branches, so 1,000 alternatives. Of each the last branch holds of the first event.
const ALTERNATIVES: [&str; 7] = [
    r#"{"detail":{"payment":{"state":["paid"]},"$or":[{"order":[1]},{"order":[2]},{"order":[3]},{"order":[4]},{"order":[5]},"#,
    r#"{"order":[6]},{"order":[7]},{"order":[8]},{"order":[9]},{"order":[12]}],"#,
    r#""customer":{"$or":[{"level":["a"]},{"level":["b"]},{"level":["c"]},{"level":["d"]},{"level":["e"]},"#,
    r#"{"level":["f"]},{"level":["g"]},{"level":["h"]},{"level":["i"]},{"level":["gold"]}]},"#,
    r#""parcel":{"$or":[{"width":[1]},{"width":[2]},{"width":[3]},{"width":[4]},{"width":[5]},"#,
    r#"{"width":[6]},{"width":[7]},{"width":[8]},{"width":[9]},{"width":[30]}]}"#,
    "}}",
];

/// The number of times that the pattern held, and the time of all calls.
#[derive(Clone, Copy)]
pub struct Figures {
    pub held: u32,
    pub took: Duration,
}

/// The measurement that the word names.
pub fn measure(
    rt: &impl Clock,
    alloc: Global,
    word: &str,
    rounds: u32,
    objects: u32,
) -> Result<Figures> {
    let text = pattern_of(alloc, word)?;
    let pattern = read_pattern(alloc, text.as_bytes())?;
    let first = event_of(alloc, "shop.orders", "paid", objects, "wanted")?;
    let second = event_of(alloc, "shop.others", "open", objects, "other")?;
    let start = Instant::now(rt)?;
    let held = count(&pattern, &first, &second, rounds);
    Ok(Figures {
        held,
        took: start.elapsed(rt)?,
    })
}

/// How often the pattern holds. The events alternate, so that no call can be left out.
fn count(pattern: &Pattern, first: &Json, second: &Json, rounds: u32) -> u32
    requires first { IsValue (tree_of first.now) }
    requires second { IsValue (tree_of second.now) }
{
    let mut held = 0;
    for round in 0..rounds {
        let event = if round % 2 == 0 { first } else { second };
        if plain_holds(pattern, event) {
            held += 1;
        }
    }
    held
}

fn pattern_of(alloc: Global, word: &str) -> Result<String> {
    match word {
        "holds_source" => joined(alloc, &[r#"{"source":["shop.orders"]}"#]),
        "holds_nested" => joined(alloc, &NESTED),
        "holds_list" => joined(alloc, &[r#"{"detail":{"lines":{"sku":["wanted"]}}}"#]),
        "holds_or" => joined(
            alloc,
            &[r#"{"detail":{"lines":{"$or":[{"sku":["wanted"]},{"count":[2]}]}}}"#],
        ),
        "holds_absent" => joined(
            alloc,
            &[r#"{"detail":{"payment":{"state":["paid"]},"lines":{"gift":[{"exists":false}]}}}"#],
        ),
        "holds_alternatives" => joined(alloc, &ALTERNATIVES),
        _ => bail!("no measurement has this name"),
    }
}

/// The event, with a list of objects. The last of them has another `sku`.
pub(crate) fn event_of(
    alloc: Global,
    source: &str,
    state: &str,
    objects: u32,
    last: &str,
) -> Result<Json>
    ensures { IfOk result (λ event. IsValue (tree_of event)) }
{
    let mut text = joined(alloc, &FRONT)?;
    text.push_str(source)?;
    push_all(&mut text, &MIDDLE)?;
    text.push_str(state)?;
    text.push_str(r#""},"lines":["#)?;
    for _ in 1..objects {
        text.push_str(r#"{"sku":"common","count":1},"#)?;
    }
    text.push_str(r#"{"sku":""#)?;
    text.push_str(last)?;
    text.push_str(r#""}]}}"#)?;
    Ok(read(alloc, text.as_bytes(), 100)?)
}

fn joined(alloc: Global, parts: &[&str]) -> Result<String> {
    let mut text = String::new(alloc);
    push_all(&mut text, parts)?;
    Ok(text)
}

fn push_all(text: &mut String, parts: &[&str]) -> Result<()> {
    for part in parts {
        text.push_str(part)?;
    }
    Ok(())
}
