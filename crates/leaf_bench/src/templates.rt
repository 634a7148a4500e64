//! A template with two paths, filled repeatedly from the tree of one event.
ghost use Rattle.std.specs.Prelude.{IfOk};
ghost use Rattle.json_text.specs.Compact.{IsValue};
ghost use Rattle.json_text.specs.View.{tree_of};

use crate::events::entry;
use anyhow::{Context, Result};
use event_shape::{Event, OWNER, check};
use input_transform::{Input, JsonPath, Template, fill_tree};
use json_text::{Json, Text};
use std::alloc::Global;
use std::rt::Clock;
use std::time::{Duration, Instant};

const NOVEMBER_2023: u64 = 1_700_000_000;

const RULE: &str = "arn:aws:events:us-east-1:111122223333:rule/r";

const TEMPLATE: &str = "{\"id\":<id>, \"w\":<who>, \"t\":\"order <id> by <who>\"}";

/// The number of bytes of the filled text, and the time that all fillings took.
#[derive(Clone, Copy)]
pub struct Figures {
    pub bytes: usize,
    pub took: Duration,
}

/// Fills the template from an event with this detail.
pub fn measure(rt: &impl Clock, alloc: Global, detail: &str, rounds: u32) -> Result<Figures> {
    let event = event_of(alloc, detail)?;
    let input = Input::Transform(template(alloc)?);
    let start = Instant::now(rt)?;
    let bytes = fill(alloc, &input, &event, rounds)?;
    Ok(Figures {
        bytes,
        took: start.elapsed(rt)?,
    })
}

/// The number of bytes of the text, which is made once a round.
fn fill(alloc: Global, input: &Input, event: &Json, rounds: u32) -> Result<usize>
    requires { IsValue (tree_of event.now) }
{
    let mut bytes = 0;
    for _ in 0..rounds {
        bytes = fill_tree(alloc, input, event, RULE, NOVEMBER_2023)?
            .as_str()
            .len();
    }
    Ok(bytes)
}

/// An event with this detail, as targets get it.
fn event_of(alloc: Global, detail: &str) -> Result<Json>
    ensures { IfOk result (λ event. IsValue (tree_of event)) }
{
    let checked = check(alloc, &entry(alloc, detail)?)?;
    let event = Event::make(alloc, checked, 1, NOVEMBER_2023, OWNER)?;
    Ok(event.tree(alloc, None)?)
}

fn template(alloc: Global) -> Result<Template> {
    let mut paths = Vec::new(alloc);
    paths.push(named(alloc, "id", "$.detail.id")?)?;
    paths.push(named(alloc, "who", "$.detail.who")?)?;
    Template::read(alloc, TEMPLATE, &paths).context("the template")
}

fn named(alloc: Global, name: &str, path: &str) -> Result<(Text, JsonPath)> {
    let path = JsonPath::read(alloc, path).context("the path")?;
    Ok((Text::from_str(alloc, name)?, path))
}
