//! Ranges of numbers in four shapes, and a number that is in none of them, in one, or in all.
ghost use Rattle.std.specs.Prelude.{◌≡◌, ◌<◌, IfOk, All, length};

use anyhow::{Result, bail};
use numeric_keys::{Marks, Ranges};
use std::alloc::Global;
use std::rt::Clock;
use std::time::{Duration, Instant};

/// The number of calls of `hits`, since one call is too short for the clock.
const ROUNDS: u32 = 1000;

#[derive(Clone, Copy)]
enum Shape {
    Disjoint,
    Nested,
    OneSided,
    Equal,
}

/// Whether the number was hit, and the times of one call of `Ranges::of` and of a thousand of `hits`.
#[derive(Clone, Copy)]
pub struct Figures {
    pub hit: bool,
    pub made: Duration,
    pub found: Duration,
}

/// The measurement that the word names, over `size` ranges and at `number`.
pub fn measure(
    rt: &impl Clock,
    alloc: Global,
    word: &str,
    size: u32,
    value: u32,
) -> Result<Figures> {
    let ranges = shaped(alloc, shape_of(word)?, size)?;
    let start = Instant::now(rt)?;
    let tree = Ranges::of(alloc, &ranges)?;
    let made = start.elapsed(rt)?;
    let mut marks = Marks::of(alloc, 1)?;
    let start = Instant::now(rt)?;
    look_up(&tree, i64::from(value), &mut marks);
    let found = start.elapsed(rt)?;
    Ok(Figures {
        hit: marks.has(0),
        made,
        found,
    })
}

fn look_up(tree: &Ranges, value: i64, marks: &mut Marks)
    requires { All (λ range. range.2 < length marks.old) tree.now }
    ensures { length marks.new ≡ length marks.old }
{
    for _ in 0..ROUNDS {
        tree.hits(value, marks);
    }
}

fn shape_of(word: &str) -> Result<Shape> {
    Ok(match word {
        "ranges_disjoint" => Shape::Disjoint,
        "ranges_nested" => Shape::Nested,
        "ranges_one_sided" => Shape::OneSided,
        "ranges_equal" => Shape::Equal,
        _ => bail!("no measurement has this name"),
    })
}

/// Ranges of the shape, each with mark 0.
fn shaped(alloc: Global, shape: Shape, size: u32) -> Result<Vec<(i64, i64, u32)>>
    ensures { IfOk result (λ ranges. All (λ range. range.2 < 1) ranges.items) }
{
    let mut ranges = Vec::with_capacity(alloc, size as usize)?;
    for i in 0..size {
        ranges.push(range_of(shape, size, i))?;
    }
    Ok(ranges)
}

fn range_of(shape: Shape, size: u32, i: u32) -> (i64, i64, u32)
    ensures { result.2 < 1 }
{
    let place = i64::from(i);
    match shape {
        Shape::Disjoint => (10 * place, 10 * place + 5, 0),
        Shape::Nested => (place, 2 * i64::from(size) - place, 0),
        Shape::OneSided => (place + 1, i64::MAX, 0),
        Shape::Equal => (5, 9, 0),
    }
}
