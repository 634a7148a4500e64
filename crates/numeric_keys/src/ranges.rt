ghost use Rattle.std.specs.Prelude.{◌≡◌, ◌+◌, ◌*◌, ◌<◌, ◌≤◌, ℤ, List, IfOk, length};
ghost use Rattle.std.specs.List.{All};
ghost use Rattle.numeric_keys.specs.Ranges.{AddsHits};
ghost use Rattle.numeric_keys.specs.RangeTree.{node_span, IsTree, AddsUnder, Encloses};

use crate::fault::NoMemory;
use crate::marks::Marks;
use std::alloc::{AllocError, Global};
use std::marker::Model;
use std::snapshot::Snapshot;

/// Ranges of numbers, each `(low, high, mark)` with both ends included. A range whose low end is above its high end
/// holds nothing. Making n ranges takes time and memory of at most n log n.
#[derive(Drop)]
pub struct Ranges {
    // The list as it was given, for contracts alone. It takes no room.
    given: Snapshot<Vec<(i64, i64, u32)>>,
    by_low: Vec<(i64, i64, u32)>,
    // A binary tree over `by_low`: of n ranges, node n + k is the range at k, and node i below n has the children 2i
    // and 2i + 1. Entry i is the span of the ranges under node i, and entry 0 is not used.
    spans: Vec<Span>,
}

impl Model for Ranges {
    ghost use Rattle.std.specs.Prelude.{ℕ, ℤ, List};
    ghost use Rattle.std.specs.List.Sorted.{IsPermutation};

    ghost Value = { List (ℤ × ℤ × ℕ) };

    ghost use Rattle.numeric_keys.specs.RangeTree.{IsTree};

    ghost view = { λ r. r.given.value.items };

    ghost invariant = { λ r. IsPermutation r.given.value.items r.by_low.items
        × IsTree r.by_low.items r.spans.items };
}

// The span of the ranges under a node: no range there begins below `least` or ends above `greatest`.
#[derive(Clone, Copy)]
struct Span {
    least: i64,
    greatest: i64,
}

const ROOT: usize = 1;

impl Ranges {
    /// Exactly these ranges, in any order and with any marks.
    pub fn of(alloc: Global, ranges: &[(i64, i64, u32)]) -> Result<Ranges, NoMemory>
        ensures { IfOk result (λ made. made ≡ ranges.now) }
    {
        let mut by_low: Vec<(i64, i64, u32)> = ranges.iter().copied().collect(alloc)?;
        let given = Snapshot::of(&by_low);
        by_low.sort_unstable_by_key(|range| range.0);
        let spans = spans_of(alloc, &by_low)?;
        Ok(Ranges {
            given,
            by_low,
            spans,
        })
    }

    /// Adds the mark of each range that holds the value. Takes one search, and at most log n for each range that holds
    /// it.
    pub fn hits(&self, value: i64, marks: &mut Marks)
        requires { All (λ range. range.2 < length marks.old) self.now }
        ensures { AddsHits self.now value marks.old marks.new }
    {
        if !self.by_low.is_empty() {
            mark_under(&self.by_low, &self.spans, ROOT, value, marks);
        }
    }
}

// Children before their parents: they have the higher numbers.
fn spans_of(alloc: Global, ranges: &[(i64, i64, u32)]) -> Result<Vec<Span>, AllocError>
    ensures { IfOk result (λ spans. IsTree ranges.now spans.items) }
{
    let none = Span {
        least: 0,
        greatest: 0,
    };
    let mut spans = vec![in alloc; none; ranges.len()]?;
    for node in (ROOT..ranges.len()).rev() {
        let left = span_at(ranges, &spans, 2 * node);
        let right = span_at(ranges, &spans, 2 * node + 1);
        spans[node] = left.joined(right);
    }
    Ok(spans)
}

// A node's span, which for a leaf is its range.
fn span_at(ranges: &[(i64, i64, u32)], spans: &[Span], node: usize) -> Span
    requires nodes { length spans.now ≡ length ranges.now }
    requires node { node < 2 * length ranges.now }
    ensures { result ≡ node_span ranges.now spans.now node }
{
    if node < ranges.len() {
        return spans[node];
    }
    let (low, high, _mark) = ranges[node - ranges.len()];
    Span {
        least: low,
        greatest: high,
    }
}

impl Span {
    // The least span that encloses both.
    fn joined(self, other: Span) -> Span
        ensures first { Encloses result self }
        ensures second { Encloses result other }
    {
        Span {
            least: self.least.min(other.least),
            greatest: self.greatest.max(other.greatest),
        }
    }
}

// Marks the ranges under a node that hold the value. The leaves are in the order by low end, except for one turn from
// the last to the first, so few nodes of a level have a span that holds the value and no range that holds it.
fn mark_under(
    ranges: &[(i64, i64, u32)],
    spans: &[Span],
    node: usize,
    value: i64,
    marks: &mut Marks,
)
    requires tree { IsTree ranges.now spans.now }
    requires root { 1 ≤ node }
    requires node { node < 2 * length ranges.now }
    requires marks { All (λ range. range.2 < length marks.old) ranges.now }
    ensures { AddsUnder ranges.now node value marks.old marks.new }
{
    if node >= ranges.len() {
        let (low, high, mark) = ranges[node - ranges.len()];
        if low <= value && value <= high {
            marks.set(mark);
        }
        return;
    }
    let span = spans[node];
    if span.least <= value && value <= span.greatest {
        mark_under(ranges, spans, 2 * node, value, marks);
        mark_under(ranges, spans, 2 * node + 1, value, marks);
    }
}
