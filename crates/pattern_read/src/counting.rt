//! How many alternatives a pattern has, up to a limit.
ghost use Rattle.std.specs.Prelude.{◌≡◌, ◌+◌, ◌*◌, ◌≤◌, min, map};
ghost use Rattle.pattern_meaning.specs.Alternatives.{alternative_count, field_count, one_count, branch_count};
ghost use Rattle.pattern_meaning.specs.Pattern.{branches_of};
ghost use Rattle.pattern_meaning.specs.PatternView.{pattern_of, field_of, fields_view};

use json_text::Text;
use pattern_meaning::{Field, Pattern};

/// How many alternatives a pattern may have.
pub(crate) const MAX_ALTERNATIVES: usize = 1_000;

/// The number of alternatives, or one more than the limit if there are more.
#[cycle(count)]
pub(crate) fn count(pattern: &Pattern) -> usize
    ensures { result ≡ min (alternative_count (pattern_of pattern.now)) 1001 }
{
    product(
        count_fields(&pattern.fields),
        count_branches(&pattern.branches),
    )
}

/// An object has the product of its members.
#[cycle(count)]
fn count_fields(fields: &[(Text, Field)]) -> usize
    ensures { result ≡ min (field_count (fields_view fields.now)) 1001 }
{
    let mut total = 1;
    for (_key, field) in fields {
        total = product(total, count_field(field));
    }
    total
}

#[cycle(count)]
fn count_field(field: &Field) -> usize
    ensures { result ≡ min (one_count (field_of field.now)) 1001 }
{
    match field {
        Field::Tests(_) => 1,
        Field::Below(pattern) => count(pattern),
    }
}

/// `$or` has the sum of its branches. Without branches there is one alternative.
#[cycle(count)]
fn count_branches(branches: &[Pattern]) -> usize
    ensures { result ≡ min (branch_count (branches_of (map pattern_of branches.now))) 1001 }
{
    if branches.is_empty() {
        return 1;
    }
    let mut total = 0;
    for branch in branches {
        total = sum(total, count(branch));
    }
    total
}

fn product(a: usize, b: usize) -> usize
    requires a { a ≤ 1001 }
    requires b { b ≤ 1001 }
    ensures { result ≡ min (a * b) 1001 }
{
    capped(a * b)
}

fn sum(a: usize, b: usize) -> usize
    requires a { a ≤ 1001 }
    requires b { b ≤ 1001 }
    ensures { result ≡ min (a + b) 1001 }
{
    capped(a + b)
}

fn capped(number: usize) -> usize
    ensures { result ≡ min number 1001 }
{
    number.min(MAX_ALTERNATIVES + 1)
}
