//! Numbers of rules.
ghost use Rattle.std.specs.Prelude.{◌≡◌, ◌≢◌, ◌<◌, ◌≤◌, All, IfOk, false, length, slice_index_or};
ghost use Rattle.board_publish.specs.Numbers.{IsMarked};

use crate::entered::Entered;
use json_text::NoMemory;
use name_rows::Rows;
use numeric_keys::{Marks, NoMemory as NoRoom};
use std::alloc::Global;

/// That many places, none of them marked.
pub(crate) fn no_marks(alloc: Global, places: u32) -> Result<Marks, NoMemory>
    ensures { IfOk result (λ marks. length marks ≡ places) }
{
    match Marks::of(alloc, places) {
        Ok(marks) => Ok(marks),
        Err(NoRoom) => Err(NoMemory),
    }
}

/// The least number that no rule has. All numbers of rules are below `places`.
pub(crate) fn free_number(
    alloc: Global,
    entered: &Rows<Entered>,
    places: u32,
) -> Result<u32, NoMemory>
    requires { All (λ rule. rule.number < places) entered.now }
    ensures free { IfOk result (λ number. All (λ rule. rule.number ≢ number) entered.now) }
    ensures bound { IfOk result (λ number. number ≤ places) }
{
    let marks = taken(alloc, entered, places)?;
    Ok(first_free(&marks))
}

/// The numbers that rules have are marked.
fn taken(alloc: Global, entered: &Rows<Entered>, places: u32) -> Result<Marks, NoMemory>
    requires { All (λ rule. rule.number < places) entered.now }
    ensures places { IfOk result (λ marks. length marks ≡ places) }
    ensures marked { IfOk result (λ marks. All (IsMarked marks) entered.now) }
{
    let mut marks = no_marks(alloc, places)?;
    let mut left = entered.iter();
    while let Some(rule) = left.next() {
        marks.set(rule.number);
    }
    Ok(marks)
}

/// The first place without a mark; after the last place if all are marked.
fn first_free(marks: &Marks) -> u32
    ensures free { slice_index_or marks.now result false ≡ false }
    ensures bound { result ≤ length marks.now }
{
    for number in 0..marks.places() {
        if !marks.has(number) {
            return number;
        }
    }
    marks.places()
}
