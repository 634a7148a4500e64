//! Anchors are entered under their paths.
ghost use Rattle.std.specs.Prelude.{◌≡◌, ◌≢◌, ◌==◌, ◌↔◌, ◌⊎◌, ◌∷◌, ◌++◌, ℕ, List, [], Contains, IfOk, IsFalse, OnOk, filter, length, map, not, vec_len};
ghost use Rattle.std.specs.List.{list_any};
ghost use Rattle.std.specs.Option.{option_copied};
ghost use Rattle.value_index.specs.Hits.{Entry};
ghost use Rattle.value_index.specs.Index.{entries_of, entered};
ghost use Rattle.rule_automaton.specs.AnchorView.{part_of, parts_of, shared_tests};
ghost use Rattle.rule_automaton.specs.Table.{AreAt, Entered, ExactBelow, IsEntered, IsTableOf, entered_by_all, entries_found, entries_in, others, with_number};

use crate::anchor::Anchor;
use crate::rule::Rule;
use crate::table::Table;
use event_flatten::{Path, Paths};
use json_text::{NoMemory, Text};
use pattern_meaning::LeafTest;
use std::alloc::{AllocError, Global};
use std::sync::Arc;
use value_index::PathIndex;

impl Table {
    /// No paths, without memory.
    pub(crate) fn none(alloc: Global) -> Table
        ensures { IsTableOf [] result }
    {
        let paths = Paths::of(Vec::new(alloc));
        let indexes = Vec::new(alloc);
        Table { paths, indexes }
    }

    /// The index at this path.
    fn at(&self, keys: &[Text]) -> Option<&Arc<PathIndex>>
        ensures { (all : List Entered) → IsTableOf all self.now → AreAt all keys.now (entries_found (option_copied result)) }
    {
        match self.paths.number_of(keys) {
            Some(number) => Some(&self.indexes[number]),
            None => None,
        }
    }

    /// The parts of both. An index is shared, unless both have its path.
    pub(crate) fn joined(&self, alloc: Global, other: &Table) -> Result<Table, NoMemory>
        ensures { IfOk result (λ table. (all more : List Entered) → IsTableOf all self.now → IsTableOf more other.now → IsTableOf (all ++ more) table) }
    {
        let mut paths = Vec::new(alloc);
        add_paths(alloc, &self.paths, &mut paths)?;
        add_paths(alloc, &other.paths, &mut paths)?;
        let paths = Paths::of(paths);
        let indexes = indexes_of_both(alloc, &paths, self, other)?;
        Ok(Table { paths, indexes })
    }

    /// The parts of all rules but those with this number. An index is shared, unless it has tests of them.
    pub(crate) fn without(&self, alloc: Global, number: u32) -> Result<Table, NoMemory>
        ensures { IfOk result (λ table. (all : List Entered) → IsTableOf all self.now → IsTableOf (others number all) table) }
    {
        let paths = self.paths_without(alloc, number)?;
        let indexes = indexes_without(alloc, &paths, self, number)?;
        Ok(Table { paths, indexes })
    }

    /// The paths at which there are tests of other rules.
    fn paths_without(&self, alloc: Global, number: u32) -> Result<Paths, NoMemory>
        ensures { IfOk result (λ paths. (all : List Entered) (path : List (List ℕ)) (entry : Entry) → IsTableOf all self.now
            → IsEntered (others number all) path entry → Contains paths path) }
    {
        let mut paths = Vec::new(alloc);
        for place in 0..self.paths.len() {
            if has_others(alloc, &self.indexes[place], number)? {
                let path = copy(alloc, self.paths.path(place))?;
                paths.push(path)?;
            }
        }
        Ok(Paths::of(paths))
    }
}

/// At each of the paths the tests of both tables.
fn indexes_of_both(
    alloc: Global,
    paths: &Paths,
    table: &Table,
    other: &Table,
) -> Result<Vec<Arc<PathIndex>>, NoMemory>
    ensures many { IfOk result (λ indexes. vec_len indexes ≡ length paths.now) }
    ensures exact { IfOk result (λ indexes. (all more : List Entered) → IsTableOf all table.now → IsTableOf more other.now
        → ExactBelow (all ++ more) paths.now indexes.items (length paths.now)) }
{
    let mut indexes = Vec::with_capacity(alloc, paths.len())?;
    for number in 0..paths.len() {
        let keys = paths.path(number);
        let one = table.at(keys);
        let more = other.at(keys);
        let index = both(alloc, one, more)?;
        indexes.push(index)?;
    }
    Ok(indexes)
}

/// At each of the paths the tests of other rules.
fn indexes_without(
    alloc: Global,
    paths: &Paths,
    table: &Table,
    number: u32,
) -> Result<Vec<Arc<PathIndex>>, NoMemory>
    ensures many { IfOk result (λ indexes. vec_len indexes ≡ length paths.now) }
    ensures exact { IfOk result (λ indexes. (all : List Entered) → IsTableOf all table.now
        → ExactBelow (others number all) paths.now indexes.items (length paths.now)) }
{
    let mut indexes = Vec::with_capacity(alloc, paths.len())?;
    for place in 0..paths.len() {
        let keys = paths.path(place);
        let found = table.at(keys);
        let index = without(alloc, found, number)?;
        indexes.push(index)?;
    }
    Ok(indexes)
}

/// The anchors of these rules.
pub(crate) fn table_of(alloc: Global, rules: &[Rule]) -> Result<Table, NoMemory>
    ensures { IfOk result (IsTableOf (entered_by_all rules.now)) }
{
    match rules {
        [] => Ok(Table::none(alloc)),
        [rule] => table_of_anchors(alloc, rule.number, &rule.anchors),
        _ => {
            let (front, back) = rules.split_at(rules.len() / 2);
            let first = table_of(alloc, front)?;
            let second = table_of(alloc, back)?;
            first.joined(alloc, &second)
        }
    }
}

/// The anchors of one rule.
pub(crate) fn table_of_anchors(
    alloc: Global,
    number: u32,
    anchors: &[Anchor],
) -> Result<Table, NoMemory>
    ensures { IfOk result (IsTableOf (with_number number (parts_of anchors.now))) }
{
    match anchors {
        [] => Ok(Table::none(alloc)),
        [anchor] => table_of_anchor(alloc, number, anchor),
        _ => {
            let (front, back) = anchors.split_at(anchors.len() / 2);
            let first = table_of_anchors(alloc, number, front)?;
            let second = table_of_anchors(alloc, number, back)?;
            first.joined(alloc, &second)
        }
    }
}

fn table_of_anchor(alloc: Global, number: u32, anchor: &Anchor) -> Result<Table, NoMemory>
    ensures { IfOk result (IsTableOf ((number, part_of anchor.now) ∷ [])) }
{
    let path = copy(alloc, anchor.path.keys())?;
    let mut paths = Vec::new(alloc);
    paths.push(path)?;
    let paths = Paths::of(paths);
    let tests = numbered(alloc, number, &anchor.tests)?;
    let index = index_of(alloc, tests)?;
    let mut indexes = Vec::new(alloc);
    for _place in 0..paths.len() {
        let shared = Arc::try_clone(&index)?;
        indexes.push(shared)?;
    }
    Ok(Table { paths, indexes })
}

/// The tests, each with the number as its mark.
fn numbered(
    alloc: Global,
    number: u32,
    tests: &[Arc<LeafTest>],
) -> Result<Vec<(Arc<LeafTest>, u32)>, NoMemory>
    ensures { IfOk result (λ rows. entered rows.items ≡ map (λ test. (test, number)) (shared_tests tests.now)) }
{
    let mut rows = Vec::with_capacity(alloc, tests.len())?;
    for test in tests {
        let test = Arc::try_clone(test)?;
        rows.push((test, number))?;
    }
    Ok(rows)
}

/// Appends copies of the paths.
fn add_paths(alloc: Global, paths: &Paths, copies: &mut Vec<Path>) -> Result<(), NoMemory>
    ensures { OnOk result (copies.new.items ≡ copies.old.items ++ paths.now) }
{
    for number in 0..paths.len() {
        let path = copy(alloc, paths.path(number))?;
        copies.push(path)?;
    }
    Ok(())
}

fn copy(alloc: Global, keys: &[Text]) -> Result<Path, NoMemory>
    ensures { IfOk result (λ path. path ≡ keys.now) }
{
    let mut copies = Vec::with_capacity(alloc, keys.len())?;
    for key in keys {
        let key = key.copy(alloc)?;
        copies.push(key)?;
    }
    Ok(Path::of(copies))
}

/// The index with the tests of both.
fn both(
    alloc: Global,
    one: Option<&Arc<PathIndex>>,
    other: Option<&Arc<PathIndex>>,
) -> Result<Arc<PathIndex>, NoMemory>
    ensures { IfOk result (λ index. (entry : Entry) → Contains (entries_in index) entry
        ↔ (Contains (entries_found (option_copied one.entry)) entry ⊎ Contains (entries_found (option_copied other.entry)) entry)) }
{
    match (one, other) {
        (Some(index), None) => Ok(Arc::try_clone(index)?),
        (None, Some(index)) => Ok(Arc::try_clone(index)?),
        (Some(one), Some(other)) => {
            let mut tests = one.tests(alloc)?;
            let mut more = other.tests(alloc)?;
            tests.append(&mut more)?;
            index_of(alloc, tests)
        }
        (None, None) => index_of(alloc, Vec::new(alloc)),
    }
}

/// The index without the tests with this mark.
fn without(
    alloc: Global,
    index: Option<&Arc<PathIndex>>,
    number: u32,
) -> Result<Arc<PathIndex>, NoMemory>
    ensures { IfOk result (λ left. (entry : Entry) → Contains (entries_in left) entry
        ↔ (Contains (entries_found (option_copied index.entry)) entry × (entry.1 ≢ number))) }
{
    match index {
        Some(index) => {
            let tests = index.tests(alloc)?;
            if has_mark(&tests, number) {
                let left = others_of(alloc, tests, number)?;
                index_of(alloc, left)
            } else {
                let shared = Arc::try_clone(index)?;
                Ok(shared)
            }
        }
        None => index_of(alloc, Vec::new(alloc)),
    }
}

fn index_of(alloc: Global, tests: Vec<(Arc<LeafTest>, u32)>) -> Result<Arc<PathIndex>, NoMemory>
    ensures { IfOk result (λ index. (entry : Entry) → Contains (entries_in index) entry ↔ Contains (entered tests.items) entry) }
{
    let made = PathIndex::of(alloc, tests)?;
    let index = Arc::new(alloc, made)?;
    Ok(index)
}

/// Whether the index has tests with another mark.
fn has_others(alloc: Global, index: &PathIndex, number: u32) -> Result<bool, NoMemory>
    ensures { IfOk result (λ has. IsFalse has → (entry : Entry) → Contains (entries_of index.now) entry → entry.1 ≡ number) }
{
    let tests = index.tests(alloc)?;
    let has = has_other_mark(&tests, number);
    Ok(has)
}

fn has_mark(tests: &[(Arc<LeafTest>, u32)], number: u32) -> bool
    ensures { result ≡ list_any (λ test. test.1 == number) tests.now }
{
    tests.iter().any(|test| test.1 == number)
}

fn has_other_mark(tests: &[(Arc<LeafTest>, u32)], number: u32) -> bool
    ensures { result ≡ list_any (λ test. not (test.1 == number)) tests.now }
{
    tests.iter().any(|test| test.1 != number)
}

fn others_of(
    alloc: Global,
    tests: Vec<(Arc<LeafTest>, u32)>,
    number: u32,
) -> Result<Vec<(Arc<LeafTest>, u32)>, AllocError>
    ensures { IfOk result (λ left. left.items ≡ filter (λ test. not (test.1 == number)) tests.items) }
{
    tests
        .into_iter()
        .filter(|test| test.1 != number)
        .collect(alloc)
}
