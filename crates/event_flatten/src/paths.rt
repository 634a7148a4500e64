//! The paths that are wanted of an event.
ghost use Rattle.std.specs.Prelude.{◌≡◌, ◌<◌, ◌↔◌, ℕ, List, Contains, MatchOption, length, slice_index_or};
ghost use Rattle.event_flatten.specs.Path.{AreAscending};

use crate::path::{Path, compare};
use json_text::Text;
use std::marker::Model;

/// Wanted paths: each once, in ascending order, and numbered from 0 on.
#[derive(Debug, Drop)]
pub struct Paths {
    paths: Vec<Path>,
}

impl Model for Paths {
    ghost use Rattle.std.specs.Prelude.{ℕ, List};
    ghost use Rattle.event_flatten.specs.Path.{AreAscending};

    ghost Value = { List (List (List ℕ)) };

    ghost view = { λ paths. paths.paths.items };

    ghost invariant = { λ paths. AreAscending paths.paths.items };
}

impl Paths {
    /// These paths, each once. Takes no memory.
    pub fn of(paths: Vec<Path>) -> Paths
        ensures same { (path : List (List ℕ)) → Contains result path ↔ Contains paths.items path }
        ensures ascending { AreAscending result }
    {
        let mut paths = paths;
        sort(&mut paths);
        Paths { paths }
    }

    /// How many paths there are.
    pub fn len(&self) -> usize
        ensures { result ≡ length self.now }
    {
        self.paths.len()
    }

    /// The keys of the path with this number.
    pub fn path(&self, number: usize) -> &[Text]
        requires { number < length self.now }
        ensures { result.now ≡ slice_index_or self.now number result.now }
    {
        self.paths[number].keys()
    }

    /// The number of the path of these keys. `None` if it is not among the paths.
    pub fn number_of(&self, keys: &[Text]) -> Option<usize>
        ensures { MatchOption result
            (¬ (Contains self.now keys.now))
            (λ number. (number < length self.now) × (slice_index_or self.now number keys.now ≡ keys.now)) }
    {
        find(&self.paths, keys)
    }

    pub(crate) fn as_slice(&self) -> &[Path]
        ensures paths { result.now ≡ self.now }
        ensures ascending { AreAscending self.now }
    {
        &self.paths
    }
}

/// Sorts the paths, and keeps one of those that are equal.
fn sort(paths: &mut Vec<Path>)
    ensures same { (path : List (List ℕ)) → Contains paths.new.items path ↔ Contains paths.old.items path }
    ensures ascending { AreAscending paths.new.items }
{
    paths.sort_unstable_by(|a, b| compare(a.keys(), b.keys()));
    paths.dedup_by(|a, b| compare(a.keys(), b.keys()).is_eq());
}

fn find(paths: &[Path], keys: &[Text]) -> Option<usize>
    requires { AreAscending paths.now }
    ensures { MatchOption result
        (¬ (Contains paths.now keys.now))
        (λ number. (number < length paths.now) × (slice_index_or paths.now number keys.now ≡ keys.now)) }
{
    let found = paths.binary_search_by(|path| compare(path.keys(), keys));
    match found {
        Ok(number) => Some(number),
        Err(_) => None,
    }
}
