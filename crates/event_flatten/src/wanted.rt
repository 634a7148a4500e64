//! What is wanted at one place of an event: the paths that begin with the keys down to it.
ghost use Rattle.std.specs.Prelude.{◌≡◌, ◌≤◌, ◌<◌, ◌+◌, ◌^◌, [], ◌∷◌, true, false, All, MatchOption, length, take, drop};
ghost use Rattle.std.specs.List.{enumerate_from};
ghost use Rattle.std.specs.Option.{option_map, option_to_list};
ghost use Rattle.json_text.specs.Tree.{Tree};
ghost use Rattle.event_flatten.specs.Walk.{AscendsFrom, begins, below, ends, is_before};

use crate::path::Path;
use crate::paths::Paths;

/// Paths that have the same first keys, as many as `depth` says. They are neighbours among the wanted paths, and the first of
/// them has the number `first`.
#[derive(Clone, Copy)]
pub(crate) struct Wanted<'p> {
    paths: &'p [Path],
    first: usize,
    depth: usize,
    ghost ascending: { AscendsFrom depth paths.now },
    ghost in_range: { first + length paths.now < 2 ^ 64 },
}

impl<'p> Wanted<'p> {
    ghost use Rattle.event_flatten.specs.Wanted.{wants_of};

    /// All paths, at the root of the event.
    pub(crate) fn all(paths: &'p Paths) -> Wanted<'p>
        ensures { wants_of result ≡ enumerate_from 0 paths.now }
    {
        Wanted {
            paths: paths.as_slice(),
            first: 0,
            depth: 0,
        }
    }

    /// The number of the path that has no further keys. `None` if there is no such path.
    pub(crate) fn ended(self) -> Option<usize>
        ensures { (scalar : Tree) → ends scalar (wants_of self.entry) ≡ option_to_list (option_map (λ n. (n, scalar)) result) }
    {
        let path = self.paths.first()?;
        if path.ends_by(self.depth) {
            Some(self.first)
        } else {
            None
        }
    }

    /// What is wanted of a member with this key. `None` if nothing is.
    pub(crate) fn below(self, key: &str) -> Option<Wanted<'p>>
        ensures { MatchOption result
            (below key.now (wants_of self.entry) ≡ [])
            (λ inside. wants_of inside ≡ below key.now (wants_of self.entry)) }
    {
        let from = count_before(self.paths, self.depth, key);
        let rest = &self.paths[from..];
        match rest.first() {
            Some(path) if path.has(self.depth, key) => {
                let count = count_same(rest, self.depth, key);
                Some(Wanted {
                    paths: &rest[..count],
                    first: self.first + from,
                    depth: self.depth + 1,
                })
            }
            _ => None,
        }
    }
}

/// The number of paths that come before those with this key after their first keys.
fn count_before(paths: &[Path], depth: usize, key: &str) -> usize
    requires { AscendsFrom depth paths.now }
    ensures bound { result ≤ length paths.now }
    ensures before { All (λ path. is_before key.now (drop depth path) ≡ true) (take result paths.now) }
    ensures rest { All (λ path. is_before key.now (drop depth path) ≡ false) (drop result paths.now) }
{
    paths.partition_point(|path| path.is_before(depth, key))
}

/// The number of paths with this key after their first keys, if no path comes before them.
fn count_same(paths: &[Path], depth: usize, key: &str) -> usize
    requires ascending { AscendsFrom depth paths.now }
    requires none_before { All (λ path. is_before key.now (drop depth path) ≡ false) paths.now }
    ensures bound { result ≤ length paths.now }
    ensures same { All (λ path. begins key.now (drop depth path) ≡ true) (take result paths.now) }
    ensures rest { All (λ path. begins key.now (drop depth path) ≡ false) (drop result paths.now) }
{
    paths.partition_point(|path| path.has(depth, key))
}
