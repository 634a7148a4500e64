//! Paths: lists of keys.
ghost use Rattle.std.specs.Prelude.{◌≡◌, ◌<◌, ◌+◌, ◌^◌, ◌↔◌, ℕ, List, [], IsTrue, drop, length};
ghost use Rattle.event_flatten.specs.Path.{path_cmp};
ghost use Rattle.event_flatten.specs.Walk.{begins, is_before};

use json_text::Text;
use std::cmp::Ordering;
use std::marker::Model;

/// The keys from the root of a value down to a member. A key may be any text, also an empty one or one with a dot.
#[derive(Debug, Drop)]
pub struct Path {
    keys: Vec<Text>,
}

impl Model for Path {
    ghost use Rattle.std.specs.Prelude.{ℕ, List};

    ghost Value = { List (List ℕ) };

    ghost view = { λ path. path.keys.items };
}

impl Path {
    /// The path of these keys, from the root on. Without keys it is the path of the whole value.
    pub fn of(keys: Vec<Text>) -> Path
        ensures { result ≡ keys.items }
    {
        Path { keys }
    }

    /// The keys, from the root on.
    pub fn keys(&self) -> &[Text]
        ensures { result.now ≡ self.now }
    {
        &self.keys
    }

    /// Whether the path has no more keys than these.
    pub(crate) fn ends_by(&self, depth: usize) -> bool
        ensures { IsTrue result ↔ (drop depth self.now ≡ []) }
    {
        self.keys().len() <= depth
    }

    /// Whether after its first keys the path has no key, or one that is less than this key.
    pub(crate) fn is_before(&self, depth: usize, key: &str) -> bool
        ensures { result ≡ is_before key.now (drop depth self.now) }
    {
        match self.keys.get(depth) {
            Some(own) => own.as_str() < key,
            None => true,
        }
    }

    /// Whether after its first keys the path has this key.
    pub(crate) fn has(&self, depth: usize, key: &str) -> bool
        ensures begins { result ≡ begins key.now (drop depth self.now) }
        ensures room { IsTrue result → depth + 1 < 2 ^ 64 }
    {
        match self.keys.get(depth) {
            Some(own) => own.as_str() == key,
            None => false,
        }
    }
}

/// The order of paths.
pub(crate) fn compare(a: &[Text], b: &[Text]) -> Ordering
    ensures { result ≡ path_cmp a.now b.now }
{
    let mut a = a;
    let mut b = b;
    while let ([x, xs @ ..], [y, ys @ ..]) = (a, b) {
        let order = x.as_str().cmp(y.as_str());
        if order.is_ne() {
            return order;
        }
        a = xs;
        b = ys;
    }
    a.len().cmp(&b.len())
}
