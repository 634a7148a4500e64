//! Entries in the order of their keys: an AVL tree.
ghost use Rattle.std.specs.Prelude.{◌≡◌, ◌+◌, ◌∷◌, ◌++◌, [], None, Some, MatchOption, ◌<◌, ◌^◌, max, length};
ghost use Rattle.key_tree.specs.Entries.{from_key, placed, value_at, without, AreSorted};
ghost use Rattle.key_tree.specs.Subtree.{entries, entries_in, entry_of, height_of, height_over, HasFirst, HasNoLower, IsLeaf, LiftsLower, LiftsUpper, TakesTop, upper_of};
ghost use Rattle.key_tree.specs.Balance.{BalancesTo, DifferByAtMost, Grows, IsAvl, IsLowerReady, IsUpperReady, Shrinks};

use std::mem;

/// Entries in the order of their keys.
#[cycle(subtree)]
#[derive(Drop)]
pub(crate) enum Subtree<V> {
    Empty,
    Full(Box<Fork<V>>),
}

/// An entry, and the entries with smaller and with greater keys.
#[cycle(subtree)]
#[derive(Drop)]
pub(crate) struct Fork<V> {
    pub(crate) key: u128,
    pub(crate) value: V,
    /// The number of levels.
    pub(crate) height: u64,
    pub(crate) lower: Subtree<V>,
    pub(crate) upper: Subtree<V>,
}

impl<V> Fork<V> {
    /// Removes the entries on both sides.
    fn take_sides(&mut self) -> (Subtree<V>, Subtree<V>)
        ensures lower { result.0 ≡ self.old.lower }
        ensures upper { result.1 ≡ self.old.upper }
        ensures leaf { IsLeaf self.new }
        ensures entry { entry_of self.new ≡ entry_of self.old }
    {
        let lower = mem::replace(&mut self.lower, Subtree::Empty);
        let upper = mem::replace(&mut self.upper, Subtree::Empty);
        self.height = 1;
        (lower, upper)
    }

    /// Sets the height by those of the sides.
    fn measure(&mut self)
        ensures height { self.new.height ≡ height_over self.old.lower self.old.upper }
        ensures entry { entry_of self.new ≡ entry_of self.old }
        ensures lower { self.new.lower ≡ self.old.lower }
        ensures upper { self.new.upper ≡ self.old.upper }
    {
        self.height = height(&self.lower)
            .max(height(&self.upper))
            .saturating_add(1);
    }
}

fn height<V>(tree: &Subtree<V>) -> u64
    ensures { result ≡ height_of tree.now }
{
    match tree {
        Subtree::Empty => 0,
        Subtree::Full(top) => top.height,
    }
}

/// The value of this key.
pub(crate) fn value_in<V>(tree: &Subtree<V>, key: u128) -> Option<&V>
    requires { AreSorted (entries tree.now) }
    ensures { MatchOption result
        (value_at key (entries tree.now) ≡ None)
        (λ value. value_at key (entries tree.now) ≡ Some value.now) }
{
    match tree {
        Subtree::Empty => None,
        Subtree::Full(top) => {
            if key < top.key {
                value_in(&top.lower, key)
            } else if top.key < key {
                value_in(&top.upper, key)
            } else {
                Some(&top.value)
            }
        }
    }
}

/// The first entry.
pub(crate) fn first_in<V>(tree: &Subtree<V>) -> Option<&Fork<V>>
    ensures { MatchOption result
        (entries tree.now ≡ [])
        (λ fork. HasFirst (entry_of fork.now) (entries tree.now)) }
{
    match tree {
        Subtree::Empty => None,
        Subtree::Full(top) => match first_in(&top.lower) {
            None => Some(top),
            found => found,
        },
    }
}

/// The first entry whose key is not smaller.
pub(crate) fn first_from<V>(tree: &Subtree<V>, key: u128) -> Option<&Fork<V>>
    requires { AreSorted (entries tree.now) }
    ensures { MatchOption result
        (from_key key (entries tree.now) ≡ [])
        (λ fork. HasFirst (entry_of fork.now) (from_key key (entries tree.now))) }
{
    match tree {
        Subtree::Empty => None,
        Subtree::Full(top) => {
            if top.key < key {
                return first_from(&top.upper, key);
            }
            match first_from(&top.lower, key) {
                None => Some(top),
                found => found,
            }
        }
    }
}

/// Puts the leaf in its place.
pub(crate) fn put<V: Drop>(tree: &mut Subtree<V>, leaf: Box<Fork<V>>)
    requires sorted { AreSorted (entries tree.old) }
    requires leaf { IsLeaf leaf.value }
    requires new_key { value_at leaf.value.key (entries tree.old) ≡ None }
    ensures entries { entries tree.new ≡ placed (entry_of leaf.value) (entries tree.old) }
    ensures balanced { length (entries tree.old) < 2 ^ 63 → IsAvl tree.old → Grows (height_of tree.old) tree.new }
{
    match tree {
        Subtree::Empty => *tree = Subtree::Full(leaf),
        Subtree::Full(top) => {
            if leaf.key < top.key {
                put(&mut top.lower, leaf);
                balance(top);
            } else {
                put(&mut top.upper, leaf);
                balance(top);
            }
        }
    }
}

/// Removes the entry of this key.
pub(crate) fn take_out<V: Drop>(tree: &mut Subtree<V>, key: u128) -> Option<Box<Fork<V>>>
    requires { AreSorted (entries tree.old) }
    ensures found { MatchOption result
        (value_at key (entries tree.old) ≡ None)
        (λ leaf. IsLeaf leaf.value × (value_at key (entries tree.old) ≡ Some leaf.value.value)) }
    ensures left { entries tree.new ≡ without key (entries tree.old) }
    ensures balanced { length (entries tree.old) < 2 ^ 63 → IsAvl tree.old → Shrinks (height_of tree.old) tree.new }
{
    match tree {
        Subtree::Empty => None,
        Subtree::Full(top) => {
            if key < top.key {
                let found = take_out(&mut top.lower, key);
                balance(top);
                found
            } else if top.key < key {
                let found = take_out(&mut top.upper, key);
                balance(top);
                found
            } else {
                take_top(tree)
            }
        }
    }
}

/// Removes the entry of the fork.
fn take_top<V: Drop>(tree: &mut Subtree<V>) -> Option<Box<Fork<V>>>
    ensures top { MatchOption result (entries tree.old ≡ []) (λ leaf. IsLeaf leaf.value × TakesTop tree.old (entry_of leaf.value) (entries tree.new)) }
    ensures balanced { length (entries tree.old) < 2 ^ 63 → IsAvl tree.old → Shrinks (height_of tree.old) tree.new }
{
    match mem::replace(tree, Subtree::Empty) {
        Subtree::Empty => None,
        Subtree::Full(mut top) => {
            let (lower, upper) = top.take_sides();
            *tree = joined(lower, upper);
            Some(top)
        }
    }
}

/// The entries of both sides.
fn joined<V: Drop>(lower: Subtree<V>, mut upper: Subtree<V>) -> Subtree<V>
    ensures entries { entries result ≡ entries lower ++ entries upper }
    ensures balanced { length (entries lower) + length (entries upper) < 2 ^ 63 → IsAvl lower → IsAvl upper
        → DifferByAtMost 1 (height_of lower) (height_of upper) → Grows (max (height_of lower) (height_of upper)) result }
{
    match take_first(&mut upper) {
        None => lower,
        Some(mut top) => {
            top.lower = lower;
            top.upper = upper;
            balance(&mut top);
            Subtree::Full(top)
        }
    }
}

/// Removes the first entry.
fn take_first<V: Drop>(tree: &mut Subtree<V>) -> Option<Box<Fork<V>>>
    ensures first { MatchOption result
        ((entries tree.old ≡ []) × (entries tree.new ≡ []))
        (λ leaf. IsLeaf leaf.value × (entries tree.old ≡ entry_of leaf.value ∷ entries tree.new)) }
    ensures balanced { length (entries tree.old) < 2 ^ 63 → IsAvl tree.old → Shrinks (height_of tree.old) tree.new }
{
    match tree {
        Subtree::Empty => None,
        Subtree::Full(top) => match take_first(&mut top.lower) {
            Some(leaf) => {
                balance(top);
                Some(leaf)
            }
            None => take_lowest(tree),
        },
    }
}

/// Removes the entry of the fork, if no other entry is before it.
fn take_lowest<V: Drop>(tree: &mut Subtree<V>) -> Option<Box<Fork<V>>>
    requires { HasNoLower tree.old }
    ensures first { MatchOption result
        ((entries tree.old ≡ []) × (entries tree.new ≡ []))
        (λ leaf. IsLeaf leaf.value × (entries tree.old ≡ entry_of leaf.value ∷ entries tree.new)) }
    ensures upper { tree.new ≡ upper_of tree.old }
{
    match mem::replace(tree, Subtree::Empty) {
        Subtree::Empty => None,
        Subtree::Full(mut top) => {
            let (_lower, upper) = top.take_sides();
            *tree = upper;
            Some(top)
        }
    }
}

/// Restores the balance of a fork, of which one side has changed by an entry.
fn balance<V: Drop>(top: &mut Box<Fork<V>>)
    ensures entries { entries_in top.new.value ≡ entries_in top.old.value }
    ensures balanced { IsAvl top.old.value.lower → IsAvl top.old.value.upper
        → DifferByAtMost 2 (height_of top.old.value.lower) (height_of top.old.value.upper)
        → max (height_of top.old.value.lower) (height_of top.old.value.upper) < 2 ^ 63
        → BalancesTo (height_of top.old.value.lower) (height_of top.old.value.upper) top.new.value }
{
    let below = height(&top.lower);
    let above = height(&top.upper);
    if below.saturating_sub(above) > 1 {
        lift_higher_upper(&mut top.lower);
        lift_lower(top);
    } else if above.saturating_sub(below) > 1 {
        lift_higher_lower(&mut top.upper);
        lift_upper(top);
    } else {
        top.measure();
    }
}

/// Puts the upper side at the top, if it is the higher one.
fn lift_higher_upper<V: Drop>(tree: &mut Subtree<V>)
    ensures entries { entries tree.new ≡ entries tree.old }
    ensures ready { IsAvl tree.old → 0 < height_of tree.old → height_of tree.old < 2 ^ 63 → IsLowerReady (height_of tree.old) tree.new }
{
    match tree {
        Subtree::Empty => (),
        Subtree::Full(top) => {
            if height(&top.lower) < height(&top.upper) {
                lift_upper(top);
            }
        }
    }
}

/// Puts the lower side at the top, if it is the higher one.
fn lift_higher_lower<V: Drop>(tree: &mut Subtree<V>)
    ensures entries { entries tree.new ≡ entries tree.old }
    ensures ready { IsAvl tree.old → 0 < height_of tree.old → height_of tree.old < 2 ^ 63 → IsUpperReady (height_of tree.old) tree.new }
{
    match tree {
        Subtree::Empty => (),
        Subtree::Full(top) => {
            if height(&top.upper) < height(&top.lower) {
                lift_lower(top);
            }
        }
    }
}

/// Puts the fork of the lower side at the top, and the old one on its upper side.
fn lift_lower<V: Drop>(top: &mut Box<Fork<V>>)
    ensures lifted { LiftsLower top.old.value.lower top.old.value top.new.value }
    ensures entries { entries_in top.new.value ≡ entries_in top.old.value }
{
    match mem::replace(&mut top.lower, Subtree::Empty) {
        Subtree::Empty => (),
        Subtree::Full(mut lower) => {
            top.lower = mem::replace(&mut lower.upper, Subtree::Empty);
            top.measure();
            let under = mem::replace(top, lower);
            top.upper = Subtree::Full(under);
            top.measure();
        }
    }
}

/// Puts the fork of the upper side at the top, and the old one on its lower side.
fn lift_upper<V: Drop>(top: &mut Box<Fork<V>>)
    ensures lifted { LiftsUpper top.old.value.upper top.old.value top.new.value }
    ensures entries { entries_in top.new.value ≡ entries_in top.old.value }
{
    match mem::replace(&mut top.upper, Subtree::Empty) {
        Subtree::Empty => (),
        Subtree::Full(mut upper) => {
            top.upper = mem::replace(&mut upper.lower, Subtree::Empty);
            top.measure();
            let under = mem::replace(top, upper);
            top.lower = Subtree::Full(under);
            top.measure();
        }
    }
}
