//! The list and its fronts.
ghost use Rattle.std.specs.Prelude.{◌≡◌, ℕ, List, [], ◌∷◌, ◌++◌, ◌⊎◌};
ghost use mathlib.Core.List.{IsPrefix};
ghost use base.Stored.{coded_list};
ghost use denote.Sharing.{said};
ghost use Rattle.logbook.specs.Kept.{reached};
ghost use Rattle.growing_list.specs.Owned.{list_owns};

use std::marker::{Model, PhantomData};

/// A list, with the only right to add to it. It has no bytes: contracts read its items as `items`, and which list it is as `name`.
pub struct GrowingList<T> {
    marker: PhantomData<T>,
    pub ghost name: { ℕ },
    pub ghost items: { List T } by { coded_list T.code },
}

impl<T> Model for GrowingList<T> {
    ghost also_owns = { λ l. list_owns T.row.coded.code l.name l.items };

    ghost also_shares = { λ l _ κ. said (reached T.row.coded.code l.name l.items) κ };
}

/// What the list of that name began with at some time, and so begins with from then on. It has no bytes.
pub struct Front<T> {
    marker: PhantomData<T>,
    pub ghost name: { ℕ },
    pub ghost items: { List T } by { coded_list T.code },
}

impl<T> Model for Front<T> {
    ghost also_owns = { λ f. reached T.row.coded.code f.name f.items };

    ghost also_shares = { λ f _ κ. said (reached T.row.coded.code f.name f.items) κ };
}

impl<T> GrowingList<T> {
    /// An empty list with a name of its own.
    pub fn new() -> GrowingList<T>
        ensures { result.items ≡ [] }
    {
        GrowingList {
            marker: PhantomData,
        }
    }

    /// Adds an item at the end. Contracts alone read it.
    pub fn push(&mut self, item: &T)
        ensures { (self.new.name ≡ self.old.name) × (self.new.items ≡ self.old.items ++ item.now ∷ []) }
    {}

    /// A front with all items.
    pub fn front(&self) -> Front<T>
        ensures { (result.name ≡ self.now.name) × (result.items ≡ self.now.items) }
    {
        Front {
            marker: PhantomData,
        }
    }

    /// The list begins with each of its fronts.
    pub fn covers(&mut self, front: &Front<T>)
        requires { front.now.name ≡ self.old.name }
        ensures { (self.new.name ≡ self.old.name) × (self.new.items ≡ self.old.items) × IsPrefix front.now.items self.old.items }
    {}
}

impl<T> Front<T> {
    /// A copy.
    pub fn again(&self) -> Front<T>
        ensures { result ≡ self.now }
    {
        Front {
            marker: PhantomData,
        }
    }

    /// Becomes the longer of two fronts of one list. It begins with both.
    pub fn learn(&mut self, other: &Front<T>)
        requires { other.now.name ≡ self.old.name }
        ensures { (self.new.name ≡ self.old.name) × ((self.new.items ≡ self.old.items) ⊎ (self.new.items ≡ other.now.items)) × IsPrefix self.old.items self.new.items × IsPrefix other.now.items self.new.items }
    {}
}

impl<T> Drop for GrowingList<T> {
    fn drop(self) {
        let Self { marker: _ } = self;
    }
}

impl<T> Drop for Front<T> {
    fn drop(self) {
        let Self { marker: _ } = self;
    }
}

unsafe impl<T> Send for GrowingList<T> {}

unsafe impl<T> Sync for GrowingList<T> {}

unsafe impl<T> Send for Front<T> {}

unsafe impl<T> Sync for Front<T> {}
