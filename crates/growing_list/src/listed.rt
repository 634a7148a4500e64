//! A list that a value showed.
ghost use Rattle.std.specs.Prelude.{◌≡◌, List};
ghost use base.Stored.{coded_list};
ghost use base.Fml.{ftrue};

use std::marker::{Model, PhantomData};

/// How contracts read a list of a value.
pub trait Shows<X, T> {
    ghost items: { X → List T };
}

/// The list that a value showed at some time. It has no bytes: contracts read it as `items`.
pub struct Listed<T> {
    marker: PhantomData<T>,
    pub ghost items: { List T } by { coded_list T.code },
}

impl<T> Model for Listed<T> {
    ghost also_owns = { λ _. ftrue };
}

impl<T> Listed<T> {
    /// The list that the value shows now.
    pub fn of<X, M: Shows<X, T>>(value: &X) -> Listed<T>
        ensures { result.items ≡ M.items value.now }
    {
        Listed {
            marker: PhantomData,
        }
    }
}

impl<T> Drop for Listed<T> {
    fn drop(self) {
        let Self { marker: _ } = self;
    }
}
