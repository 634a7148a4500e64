//! What a porch is tied to.
ghost use Rattle.std.specs.Prelude.{ℕ, Option};

use std::marker::Brand;

/// Names what a porch is tied to: each call of a program picks it.
pub trait Naming<I, O> {
    ghost use Rattle.atomic_table.specs.Seated.{TableId};
    ghost use Rattle.shared_door.specs.Shown.{Shown};

    // The hall.
    ghost hall: { TableId };

    // The tickets.
    ghost tickets: { TableId };

    // The number of the porch's pass.
    ghost pass: { ℕ };

    // The porch's list of acts.
    ghost acts: { ℕ };

    // How many connections the porch may give; `None` is no limit.
    ghost most: { Option ℕ };

    // What the door showed when the porch was made.
    ghost start: { Shown I O };
}

impl<I, O> Naming<I, O> for Brand {
    ghost use Rattle.std.specs.Prelude.{None};
    ghost use Rattle.shared_door.specs.Shown.{no_table, nothing_shown};

    ghost hall = { no_table };

    ghost tickets = { no_table };

    ghost pass = { 0 };

    ghost acts = { 0 };

    ghost most = { None };

    ghost start = { nothing_shown };
}
