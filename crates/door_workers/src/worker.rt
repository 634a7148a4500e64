//! What a worker does, and what it has.
ghost use Rattle.std.specs.Prelude.{◌≡◌, ◌++◌, ◌∷◌, [], ℕ, List, MatchBool};
ghost use mathlib.Core.List.{IsPrefix};
ghost use Rattle.atomic_table.specs.Seated.{TableId};
ghost use Rattle.turn_book.specs.Rule.{Learns, turns_by};
ghost use Rattle.turn_book.specs.Passes.{view, IsFree, IsSamePass};
ghost use Rattle.door_workers.specs.Serving.{Session};

use growing_list::Front;
use shared_door::Served;
use std::snapshot::Snapshot;
use turn_book::{Pass, Story};

/// A pass as the work of a worker sees it. A bound on a closure cannot name a pass whose value has a type parameter. It can name a type
/// parameter under this trait.
pub trait Seating {
    ghost use Rattle.std.specs.Prelude.{Option};
    ghost use Rattle.atomic_table.specs.declared.shared.Seat.{Seat};
    ghost use Rattle.turn_book.specs.declared.view.View.{View};

    type Value;

    type Turn;

    // The pass's seat in the table of its hall.
    ghost seat: { Self → Seat (Option Self.Value) (View Self.Turn) };
}

impl<V: Story> Seating for Pass<V> {
    type Value = V;

    type Turn = V::Turn;

    ghost seat = { λ p. p.seat };
}

/// What workers do for the connections of a door, and while none comes. Each worker has an `Own` for itself. No lock is held
/// during a call. `serve_door` calls it with passes of its hall as `P`.
pub trait Work<V: Served<I, O>, P: Seating<Turn = V::Turn>, I, O, Own> {
    // What is true of the value, for the passes of the hall with this table: `serve_door` requires it, and each call may rest on it.
    ghost works: { Self → TableId → Type 0 };

    // What a worker did, through the pass with this number, with what it was lent, which is now the second one: it served these
    // sessions, in order. The pass has seen these turns now.
    ghost did: { ℕ → Own → Own → List (Session I O V.Turn) → List V.Turn → Type 0 };

    /// Serves the connection with this number, with this pass. Returns whether out of memory ended it.
    fn serve(&self, own: &mut Own, pass: &mut P, number: u64, input: &mut I, output: &mut O) -> bool
        requires works { works self.now (P.seat pass.old).table_id }
        requires free { IsFree (P.seat pass.old) }
        requires rests { V.rests (view (P.seat pass.old)).number (view (P.seat pass.old)).seen }
        ensures pass { IsSamePass (P.seat pass.old) (P.seat pass.new) × IsFree (P.seat pass.new) }
        ensures rests { V.rests (view (P.seat pass.new)).number (view (P.seat pass.new)).seen }
        ensures fits { V.fits number (input.old, output.old) (input.new, output.new) result (view (P.seat pass.old)).seen (view (P.seat pass.new)).seen }
        ensures did { (lent : Own) (sessions : List (Session I O V.Turn)) → did (view (P.seat pass.old)).number lent own.old sessions (view (P.seat pass.old)).seen
            → did (view (P.seat pass.old)).number lent own.new (sessions ++ record { number = number; pass = (view (P.seat pass.old)).number; came = (input.old, output.old); went = (input.new, output.new); cut = result; before = (view (P.seat pass.old)).seen } ∷ [])
            (view (P.seat pass.new)).seen };

    /// Whether a further connection may be served, for what the pass has then seen. Makes no turn. A worker asks before each knock.
    fn goes_on(&self, pass: &mut P) -> bool
        requires works { works self.now (P.seat pass.old).table_id }
        requires free { IsFree (P.seat pass.old) }
        ensures pass { IsSamePass (P.seat pass.old) (P.seat pass.new) × IsFree (P.seat pass.new)
            × Learns V.made_by (view (P.seat pass.old)) (view (P.seat pass.new)).seen }
        ensures stops { MatchBool result (¬ V.stops (view (P.seat pass.new)).seen) (V.stops (view (P.seat pass.new)).seen) };

    /// Does for a while what there is to do without a connection.
    fn meanwhile(&self, own: &mut Own, pass: &mut P)
        requires works { works self.now (P.seat pass.old).table_id }
        requires free { IsFree (P.seat pass.old) }
        requires rests { V.rests (view (P.seat pass.old)).number (view (P.seat pass.old)).seen }
        ensures pass { IsSamePass (P.seat pass.old) (P.seat pass.new) × IsFree (P.seat pass.new) }
        ensures rests { V.rests (view (P.seat pass.new)).number (view (P.seat pass.new)).seen }
        ensures did { (lent : Own) (sessions : List (Session I O V.Turn)) → did (view (P.seat pass.old)).number lent own.old sessions (view (P.seat pass.old)).seen
            → did (view (P.seat pass.old)).number lent own.new sessions (view (P.seat pass.new)).seen };

    // At first it did nothing, if its pass made no turn.
    ghost unturned: { (n : ℕ) (lent : Own) (turns : List V.Turn) → turns_by V.made_by n turns ≡ [] → did n lent lent [] turns };

    // It did no more once its pass has seen more turns, none of them its own.
    ghost lasts: { (n : ℕ) (lent now : Own) (sessions : List (Session I O V.Turn)) (seen turns : List V.Turn) → IsPrefix seen turns
        → turns_by V.made_by n turns ≡ turns_by V.made_by n seen → did n lent now sessions seen → did n lent now sessions turns };
}

/// What a worker has: what it was lent, what that is now, its pass, and what it knows of the porch's acts.
pub(crate) struct Worker<V: Story, Own, A> {
    pub(crate) lent: Snapshot<Own>,
    pub(crate) own: Own,
    pub(crate) pass: Pass<V>,
    pub(crate) front: Front<A>,
}
