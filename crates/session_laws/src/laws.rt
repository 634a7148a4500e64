//! The laws of sessions.
ghost use Rattle.std.specs.Prelude.{◌≡◌, ◌↔◌, true, false, List, None};
ghost use Rattle.router_history.specs.Acts.{World};
ghost use Rattle.router_history.specs.declared.book.Seat.{Seat};
ghost use Rattle.message_streams.specs.declared.farewell.SessionEnd.{SessionEnd};
ghost use Rattle.router_core.specs.Admitted.{AreBatchesAdmitted};
ghost use Rattle.router_core.specs.Tables.{first_tables, tables_after};
ghost use Rattle.router_history.specs.Book.{IsBook};
ghost use Rattle.router_history.specs.Folds.{without_claims};
ghost use Rattle.router_history.specs.History.{Turn, HasMark, IsLegal, batches_of, state_of};
ghost use Rattle.router_history.specs.Session.{IsSession};
ghost use Rattle.session_laws.specs.OneSession.{BeginAlike, EndAlike};

use router_calls::{one_answer, one_step};

/// What a session that is alone with its history does and writes follows from the tables, the bytes that it reads, the readings of the clock and what
/// the link answered. One case is left open: bytes that end inside a request target that cannot become UTF-8 may be refused, or awaited until
/// the input ends.
pub fn one_session()
    ensures { (seat other_seat : Seat) (old new other other_new : World) (end other_end : SessionEnd)
        (one : IsSession seat old new end) (two : IsSession other_seat other other_new other_end)
        → BeginAlike seat other_seat old new other other_new end other_end one two
        → EndAlike seat other_seat old new other other_new end other_end one two }
{
    one_answer();
    one_step();
}

/// The batches of a book, those that were found and those that its turns wrote, are admitted one after the other, from the first tables on. The
/// tables after the turns are those after these batches, but for the marks of claimed deliveries.
pub fn batches_are_admitted()
    ensures admitted { (turns : List Turn) → IsBook turns → AreBatchesAdmitted first_tables (batches_of turns) }
    ensures tables { (turns : List Turn) → IsBook turns → without_claims (state_of turns).tables ≡ tables_after (batches_of turns) first_tables }
{}

/// A book is broken exactly if the turn that breaks it is in its history.
pub fn the_mark_breaks()
    ensures { (turns : List Turn) → IsLegal turns → HasMark turns ↔ ((state_of turns).broken ≡ true) }
{}

/// A book that was opened without a journal is never broken.
pub fn no_journal_no_break()
    ensures { (turns : List Turn) → IsLegal turns → (state_of turns).disk ≡ None → (state_of turns).broken ≡ false }
{}
