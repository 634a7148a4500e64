//! What a connection that ended owes to the history.
ghost use Rattle.std.specs.Prelude.{◌≡◌};
ghost use Rattle.router_history.specs.Visit.{is_cut};

use crate::book::Book;
use message_streams::SessionEnd;
use router_disk::{Disk, Sink, Source};
use shared_door::Served;

impl<D: Disk, I: Source, O: Sink> Served<I, O> for Book<D> {
    ghost use Rattle.router_history.specs.Visit.{IsVisit, visit_lasts, OwesNothing, owes_unturned, owes_later, HasBroken, broken_stays};

    ghost fits = { IsVisit I.gave O.wrote I.faults O.faults };

    ghost lasts = { visit_lasts I.gave O.wrote I.faults O.faults };

    ghost rests = { OwesNothing };

    ghost unturned = { owes_unturned };

    ghost keeps = { owes_later };

    ghost stops = { HasBroken };

    ghost stays = { broken_stays };
}

/// Whether out of memory ended the session.
pub fn was_cut(end: SessionEnd) -> bool
    ensures { result ≡ is_cut end }
{
    match end {
        SessionEnd::NoMemory => true,
        SessionEnd::Closed
        | SessionEnd::Cut
        | SessionEnd::Refused
        | SessionEnd::Long
        | SessionEnd::ReadFault
        | SessionEnd::WriteFault => false,
    }
}
