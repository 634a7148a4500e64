//! Whether a text fits a list of pieces: one pass that backtracks only to the last run.
ghost use Rattle.std.specs.Prelude.{◌≡◌, ◌↔◌, ◌+◌, ◌^◌, ◌<◌, ◌≤◌, List, length, slice_get, IsTrue, IsSome};
ghost use Rattle.leaf_match.specs.declared.piece.Piece.{Piece};
ghost use Rattle.leaf_match.specs.Piece.{Fits};
ghost use Rattle.leaf_match.specs.Place.{IsBehind, IsStep};

use crate::piece::Piece;

/// A pattern whose pieces are read by their places.
pub(crate) trait Pattern {
    ghost pieces: { Self → List Piece };

    fn piece_at(&self, place: usize) -> Option<Piece>
        ensures piece { result ≡ slice_get (pieces self.now) place }
        ensures small { IsSome result → place + 1 < 2 ^ 64 };
}

/// The next piece and the next byte.
#[derive(Clone, Copy)]
struct Place {
    piece: usize,
    byte: usize,
}

/// What is at a place.
enum Step {
    /// The pieces and the text end together.
    End,
    /// A run is next.
    RunBegins,
    /// Another piece is next, and takes the text up to this byte.
    Taken(usize),
    /// The rest of the text does not fit the rest of the pieces.
    Stuck,
}

/// Whether the text fits the pattern. The time is at most the text's length times the pattern's, and one pass if there
/// is no run.
pub(crate) fn fits<P: Pattern>(pattern: &P, text: &str) -> bool
    ensures { IsTrue result ↔ Fits (P.pieces pattern.now) text.now }
{
    let mut place = Place { piece: 0, byte: 0 };
    let mut back: Option<Place> = None;
    'steps: loop {
        match step_at(pattern, text, place) {
            Step::End => return true,
            Step::RunBegins => {
                place.piece += 1;
                back = Some(place);
            }
            Step::Taken(byte) => {
                place = Place {
                    piece: place.piece + 1,
                    byte,
                };
            }
            Step::Stuck => {
                // The last run takes one byte more. An earlier run need not grow: what fits after
                // a longer earlier run fits here too.
                let Some(run) = back else {
                    return false;
                };
                if run.byte == text.len() {
                    return false;
                }
                place = Place {
                    piece: run.piece,
                    byte: run.byte + 1,
                };
                back = Some(place);
            }
        }
    }
}

fn step_at<P: Pattern>(pattern: &P, text: &str, place: Place) -> Step
    requires { place.byte ≤ length text.now }
    ensures { IsStep (P.pieces pattern.now) text.now place result }
{
    let Some(piece) = pattern.piece_at(place.piece) else {
        return if place.byte == text.len() {
            Step::End
        } else {
            Step::Stuck
        };
    };
    if matches!(piece, Piece::Run) {
        return Step::RunBegins;
    }
    match after(piece, text, place.byte) {
        Some(byte) => Step::Taken(byte),
        None => Step::Stuck,
    }
}

fn after(piece: Piece, text: &str, at: usize) -> Option<usize>
    requires { at ≤ length text.now }
    ensures { IsBehind piece text.now at result }
{
    match piece {
        Piece::Letter(letter) => after_letter(letter, text, at),
        Piece::Run => Some(at),
        Piece::OneCharacter => after_character(text, at),
    }
}

fn after_letter(letter: u8, text: &str, at: usize) -> Option<usize>
    requires { at ≤ length text.now }
    ensures { IsBehind (Piece.Letter letter) text.now at result }
{
    match text.as_bytes().get(at) {
        Some(byte) if *byte == letter => Some(at + 1),
        _ => None,
    }
}

fn after_character(text: &str, at: usize) -> Option<usize>
    requires { at ≤ length text.now }
    ensures { IsBehind Piece.OneCharacter text.now at result }
{
    let rest = text.get(at..)?;
    let c = rest.chars().next()?;
    Some(at + c.len_utf8())
}
