//! Whether a whole text fits a pattern.
ghost use Rattle.std.specs.Prelude.{◌≡◌, ◌↔◌, IsTrue};
ghost use Rattle.leaf_match.specs.Piece.{Fits};
ghost use Rattle.leaf_match.specs.Like.{like_piece, like_pieces};

use crate::matching::{Pattern, fits};
use crate::piece::Piece;
use crate::wildcard::Wild;

/// Whether the whole text fits the wildcard; letters are compared exactly. Takes no memory. The time is at most the
/// text's length times the wildcard's, and one pass if the wildcard has no run.
pub fn wild(wild: &Wild, text: &str) -> bool
    ensures { IsTrue result ↔ Fits wild.now text.now }
{
    fits(wild, text)
}

/// Whether the whole text fits the pattern; letters are compared exactly. `*` matches any bytes, `?` one character, and
/// anything else, also a backslash, itself. Takes no memory. The time is at most the text's length times the pattern's,
/// and one pass if the pattern has no `*`.
pub fn like(pattern: &str, text: &str) -> bool
    ensures { IsTrue result ↔ Fits (like_pieces pattern.now) text.now }
{
    let pattern = LikePattern {
        bytes: pattern.as_bytes(),
    };
    fits(&pattern, text)
}

/// A pattern of `like`, each of whose bytes is a piece.
#[derive(Clone, Copy)]
struct LikePattern<'a> {
    bytes: &'a [u8],
}

impl<'a> Pattern for LikePattern<'a> {
    ghost pieces = { λ pattern. like_pieces pattern.bytes.now };

    fn piece_at(&self, place: usize) -> Option<Piece> {
        self.bytes.get(place).map(|byte| like_piece(*byte))
    }
}

fn like_piece(byte: u8) -> Piece
    ensures { result ≡ like_piece byte }
{
    match byte {
        b'*' => Piece::Run,
        b'?' => Piece::OneCharacter,
        letter => Piece::Letter(letter),
    }
}
