//! Wildcards: texts in which `*` matches any bytes.
ghost use Rattle.std.specs.Prelude.{◌≡◌, ◌↔◌, ℕ, List, [], ◌∷◌, ◌++◌, map, slice_get, IsTrue, IfOk, IsErrOf, OnOk, OnErr, MatchOption};
ghost use Rattle.leaf_match.specs.declared.piece.Piece.{Piece};
ghost use Rattle.leaf_match.specs.declared.fault.WildFault.{WildFault};
ghost use Rattle.leaf_match.specs.Wild.{BeginsWith, Spells, IsWildcard, literal_front};

use crate::fault::{NoMemory, WildFault};
use crate::matching::Pattern;
use crate::piece::Piece;
use std::alloc::Global;
use std::marker::Model;

/// A wildcard that was read. Contracts see it as its pieces. `read` returns only letters and runs.
#[derive(Debug, Drop)]
pub struct Wild {
    front: Vec<u8>,
    rest: Vec<Piece>,
}

impl Model for Wild {
    ghost use Rattle.std.specs.Prelude.{◌≡◌, List, [], ◌++◌, map};
    ghost use Rattle.leaf_match.specs.declared.piece.Piece.{Piece};
    ghost use Rattle.leaf_match.specs.declared.piece.Piece.TheVariants.{Letter};
    ghost use Rattle.leaf_match.specs.Wild.{literal_front};

    ghost Value = { List Piece };

    ghost view = { λ wild. map Letter wild.front.items ++ wild.rest.items };

    ghost invariant = { λ wild. literal_front wild.rest.items ≡ [] };
}

impl Wild {
    /// The wildcard that the text spells. `BadWild` is returned before any memory is asked for.
    pub fn read(alloc: Global, text: &str) -> Result<Wild, WildFault>
        ensures pieces { IfOk result (Spells text.now) }
        ensures only { IfOk result
            (λ wild. (pieces : List Piece) → Spells text.now pieces → pieces ≡ wild) }
        ensures bad { IsErrOf result WildFault.BadWild ↔ ¬ (IsWildcard text.now) }
        ensures no_memory { IsErrOf result WildFault.NoMemory → IsWildcard text.now }
    {
        // Checked before room is asked for, so that `NoMemory` never hides `BadWild`.
        if !is_wildcard(text.as_bytes()) {
            return Err(WildFault::BadWild);
        }
        let mut wild = Wild {
            front: Vec::new(alloc),
            rest: Vec::new(alloc),
        };
        let mut unread = text.as_bytes();
        while let Some((piece, rest)) = first_piece(unread) {
            wild.push(piece)?;
            unread = rest;
        }
        Ok(wild)
    }

    fn push(&mut self, piece: Piece) -> Result<(), WildFault>
        ensures pushed { OnOk result (self.new ≡ self.old ++ piece ∷ []) }
        ensures memory { OnErr result (IsErrOf result WildFault.NoMemory) }
    {
        match piece {
            Piece::Letter(letter) if self.rest.is_empty() => self.front.push(letter)?,
            _ => self.rest.push(piece)?,
        }
        Ok(())
    }

    /// A second wildcard with the same pieces.
    pub fn copy(&self, alloc: Global) -> Result<Wild, NoMemory>
        ensures { IfOk result (λ wild. wild ≡ self.now) }
    {
        Ok(Wild {
            front: Vec::from_slice(alloc, &self.front)?,
            rest: Vec::from_slice(alloc, &self.rest)?,
        })
    }

    /// The letters before the first run, or all letters if there is no run.
    pub fn literal_front(&self) -> &[u8]
        ensures { result.now ≡ literal_front self.now }
    {
        &self.front
    }
}

impl Pattern for Wild {
    ghost pieces = { λ wild. wild };

    fn piece_at(&self, place: usize) -> Option<Piece> {
        match self.front.get(place) {
            Some(letter) => Some(Piece::Letter(*letter)),
            None => self.rest.get(place - self.front.len()).copied(),
        }
    }
}

fn is_wildcard(text: &[u8]) -> bool
    ensures { IsTrue result ↔ IsWildcard text.now }
{
    let mut unread = text;
    while !unread.is_empty() {
        let Some((_piece, rest)) = first_piece(unread) else {
            return false;
        };
        unread = rest;
    }
    true
}

/// The piece that the text begins with, and what follows it.
fn first_piece(text: &[u8]) -> Option<(Piece, &[u8])>
    ensures { MatchOption result
        ((piece : Piece) → (rest : List ℕ) → ¬ (BeginsWith piece text.now rest))
        (λ first. BeginsWith first.0 text.now first.1.now) }
{
    match text {
        [b'*', b'*', ..] => None,
        [b'*', rest @ ..] => Some((Piece::Run, rest)),
        [b'\\', b'*', rest @ ..] => Some((Piece::Letter(b'*'), rest)),
        [b'\\', b'\\', rest @ ..] => Some((Piece::Letter(b'\\'), rest)),
        [b'\\', ..] | [] => None,
        [letter, rest @ ..] => Some((Piece::Letter(*letter), rest)),
    }
}
