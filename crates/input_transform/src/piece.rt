//! The pieces of a stored template.
ghost use Rattle.std.specs.Prelude.{◌≡◌, ◌++◌, List, [], flat_map, OnOk, IfOk};
ghost use Rattle.json_text.specs.Compact.{escape};
ghost use Rattle.input_transform.specs.declared.path.Step.{Step as PathStep};
ghost use Rattle.input_transform.specs.Names.{Scene};
ghost use Rattle.input_transform.specs.Stored.{piece_text, pieces_text};
ghost use Rattle.input_transform.specs.Letters.{shown};

use super::escape::push_escaped;
use json_text::{Bytes, NoMemory};
use std::alloc::Global;
use std::mem;

/// What a name of a stored template is. A path is its place in the template's list of paths.
#[derive(Clone, Copy, Debug)]
pub enum Known {
    RuleArn,
    RuleName,
    IngestionTime,
    WholeEvent,
    BareEvent,
    Found(usize),
}

/// A piece of a stored template: plain bytes of the compact text, a name in the place of a value, or a name in a string.
#[derive(Debug, Drop)]
pub enum Piece {
    Plain(Bytes),
    Value(Known),
    Inside(Known),
}

/// Pieces that are written one after another, with the plain bytes since the last name.
#[derive(Drop)]
pub(crate) struct Pieces {
    pub(crate) done: Vec<Piece>,
    pub(crate) run: Bytes,
}

impl Pieces {
    pub(crate) fn new(alloc: Global) -> Pieces
        ensures { (scene : Scene) (paths : List (List PathStep)) → shown scene paths result ≡ [] }
    {
        Pieces {
            done: Vec::new(alloc),
            run: Bytes::new(alloc),
        }
    }

    pub(crate) fn push_bytes(&mut self, bytes: &[u8]) -> Result<(), NoMemory>
        ensures { OnOk result ((scene : Scene) (paths : List (List PathStep))
            → shown scene paths self.new ≡ shown scene paths self.old ++ bytes.now) }
    {
        self.run.extend(bytes)
    }

    /// Adds the bytes as they are written in a string.
    pub(crate) fn push_escaped(&mut self, bytes: &[u8]) -> Result<(), NoMemory>
        ensures { OnOk result ((scene : Scene) (paths : List (List PathStep))
            → shown scene paths self.new ≡ shown scene paths self.old ++ flat_map escape bytes.now) }
    {
        push_escaped(bytes, &mut self.run)
    }

    pub(crate) fn push_name(&mut self, piece: Piece) -> Result<(), NoMemory>
        ensures { OnOk result ((scene : Scene) (paths : List (List PathStep))
            → shown scene paths self.new ≡ shown scene paths self.old ++ piece_text scene paths piece) }
    {
        let next = self.run.new_beside();
        let run = mem::replace(&mut self.run, next);
        self.done.push(Piece::Plain(run))?;
        self.done.push(piece)?;
        Ok(())
    }

    pub(crate) fn finish(self) -> Result<Vec<Piece>, NoMemory>
        ensures { IfOk result (λ pieces. (scene : Scene) (paths : List (List PathStep))
            → pieces_text scene paths pieces.items ≡ shown scene paths self) }
    {
        let Pieces { mut done, run } = self;
        done.push(Piece::Plain(run))?;
        Ok(done)
    }
}
