//! The moves that led to a configuration.
ghost use Rattle.std.specs.Prelude.{◌≡◌, ◌∷◌, ◌++◌, [], map, IfOk, OnOk};
ghost use Rattle.xa_judge.specs.Path.{move_of, moves_of};

use crate::block::Block;
use crate::blocks::Blocks;
use crate::moves::{Act, Move};
use std::alloc::Global;
use std::marker::Model;
use std::mem;
use xa_xid::{NoMemory, SessionNo};

/// The code of a session's `DISCONNECT` is its number plus this, the greatest number of a session; its statement's
/// code is the number itself, from 1 to 16.
const DISCONNECT: u8 = 16;

/// The moves that led to a configuration, from where the trunk ends. The older ones are in blocks, which other paths
/// can share. A contract sees the list of moves.
#[derive(Drop)]
pub struct Path {
    /// The codes of the older moves.
    blocks: Vec<Block>,
    /// The codes of the moves after them.
    tail: Vec<u8>,
}

impl Model for Path {
    ghost use Rattle.std.specs.Prelude.{List};
    ghost use Rattle.xa_judge.specs.{declared.moves.Move.Move as MoveSeen, Path.moves_of};

    ghost Value = { List MoveSeen };

    ghost view = { λ path. moves_of path.blocks.items path.tail.items };
}

/// The code of an effect: for a statement the session's number, and for a `DISCONNECT` that number plus 16.
#[tactic(auto, unfolding(crate::specs::Path::move_of))]
fn effect_code(session: SessionNo, act: Act) -> u8
    ensures { move_of result ≡ Move.Effect session act }
{
    let number = session.get() as u8;
    match act {
        Act::Statement => number,
        Act::Disconnect => number + DISCONNECT,
    }
}

/// A move's code: 0 for an event.
#[tactic(auto, unfolding(crate::specs::Path::move_of))]
fn code_of(by: Move) -> u8
    ensures { move_of result ≡ by }
{
    match by {
        Move::Event => 0,
        Move::Effect(session, act) => effect_code(session, act),
    }
}

/// The move of a code: from 1 to 16 a session's statement, from 17 to 32 its `DISCONNECT`, and else an event.
#[tactic(auto, unfolding(crate::specs::Path::move_of))]
fn move_at(code: u8) -> Move
    ensures { result ≡ move_of code }
{
    match SessionNo::of(code as u64) {
        Some(session) => Move::Effect(session, Act::Statement),
        // Of the codes below 17 only 0 comes here. It stays 0, which is no session's number.
        None => match SessionNo::of(code.saturating_sub(DISCONNECT) as u64) {
            Some(session) => Move::Effect(session, Act::Disconnect),
            None => Move::Event,
        },
    }
}

/// Adds the moves of these codes.
fn add_moves(moves: &mut Vec<Move>, codes: &[u8]) -> Result<(), NoMemory>
    ensures { OnOk result (moves.new.items ≡ moves.old.items ++ map move_of codes.now) }
{
    for code in codes {
        moves.push(move_at(*code))?;
    }
    Ok(())
}

/// Adds the moves of these blocks.
fn add_blocks(moves: &mut Vec<Move>, blocks: &[Block]) -> Result<(), NoMemory>
    ensures { OnOk result (moves.new.items ≡ moves.old.items ++ moves_of blocks.now []) }
{
    for block in blocks {
        add_moves(moves, block.codes())?;
    }
    Ok(())
}

impl Path {
    /// Returns a path without moves.
    pub fn new(alloc: Global) -> Path
        ensures { result ≡ [] }
    {
        Path {
            blocks: Vec::new(alloc),
            tail: Vec::new(alloc),
        }
    }

    /// Returns a copy, which shares the blocks.
    ///
    /// May return `NoMemory`.
    pub fn copy(&self) -> Result<Path, NoMemory>
        ensures { IfOk result (λ copy. copy ≡ self.now) }
    {
        Ok(Path {
            blocks: self.blocks.clone()?,
            tail: self.tail.clone()?,
        })
    }

    /// Adds a move.
    ///
    /// May return `NoMemory`.
    pub fn push(&mut self, by: Move) -> Result<(), NoMemory>
        ensures { OnOk result (self.new ≡ self.old ++ by ∷ []) }
    {
        self.tail.push(code_of(by))?;
        Ok(())
    }

    /// Forgets the moves.
    pub fn clear(&mut self)
        ensures { self.new ≡ [] }
    {
        self.blocks.clear();
        self.tail.clear();
    }

    /// Makes the moves since the last block a block: the one in `shared` that has the same moves, or else a new one,
    /// which `shared` keeps.
    ///
    /// May return `NoMemory`.
    pub fn fold(&mut self, alloc: Global, shared: &mut Blocks) -> Result<(), NoMemory>
        ensures { OnOk result (self.new ≡ self.old) }
    {
        let codes = mem::replace(&mut self.tail, Vec::new(alloc));
        let block = shared.with(codes)?;
        self.blocks.push(block)?;
        Ok(())
    }

    /// Adds the path's moves behind other moves.
    ///
    /// May return `NoMemory`.
    pub fn add_to(&self, moves: &mut Vec<Move>) -> Result<(), NoMemory>
        ensures { OnOk result (moves.new.items ≡ moves.old.items ++ self.now) }
    {
        add_blocks(moves, self.blocks.as_slice())?;
        add_moves(moves, self.tail.as_slice())?;
        Ok(())
    }
}
