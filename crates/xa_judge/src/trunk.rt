//! The moves that all configurations of a list have in common, and what several of them share.
ghost use Rattle.std.specs.Prelude.{◌≡◌, ◌<◌, length, IfOk, OnOk};
ghost use Rattle.xa_judge.specs.Found.{IsShortened, IsPathOf};

use crate::blocks::Blocks;
use crate::configuration::Configuration;
use crate::done_blocks::DoneBlocks;
use crate::moves::Move;
use std::alloc::Global;
use xa_xid::NoMemory;

/// After how many events each time configurations are made to share what led to them: more often would take time, more
/// seldom memory.
const APART: usize = 64;

/// Moves the path of the only configuration to the end of the trunk, if only one is left.
fn shorten(trunk: &mut Vec<Move>, known: &mut Vec<Configuration>) -> Result<(), NoMemory>
    ensures { OnOk result (IsShortened trunk.old.items trunk.new.items known.old.items known.new.items) }
{
    // Only moves that all configurations have in common may go into the trunk.
    if known.len() != 1 {
        return Ok(());
    }
    match known.pop() {
        // Never None: the list has one.
        None => Ok(()),
        Some(only) => {
            only.path.add_to(trunk)?;
            known.push(only.without_path())?;
            Ok(())
        }
    }
}

/// Returns the trunk followed by the path of the first configuration.
///
/// May return `NoMemory`.
pub fn path_of(mut trunk: Vec<Move>, known: &[Configuration]) -> Result<Vec<Move>, NoMemory>
    requires { 0 < length known.now }
    ensures { IfOk result (λ moves. IsPathOf trunk.items known.now moves.items) }
{
    known[0].path.add_to(&mut trunk)?;
    Ok(trunk)
}

/// Has the configurations share equal blocks of the moves and requests that led to them: each puts its newest ones
/// into a block.
fn fold_all(alloc: Global, known: &mut Vec<Configuration>) -> Result<(), NoMemory>
    ensures { OnOk result (known.new.items ≡ known.old.items) }
{
    let mut moves = Blocks::new(alloc);
    let mut requests = DoneBlocks::new(alloc);
    for place in 0..known.len() {
        known[place].path.fold(alloc, &mut moves)?;
        known[place].server.fold(&mut requests)?;
    }
    Ok(())
}

/// Has the configurations share what led to them, after the event at this place: if only one is left, its path goes to
/// the trunk, and after every `APART` events equal blocks are shared (`fold_all`).
///
/// May return `NoMemory`.
pub fn share(
    alloc: Global,
    place: usize,
    trunk: &mut Vec<Move>,
    known: &mut Vec<Configuration>,
) -> Result<(), NoMemory>
    ensures { OnOk result (IsShortened trunk.old.items trunk.new.items known.old.items known.new.items) }
{
    shorten(trunk, known)?;
    // Places count from 0: the event at the place `APART - 1` is the one numbered `APART`.
    if place % APART == APART - 1 {
        fold_all(alloc, known)?;
    }
    Ok(())
}
