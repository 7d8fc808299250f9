//! Prints what a server holds.
ghost use Rattle.std.specs.{Prelude.{◌≡◌, ◌++◌, IfOk, codes}, List.flat_map};
ghost use Rattle.xa_xid.specs.XidText.{part_text};
ghost use Rattle.xa_server.specs.Overview.{branches_of};
ghost use Rattle.xa_lines.specs.Listing.{phase_text, owner_text, branch_line, hold_text, hold_line, branch_lines};
ghost use Rattle.xa_lines.specs.Listing.{value_text, row_line, listing};

use crate::push_number;
use std::alloc::Global;
use xa_server::{BranchEntry, HeldRow, Hold, Phase, Server};
use xa_xid::{Bytes, Key, NoMemory, SessionNo, with_part, with_xid};

/// The word of a phase, behind a blank.
fn words_of(phase: Phase) -> &'static [u8]
    ensures { result.now ≡ phase_text phase }
{
    match phase {
        Phase::Active => b" ACTIVE",
        Phase::Idle => b" IDLE",
        Phase::Prepared => b" PREPARED",
    }
}

/// Appends the owner of a branch to a text; nothing if it has none.
fn with_owner(mut text: Vec<u8>, owner: Option<SessionNo>) -> Result<Vec<u8>, NoMemory>
    ensures { IfOk result (λ longer. longer.items ≡ text.items ++ owner_text owner) }
{
    if let Some(session) = owner {
        text.extend_from_slice(b" SESSION ")?;
        push_number(&mut text, session.get())?;
    }
    Ok(text)
}

/// Appends the line of a branch to a text: its identifier, its phase, and its owner if it has one.
fn with_branch_line(mut text: Vec<u8>, branch: &BranchEntry) -> Result<Vec<u8>, NoMemory>
    ensures { IfOk result (λ longer. longer.items ≡ text.items ++ branch_line branch.now) }
{
    text.extend_from_slice(b"  BRANCH ")?;
    let mut text = with_xid(text, &branch.xid)?;
    text.extend_from_slice(words_of(branch.phase))?;
    let mut text = with_owner(text, branch.owner)?;
    text.extend_from_slice(b"\n")?;
    Ok(text)
}

/// Appends a row that a branch holds, and how, to a text, without a line feed: `SHARES` in share, and else `HOLDS` with
/// what the branch's commit will do to the row.
fn with_hold(mut text: Vec<u8>, key: &Key, hold: &Hold) -> Result<Vec<u8>, NoMemory>
    ensures { IfOk result (λ longer. longer.items ≡ text.items ++ hold_text key.now hold.now) }
{
    match hold {
        Hold::Shared => {
            text.extend_from_slice(b"    SHARES ")?;
            with_part(text, key.as_slice())
        }
        Hold::Put(value) => {
            text.extend_from_slice(b"    HOLDS ")?;
            let mut text = with_part(text, key.as_slice())?;
            text.extend_from_slice(b" WRITES ")?;
            with_part(text, value.as_slice())
        }
        Hold::Delete => {
            text.extend_from_slice(b"    HOLDS ")?;
            let mut text = with_part(text, key.as_slice())?;
            text.extend_from_slice(b" DELETES")?;
            Ok(text)
        }
    }
}

/// Appends to a text a line for each of these rows, which a branch holds.
fn with_holds(text: Vec<u8>, rows: &[HeldRow]) -> Result<Vec<u8>, NoMemory>
    ensures { IfOk result (λ longer. longer.items ≡ text.items ++ flat_map hold_line rows.now) }
{
    let mut longer = text;
    for row in rows {
        longer = with_hold(longer, &row.key, &row.hold)?;
        longer.extend_from_slice(b"\n")?;
    }
    Ok(longer)
}

/// Appends to a text the line of a branch, and a line for each row that it holds.
fn with_branch(
    alloc: Global,
    text: Vec<u8>,
    server: &Server,
    branch: &BranchEntry,
) -> Result<Vec<u8>, NoMemory>
    ensures { IfOk result (λ longer. longer.items ≡ text.items ++ branch_lines server.now branch.now) }
{
    let rows = server.rows_of(alloc, &branch.xid)?;
    let text = with_branch_line(text, branch)?;
    with_holds(text, rows.as_slice())
}

/// Appends to a text the lines of branches, each followed by the rows that it holds.
fn with_branches(
    alloc: Global,
    text: Vec<u8>,
    server: &Server,
    branches: &[BranchEntry],
) -> Result<Vec<u8>, NoMemory>
    ensures { IfOk result (λ longer. longer.items ≡ text.items ++ flat_map (branch_lines server.now) branches.now) }
{
    let mut longer = text;
    for branch in branches {
        longer = with_branch(alloc, longer, server, branch)?;
    }
    Ok(longer)
}

/// Appends a value to a text, in the words of a reply: `NONE` if there is none.
fn with_value(mut text: Vec<u8>, value: Option<Bytes>) -> Result<Vec<u8>, NoMemory>
    ensures { IfOk result (λ longer. longer.items ≡ text.items ++ value_text value) }
{
    match value {
        None => {
            text.extend_from_slice(b" NONE")?;
            Ok(text)
        }
        Some(value) => {
            text.extend_from_slice(b" VALUE ")?;
            with_part(text, value.as_slice())
        }
    }
}

/// Appends to a text the line of a row: its key and its committed value, or `NONE` if it has none.
fn with_row(mut text: Vec<u8>, server: &Server, key: &Key) -> Result<Vec<u8>, NoMemory>
    ensures { IfOk result (λ longer. longer.items ≡ text.items ++ row_line server.now key.now) }
{
    text.extend_from_slice(b"  ROW ")?;
    let text = with_part(text, key.as_slice())?;
    let mut text = with_value(text, server.value_of(key))?;
    text.extend_from_slice(b"\n")?;
    Ok(text)
}

/// Appends to a text the lines of the rows of these keys.
fn with_rows(text: Vec<u8>, server: &Server, keys: &[Key]) -> Result<Vec<u8>, NoMemory>
    ensures { IfOk result (λ longer. longer.items ≡ text.items ++ flat_map (row_line server.now) keys.now) }
{
    let mut longer = text;
    for key in keys {
        longer = with_row(longer, server, key)?;
    }
    Ok(longer)
}

/// Appends the server's listing to a text: every branch, ascending, each with the rows that it holds; then
/// the rows of these keys, with their committed values.
///
/// Each line of it begins with two blanks. It visits every row of the server once for each branch.
/// Errors: `NoMemory` if an allocation failed. The text is then dropped.
/// May return `NoMemory`. Doesn't wait.
/// Own rule: docs/COMMANDS.md#show.
#[tactic(auto, unfolding(crate::specs::Listing::listing))]
pub fn with_listing(
    alloc: Global,
    text: Vec<u8>,
    server: &Server,
    keys: &[Key],
) -> Result<Vec<u8>, NoMemory>
    // Proved (scripts, listing): The listing that is printed is the one that the definition gives. It has
    //   every branch with its phase, its owner and its rows, and then each row that was asked for, with its
    //   committed value.
    ensures { IfOk result (λ longer. longer.items ≡ text.items ++ listing server.now keys.now) }
{
    let branches = server.branches(alloc)?;
    let text = with_branches(alloc, text, server, branches.as_slice())?;
    with_rows(text, server, keys)
}
