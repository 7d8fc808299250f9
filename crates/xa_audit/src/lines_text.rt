//! Writes global transactions as lines.
ghost use Rattle.std.specs.Prelude.{◌≡◌, ◌≤◌, ◌++◌, length, decimal, OnOk, IfOk};
ghost use Rattle.xa_xid.specs.{Limits.text_bytes, XidText.part_text};
ghost use Rattle.xa_audit.specs.{Globals.count_of, Written.{end_text, verdict_text, life_text, each_text, branch_text}};
ghost use Rattle.xa_audit.specs.Written.{global_text, last_text as last_line, lines_text as lines};

use crate::branch::Branch;
use crate::branches::Branches;
use crate::ends::End;
use crate::global::GlobalName;
use crate::verdict::{Verdict, verdict_of};
use std::alloc::Global;
use std::collections::BTreeMap;
use std::mem;
use xa_lines::push_number;
use xa_xid::{NoMemory, with_part};

/// Appends a gtrid or a bqual (a *part* of an identifier), as it is spelled in an identifier's text.
pub fn push_part(alloc: Global, text: &mut Vec<u8>, part: &[u8]) -> Result<(), NoMemory>
    requires { length part.now ≤ text_bytes }
    ensures { OnOk result (text.new.items ≡ text.old.items ++ part_text part.now) }
{
    // `with_part` takes the text and gives it back longer. If it fails, an empty text is left.
    let before = mem::replace(text, Vec::new(alloc));
    *text = with_part(before, part)?;
    Ok(())
}

/// Returns the words for an end.
pub fn words_of_end(end: End) -> &'static [u8]
    ensures { result.now ≡ end_text end }
{
    match end {
        End::Committed => b"COMMITTED",
        End::RolledBack => b"ROLLED BACK",
        End::Empty => b"EMPTY",
        End::InDoubt => b"IN DOUBT",
        End::Open => b"OPEN",
    }
}

/// Returns the words for a verdict.
pub fn words_of_verdict(verdict: Verdict) -> &'static [u8]
    ensures { result.now ≡ verdict_text verdict }
{
    match verdict {
        Verdict::Atomic => b"ATOMIC",
        Verdict::Mixed => b"MIXED",
        Verdict::InDoubt => b"IN DOUBT",
        Verdict::Open => b"OPEN",
    }
}

/// Appends the line of a life of a branch.
fn push_life(alloc: Global, text: &mut Vec<u8>, branch: &Branch, end: End) -> Result<(), NoMemory>
    ensures { OnOk result (text.new.items ≡ text.old.items ++ life_text branch.now end) }
{
    text.extend_from_slice(b"STORE ")?;
    push_number(text, branch.store)?;
    text.extend_from_slice(b" ")?;
    push_part(alloc, text, branch.xid.bqual.as_slice())?;
    text.extend_from_slice(b" ")?;
    text.extend_from_slice(words_of_end(end))?;
    text.extend_from_slice(b"\n")
}

/// Appends the lines of a branch, one for each life.
fn push_branch(alloc: Global, text: &mut Vec<u8>, branch: &Branch) -> Result<(), NoMemory>
    ensures { OnOk result (text.new.items ≡ text.old.items ++ branch_text branch.now) }
{
    let ends = branch.ends.as_slice();
    for end in ends {
        push_life(alloc, text, branch, *end)?;
    }
    Ok(())
}

/// Appends the lines of branches.
fn push_branches(alloc: Global, text: &mut Vec<u8>, branches: &[Branch]) -> Result<(), NoMemory>
    ensures { OnOk result (text.new.items ≡ text.old.items ++ each_text branch_text branches.now) }
{
    for branch in branches {
        push_branch(alloc, text, branch)?;
    }
    Ok(())
}

/// Appends the lines of a global transaction: its name, the lives of its branches, and its verdict.
fn push_global(
    alloc: Global,
    text: &mut Vec<u8>,
    name: &GlobalName,
    branches: &Branches,
) -> Result<(), NoMemory>
    ensures { OnOk result (text.new.items ≡ text.old.items ++ global_text (name.now, branches.now)) }
{
    text.extend_from_slice(b"GLOBAL ")?;
    push_number(text, name.format_id)?;
    text.extend_from_slice(b" ")?;
    push_part(alloc, text, name.gtrid.as_slice())?;
    text.extend_from_slice(b"\n")?;
    push_branches(alloc, text, branches.as_slice())?;
    text.extend_from_slice(words_of_verdict(verdict_of(branches.as_slice())))?;
    text.extend_from_slice(b"\n")
}

/// Appends the lines of global transactions.
fn push_globals(
    alloc: Global,
    text: &mut Vec<u8>,
    globals: &BTreeMap<GlobalName, Branches>,
) -> Result<(), NoMemory>
    ensures { OnOk result (text.new.items ≡ text.old.items ++ each_text global_text globals.now.entries) }
{
    for (name, branches) in globals {
        push_global(alloc, text, name, branches)?;
    }
    Ok(())
}

/// Returns how many global transactions have this verdict.
pub fn count(verdict: Verdict, globals: &BTreeMap<GlobalName, Branches>) -> u64
    ensures { result ≡ count_of verdict globals.now.entries }
{
    // Only the promise of this call is needed: a map has fewer than 2^64 entries, so the sum below can't overflow.
    let _size = globals.len();
    let mut count: u64 = 0;
    for (_, branches) in globals {
        if verdict.is(verdict_of(branches.as_slice())) {
            count += 1;
        }
    }
    count
}

/// Appends words and a number.
pub fn push_count(text: &mut Vec<u8>, words: &[u8], number: u64) -> Result<(), NoMemory>
    ensures { OnOk result (text.new.items ≡ text.old.items ++ (words.now ++ decimal number)) }
{
    text.extend_from_slice(words)?;
    push_number(text, number)
}

/// Appends the last line: how many global transactions there are, and how many have which verdict.
#[tactic(auto, unfolding(crate::specs::Written::last_text))]
fn push_last(text: &mut Vec<u8>, globals: &BTreeMap<GlobalName, Branches>) -> Result<(), NoMemory>
    ensures { OnOk result (text.new.items ≡ text.old.items ++ last_line globals.now.entries) }
{
    push_count(text, b"GLOBALS ", globals.len() as u64)?;
    push_count(text, b" ATOMIC ", count(Verdict::Atomic, globals))?;
    push_count(text, b" MIXED ", count(Verdict::Mixed, globals))?;
    push_count(text, b" IN DOUBT ", count(Verdict::InDoubt, globals))?;
    push_count(text, b" OPEN ", count(Verdict::Open, globals))?;
    text.extend_from_slice(b"\n")
}

/// Returns the last line alone.
///
/// May return `NoMemory`.
pub fn last_text(
    alloc: Global,
    globals: &BTreeMap<GlobalName, Branches>,
) -> Result<Vec<u8>, NoMemory>
    ensures { IfOk result (λ text. text.items ≡ last_line globals.now.entries) }
{
    let mut text = Vec::new(alloc);
    push_last(&mut text, globals)?;
    Ok(text)
}

/// Returns the lines of global transactions, and the last line.
///
/// May return `NoMemory`.
pub fn lines_text(
    alloc: Global,
    globals: &BTreeMap<GlobalName, Branches>,
) -> Result<Vec<u8>, NoMemory>
    ensures { IfOk result (λ text. text.items ≡ lines globals.now.entries) }
{
    let mut text = Vec::new(alloc);
    push_globals(alloc, &mut text, globals)?;
    push_last(&mut text, globals)?;
    Ok(text)
}
