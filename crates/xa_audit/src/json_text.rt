//! Writes global transactions as an object of JSON.
ghost use Rattle.std.specs.Prelude.{◌≡◌, ◌≤◌, ◌++◌, length, OnOk, IfOk};
ghost use Rattle.xa_xid.specs.{Limits.text_bytes, XidText.part_text};
ghost use Rattle.xa_audit.specs.Written.{string_text, comma_unless, each_json, end_json, branch_json, head_json};
ghost use Rattle.xa_audit.specs.Written.{tail_json, global_json, counts_json, json_text as json};

use crate::branch::Branch;
use crate::branches::Branches;
use crate::ends::End;
use crate::global::GlobalName;
use crate::lines_text::{count, push_count, push_part, words_of_end, words_of_verdict};
use crate::verdict::{Verdict, verdict_of};
use std::alloc::Global;
use std::collections::BTreeMap;
use xa_xid::NoMemory;

/// Appends words as a string of JSON. Callers give it only words without a byte that JSON escapes.
fn push_string(text: &mut Vec<u8>, words: &[u8]) -> Result<(), NoMemory>
    ensures { OnOk result (text.new.items ≡ text.old.items ++ string_text words.now) }
{
    text.extend_from_slice(b"\"")?;
    text.extend_from_slice(words)?;
    text.extend_from_slice(b"\"")
}

/// Appends a gtrid or a bqual, as it is spelled in an identifier's text, as a string of JSON.
fn push_part_string(alloc: Global, text: &mut Vec<u8>, part: &[u8]) -> Result<(), NoMemory>
    requires { length part.now ≤ text_bytes }
    ensures { OnOk result (text.new.items ≡ text.old.items ++ string_text (part_text part.now)) }
{
    text.extend_from_slice(b"\"")?;
    push_part(alloc, text, part)?;
    text.extend_from_slice(b"\"")
}

/// Appends a comma, unless this is the first of a list.
fn push_comma(text: &mut Vec<u8>, first: bool) -> Result<(), NoMemory>
    ensures { OnOk result (text.new.items ≡ text.old.items ++ comma_unless first) }
{
    if first {
        Ok(())
    } else {
        text.extend_from_slice(b",")
    }
}

/// Appends the ends of a branch's lives: strings with commas between.
fn push_ends(text: &mut Vec<u8>, ends: &[End]) -> Result<(), NoMemory>
    ensures { OnOk result (text.new.items ≡ text.old.items ++ each_json end_json ends.now) }
{
    let mut first = true;
    for end in ends {
        push_comma(text, first)?;
        push_string(text, words_of_end(*end))?;
        first = false;
    }
    Ok(())
}

/// Appends a branch as an object of JSON.
fn push_branch(alloc: Global, text: &mut Vec<u8>, branch: &Branch) -> Result<(), NoMemory>
    ensures { OnOk result (text.new.items ≡ text.old.items ++ branch_json branch.now) }
{
    push_count(text, b"{\"store\":", branch.store)?;
    text.extend_from_slice(b",\"bqual\":")?;
    push_part_string(alloc, text, branch.xid.bqual.as_slice())?;
    text.extend_from_slice(b",\"ends\":[")?;
    push_ends(text, branch.ends.as_slice())?;
    text.extend_from_slice(b"]}")
}

/// Appends branches as objects of JSON, with commas between.
fn push_branches(alloc: Global, text: &mut Vec<u8>, branches: &[Branch]) -> Result<(), NoMemory>
    ensures { OnOk result (text.new.items ≡ text.old.items ++ each_json branch_json branches.now) }
{
    let mut first = true;
    for branch in branches {
        push_comma(text, first)?;
        push_branch(alloc, text, branch)?;
        first = false;
    }
    Ok(())
}

/// Appends what stands before the branches of a global transaction: its formatID and gtrid.
fn push_head(alloc: Global, text: &mut Vec<u8>, name: &GlobalName) -> Result<(), NoMemory>
    ensures { OnOk result (text.new.items ≡ text.old.items ++ head_json name.now) }
{
    push_count(text, b"{\"format\":", name.format_id)?;
    text.extend_from_slice(b",\"gtrid\":")?;
    push_part_string(alloc, text, name.gtrid.as_slice())?;
    text.extend_from_slice(b",\"branches\":[")
}

/// Appends what stands behind the branches of a global transaction: its verdict.
fn push_tail(text: &mut Vec<u8>, branches: &[Branch]) -> Result<(), NoMemory>
    ensures { OnOk result (text.new.items ≡ text.old.items ++ tail_json branches.now) }
{
    text.extend_from_slice(b"],\"verdict\":")?;
    push_string(text, words_of_verdict(verdict_of(branches)))?;
    text.extend_from_slice(b"}")
}

/// Appends a global transaction as an object of JSON.
fn push_global(
    alloc: Global,
    text: &mut Vec<u8>,
    name: &GlobalName,
    branches: &Branches,
) -> Result<(), NoMemory>
    ensures { OnOk result (text.new.items ≡ text.old.items ++ global_json (name.now, branches.now)) }
{
    push_head(alloc, text, name)?;
    push_branches(alloc, text, branches.as_slice())?;
    push_tail(text, branches.as_slice())
}

/// Appends global transactions as objects of JSON, with commas between.
fn push_globals(
    alloc: Global,
    text: &mut Vec<u8>,
    globals: &BTreeMap<GlobalName, Branches>,
) -> Result<(), NoMemory>
    ensures { OnOk result (text.new.items ≡ text.old.items ++ each_json global_json globals.now.entries) }
{
    let mut first = true;
    for (name, branches) in globals {
        push_comma(text, first)?;
        push_global(alloc, text, name, branches)?;
        first = false;
    }
    Ok(())
}

/// Appends how many global transactions have which verdict, as members of an object.
#[tactic(auto, unfolding(crate::specs::Written::counts_json))]
fn push_counts(text: &mut Vec<u8>, globals: &BTreeMap<GlobalName, Branches>) -> Result<(), NoMemory>
    ensures { OnOk result (text.new.items ≡ text.old.items ++ counts_json globals.now.entries) }
{
    push_count(text, b"\"atomic\":", count(Verdict::Atomic, globals))?;
    push_count(text, b",\"mixed\":", count(Verdict::Mixed, globals))?;
    push_count(text, b",\"in_doubt\":", count(Verdict::InDoubt, globals))?;
    push_count(text, b",\"open\":", count(Verdict::Open, globals))
}

/// Returns global transactions as an object of JSON, on one line.
///
/// May return `NoMemory`.
pub fn json_text(
    alloc: Global,
    globals: &BTreeMap<GlobalName, Branches>,
) -> Result<Vec<u8>, NoMemory>
    ensures { IfOk result (λ text. text.items ≡ json globals.now.entries) }
{
    let mut text = Vec::new(alloc);
    text.extend_from_slice(b"{\"globals\":[")?;
    push_globals(alloc, &mut text, globals)?;
    text.extend_from_slice(b"],")?;
    push_counts(&mut text, globals)?;
    text.extend_from_slice(b"}\n")?;
    Ok(text)
}
