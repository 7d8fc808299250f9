//! Judges several records, and writes what each came to.
ghost use Rattle.std.specs.Prelude.{◌≡◌, ◌≤◌, ◌<◌, [], ℕ, List, Some, IfOk, IfErr, OnOk, IfSome, map, length};
ghost use Rattle.std.specs.Prelude.{option_map, unwrap_or};
ghost use Rattle.xa_script.specs.{CommandLine.IsLimit, Listing.heading as heading_of};
ghost use Rattle.xa_script.specs.Several.{IsVerdictOn, ListsOne, IsListing, ListsAll, AfterListing};

use crate::from_reader::looked_at;
use crate::judging_read::judge_read;
use crate::listed::Listed;
use crate::listing::{heading, push_piece, worse};
use crate::manner::Manner;
use crate::telling::Telling;
use crate::undecided::{is_undecided, tell_limit};
use crate::verdict::Verdict;
use crate::watch::Watch;
use std::alloc::Global;
use std::io::{Read, Write};
use std::rt::Clock;
use xa_lines::{ScriptFault, in_memory, write_whole};
use xa_record::{Allowance, Asked};
use xa_server::Server;

/// Says on the standard error, with the record's name, that it can't be read, or that the limit was passed and what
/// to do. Says nothing of any other end.
fn tell_end<I: Read + Drop, R: Eprint + Alloc<A = Global>>(
    rt: &R,
    input: &Watch<'_, I, R>,
    done: &Result<u8, ScriptFault>,
) {
    match done {
        // Of any other fault the file isn't the cause.
        Err(ScriptFault::Read | ScriptFault::TooLong) => input.tell_unread(),
        Err(_) => {}
        Ok(status) => {
            if is_undecided(*status) {
                input.tell_name();
                tell_limit(rt);
            }
        }
    }
}

/// Judges the next record, and returns its verdict. What the standard error says of its form, its lines or the limit
/// comes behind its name, and if it can't be read, it is named too. If `quiet`, progress isn't reported.
fn verdict_on<I: Read + Drop, R: Clock + Eprint + Alloc<A = Global>>(
    rt: &R,
    base: &Server,
    input: &mut Watch<'_, I, R>,
    allowances: &[Allowance],
    asked: Asked,
    quiet: bool,
) -> Result<Verdict, ScriptFault>
    requires { IsLimit asked.limit }
    ensures verdict { IfOk result (λ verdict. IfSome (I.remaining input.old.inner)
        (λ seen. IsVerdictOn base.now allowances.now asked seen (verdict.status, verdict.text.items))) }
    ensures fault { IfErr result (λ fault. fault ≡ ScriptFault.Write → ⊥) }
{
    let mut telling = Telling::new(rt, quiet);
    let mut text = Vec::new(rt.alloc());
    let telling = &mut telling;
    let name = Some(input.name());
    // `--follow` is for a single record whose verdict isn't listed.
    let done = in_memory(judge_read(
        rt, base, input, name, &mut text, allowances, asked, false, telling,
    ));
    tell_end(rt, input, &done);
    let status = done?;
    Ok(Verdict { status, text })
}

/// Judges the next record, and adds what is written for it.
fn add_verdict<I: Read + Drop, R: Clock + Eprint + Alloc<A = Global>>(
    rt: &R,
    base: &Server,
    listed: &mut Listed,
    input: &mut Watch<'_, I, R>,
    allowances: &[Allowance],
    asked: Asked,
    quiet: bool,
) -> Result<(), ScriptFault>
    requires limit { IsLimit asked.limit }
    requires room { listed.old.count < 1000 }
    ensures listed { OnOk result (ListsOne base.now allowances.now asked (I.remaining input.old.inner)
        (unwrap_or (option_map (λ name. name.now) input.old.name) []) listed.old listed.new) }
    ensures fault { IfErr result (λ fault. fault ≡ ScriptFault.Write → ⊥) }
{
    let name = input.name();
    let verdict = verdict_on(rt, base, input, allowances, asked, quiet)?;
    // Test points are numbered from 1.
    listed.count += 1;
    push_piece(&mut listed.text, listed.tap, listed.count, name, &verdict)?;
    listed.status = worse(listed.status, verdict.status);
    listed.faulty |= input.has_faults()?;
    Ok(())
}

/// Judges the next record, adds what is written for it, and closes it by dropping its reader.
fn list_next<I: Read + Drop, R: Clock + Eprint + Alloc<A = Global>>(
    rt: &R,
    base: &Server,
    listed: &mut Listed,
    mut input: Watch<'_, I, R>,
    allowances: &[Allowance],
    asked: Asked,
    quiet: bool,
) -> Result<(), ScriptFault>
    requires limit { IsLimit asked.limit }
    requires room { listed.old.count < 1000 }
    ensures listed { OnOk result (ListsOne base.now allowances.now asked (I.remaining input.entry.inner)
        (unwrap_or (option_map (λ name. name.now) input.entry.name) []) listed.old listed.new) }
    ensures fault { IfErr result (λ fault. fault ≡ ScriptFault.Write → ⊥) }
{
    add_verdict(rt, base, listed, &mut input, allowances, asked, quiet)
}

/// Judges each record, in order, and returns what is written for them all.
fn list_each<I: Read + Drop, R: Clock + Eprint + Alloc<A = Global>>(
    rt: &R,
    base: &Server,
    inputs: Vec<Watch<'_, I, R>>,
    allowances: &[Allowance],
    asked: Asked,
    quiet: bool,
    tap: bool,
) -> Result<Listed, ScriptFault>
    requires limit { IsLimit asked.limit }
    requires count { length inputs.items ≤ 1000 }
    ensures listed { IfOk result (λ listed. (records : List (List ℕ))
        → map (λ input. I.remaining input.inner) inputs.entry.items ≡ map Some records
        → IsListing base.now allowances.now asked tap (heading_of tap (length inputs.entry.items))
        (map (λ input. unwrap_or (option_map (λ name. name.now) input.name) []) inputs.entry.items) records
        listed.status listed.text.items) }
    ensures fault { IfErr result (λ fault. fault ≡ ScriptFault.Write → ⊥) }
{
    let mut listed = Listed {
        text: heading(rt.alloc(), tap, inputs.len() as u64)?,
        tap,
        count: 0,
        status: 0,
        faulty: false,
    };
    for input in inputs {
        list_next(rt, base, &mut listed, input, allowances, asked, quiet)?;
    }
    Ok(listed)
}

/// Judges at most 1,000 records, writes what each came to, and returns the exit status that counts, as `worse` says.
///
/// With `--strict` the status is 8 instead of 0 if a line had a syntax fault; with `--quiet` progress isn't reported.
/// The limit of `asked` is in `[1, 1_000_000]`.
/// Errors: as `judge_read`, at the first record that ends so: nothing was written then. After `Write` a prefix was.
/// May return `NoMemory`. Doesn't wait, unless a reader, the writer or the standard error does.
/// Own rule: docs/COMMANDS.md#several-records.
pub fn list_within<I: Read + Drop, W: Write, R: Clock + Eprint + Alloc<A = Global>>(
    rt: &R,
    base: &Server,
    inputs: Vec<Watch<'_, I, R>>,
    writer: &mut W,
    allowances: &[Allowance],
    asked: Asked,
    manner: &Manner<'_>,
) -> Result<u8, ScriptFault>
    requires limit { IsLimit asked.limit }
    requires count { length inputs.items ≤ 1000 }
    // Proved (scripts, several-records): For each of several records that are judged in one call, in their order, what
    //   is written is made of the verdict that judging it alone writes. The status is the least of theirs that isn't 0.
    //   With `--strict`, and only then, 0 may be 8 instead.
    ensures listed { IfOk result (λ status. (records : List (List ℕ))
        → map (λ input. I.remaining input.inner) inputs.entry.items ≡ map Some records
        → ListsAll base.now allowances.now asked manner.now.strict manner.now.tap
        (map (λ input. unwrap_or (option_map (λ name. name.now) input.name) []) inputs.entry.items) records status
        (W.contents writer.old) (W.contents writer.new)) }
    ensures fault { IfErr result (λ fault. (records : List (List ℕ))
        → map (λ input. I.remaining input.inner) inputs.entry.items ≡ map Some records
        → AfterListing base.now allowances.now asked manner.now.tap
        (map (λ input. unwrap_or (option_map (λ name. name.now) input.name) []) inputs.entry.items) records fault
        (W.contents writer.old) (W.contents writer.new)) }
{
    let listed = list_each(
        rt,
        base,
        inputs,
        allowances,
        asked,
        manner.quiet,
        manner.tap,
    )?;
    write_whole(writer, listed.text.as_slice())?;
    looked_at(manner.strict, Some(listed.faulty), Ok(listed.status))
}
