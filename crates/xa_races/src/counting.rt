//! Counts the outcomes of races, and writes which came.

use std::alloc::Global;
use std::cmp::Ordering;
use xa_lines::push_number;
use xa_orders::Outcome;
use xa_xid::NoMemory;

/// An outcome, and how often it came in races.
#[derive(Drop)]
pub(crate) struct Tally {
    /// What all lines are answered.
    text: Vec<u8>,
    /// How often it came.
    came: u64,
}

/// Returns a tally with a count of 0 for each outcome of a list, in order.
///
/// May return `NoMemory`.
pub(crate) fn tallies_of(alloc: Global, outcomes: Vec<Outcome>) -> Result<Vec<Tally>, NoMemory> {
    let mut tallies = Vec::new(alloc);
    for outcome in outcomes {
        let Outcome { text, .. } = outcome;
        tallies.push(Tally { text, came: 0 })?;
    }
    Ok(tallies)
}

/// Counts that this text came once more. A text that isn't listed is added before the first greater one.
///
/// May return `NoMemory`.
pub(crate) fn note(tallies: &mut Vec<Tally>, text: Vec<u8>) -> Result<(), NoMemory> {
    for place in 0..tallies.len() {
        if tallies[place].text.as_slice() == text.as_slice() {
            tallies[place].came = tallies[place].came.saturating_add(1);
            return Ok(());
        }
    }
    // If all outcomes are known, each is listed. If not, the list ascends, so the smaller texts stand first.
    let place = tallies
        .iter()
        .filter(|one| one.text.as_slice().cmp(text.as_slice()) == Ordering::Less)
        .count();
    tallies.insert(place, Tally { text, came: 1 })?;
    Ok(())
}

/// Appends the outcome of this number, with how often it came.
fn push_came(text: &mut Vec<u8>, number: u64, one: &Tally) -> Result<(), NoMemory> {
    text.extend_from_slice(b"OUTCOME ")?;
    push_number(text, number)?;
    text.extend_from_slice(b" CAME ")?;
    push_number(text, one.came)?;
    text.extend_from_slice(b"\n")?;
    text.extend_from_slice(one.text.as_slice())
}

/// Returns what is written for races that were counted: the outcomes that came, each with its number in the list, from
/// 1, and how many these are. If `is_known`, the list has all outcomes of the script, and how many it has is written,
/// too.
///
/// May return `NoMemory`.
pub(crate) fn seen_of(
    alloc: Global,
    tallies: &[Tally],
    is_known: bool,
) -> Result<Vec<u8>, NoMemory> {
    let mut text = Vec::new(alloc);
    for place in 0..tallies.len() {
        if tallies[place].came > 0 {
            push_came(&mut text, place as u64 + 1, &tallies[place])?;
        }
    }
    text.extend_from_slice(b"SEEN ")?;
    push_number(
        &mut text,
        tallies.iter().filter(|one| one.came > 0).count() as u64,
    )?;
    if is_known {
        text.extend_from_slice(b" OF ")?;
        push_number(&mut text, tallies.len() as u64)?;
        text.extend_from_slice(b" OUTCOMES")?;
    }
    text.extend_from_slice(b"\n")?;
    Ok(text)
}
