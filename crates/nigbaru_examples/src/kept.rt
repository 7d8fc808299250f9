//! Decisions as a text that can be kept elsewhere: a letter for each number.

use anyhow::{Result, bail};
use nigbaru::{Decision, Decisions};
use std::alloc::Global;

/// The letter of a decision.
fn letter_of(decision: Decision) -> u8 {
    match decision {
        Decision::Undecided => b'u',
        Decision::Decided => b'd',
        Decision::Closed => b'c',
    }
}

/// The decision of a letter.
fn decision_of(letter: u8) -> Option<Decision> {
    match letter {
        b'u' => Some(Decision::Undecided),
        b'd' => Some(Decision::Decided),
        b'c' => Some(Decision::Closed),
        _ => None,
    }
}

/// Writes decisions down.
pub fn write_down(alloc: Global, decisions: &Decisions) -> Result<Vec<u8>> {
    let mut text = Vec::new(alloc);
    for decision in decisions.as_slice() {
        text.push(letter_of(*decision))?;
    }
    Ok(text)
}

/// Reads back decisions that were written down.
pub fn read_back(alloc: Global, text: &[u8]) -> Result<Decisions> {
    let mut list = Vec::new(alloc);
    for letter in text {
        let Some(decision) = decision_of(*letter) else {
            bail!("no decision");
        };
        list.push(decision)?;
    }
    Ok(Decisions::of(alloc, list.as_slice())?)
}
