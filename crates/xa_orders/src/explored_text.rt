//! Writes outcomes.
ghost use Rattle.std.specs.Prelude.{◌≡◌, ◌++◌, OnOk, IfOk};
ghost use Rattle.xa_orders.specs.Scripts.{sessions_text, outcome_lines, outcomes_text};
ghost use Rattle.xa_orders.specs.Scripts.{explored_text as text_of_outcomes};

use crate::outcome::Outcome;
use std::alloc::Global;
use xa_lines::push_number;
use xa_xid::{NoMemory, SessionNo};

/// Appends the session numbers of an order, each after a blank.
fn push_sessions(text: &mut Vec<u8>, order: &[SessionNo]) -> Result<(), NoMemory>
    ensures { OnOk result (text.new.items ≡ text.old.items ++ sessions_text order.now) }
{
    for session in order {
        text.extend_from_slice(b" ")?;
        push_number(text, session.get())?;
    }
    Ok(())
}

/// Appends an outcome, with this number: its text, and behind it the order that gives it.
fn push_outcome(text: &mut Vec<u8>, number: u64, one: &Outcome) -> Result<(), NoMemory>
    ensures { OnOk result (text.new.items ≡ text.old.items ++ outcome_lines number one.now) }
{
    text.extend_from_slice(b"OUTCOME ")?;
    push_number(text, number)?;
    text.extend_from_slice(b"\n")?;
    text.extend_from_slice(one.text.as_slice())?;
    text.extend_from_slice(b"ORDER")?;
    push_sessions(text, one.order.as_slice())?;
    text.extend_from_slice(b"\n")
}

/// Appends outcomes, the first of which has number 1.
fn push_outcomes(text: &mut Vec<u8>, outcomes: &[Outcome]) -> Result<(), NoMemory>
    ensures { OnOk result (text.new.items ≡ text.old.items ++ outcomes_text 1 outcomes.now) }
{
    for place in 0..outcomes.len() {
        push_outcome(text, place as u64 + 1, &outcomes[place])?;
    }
    Ok(())
}

/// Returns what is written for outcomes: how many there are, then each with its number, its text and its
/// order.
///
/// May return `NoMemory`.
/// Own rule: docs/COMMANDS.md#explore.
pub fn explored_text(alloc: Global, outcomes: &[Outcome]) -> Result<Vec<u8>, NoMemory>
    ensures { IfOk result (λ text. text.items ≡ text_of_outcomes outcomes.now) }
{
    let mut text = Vec::new(alloc);
    text.extend_from_slice(b"OUTCOMES ")?;
    push_number(&mut text, outcomes.len() as u64)?;
    text.extend_from_slice(b"\n")?;
    push_outcomes(&mut text, outcomes)?;
    Ok(text)
}
