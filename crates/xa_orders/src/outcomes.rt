//! The outcomes of ways.
ghost use Rattle.std.specs.{Prelude.{◌≡◌, ◌≢◌, ◌++◌, true, false, IfOk, OnOk}, List.{All, concat}};
ghost use Rattle.xa_orders.specs.{Orders.{Any, IsAscending, told_text, told_state}, Found.order_of};
ghost use Rattle.xa_orders.specs.Ends.{text_from, IsOutcomeAdded, AreOutcomes};

use crate::answers::is_same_text;
use crate::line::Line;
use crate::outcome::Outcome;
use crate::way::Way;
use std::alloc::Global;
use xa_lines::answer_statement;
use xa_server::Server;
use xa_xid::NoMemory;

/// Carries lines out one after another, and appends what they are answered.
///
/// May return `NoMemory`.
pub fn push_told(
    alloc: Global,
    text: &mut Vec<u8>,
    server: &mut Server,
    lines: &[Line<'_>],
) -> Result<(), NoMemory>
    ensures text { OnOk result (text.new.items ≡ text.old.items ++ told_text server.old lines.now) }
    ensures server { OnOk result (server.new ≡ told_state server.old lines.now) }
{
    for line in lines {
        let session = line.session();
        let said = line.text();
        let answer = answer_statement(alloc, server, session, said)?;
        text.extend_from_slice(answer.as_slice())?;
    }
    Ok(())
}

/// What all lines are answered on this way: those before (`first`), those side by side, and the later ones.
fn text_of(alloc: Global, first: &[u8], way: &Way, later: &[Line<'_>]) -> Result<Vec<u8>, NoMemory>
    ensures { IfOk result (λ text. text.items ≡ text_from first.now later.now way.now) }
{
    let mut text = Vec::from_slice(alloc, first)?;
    way.answers.push_to(&mut text)?;
    let mut server = way.server.made()?;
    push_told(alloc, &mut text, &mut server, later)?;
    Ok(text)
}

/// Whether one of the outcomes has this text.
fn is_listed(outcomes: &[Outcome], text: &[u8]) -> bool
    ensures listed { result ≡ true → Any (λ one. one.text.items ≡ text.now) outcomes.now }
    ensures other { result ≡ false → All (λ one. one.text.items ≢ text.now) outcomes.now }
{
    for one in outcomes {
        if is_same_text(one.text.as_slice(), text) {
            return true;
        }
    }
    false
}

/// Adds the outcome of a way, on which all lines are answered with this text, unless there is one with that text.
fn add_outcome(
    alloc: Global,
    outcomes: &mut Vec<Outcome>,
    way: &Way,
    text: Vec<u8>,
) -> Result<(), NoMemory>
    ensures { OnOk result (IsOutcomeAdded way.now.order.items text.items outcomes.old.items outcomes.new.items) }
{
    if is_listed(outcomes.as_slice(), text.as_slice()) {
        return Ok(());
    }
    let order = Vec::from_slice(alloc, way.order.as_slice())?;
    outcomes.push(Outcome { order, text })?;
    Ok(())
}

/// Returns the outcomes of these ways, each once, with the order of its first way.
///
/// `first`: what the lines before were answered. The orders of the ways ascend, so each outcome has its least order.
/// May return `NoMemory`.
pub fn outcomes_of(
    alloc: Global,
    first: &[u8],
    ways: &[Way],
    later: &[Line<'_>],
) -> Result<Vec<Outcome>, NoMemory>
    requires { IsAscending order_of ways.now }
    ensures { IfOk result (λ outcomes. AreOutcomes (text_from first.now later.now) ways.now outcomes.items) }
{
    let mut outcomes = Vec::new(alloc);
    for way in ways {
        let text = text_of(alloc, first, way, later)?;
        add_outcome(alloc, &mut outcomes, way, text)?;
    }
    Ok(outcomes)
}
