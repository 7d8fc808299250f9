//! Statements, read token by token.
ghost use Rattle.std.specs.Prelude.{◌≡◌, ℕ, IfOk, IfErr};
ghost use Rattle.xa_xid.specs.declared.statement.Statement.{Statement};
ghost use Rattle.xa_statement.specs.{FaultPlace.FaultAt, Grammar.Spells, Reading.{read_of, seen_of}};

use crate::SyntaxFault;
use crate::state::State;
use crate::token::token_of;
use crate::usual::read_any;
use xa_xid::{Statement, skip_blanks};

/// Reads the statement that the whole text spells.
///
/// Error: `SyntaxFault`, only if the text spells no statement. Its place is where the first token begins with which no
/// statement can go on, or the text's length if the text ends too soon. Takes no memory. Doesn't wait.
/// Source: MySQL 8.0 Reference Manual, 'XA Transaction SQL Statements'.
/// The row statements and the places are our own rule: docs/STATEMENTS.md#grammar,
/// docs/STATEMENTS.md#fault-places.
pub fn read_statement(text: &[u8]) -> Result<Statement, SyntaxFault>
    ensures value { result ≡ seen_of (read_of text.now) }
    // Proved (statements, reading): A text is read as a statement exactly if the grammar spells that
    //   statement so.
    ensures spelled { IfOk result (Spells text.now) }
    // Proved (statements, reading)
    ensures complete { (statement : Statement) → Spells text.now statement → result ≡ Ok statement }
    // Proved (statements, fault-places): A text is refused exactly if the rule of fault places gives a
    //   place for it, and the fault is at that place.
    ensures fault { IfErr result (λ fault. FaultAt text.now fault.at) }
    // Proved (statements, fault-places)
    ensures only_fault { (place : ℕ) → FaultAt text.now place → result ≡ Err (record { at = place }) }
{
    read_any(text)
}

/// Reads a text as `read_statement` does, token by token with the machine of states.
pub(crate) fn read_tokens(text: &[u8]) -> Result<Statement, SyntaxFault>
    ensures { result ≡ seen_of (read_of text.now) }
{
    let mut state = State::AtFirst;
    let mut rest = skip_blanks(text);
    // `rest` never begins with a blank, so it is empty or begins with a token.
    while !rest.is_empty() {
        let (token, tail) = token_of(rest);
        match state.step(token) {
            Some(next) => state = next,
            // No statement goes on with this token: the fault is where it begins.
            None => return Err(SyntaxFault {
                at: (text.len() - rest.len()) as u64,
            }),
        }
        rest = skip_blanks(tail);
    }
    // If the text ends before the statement is whole, the fault is at the text's end.
    state.finish().ok_or(SyntaxFault {
        at: text.len() as u64,
    })
}
