//! A statement that comes as bytes.
ghost use Rattle.std.specs.Prelude.{◌≡◌, IfOk, OnErr};
ghost use Rattle.nigbaru.specs.{server.Step.Step, statement.Grammar.Spells};

use anyhow::Result;
use nigbaru::{Reply, Server, SessionNo, read_statement};

/// What a server on one thread replies to a statement that comes as bytes.
pub fn reply_to_text(server: &mut Server, session: SessionNo, text: &[u8]) -> Result<Reply>
    ensures step { IfOk result (λ reply. (statement : _) × Spells text.now statement
        × Step server.old session statement reply server.new) }
    ensures unchanged { OnErr result (server.new ≡ server.old) }
{
    let statement = read_statement(text)?;
    let reply = server.apply(session, &statement)?;
    Ok(reply)
}
