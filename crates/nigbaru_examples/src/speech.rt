//! A session of a store, and statements as text.
ghost use Rattle.std.specs.Prelude.{◌≡◌};
ghost use Rattle.nigbaru.specs.store.Passes.{log_of};

use anyhow::Result;
use nigbaru::{Log, Reply, Session, read_statement};
use std::sync::Wait;

/// What a session answers to the statement of a text. It stays a session of its store.
pub fn say<R: Wait>(rt: &R, session: &mut Session<'_, Log>, text: &str) -> Result<Reply>
    ensures { log_of session.new.pass ≡ log_of session.old.pass }
{
    let statement = read_statement(text.as_bytes())?;
    let answer = session.execute(rt, &statement)?;
    Ok(answer.reply)
}
