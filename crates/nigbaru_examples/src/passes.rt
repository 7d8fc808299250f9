//! A pass that comes back, whether a statement is answered or not.
ghost use Rattle.std.specs.Prelude.{◌≡◌};
ghost use Rattle.nigbaru.specs.store.Passes.{log_of, identity_of};

use crate::meeting::opened_for_one;
use crate::speech::say;
use anyhow::{Result, bail};
use nigbaru::{Pass, Reply, Store};
use std::alloc::Global;
use std::sync::Wait;

/// What a session of a pass answers to the statement of a text, and the pass, which comes back after an error too.
fn ask<R: Wait>(rt: &R, store: &Store, pass: Pass, text: &str) -> (Pass, Result<Reply>)
    requires { log_of pass ≡ identity_of store.now.log }
    ensures { log_of result.0 ≡ log_of pass }
{
    let mut session = match store.connect(pass) {
        Ok(session) => session,
        Err((pass, error)) => return (pass, Err(error.into())),
    };
    let reply = say(rt, &mut session, text);
    (session.leave(), reply)
}

/// Gives a session a text that is no statement, and then uses the pass once more.
pub fn asked_again<R: Wait>(rt: &R, alloc: Global) -> Result<Reply> {
    let (store, pass) = opened_for_one(alloc)?;
    let (pass, reply) = ask(rt, &store, pass, "XA GO 'a'");
    if reply.is_ok() {
        bail!("a statement");
    }
    let (_, reply) = ask(rt, &store, pass, "GET 'k'");
    reply
}
