//! Statements in a loop, in which two sessions stay sessions of one store.
ghost use Rattle.std.specs.Prelude.{◌≡◌};
ghost use Rattle.nigbaru.specs.store.Passes.{log_of};

use crate::meeting::{both_connected, opened};
use crate::speech::say;
use anyhow::Result;
use nigbaru::{Log, Reply, Session};
use std::alloc::Global;
use std::sync::Wait;

/// Each text is said by the first session, which then meets the second, and by the second. They stay sessions of one
/// store.
pub fn say_in_turn<R: Wait>(
    rt: &R,
    first: &mut Session<'_, Log>,
    second: &mut Session<'_, Log>,
    texts: &[&str],
) -> Result<()>
    requires { log_of first.old.pass ≡ log_of second.old.pass }
    ensures { log_of first.new.pass ≡ log_of second.new.pass }
{
    for text in texts {
        say(rt, first, text)?;
        first.meet(second);
        say(rt, second, text)?;
    }
    Ok(())
}

/// Has both sessions execute these texts in turn and meet. Then the first reads a row.
fn read_after<R: Wait>(
    rt: &R,
    first: &mut Session<'_, Log>,
    second: &mut Session<'_, Log>,
    texts: &[&str],
) -> Result<Reply>
    requires { log_of first.old.pass ≡ log_of second.old.pass }
{
    say_in_turn(rt, first, second, texts)?;
    second.meet(first);
    say(rt, first, "GET 'm'")
}

/// Has two sessions write the same rows in turn. Then the first reads what is there after both have met.
pub fn written_in_turn<R: Wait>(rt: &R, alloc: Global) -> Result<Reply> {
    let (store, first, second) = opened(alloc)?;
    let (mut first, mut second) = both_connected(&store, first, second)?;
    read_after(rt, &mut first, &mut second, &["PUT 'k','v'", "PUT 'm','w'"])
}
