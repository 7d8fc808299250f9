//! Printing the results of the examples.

use crate::statement::reply_to_text;
use anyhow::{Result, bail};
use nigbaru::history::Entry;
use nigbaru::{Ending, Outcome, Reply, Report, Server, SessionNo};
use std::alloc::Global;
use std::str;

/// Prints what a reply is.
pub fn show_reply<R: Print>(rt: &R, what: &str, reply: &Reply) -> Result<()> {
    match reply {
        Reply::Ok => println!(rt; "{what}: OK")?,
        Reply::Value(None) => println!(rt; "{what}: no row")?,
        Reply::Value(Some(value)) => println!(rt; "{what}: {}", str::from_utf8(value.as_slice())?)?,
        Reply::Recovered(xids) => println!(rt; "{what}: {} prepared", xids.as_slice().len())?,
        Reply::Refused(error) => println!(rt; "{what}: refused, {error}")?,
    }
    Ok(())
}

/// Prints a server's reply to a text, or why the text is no statement.
fn show_statement<R: Print>(
    rt: &R,
    server: &mut Server,
    session: SessionNo,
    text: &str,
) -> Result<()> {
    match reply_to_text(server, session, text.as_bytes()) {
        Ok(reply) => show_reply(rt, text, &reply),
        Err(fault) => Ok(println!(rt; "{text}: {fault}")?),
    }
}

/// Prints a server's replies to statements that come as bytes, and that another text is no statement.
pub fn show_statements<R: Print>(rt: &R, alloc: Global) -> Result<()> {
    let mut server = Server::new(alloc);
    let Some(session) = SessionNo::of(1) else {
        bail!("no session 1");
    };
    for text in ["XA START 'a'", "PUT 'k','v'", "XA COMMIT 'a'", "XA GO 'a'"] {
        show_statement(rt, &mut server, session, text)?;
    }
    Ok(())
}

/// Prints how long a history is.
pub fn show_history<R: Print>(rt: &R, history: &[Entry]) -> Result<()> {
    println!(rt; "a history of {}", history.len())?;
    Ok(())
}

/// Prints how many statements of a race were logged, and how many refused.
pub fn show_race<R: Print>(rt: &R, outcome: &Outcome) -> Result<()> {
    let mut refused = 0u64;
    for answers in outcome.answers.as_slice() {
        if let [answer] = answers.as_slice()
            && answer.reply.is_refused()
        {
            refused = refused.wrapping_add(1);
        }
    }
    println!(rt;
        "a race: {} logged, {refused} refused",
        outcome.history.len()
    )?;
    Ok(())
}

/// Prints the first bytes of the prepared branches that a reply lists.
pub fn show_list<R: Print>(rt: &R, reply: &Reply) -> Result<()> {
    let Reply::Recovered(xids) = reply else {
        bail!("no list");
    };
    for xid in xids.as_slice() {
        println!(rt;
            "prepared on a thread: {}",
            str::from_utf8(xid.gtrid.as_slice())?
        )?;
    }
    Ok(())
}

/// Prints whether a transaction is committed.
pub fn show_ending<R: Print>(rt: &R, ending: &Ending) -> Result<()> {
    let word = if matches!(ending, Ending::Committed) {
        "committed"
    } else {
        "not committed"
    };
    println!(rt; "a row in both of two stores: {word}")?;
    Ok(())
}

/// Prints what a recovery did.
pub fn show_recovery<R: Print>(rt: &R, report: &Report) -> Result<()> {
    println!(rt;
        "a recovery: {} committed, {} rolled back",
        report.committed, report.rolled_back
    )?;
    Ok(())
}

/// Prints how much of a history was handed out, and how much was lost.
pub fn show_followed<R: Print>(rt: &R, told: (u64, u64)) -> Result<()> {
    let (entries, lost) = told;
    println!(rt; "followed: {entries} entries, {lost} lost")?;
    Ok(())
}
