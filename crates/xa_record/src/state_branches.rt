//! Makes the branches of a listing, by statements. A branch is started at its own line, and holds the rows of the lines
//! after it. Then, at the next branch or the end, it comes to its phase.
ghost use Rattle.std.specs.Prelude.{◌≡◌, OnOk};

use crate::open_branch::OpenBranch;
use crate::state_carrying::carry_out;
use crate::state_line::{StateLine, read_state_line};
use xa_lines::split_line;
use xa_server::{Phase, Server};
use xa_xid::{NoMemory, Statement};

/// Starts the branch of a line, in its session.
fn start(server: &mut Server, branch: &OpenBranch) -> Result<(), NoMemory>
    ensures { OnOk result (server.new.rows ≡ server.old.rows) }
{
    let statement = Statement::Start(branch.xid.copy());
    carry_out(server, branch.session, &statement)
}

/// Brings a branch that was started, and so is ACTIVE, to its phase: to IDLE by `XA END`, to PREPARED by `XA PREPARE`
/// after that.
fn end(server: &mut Server, branch: &OpenBranch) -> Result<(), NoMemory>
    ensures { OnOk result (server.new.rows ≡ server.old.rows) }
{
    if branch.phase == Phase::Active {
        return Ok(());
    }
    let statement = Statement::End(branch.xid.copy());
    carry_out(server, branch.session, &statement)?;
    if branch.phase == Phase::Idle {
        return Ok(());
    }
    let statement = Statement::Prepare(branch.xid.copy());
    carry_out(server, branch.session, &statement)
}

/// Brings the branch that is being made to its phase, if one is.
fn end_last(server: &mut Server, last: &Option<OpenBranch>) -> Result<(), NoMemory>
    ensures { OnOk result (server.new.rows ≡ server.old.rows) }
{
    match last {
        None => Ok(()),
        Some(branch) => end(server, branch),
    }
}

/// Has the branch that is being made hold the row of a statement, which its session carries out. Does nothing if none
/// is being made, as for rows of a branch that isn't made this time.
fn hold(
    server: &mut Server,
    last: &Option<OpenBranch>,
    statement: &Statement,
) -> Result<(), NoMemory>
    ensures { OnOk result (server.new.rows ≡ server.old.rows) }
{
    match last {
        None => Ok(()),
        Some(branch) => carry_out(server, branch.session, statement),
    }
}

/// Starts the branch and returns it, if it is of those that are made: if `prepared` the prepared ones, else the others.
/// Returns None if it isn't.
fn begin(
    server: &mut Server,
    prepared: bool,
    branch: OpenBranch,
) -> Result<Option<OpenBranch>, NoMemory>
    ensures { OnOk result (server.new.rows ≡ server.old.rows) }
{
    // Prepared branches are made first, since they free their session. The others stay open after that.
    if prepared != (branch.phase == Phase::Prepared) {
        return Ok(None);
    }
    start(server, &branch)?;
    Ok(Some(branch))
}

/// Goes on with a line, where `last` is the branch that is being made, if one is, and `prepared` says which branches
/// are made, as in `begin`. Returns the one that is being made after it. Lines of rows change nothing here.
fn take_line(
    server: &mut Server,
    prepared: bool,
    last: Option<OpenBranch>,
    line: &[u8],
) -> Result<Option<OpenBranch>, NoMemory>
    ensures { OnOk result (server.new.rows ≡ server.old.rows) }
{
    match read_state_line(line) {
        Some(StateLine::Branch(branch)) => {
            // The rows of the branch before have all come.
            end_last(server, &last)?;
            begin(server, prepared, branch)
        }
        Some(StateLine::Held(statement)) => {
            hold(server, &last, &statement)?;
            Ok(last)
        }
        // A line of a row. Lines that aren't of a state don't come: `take_rows` found none.
        _ => Ok(last),
    }
}

/// Makes branches of the text, each with the rows that it holds: if `prepared` the prepared ones, else the others.
///
/// May return `NoMemory`.
pub fn take_branches(server: &mut Server, prepared: bool, text: &[u8]) -> Result<(), NoMemory>
    ensures { OnOk result (server.new.rows ≡ server.old.rows) }
{
    let mut last = None;
    let mut rest = text;
    while !rest.is_empty() {
        let (line, lines) = split_line(rest);
        last = take_line(server, prepared, last, line)?;
        rest = lines;
    }
    end_last(server, &last)
}
