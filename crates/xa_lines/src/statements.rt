//! The sequential server as a server of lines.
ghost use Rattle.std.specs.Prelude.{◌≡◌, IfErr, IfSome, OnOk};
ghost use Rattle.xa_lines.specs.{Answer.bytes_of, Exchange.IsFresh, Statements.{IsToldAll, AfterFaultOfStatements}};

use crate::served_answer::serve_given;
use crate::short_answer::bad_line;
use crate::{Answer, Client, LineServer, ScriptFault, ScriptLine, read_line, serve};
use arrayvec::ArrayVec;
use std::alloc::Global;
use xa_server::Server;

impl LineServer for Server {
    ghost use Rattle.xa_lines.specs.Statements.{HoldsNothing, IsLineAnswer};

    ghost begins = { HoldsNothing };

    // Proved (scripts, who-is-refused-memory): Only an `XA RECOVER`, or an `XA START`, `GET`, `PUT` or `DEL`
    //   that is logged, is ever answered out of memory. It has then changed nothing.
    ghost answers = { IsLineAnswer };

    /// Answers a line as in a script, but if memory is refused the answer says so. The answer to a line of blanks is
    /// empty.
    fn answer(&mut self, alloc: Global, line: &[u8]) -> Answer {
        match read_line(line) {
            ScriptLine::Blank => Answer::Short(ArrayVec::new()),
            ScriptLine::Bad => bad_line(),
            ScriptLine::Given(session, text) => serve_given(alloc, self, session, text),
        }
    }

    /// Answers as for a bad line, since what begins the line isn't looked at.
    fn answer_long(&mut self) -> Answer {
        bad_line()
    }
}

/// Serves a client by a sequential server, which is empty at first, until the client ends.
///
/// Each line is answered as in a script, and the answers to all whole lines are flushed before more is
/// received. A line of more than 65,536 bytes without its line feed is answered as a bad one. If memory is
/// refused for a statement, its answer is `ERROR 1037 (HY001): out of memory`, and the server goes on as
/// before. Only an `XA RECOVER`, or an `XA START`, `GET`, `PUT` or `DEL` that is logged, gets that answer.
/// Errors: `NoMemory` if the memory for a line was refused, before anything was received; `Read` if a read
/// failed, or after 2 ^ 64 - 1 reads; `Write` if a write or a flush failed.
/// After `Read` all whole lines are answered. After `Write` a prefix of the answers was given.
/// Takes memory. Doesn't wait, unless the client does.
/// Own rule: docs/COMMANDS.md#serve.
pub fn serve_statements<P: Client<Server>>(alloc: Global, client: &mut P) -> Result<(), ScriptFault>
    requires { IfSome (P.exchange client.old) IsFresh }
    // Proved (scripts, served-lines): When a served client has ended, each of its lines has the answer of a
    //   script's run. A line that is too long has the answer of a bad line. A statement may instead be
    //   answered out of memory, and has then changed nothing.
    ensures told { OnOk result (IfSome (P.exchange client.new) IsToldAll) }
    // Proved (scripts, serving-faults): After a read fault all whole lines are answered. After a write fault the
    //   first answers were given, the last of them perhaps in part. If there was no memory for one line, nothing was
    //   read or written. A read fault is returned only if a read failed, or after 2^64 - 1 bytes, and a write fault
    //   only if a write or a flush failed.
    ensures fault { IfErr result (λ fault. IfSome (P.exchange client.new) (AfterFaultOfStatements fault)) }
{
    let mut server = Server::new(alloc);
    serve(alloc, &mut server, client)
}
