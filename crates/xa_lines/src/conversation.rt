//! Answers a client, line by line.
//!
//! This loop isn't `run_script`'s: a run ends if memory runs out, so that none of its answers depends on memory,
//! while a conversation answers `ERROR 1037` and goes on, and limits the length of a line.
ghost use Rattle.std.specs.Prelude.{◌≡◌, ◌≤◌, ◌∷◌, [], ℕ, List, IfErr, IfSome, OnOk, OnErr};
ghost use Rattle.xa_lines.specs.{Answer.bytes_of, Received.{held_by, Whole}, Served.{IsServed, IsCutOff, AfterServing}};
ghost use Rattle.xa_lines.specs.Exchange.{Exchange, IsFresh, CanBeTold, WritesText, Flushes};
ghost use Rattle.xa_lines.specs.{declared.stage.Stage.Stage, UnderWay.{UnderWay, IsAllAnswered}};

use crate::begun_line::BegunLine;
use crate::{Client, LineServer, ScriptFault};
use std::alloc::Global;

/// Flushes all that was given to the client. Returns `Write` if that fails.
fn flush<S: LineServer, P: Client<S>>(client: &mut P) -> Result<(), ScriptFault>
    requires { IfSome (P.exchange client.old) CanBeTold }
    ensures flushed { Flushes (P.exchange client.old) (P.exchange client.new) result }
    ensures fault { IfErr result (λ fault. fault ≡ ScriptFault.Write) }
{
    match client.flush() {
        Ok(()) => Ok(()),
        Err(_) => Err(ScriptFault::Write),
    }
}

/// Answers the line that has been received, and begins the next. The answer isn't flushed yet. Returns `Write` if the
/// client doesn't take it.
fn answer_begun<S: LineServer, P: Client<S>>(
    alloc: Global,
    server: &mut S,
    client: &mut P,
    line: &mut BegunLine,
) -> Result<(), ScriptFault>
    requires { IfSome (P.exchange client.old) CanBeTold }
    ensures answer { (answer : List ℕ)
        × S.answers server.old (held_by line.old) answer server.new
        × WritesText (P.exchange client.old) (P.exchange client.new) result answer }
    ensures next { held_by line.new ≡ Whole [] }
    ensures more { OnOk result (IfSome (P.exchange client.new) CanBeTold) }
    ensures fault { IfErr result (λ fault. fault ≡ ScriptFault.Write) }
{
    let answer = line.answer(alloc, server);
    line.clear();
    match client.tell(answer.as_slice()) {
        Ok(()) => Ok(()),
        Err(_) => Err(ScriptFault::Write),
    }
}

/// Takes a byte that was received. A line feed ends `line`, which is then answered; any other byte is added to it.
/// Returns `Write` if the client doesn't take the answer.
fn take_byte<S: LineServer, P: Client<S>>(
    alloc: Global,
    server: &mut S,
    client: &mut P,
    line: &mut BegunLine,
    byte: u8,
) -> Result<(), ScriptFault>
    requires { IfSome (P.exchange client.old) CanBeTold }
    ensures more { OnOk result (IfSome (P.exchange client.new) CanBeTold) }
    ensures ok { OnOk result
        ((reads : ℕ) (waiting : List ℕ)
        → UnderWay S.begins S.answers Stage.Open reads (P.exchange client.old) (byte ∷ waiting)
        (held_by line.old) server.old
        → UnderWay S.begins S.answers Stage.Open reads (P.exchange client.new) waiting (held_by line.new) server.new) }
    ensures err { OnErr result
        ((reads : ℕ) (waiting : List ℕ)
        → UnderWay S.begins S.answers Stage.Open reads (P.exchange client.old) (byte ∷ waiting)
        (held_by line.old) server.old
        → IfSome (P.exchange client.new) (IsCutOff S.begins S.answers)) }
    ensures fault { IfErr result (λ fault. fault ≡ ScriptFault.Write) }
{
    if byte == b'\n' {
        answer_begun(alloc, server, client, line)
    } else {
        line.put(byte);
        Ok(())
    }
}

/// Takes a piece of what was received, and answers each line that ends in it. `line` holds what was received after the
/// last line feed, before the piece and then after it. Returns `Write` at the first answer that the client doesn't
/// take.
fn take_piece<S: LineServer, P: Client<S>>(
    alloc: Global,
    server: &mut S,
    client: &mut P,
    line: &mut BegunLine,
    piece: &[u8],
) -> Result<(), ScriptFault>
    requires { IfSome (P.exchange client.old) CanBeTold }
    ensures more { OnOk result (IfSome (P.exchange client.new) CanBeTold) }
    ensures ok { OnOk result
        ((reads : ℕ)
        → UnderWay S.begins S.answers Stage.Open reads (P.exchange client.old) piece.now (held_by line.old) server.old
        → UnderWay S.begins S.answers Stage.Open reads (P.exchange client.new) [] (held_by line.new) server.new) }
    ensures err { OnErr result
        ((reads : ℕ)
        → UnderWay S.begins S.answers Stage.Open reads (P.exchange client.old) piece.now (held_by line.old) server.old
        → IfSome (P.exchange client.new) (IsCutOff S.begins S.answers)) }
    ensures fault { IfErr result (λ fault. fault ≡ ScriptFault.Write) }
{
    for byte in piece {
        take_byte(alloc, server, client, line, *byte)?;
    }
    Ok(())
}

/// Answers what stands behind the last line feed, if anything does, when nothing more is to be received. Returns
/// `Write` if the client doesn't take the answer.
fn answer_last<S: LineServer, P: Client<S>>(
    alloc: Global,
    server: &mut S,
    client: &mut P,
    line: &mut BegunLine,
) -> Result<(), ScriptFault>
    requires { IfSome (P.exchange client.old) CanBeTold }
    ensures more { OnOk result (IfSome (P.exchange client.new) CanBeTold) }
    ensures ok { OnOk result
        ((reads : ℕ)
        → UnderWay S.begins S.answers Stage.Ended reads (P.exchange client.old) [] (held_by line.old) server.old
        → IfSome (P.exchange client.new) (IsAllAnswered S.begins S.answers)) }
    ensures err { OnErr result
        ((reads : ℕ)
        → UnderWay S.begins S.answers Stage.Ended reads (P.exchange client.old) [] (held_by line.old) server.old
        → IfSome (P.exchange client.new) (IsCutOff S.begins S.answers)) }
    ensures fault { IfErr result (λ fault. fault ≡ ScriptFault.Write) }
{
    // The last byte was a line feed, or there was none, so no line has begun.
    if line.is_empty() {
        return Ok(());
    }
    answer_begun(alloc, server, client, line)
}

/// Serves a client to its end.
///
/// It receives a piece, answers each line that ends in it, flushes the answers, and only then receives more.
/// There is no limit to the number of lines. A line has at most 65,536 bytes without its line feed, and no
/// more is kept of a longer one.
/// Errors: `NoMemory` if the memory for a line was refused, before anything was received; `Read` if a read
/// failed, or after 2 ^ 64 - 1 reads; `Write` if a write or a flush failed. Any error of the client ends the
/// conversation at once.
/// After `Read` all whole lines are answered. After `Write` a prefix of the answers was given, and nothing
/// more is given.
/// Takes memory for one line, once, and what the server takes to answer. Doesn't wait, unless the client does.
/// Own rule: docs/COMMANDS.md#serve.
pub fn serve<S: LineServer, P: Client<S>>(
    alloc: Global,
    server: &mut S,
    client: &mut P,
) -> Result<(), ScriptFault>
    requires begins { S.begins server.old }
    requires fresh { IfSome (P.exchange client.old) IsFresh }
    // Proved (scripts, served-to-the-end): When `serve` returns `Ok` the client has ended, and all its lines
    //   are answered in order, by one server, and flushed.
    ensures ok { OnOk result (IfSome (P.exchange client.new) (IsServed S.begins S.answers)) }
    // Proved (scripts, serving-faults)
    ensures fault { IfErr result (λ fault. IfSome (P.exchange client.new) (AfterServing S.begins S.answers fault)) }
{
    let mut line = BegunLine::new(alloc)?;
    // One read gives at most 4,096 bytes, and the answers to its lines are flushed together. Any size but 0 would do.
    let mut piece = [0u8; 4096];
    // With a bound the loop is known to end. No client sends as often as this.
    for _read in 0..u64::MAX {
        let count = match client.receive(&mut piece) {
            Ok(count) => count,
            Err(_) => return Err(ScriptFault::Read),
        };
        // The end: what stands behind the last line feed is a line, too.
        if count == 0 {
            answer_last(alloc, server, client, &mut line)?;
            return flush(client);
        }
        take_piece(alloc, server, client, &mut line, &piece[..count])?;
        flush(client)?;
    }
    // No read is left, and none has found the end.
    Err(ScriptFault::Read)
}
