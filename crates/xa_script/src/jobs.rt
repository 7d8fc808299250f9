//! The jobs, from a reader to a writer. Each returns the exit status, or the fault that ended it.
//!
//! No `speaks` changes what a job writes: it is for the standard error alone.
ghost use Rattle.std.specs.Prelude.{◌≡◌, ◌⊎◌, [], ℕ, Ok, Err, IfOk, IfErr, OnOk};
ghost use Rattle.std.specs.Io.{KnownBytes.Keeps, Buffered.{writer_buffer, writer_contents, writer_inner}};
ghost use Rattle.decision_log.specs.Opens.{IsCapacity};
ghost use Rattle.xa_lines.specs.Writing.{AppendsObjects, AfterObjects};
ghost use Rattle.xa_script.specs.CommandLine.{CanBeDone, IsLimit, IsStoreCount, ReadsInput};
ghost use Rattle.xa_script.specs.Jobs.{HasConversed, HasDone, HasJudged, HasRun, HasWritten, lists};

use crate::advised::Advised;
use crate::exploring::explore;
use crate::judging::asked;
use crate::judging_read::judge_read;
use crate::line_form::LineForm;
use crate::manner::Manner;
use crate::racing::race;
use crate::running::run_by;
use crate::spoken::Spoken;
use crate::stopping::stops;
use crate::telling::Telling;
use crate::texts::Texts;
use crate::{DONE, Job};
use std::alloc::Global;
use std::io;
use std::io::{BufWriter, Printer, Read, Write};
use std::rt::Clock;
use std::sync::Wait;
use std::thread::Threads;
use xa_lines::{
    LineServer, ScriptFault, Transport, in_memory, run_script, serve_statements, show_statements,
    write_objects,
};
use xa_manager::{
    BesideServer, CallServer, converse, converse_lasting, lasting_manager, manager_over,
    open_stores,
};
use xa_record::{Allowance, Asked};
use xa_server::Server;

/// The standard output, with a buffer.
pub type Output<'r, R> = BufWriter<Spoken<'r, Printer<'r, R>, R>>;

/// Returns a writer with a buffer before `writer`; `NoMemory` if there is no memory for the buffer.
fn gathered<R: Alloc<A = Global>, W: Write + Drop>(
    rt: &R,
    writer: W,
) -> Result<BufWriter<W>, ScriptFault>
    ensures { IfOk result (λ output. writer_inner output ≡ writer) }
{
    match BufWriter::new(rt.alloc(), writer) {
        Ok(output) => Ok(output),
        // Only memory for the buffer can be refused.
        Err(_) => Err(ScriptFault::NoMemory),
    }
}

/// Returns the standard output. If `speaks`, the cause of a failed write is reported.
pub fn output<R: Print + Eprint + Alloc<A = Global>>(
    rt: &R,
    speaks: bool,
) -> Result<Output<'_, R>, ScriptFault> {
    gathered(rt, Spoken::new(rt, io::writer(rt), speaks))
}

/// Returns the standard output, on which literals of printable bytes are written as `'text'` in lines of this form.
/// If `speaks`, the cause of a failed write is reported.
pub fn text_output<R: Print + Eprint + Alloc<A = Global>>(
    rt: &R,
    speaks: bool,
    form: LineForm,
) -> Result<BufWriter<Texts<Output<'_, R>>>, ScriptFault>
    ensures { IfOk result (λ output. (writer_inner output).form ≡ form) }
{
    let texts = Texts::new(output(rt, speaks)?, form);
    gathered(rt, texts)
}

/// Flushes the output, and returns how the job ended. If the flush fails that is a write fault, however the
/// job itself ended.
pub fn flushed<W: Write + Drop>(
    output: &mut BufWriter<W>,
    done: Result<u8, ScriptFault>,
) -> Result<u8, ScriptFault>
    ensures kept { Keeps (writer_contents W.contents output.old) (writer_contents W.contents output.new) }
    ensures ends { (result ≡ done) ⊎ (result ≡ Err ScriptFault.Write) }
    ensures emptied { OnOk result (writer_buffer output.new ≡ []) }
{
    if output.flush().is_err() {
        return Err(ScriptFault::Write);
    }
    done
}

/// Runs the script.
fn run<I: Read, O: Write>(alloc: Global, input: &mut I, output: &mut O) -> Result<u8, ScriptFault>
    ensures { HasRun (I.remaining input.old) (O.contents output.old) (O.contents output.new) result }
{
    match run_script(alloc, input, output) {
        Ok(()) => Ok(DONE),
        Err(fault) => Err(fault),
    }
}

/// Judges the record, which begins with the state of `base`. Of `manner` it takes whether progress isn't reported
/// (`quiet`), and whether lines are judged as they come, too (`follow`).
fn judge<I: Read, O: Write, R: Clock + Eprint + Alloc<A = Global>>(
    rt: &R,
    input: &mut I,
    output: &mut O,
    base: &Server,
    allowances: &[Allowance],
    asked: Asked,
    manner: &Manner<'_>,
) -> Result<u8, ScriptFault>
    requires { IsLimit asked.limit }
    ensures { HasJudged base.now allowances.now asked (I.remaining input.old) (O.contents output.old)
        (O.contents output.new) result }
{
    let mut telling = Telling::new(rt, manner.quiet);
    let telling = &mut telling;
    let follow = manner.follow;
    judge_read(
        rt, base, input, None, output, allowances, asked, follow, telling,
    )
}

/// Returns a client over the reader and the writer. `output` has a buffer already, so the client's own has no room.
fn client_over<'a, I: Read, O: Write>(
    alloc: Global,
    input: &'a mut I,
    output: &'a mut O,
) -> Result<Transport<&'a mut I, &'a mut O>, ScriptFault> {
    match BufWriter::with_capacity(alloc, 0, output) {
        Ok(writer) => Ok(Transport::new(input, writer)),
        // A buffer without room takes no memory, so this doesn't happen.
        Err(_) => Err(ScriptFault::NoMemory),
    }
}

/// Has a server answer each call, and explains each one that is out of turn. `NoMemory` also if memory was refused for
/// that.
fn serve_advised<S: LineServer + Drop, I: Read, O: Write, R: Eprint + Alloc<A = Global>>(
    rt: &R,
    client: &mut Transport<&mut I, &mut O>,
    server: S,
) -> Result<u8, ScriptFault>
    requires { S.begins server }
    ensures { HasConversed result }
{
    let mut server = Advised::new(rt, server);
    xa_lines::serve(rt.alloc(), &mut server, client)?;
    server.looked()?;
    Ok(DONE)
}

/// Carries out the calls over stores that are never full. If `speaks`, each call that is out of turn is
/// explained.
fn coordinate<I: Read, O: Write, R: Eprint + Alloc<A = Global> + Wait>(
    rt: &R,
    input: &mut I,
    output: &mut O,
    speaks: bool,
    stores: u64,
) -> Result<u8, ScriptFault>
    requires { IsStoreCount stores }
    ensures { HasConversed result }
{
    let mut client = client_over(rt.alloc(), input, output)?;
    // Nothing is explained, so nobody has to follow the transactions.
    if !speaks {
        converse_lasting(rt, rt.alloc(), &mut client, stores)?;
        return Ok(DONE);
    }
    let manager = lasting_manager(rt.alloc(), stores)?;
    serve_advised(rt, &mut client, BesideServer::new(rt, manager))
}

/// Carries out the calls over stores whose histories have room for `capacity` entries. If `speaks`, each call that is
/// out of turn is explained.
fn coordinate_fixed<I: Read, O: Write, R: Eprint + Alloc<A = Global> + Wait>(
    rt: &R,
    input: &mut I,
    output: &mut O,
    speaks: bool,
    stores: u64,
    capacity: u64,
) -> Result<u8, ScriptFault>
    requires stores { IsStoreCount stores }
    requires capacity { IsCapacity capacity }
    ensures { HasConversed result }
{
    let mut client = client_over(rt.alloc(), input, output)?;
    // The first session of each store is the coordinator's, the second that of other clients.
    let (stores, firsts, seconds) = open_stores(rt.alloc(), stores, capacity)?;
    let stores = stores.as_slice();
    // Nothing is explained, so nobody has to follow the transactions.
    if !speaks {
        converse(rt, rt.alloc(), &mut client, stores, firsts, seconds)?;
        return Ok(DONE);
    }
    let manager = manager_over(rt.alloc(), stores, firsts, seconds)?;
    serve_advised(rt, &mut client, CallServer::new(rt, manager))
}

/// Answers each line before it reads more.
fn serve<I: Read, O: Write, R: Alloc<A = Global>>(
    rt: &R,
    input: &mut I,
    output: &mut O,
) -> Result<u8, ScriptFault>
    ensures { HasConversed result }
{
    let mut client = client_over(rt.alloc(), input, output)?;
    serve_statements(rt.alloc(), &mut client)?;
    Ok(DONE)
}

/// Answers each line before it reads more, and shows the store after each answer.
fn show<I: Read, O: Write, R: Alloc<A = Global>>(
    rt: &R,
    input: &mut I,
    output: &mut O,
) -> Result<u8, ScriptFault>
    ensures { HasConversed result }
{
    let mut client = client_over(rt.alloc(), input, output)?;
    show_statements(rt.alloc(), &mut client)?;
    Ok(DONE)
}

/// Does a job that isn't to audit, from a reader to a writer, and returns the exit status. With `--json` a verdict is
/// an object; the lines of other jobs aren't.
fn write_lines<I: Read, O: Write, R: Clock + Eprint + Alloc<A = Global> + Threads + Wait + Sync>(
    rt: &R,
    input: &mut I,
    output: &mut O,
    job: Job,
    manner: &Manner<'_>,
    allowances: &[Allowance],
    base: &Server,
) -> Result<u8, ScriptFault>
    requires done { CanBeDone job }
    requires input { ReadsInput job }
    // Proved (scripts, jobs-as-asked)
    ensures { HasWritten job manner.now.json base.now allowances.now (I.remaining input.old) (O.contents output.old)
        (O.contents output.new) result }
{
    match job {
        Job::Run => run(rt.alloc(), input, output),
        Job::Race {
            capacity,
            schedule,
            renews,
            runs: None,
        } => race(rt, input, output, capacity, schedule, renews),
        Job::Race {
            capacity,
            schedule,
            renews,
            runs: Some(runs),
        } => run_by(rt, input, output, capacity, schedule, renews, runs),
        Job::Coordinate {
            stores,
            capacity,
            fixed,
        } => {
            if fixed {
                return coordinate_fixed(rt, input, output, manner.verbose, stores, capacity);
            }
            // Such stores are never full, so `--capacity` has no effect.
            coordinate(rt, input, output, manner.verbose, stores)
        }
        Job::Serve => serve(rt, input, output),
        Job::Show => show(rt, input, output),
        Job::Judge {
            limit,
            explain,
            strict_calls,
            shrink,
        } => {
            let asked = asked(limit, explain, manner.json, strict_calls, shrink);
            judge(rt, input, output, base, allowances, asked, manner)
        }
        Job::Explore { limit } => explore(rt.alloc(), input, output, limit),
        Job::Stops { stores } => stops(rt, rt.alloc(), input, output, stores),
        // `carry_out` does audits, which have several readers.
        Job::Audit => unreachable!(),
    }
}

/// Does a job as `write_lines` does, writes as an object each line that it would write, and returns the exit status.
fn write_as_objects<
    I: Read,
    O: Write,
    R: Clock + Eprint + Alloc<A = Global> + Threads + Wait + Sync,
>(
    rt: &R,
    input: &mut I,
    output: &mut O,
    job: Job,
    manner: &Manner<'_>,
    allowances: &[Allowance],
    base: &Server,
) -> Result<u8, ScriptFault>
    requires done { CanBeDone job }
    requires input { ReadsInput job }
    // Proved (scripts, output-as-json): The objects of `explore` and `race` are those of the lines that they write
    //   without `--json`, in the same order, and the status is the same. Those of `stops` are the lines of a text.
    //   After `Write` a prefix of these was written, after another fault nothing.
    ensures done { IfOk result (λ status. AppendsObjects (λ before after. HasWritten job manner.now.json base.now
        allowances.now (I.remaining input.old) before after (Ok status)) (O.contents output.old)
        (O.contents output.new)) }
    // Proved (scripts, output-as-json)
    ensures fault { IfErr result (λ fault. AfterObjects (λ before after. (status : ℕ) × HasWritten job manner.now.json
        base.now allowances.now (I.remaining input.old) before after (Ok status)) fault (O.contents output.old)
        (O.contents output.new)) }
{
    // All lines are made in memory first, so nothing is written if that fails.
    let mut text = Vec::new(rt.alloc());
    let done = write_lines(rt, input, &mut text, job, manner, allowances, base);
    let status = in_memory(done)?;
    write_objects(rt.alloc(), output, text.as_slice())?;
    Ok(status)
}

/// Returns whether `--json` makes an object of each line that a job writes. A verdict and an audit have an object of
/// their own.
fn is_listing(job: Job) -> bool
    ensures { result ≡ lists job }
{
    match job {
        Job::Race { .. } | Job::Explore { .. } | Job::Stops { .. } => true,
        Job::Run | Job::Coordinate { .. } | Job::Serve | Job::Show => false,
        Job::Judge { .. } | Job::Audit => false,
    }
}

/// Does a job that isn't to audit, from a reader to a writer, as `--json` says, and returns the exit status.
pub fn write_as_asked<
    I: Read,
    O: Write,
    R: Clock + Eprint + Alloc<A = Global> + Threads + Wait + Sync,
>(
    rt: &R,
    input: &mut I,
    output: &mut O,
    job: Job,
    manner: &Manner<'_>,
    allowances: &[Allowance],
    base: &Server,
) -> Result<u8, ScriptFault>
    requires done { CanBeDone job }
    requires input { ReadsInput job }
    // Proved (scripts, jobs-as-asked)
    ensures { HasDone job manner.now.json base.now allowances.now (I.remaining input.old) (O.contents output.old)
        (O.contents output.new) result }
{
    if manner.json && is_listing(job) {
        write_as_objects(rt, input, output, job, manner, allowances, base)
    } else {
        write_lines(rt, input, output, job, manner, allowances, base)
    }
}
