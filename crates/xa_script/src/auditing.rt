//! Audits histories, and returns the exit status for how that ended.
ghost use Rattle.std.specs.Prelude.{◌≡◌, ◌≤◌, ◌<◌, ◌+◌, ◌++◌, ◌∷◌, [], ℕ, List, Some, IfOk, IfErr, OnOk, IfSome, map};
ghost use Rattle.std.specs.Prelude.{length};
ghost use Rattle.xa_lines.specs.Transcript.{IsOfReading};
ghost use Rattle.xa_audit.specs.Audits.{IsAuditOf};
ghost use Rattle.xa_script.specs.Status.{audit_form, status_of_audit, AppendsAuditBy, AfterAuditing};

use crate::watch::Watch;
use std::alloc::Global;
use std::io::{Read, Write};
use xa_audit::{Audit, Ended, Form, add_history, write_audit};
use xa_lines::ScriptFault;

/// The status if each global transaction is ATOMIC.
const ATOMIC: u8 = 0;

/// The status if a line of some history isn't read.
const FAULTY: u8 = 6;

/// The status if some global transaction isn't ATOMIC.
const NOT_ATOMIC: u8 = 9;

/// Returns the exit status for how an audit ended.
fn status_of_ended(ended: Ended) -> u8
    ensures { result ≡ status_of_audit ended }
{
    match ended {
        Ended::AllAtomic => ATOMIC,
        Ended::SomeNotAtomic => NOT_ATOMIC,
        Ended::Unread => FAULTY,
    }
}

/// Returns the form in which an audit is written. An object of JSON has one line, so `quiet` doesn't change it.
pub fn form_asked(json: bool, quiet: bool) -> Form
    // Proved (scripts, audit-as-asked): The form of an audit is the one that the table has for `--json` and
    //   `--quiet`.
    ensures { result ≡ audit_form json quiet }
{
    if json {
        Form::Json
    } else if quiet {
        Form::LastLine
    } else {
        Form::Lines
    }
}

/// Adds the history of the next store to an audit. If it can't be read or is too long, the standard error names the
/// file.
fn take_next<I: Read + Drop, R: Eprint + Alloc<A = Global>>(
    rt: &R,
    audit: &mut Audit,
    mut input: Watch<'_, I, R>,
) -> Result<(), ScriptFault>
    requires { audit.old.stores < 64 }
    ensures taken { OnOk result (IfSome (I.remaining input.entry.inner)
        (λ history. (histories : List (List ℕ)) → IsAuditOf histories audit.old
        → IsAuditOf (histories ++ history ∷ []) audit.new)) }
    ensures stores { OnOk result (audit.new.stores ≡ audit.old.stores + 1) }
    ensures fault { IfErr result IsOfReading }
{
    let taken = add_history(rt.alloc(), audit, &mut input);
    // Of any other fault the file isn't the cause.
    if matches!(taken, Err(ScriptFault::Read | ScriptFault::TooLong)) {
        input.tell_unread();
    }
    taken?;
    // An audit has no `--strict`, so this only asks whether memory was refused for looking at the lines.
    input.has_faults()?;
    Ok(())
}

/// Returns the audit of these histories, store by store, which isn't written yet.
fn take_each<I: Read + Drop, R: Eprint + Alloc<A = Global>>(
    rt: &R,
    inputs: Vec<Watch<'_, I, R>>,
) -> Result<Audit, ScriptFault>
    requires { length inputs.items ≤ 64 }
    ensures taken { IfOk result
        (λ audit. (histories : List (List ℕ)) → map (λ input. I.remaining input.inner) inputs.entry.items
        ≡ map Some histories → IsAuditOf histories audit) }
    ensures fault { IfErr result IsOfReading }
{
    let mut audit = Audit::new(rt.alloc());
    for input in inputs {
        take_next(rt, &mut audit, input)?;
    }
    Ok(audit)
}

/// Takes the histories of stores 1, 2, .., writes their audit in this form, or, whatever the form, only the lines that
/// aren't read, and returns the exit status for it. There are at most 64.
///
/// Errors: as `add_history` and `write_audit`. After `Write` a prefix of the text was written, after any other
/// error nothing.
/// May return `NoMemory`. Doesn't wait, unless a reader, the writer or the standard error does.
/// Own rule: docs/COMMANDS.md#audit.
pub fn audit_within<I: Read + Drop, W: Write, R: Eprint + Alloc<A = Global>>(
    rt: &R,
    inputs: Vec<Watch<'_, I, R>>,
    writer: &mut W,
    form: Form,
) -> Result<u8, ScriptFault>
    requires { length inputs.items ≤ 64 }
    // Proved (scripts, status-of-an-audit): What is written is the audit of all that the inputs hold, in their order,
    //   and the status that is returned is the one that the table has for how it ended.
    ensures audited { IfOk result (λ status. (histories : List (List ℕ))
        → map (λ input. I.remaining input.inner) inputs.entry.items ≡ map Some histories
        → AppendsAuditBy histories form status (W.contents writer.old) (W.contents writer.new)) }
    ensures fault { IfErr result (λ fault. (histories : List (List ℕ))
        → map (λ input. I.remaining input.inner) inputs.entry.items ≡ map Some histories
        → AfterAuditing histories form fault (W.contents writer.old) (W.contents writer.new)) }
{
    let audit = take_each(rt, inputs)?;
    let ended = write_audit(rt.alloc(), audit, writer, form)?;
    Ok(status_of_ended(ended))
}
