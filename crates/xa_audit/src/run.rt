//! Reads histories from readers, and writes the audit.
ghost use Rattle.std.specs.Prelude.{◌≡◌, ◌≤◌, ◌<◌, ◌+◌, ◌++◌, ◌∷◌, [], ℕ, List, length, IfOk, IfErr, IfSome, OnOk};
ghost use Rattle.std.specs.{Prelude.{OnErr, Err}, Io.KnownBytes.{IsAtEnd, Consumes}};
ghost use Rattle.xa_lines.specs.Calls.{HasReadAll, StopsReading, HasWritten, StopsWriting};
ghost use Rattle.xa_lines.specs.Transcript.{ConsumesMoreThan, IsOfReading};
ghost use Rattle.xa_audit.specs.Audits.{history_bytes, IsAuditOf, IsAudited, AppendsAudit, AppendsAuditPrefix};
ghost use Rattle.xa_audit.specs.Audits.{AfterAuditFault};

use crate::audit::Audit;
use crate::audited::audit_text;
use crate::ended::Ended;
use crate::form::Form;
use std::alloc::Global;
use xa_lines::{PieceReader, PieceWriter, ScriptFault, read_within, write_whole};

/// The greatest length of a history, in bytes: 16 MiB, as of a record.
const HISTORY_BYTES: usize = 16_777_216;

/// The greatest number of reads for a history. A reader that gives one byte at a time needs one for each byte and one
/// more; twice as many are ample, and with a bound the loop that reads ends.
const HISTORY_READS: u64 = 33_554_432;

/// Reads the history of the next store to its end, and takes it.
///
/// A history has at most 16,777,216 bytes, and takes at most 33,554,432 reads. At most 64 histories are taken.
/// Errors: `Read` if a read failed, or the history needs more reads; `TooLong` if the history is longer;
/// `NoMemory` if an allocation failed. A reader that failed isn't read again. After an error the audit is of
/// no use.
/// May return `NoMemory`. Waits only if the reader does.
/// Own rule: docs/HISTORIES.md#audits.
pub fn add_history<R: PieceReader>(
    alloc: Global,
    audit: &mut Audit,
    reader: &mut R,
) -> Result<(), ScriptFault>
    requires { audit.old.stores < 64 }
    // Proved (audit, history-reads-all): After Ok a history was read to its end, and was taken as the next
    //   one.
    ensures read { OnOk result (IsAtEnd (R.remaining reader.new)) }
    // Proved (audit, history-reads-all)
    ensures taken { OnOk result (IfSome (R.remaining reader.old)
        (λ history. (histories : List (List ℕ)) → IsAuditOf histories audit.old
        → IsAuditOf (histories ++ history ∷ []) audit.new)) }
    ensures stores { OnOk result (audit.new.stores ≡ audit.old.stores + 1) }
    // Proved (audit, history-length): A history that was taken has at most 16,777,216 bytes, and `TooLong`
    //   is returned only if more were read.
    ensures short { OnOk result (IfSome (R.remaining reader.old) (λ history. length history ≤ history_bytes)) }
    // Proved (audit, history-length)
    ensures too_long { result ≡ Err ScriptFault.TooLong → ConsumesMoreThan history_bytes (R.remaining reader.old)
        (R.remaining reader.new) }
    // Proved (audit, history-faults): The fault of a history is `Read`, `TooLong` or `NoMemory`.
    ensures fault { IfErr result IsOfReading }
{
    let history = read_within(alloc, reader, HISTORY_BYTES, HISTORY_READS)?;
    audit.add(alloc, history.as_slice())?;
    Ok(())
}

/// Writes the audit of the histories that were taken, and returns how it ends.
///
/// Nothing is written before the whole text is there. The writer isn't flushed.
/// Errors: `NoMemory` if an allocation failed, and nothing was written then; `Write` if a write failed or took
/// no byte, and a prefix of the text was written then. A writer that failed isn't called again.
/// May return `NoMemory`. Waits only if the writer does.
/// Own rule: docs/HISTORIES.md#audits.
pub fn write_audit<W: PieceWriter>(
    alloc: Global,
    audit: Audit,
    writer: &mut W,
    form: Form,
) -> Result<Ended, ScriptFault>
    // Proved (audit, written): After Ok the whole text of an audit is written, and the end that is returned
    //   belongs to it.
    ensures written { IfOk result
        (λ ended. (histories : List (List ℕ)) → IsAuditOf histories audit
        → AppendsAudit histories form ended (W.contents writer.old) (W.contents writer.new)) }
    // Proved (audit, fault): After `Write` a prefix of the text of an audit was written, after `NoMemory`
    //   nothing. There is no other fault.
    ensures fault { IfErr result
        (λ fault. (histories : List (List ℕ)) → IsAuditOf histories audit
        → AfterAuditFault histories form fault (W.contents writer.old) (W.contents writer.new)) }
{
    let audited = audit_text(alloc, audit, form)?;
    write_whole(writer, audited.text.as_slice())?;
    Ok(audited.ended)
}
