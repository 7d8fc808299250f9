//! Writes what a job writes as objects of JSON.
ghost use Rattle.std.specs.{Prelude.{◌≡◌, Ok, IfOk, IfErr, OnOk}, Io.KnownBytes.Appends};
ghost use Rattle.xa_lines.specs.{Script.lines_of, Objects.objects_of, Writing.AfterWriting};

use crate::json_objects::objects_text;
use crate::{ScriptFault, write_whole};
use std::alloc::Global;
use std::io::Write;

/// Returns how a job that wrote to memory ended: `NoMemory` in place of `Write`, since such a write fails only if
/// memory runs out. Any other result stays.
pub fn in_memory<T: Drop>(done: Result<T, ScriptFault>) -> Result<T, ScriptFault>
    ensures same { IfOk result (λ value. done ≡ Ok value) }
    ensures fault { IfErr result (λ fault. fault ≡ ScriptFault.Write → ⊥) }
{
    match done {
        Ok(value) => Ok(value),
        Err(ScriptFault::Write) => Err(ScriptFault::NoMemory),
        Err(fault) => Err(fault),
    }
}

/// Writes the lines of a text, each as an object.
///
/// Errors: `NoMemory` if an allocation failed: nothing was written then. `Write` if a write failed or took no byte: a
/// prefix was written then.
/// May return `NoMemory`. Waits only if the writer does.
/// Own rule: docs/COMMANDS.md#output-as-json.
pub fn write_objects<W: Write>(
    alloc: Global,
    writer: &mut W,
    text: &[u8],
) -> Result<(), ScriptFault>
    ensures all { OnOk result
        (Appends (W.contents writer.old) (W.contents writer.new) (objects_of (lines_of text.now))) }
    ensures fault { IfErr result (λ fault.
        AfterWriting (objects_of (lines_of text.now)) fault (W.contents writer.old) (W.contents writer.new)) }
{
    let objects = objects_text(alloc, text)?;
    write_whole(writer, objects.as_slice())
}
