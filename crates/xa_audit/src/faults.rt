//! The lines of histories that aren't read.
ghost use Rattle.std.specs.Prelude.{◌≡◌, ◌++◌, OnOk};
ghost use Rattle.xa_lines.specs.Script.{lines_of};
ghost use Rattle.xa_audit.specs.Histories.{fault_said, said_on, faults_in};

use crate::said::{Said, read_said};
use xa_lines::{push_number, push_syntax_fault, split_line};
use xa_xid::NoMemory;

/// Appends what is written for a line that isn't read: its store, its number in the store's history, and the byte at
/// which the text of its statement goes wrong. Appends nothing for any other line.
fn push_fault(faults: &mut Vec<u8>, store: u64, number: u64, line: &[u8]) -> Result<(), NoMemory>
    ensures { OnOk result (faults.new.items ≡ faults.old.items ++ fault_said store number (said_on line.now)) }
{
    match read_said(line) {
        Said::Nothing => Ok(()),
        Said::Given(_, _) => Ok(()),
        Said::Unread(place) => {
            faults.extend_from_slice(b"STORE ")?;
            push_number(faults, store)?;
            faults.extend_from_slice(b" LINE ")?;
            push_number(faults, number)?;
            faults.extend_from_slice(b" ")?;
            push_syntax_fault(faults, place)?;
            faults.extend_from_slice(b"\n")
        }
    }
}

/// Appends what is written for the lines of a store's history that aren't read. Lines are counted from 1.
///
/// May return `NoMemory`.
pub fn push_faults(faults: &mut Vec<u8>, store: u64, history: &[u8]) -> Result<(), NoMemory>
    ensures { OnOk result (faults.new.items ≡ faults.old.items ++ faults_in store 1 (lines_of history.now)) }
{
    let mut number: u64 = 0;
    let mut rest = history;
    while !rest.is_empty() {
        let (line, lines) = split_line(rest);
        number += 1;
        push_fault(faults, store, number, line)?;
        rest = lines;
    }
    Ok(())
}
