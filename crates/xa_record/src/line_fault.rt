//! Why a line of a record is faulty.
ghost use Rattle.std.specs.Prelude.{◌≡◌, ◌++◌, OnOk, decimal, codes};
ghost use Rattle.xa_record.specs.Reading.{cause_text, fault_text};

use xa_lines::push_number;
use xa_xid::{NoMemory, SessionNo};

/// Why a line of a record is faulty.
#[derive(Clone, Copy, Debug, PartialEq, Eq)]
pub enum LineFault {
    /// It doesn't have the form of any line of a record.
    NotALine,
    /// It is in the place of a row of a return, and doesn't have the form of a row.
    NotARow,
    /// It is a return, and the record ends before all of its rows have come.
    RowsMissing,
    /// The text of a call isn't a statement, and such texts are tested.
    NotAStatement,
    /// The session calls, but has an open call.
    OpenCall(SessionNo),
    /// A call of the session returns, but it has none open.
    NoOpenCall(SessionNo),
    /// The session's client is gone already.
    Lost(SessionNo),
}

impl LineFault {
    /// Appends the words for why a line is faulty.
    fn push_cause(self, text: &mut Vec<u8>) -> Result<(), NoMemory>
        ensures { OnOk result (text.new.items ≡ text.old.items ++ cause_text self) }
    {
        match self {
            LineFault::NotALine => text.extend_from_slice(b"not a line of a record"),
            LineFault::NotARow => text.extend_from_slice(b"not a row"),
            LineFault::RowsMissing => text.extend_from_slice(b"rows are missing"),
            LineFault::NotAStatement => text.extend_from_slice(b"not a statement"),
            LineFault::OpenCall(session) => {
                push_session(text, session)?;
                text.extend_from_slice(b" has an open call")
            }
            LineFault::NoOpenCall(session) => {
                push_session(text, session)?;
                text.extend_from_slice(b" has no open call")
            }
            LineFault::Lost(session) => {
                push_session(text, session)?;
                text.extend_from_slice(b" is lost")
            }
        }
    }

    /// Appends `LINE`, the number of the line, its cause, and a line feed.
    ///
    /// May return `NoMemory`. Doesn't wait.
    /// Own rule: docs/HISTORIES.md#records.
    pub fn push(self, text: &mut Vec<u8>, number: u64) -> Result<(), NoMemory>
        ensures { OnOk result (text.new.items ≡ text.old.items ++ fault_text number self) }
    {
        text.extend_from_slice(b"LINE ")?;
        push_number(text, number)?;
        text.extend_from_slice(b": ")?;
        self.push_cause(text)?;
        text.extend_from_slice(b"\n")
    }
}

/// Appends the word `session` and its number.
fn push_session(text: &mut Vec<u8>, session: SessionNo) -> Result<(), NoMemory>
    ensures { OnOk result (text.new.items ≡ text.old.items ++ (codes "session " ++ decimal session)) }
{
    text.extend_from_slice(b"session ")?;
    push_number(text, session.get())
}
