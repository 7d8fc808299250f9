//! The words of the protocol: identifiers of transaction branches (`Xid`), texts (`Bytes`), keys of rows
//! (`Key`), numbers of sessions (`SessionNo`) and statements (`Statement`). It also reads and writes how
//! these are spelled. The tables of forms and faults are in docs/STATEMENTS.md.
//!
//! Read first: specs/Xid.antt, specs/Literal.antt with specs/Quoted.antt, specs/Number.antt,
//! specs/XidText.antt and specs/Faults.antt, then src/laws.rt. Only `write_xid`, `with_xid` and `with_part`
//! take memory, and nothing waits.
#![tactic(auto)]

ghost use Rattle.std.specs.Prelude.{◌≡◌};

mod byte_class;
mod key;
pub mod laws;
mod literal;
mod literal_fault;
mod number;
mod quoted;
mod session_no;
mod statement;
mod xid;
mod xid_text;

use arrayvec::ArrayVec;
pub use byte_class::{ByteClass, skip_blanks};
pub use key::Key;
pub use literal::{literal_of, read_literal};
pub use literal_fault::LiteralFault;
pub use number::{number_of, read_number};
pub use session_no::SessionNo;
pub use statement::Statement;
use std::alloc::AllocError;
pub use xid::Xid;
pub use xid_text::{read_xid, with_part, with_xid, write_xid};

/// The allocator's error: no memory is left.
pub type NoMemory = AllocError;

/// A text of 0 to 64 bytes, kept in the value itself: a gtrid, a bqual or a row's value.
///
/// A contract names its bytes as `text.items`.
/// Source: the lengths of gtrid and bqual are from X/Open C193; the MySQL 8.0 Reference Manual repeats
/// them.
/// The length of a value is our own rule: docs/STATEMENTS.md#rows-and-locks.
pub type Bytes = ArrayVec<u8, 64>;

/// Returns a copy of a text.
///
/// Takes no memory. Doesn't wait.
pub fn copy_of(text: &Bytes) -> Bytes
    // Proved (statements, copies): A copy of a text, an identifier, a key or a statement equals its
    //   original.
    ensures { result ≡ text.now }
{
    let mut copy = Bytes::new();
    // Both have room for the same number of bytes.
    copy.try_extend_from_slice(text.as_slice()).unwrap();
    copy
}
