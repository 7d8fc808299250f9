//! A line that has been received in part.
ghost use Rattle.std.specs.Prelude.{◌≡◌, ◌≤◌, vec_capacity, vec_len, [], IfOk};

use crate::{Answer, LINE_BYTES, LineServer};
use std::alloc::Global;
use xa_xid::NoMemory;

/// A line that has been received in part. All memory for it is taken at once, so that none can be refused
/// later.
#[derive(Drop)]
pub struct BegunLine {
    /// The bytes that have been received, at most 65,536.
    bytes: Vec<u8>,
    /// Whether more were received.
    is_long: bool,
    // The room for the longest line was taken when this was made, so no byte takes memory.
    ghost room: { 65536 ≤ vec_capacity bytes },
}

impl BegunLine {
    ghost use Rattle.xa_lines.specs.{Answer.bytes_of, Received.{held_by, longer, is_nothing, Whole}};

    /// Returns a line of which nothing has been received, with room for 65,536 bytes.
    ///
    /// May return `NoMemory`.
    pub fn new(alloc: Global) -> Result<BegunLine, NoMemory>
        ensures { IfOk result (λ line. held_by line ≡ Whole []) }
    {
        Ok(BegunLine {
            bytes: Vec::with_capacity(alloc, LINE_BYTES)?,
            is_long: false,
        })
    }

    /// Adds a byte to the line. Of the bytes after 65,536 it is only noted that there are some.
    pub fn put(&mut self, byte: u8)
        ensures { held_by self.new ≡ longer (held_by self.old) byte }
    {
        if self.is_long {
            return;
        }
        if self.bytes.len() >= LINE_BYTES {
            self.is_long = true;
            return;
        }
        // The room was taken before, so this can't fail.
        let _ = self.bytes.push(byte);
    }

    /// Begins the next line.
    pub fn clear(&mut self)
        ensures { held_by self.new ≡ Whole [] }
    {
        self.bytes.clear();
        self.is_long = false;
    }

    /// Returns whether nothing has been received.
    pub fn is_empty(&self) -> bool
        ensures { result ≡ is_nothing (held_by self.now) }
    {
        !self.is_long && self.bytes.is_empty()
    }

    /// Has the server answer the line, as one that is too long if it has more than 65,536 bytes. Returns the answer.
    pub fn answer<S: LineServer>(&self, alloc: Global, server: &mut S) -> Answer
        ensures { S.answers server.old (held_by self.now) (bytes_of result) server.new }
    {
        if self.is_long {
            server.answer_long()
        } else {
            server.answer(alloc, self.bytes.as_slice())
        }
    }
}
