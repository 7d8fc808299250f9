//! What a search keeps in addition to its ways.

use crate::fingerprint_index::FingerprintIndex;
use crate::line::Line;
use crate::marks::with_values;
use crate::packing::Packing;
use crate::texts::Texts;
use crate::way::Way;
use std::alloc::Global;
use xa_server::Server;
use xa_xid::{Key, NoMemory};

/// What a search keeps in addition to its ways, so that equal ways are found soon and take little memory.
#[derive(Drop)]
pub struct Keeper {
    /// At which places of the next level's list the ways of each fingerprint are.
    pub index: FingerprintIndex,
    /// Answers that ways share.
    pub texts: Texts,
    /// How servers are kept.
    pub packing: Packing,
}

impl Keeper {
    /// Returns what a search needs that begins with this server. `written` has the rows that the lines write.
    ///
    /// May return `NoMemory`.
    pub fn new(
        alloc: Global,
        server: &Server,
        lines: &[Line<'_>],
        written: Vec<Key>,
    ) -> Result<Keeper, NoMemory> {
        Ok(Keeper {
            index: FingerprintIndex::new(alloc),
            texts: Texts::new(alloc),
            packing: Packing::new(alloc, server, lines, written)?,
        })
    }

    /// Returns the fingerprint of a way: made of its answers and of the committed values of the rows that lines
    /// write; or of its answers alone, if its server isn't kept as itself.
    pub fn mark_of(&self, way: &Way) -> u64 {
        let mark = way.answers.mark();
        match way.server.own() {
            Some(server) => with_values(mark, server, self.packing.written()),
            // A way is looked for before it is packed, so its server is kept as itself then.
            None => mark,
        }
    }
}
