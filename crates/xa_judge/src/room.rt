//! An estimate of how many servers memory has room for.

/// How many bytes copies of a server may take, by the estimate: 128 MiB, so that judging stays below 512 MiB
/// with the default limit.
const BYTES: usize = 134_217_728;

/// What a server takes at most in addition to its records, in bytes.
const SERVER: usize = 32_768;

/// What a server takes at most for each record of a row or a branch, in bytes: its texts, its nodes in maps, and its
/// part in lists of locks.
const RECORD: usize = 512;

/// A server with more records has no room: `BYTES` bytes don't hold even its records.
pub const MOST_RECORDS: usize = BYTES / RECORD;

/// Whether `room` bytes hold `count` servers, each of which takes `bytes` bytes in addition to this many records.
fn holds_all(room: usize, count: usize, bytes: usize, records: usize) -> bool {
    // Numbers that saturate are more than `BYTES` and `APART`, so the answer is right for them too.
    let each = records.saturating_mul(RECORD).saturating_add(bytes);
    count.saturating_mul(each) <= room
}

/// Tells whether there is room for `count` servers with this many records of rows and branches each.
pub fn has_room(count: usize, records: usize) -> bool {
    holds_all(BYTES, count, SERVER, records)
}

/// How many bytes configurations with a server of their own each may take: 384 MiB, so that with the rest judging
/// stays below 512 MiB.
const APART: usize = 402_653_184;

/// What such a configuration takes in addition to its records, in bytes: a usual figure, not the most (`SERVER`). With
/// 16 sessions, four rows and three branches one was measured to take 6 KB in all.
const APART_EACH: usize = 4_096;

/// Tells whether memory holds `count` configurations with a server of its own each, which has this many records of rows
/// and branches.
pub fn holds(count: usize, records: usize) -> bool {
    holds_all(APART, count, APART_EACH, records)
}
