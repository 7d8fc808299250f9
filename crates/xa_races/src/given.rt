//! What a script gives to a race.
ghost use Rattle.std.specs.Prelude.{◌≡◌, ◌≤◌, vec_len};

use xa_xid::Statement;

/// What a script gives to a race.
#[derive(Drop)]
pub struct RaceScript {
    /// What is written for its faulty lines; empty if there is none.
    pub faults: Vec<u8>,
    /// The greatest session that a line names, or 0 if no line names one.
    pub greatest: u64,
    /// The statements of each of the sessions 1 to 16, in order.
    pub lists: Vec<Vec<Statement>>,
    // Session numbers are at most 16,
    ghost within: { greatest ≤ 16 },
    // and each has its list of statements.
    ghost all: { vec_len lists ≡ 16 },
}
