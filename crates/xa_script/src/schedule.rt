//! How the sessions of a race come to their lines.

/// How the sessions of a race come to their lines.
#[derive(Clone, Copy, Debug, PartialEq, Eq)]
pub enum Schedule {
    /// Each as soon as its thread begins.
    Freely,
    /// Each when all have come to their first lines.
    Together,
    /// Together, and each steps aside before each line, for numbers of turns that are drawn from this seed.
    Shuffled(u64),
}
