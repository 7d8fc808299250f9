//! The form in which an audit is written.

/// The form in which an audit is written.
#[derive(Clone, Copy, Debug, PartialEq, Eq)]
pub enum Form {
    /// A line for each global transaction, for each life of each of its branches, and for the verdict on it;
    /// and the last line.
    Lines,
    /// The last line: how many global transactions there are, and how many have which verdict.
    LastLine,
    /// An object of JSON, on one line: each global transaction as in `Lines`, and how many have which verdict.
    Json,
}
