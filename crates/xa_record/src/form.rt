//! The forms of a verdict.

/// The form in which a verdict is written.
#[derive(Clone, Copy, Debug, PartialEq, Eq)]
pub enum Form {
    /// Lines. The first one begins with the word of the verdict. Without one they are the faulty lines, or `EMPTY`.
    Plain,
    /// One JSON object on one line.
    Json,
}
