//! The part of a script that is being read.

/// The part of a script that is being read.
#[derive(Clone, Copy, Debug, PartialEq, Eq)]
pub enum Stage {
    /// No line `BESIDE` and no line `AFTER` was read yet.
    First,
    /// The lines side by side, after the line `BESIDE`.
    Beside,
    /// The lines after the line `AFTER`.
    After,
}
