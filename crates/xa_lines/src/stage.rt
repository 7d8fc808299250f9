//! Whether a client may still send something.

/// Whether a client may still send something.
#[derive(Clone, Copy, Debug, Drop, PartialEq, Eq)]
pub enum Stage {
    /// It may.
    Open,
    /// It has ended.
    Ended,
    /// A read failed.
    Deaf,
    /// A write or a flush failed.
    Mute,
}
