//! What is known of an open call: where it returns.

/// What is known of an open call.
#[derive(Clone, Copy, Debug, Drop)]
pub struct OpenCall {
    /// The place where it returns, if that is known; a place after all events, if it isn't heard of any more.
    pub returns: Option<usize>,
}
