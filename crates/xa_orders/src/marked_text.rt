//! A text and its mark.

/// A text and a number made of its bytes.
#[derive(Drop)]
pub struct MarkedText {
    /// A number made of the bytes. Two different texts seldom have the same.
    pub mark: u64,
    /// The text.
    pub text: Vec<u8>,
}
