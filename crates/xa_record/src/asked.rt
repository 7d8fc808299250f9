//! How a record is to be judged.

use crate::form::Form;

/// How a record is to be judged.
///
/// Own rule: docs/HISTORIES.md#options.
#[derive(Clone, Copy, Debug, PartialEq, Eq)]
pub struct Asked {
    /// The greatest number of different configurations that may be kept before an event.
    pub limit: usize,
    /// The form in which the verdict is written.
    pub form: Form,
    /// Whether an ILLEGAL verdict also has what was seen at its line, and the call. Unless a smaller record is asked
    /// for, it also has an order that explains what is before its line, if `limit` is enough to find one, and the store
    /// after that order.
    pub explains: bool,
    /// Whether an ILLEGAL verdict also has a smaller record that no order explains, if one is found.
    pub shrinks: bool,
    /// Whether a call whose text isn't a statement is a faulty line. Else it is answered with 1064.
    pub strict_calls: bool,
}
