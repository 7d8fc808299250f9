//! The box that a handle points to.

use crate::Hold;

/// The box that a handle points to. Only during a call it is without its store or session.
#[derive(Drop)]
pub struct Chair {
    /// The store or the session.
    pub(crate) hold: Option<Hold>,
}
