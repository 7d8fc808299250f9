//! A store or a session, as a handle holds it.

use std::sync::Arc;
use xa_endless::{EndlessSession, EndlessStore};

/// A store or a session, as a handle holds it.
#[derive(Drop)]
pub enum Hold {
    /// A store. Its sessions own it, too.
    Store(Arc<EndlessStore>),
    /// A session.
    Session(EndlessSession),
}
