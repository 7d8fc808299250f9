//! The lines that sessions give.
ghost use Rattle.std.specs.Prelude.{◌≡◌};

use std::marker::Model;
use xa_xid::SessionNo;

/// A line: its session, and the text of its statement.
#[derive(Drop)]
pub struct Line<'a> {
    session: SessionNo,
    text: &'a [u8],
}

impl<'a> Model for Line<'a> {
    ghost use Rattle.xa_orders.specs.Orders.{Told};

    ghost Value = { Told };

    ghost view = { λ line. record { session = line.session; text = line.text.now } };
}

impl<'a> Line<'a> {
    /// Returns the line of this session, with a statement of this text.
    pub fn new(session: SessionNo, text: &'a [u8]) -> Line<'a>
        ensures session { result.session ≡ session }
        ensures text { result.text ≡ text.entry.now }
    {
        Line { session, text }
    }

    /// Returns its session.
    pub fn session(&self) -> SessionNo
        ensures { result ≡ self.now.session }
    {
        self.session
    }

    /// Returns the text of its statement.
    pub fn text(&self) -> &[u8]
        ensures { result.now ≡ self.now.text }
    {
        self.text
    }
}
