//! Ways: orders of turns, and what they have come to.
ghost use Rattle.std.specs.Prelude.{◌≡◌, ◌<◌, ◌++◌, ◌∷◌, [], true, None, length, IfOk, OnOk, IfSome};
ghost use Rattle.xa_orders.specs.{Orders.{opening, carried_out, turn}, Found.{config_of, IsTurn}};

use crate::answers::Answers;
use crate::kept_server::KeptServer;
use crate::line::Line;
use crate::packing::Packing;
use crate::texts::Texts;
use std::alloc::Global;
use xa_lines::answer_statement;
use xa_server::Server;
use xa_xid::{NoMemory, SessionNo};

/// An order of turns, and what it has come to.
#[derive(Drop)]
pub struct Way {
    /// The server after these turns.
    pub server: KeptServer,
    /// What the lines were answered.
    pub answers: Answers,
    /// The sessions whose turns they were, in order.
    pub order: Vec<SessionNo>,
}

impl Way {
    /// Returns the way on which no line is carried out yet, with this server.
    ///
    /// May return `NoMemory`.
    pub fn opening(alloc: Global, lines: &[Line<'_>], server: Server) -> Result<Way, NoMemory>
        ensures config { IfOk result (λ way. config_of way ≡ opening lines.now server) }
        ensures order { IfOk result (λ way. way.order.items ≡ []) }
    {
        Ok(Way {
            server: KeptServer::of(alloc, server)?,
            answers: Answers::new(alloc, lines.len())?,
            order: Vec::new(alloc),
        })
    }

    /// Keeps its server in less memory, if that is possible.
    ///
    /// May return `NoMemory`.
    pub fn pack(&mut self, packing: &Packing) -> Result<(), NoMemory>
        ensures { OnOk result (self.new ≡ self.old) }
    {
        packing.pack(&mut self.server)
    }

    /// Tells whether both are known to have come to the same: to the same answers and the same server. The server of
    /// `other` has to be kept as itself, else the answer is no.
    ///
    /// May return `NoMemory`.
    pub fn is_same(&self, other: &Way) -> Result<bool, NoMemory>
        ensures { IfOk result (λ same. same ≡ true → config_of self.now ≡ config_of other.now) }
    {
        if !self.answers.is_same(&other.answers) {
            return Ok(false);
        }
        match other.server.own() {
            // `other` is a new way, compared before it is packed, so this doesn't come up.
            None => Ok(false),
            Some(server) => self.server.is_like(server),
        }
    }

    /// The order with one more turn, of this session.
    fn order_with(&self, alloc: Global, session: SessionNo) -> Result<Vec<SessionNo>, NoMemory>
        ensures { IfOk result (λ order. order.items ≡ self.now.order.items ++ session ∷ []) }
    {
        // No list is so long that the sum is cut.
        let mut order = Vec::with_capacity(alloc, self.order.len().saturating_add(1))?;
        order.extend_from_slice(self.order.as_slice())?;
        order.push(session)?;
        Ok(order)
    }

    /// The way after the server has carried out the session's statement of this text, on the line at `place`. `server`
    /// is a copy of the way's; `texts` has answers that ways share.
    fn carried_out(
        &self,
        alloc: Global,
        texts: &mut Texts,
        server: Server,
        session: SessionNo,
        text: &[u8],
        place: usize,
    ) -> Result<Way, NoMemory>
        requires server { server ≡ self.now.server }
        requires place { place < length self.now.answers }
        ensures config { IfOk result (λ new. config_of new ≡ carried_out session text.now (config_of self.now) place) }
        ensures order { IfOk result (λ new. new.order.items ≡ self.now.order.items ++ session ∷ []) }
    {
        let mut server = server;
        let answer = answer_statement(alloc, &mut server, session, text)?;
        let answer = texts.shared(alloc, answer)?;
        Ok(Way {
            server: KeptServer::of(alloc, server)?,
            answers: self.answers.with(alloc, place, answer)?,
            order: self.order_with(alloc, session)?,
        })
    }

    /// Returns the way after the session's next line is carried out, or None if the session has none left. `server`
    /// is the way's; `texts` has answers that ways share.
    ///
    /// May return `NoMemory`.
    #[tactic(auto, unfolding(crate::specs::Orders::turn))]
    pub fn turned(
        &self,
        alloc: Global,
        texts: &mut Texts,
        server: &Server,
        lines: &[Line<'_>],
        session: SessionNo,
    ) -> Result<Option<Way>, NoMemory>
        requires { server.now ≡ self.now.server }
        ensures none { IfOk result (λ found. found ≡ None → turn lines.now (config_of self.now) session ≡ None) }
        ensures turn { IfOk result (λ found. IfSome found (λ new. IsTurn lines.now session self.now new)) }
    {
        match self.answers.next_place(lines, session) {
            None => Ok(None),
            Some(place) => {
                let text = lines[place].text();
                // The turns of the other sessions begin with the same server.
                let server = server.copy()?;
                let way = self.carried_out(alloc, texts, server, session, text, place)?;
                Ok(Some(way))
            }
        }
    }
}
