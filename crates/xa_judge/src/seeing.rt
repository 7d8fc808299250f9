//! What an event does to a configuration.
ghost use Rattle.std.specs.{Prelude.{◌≡◌, ◌<◌, ◌∷◌, ◌++◌, [], slice_get, vec_len, IfOk, IfSome}, Option.option_map};
ghost use Rattle.xa_judge.specs.{Explained.{observed, with_client}, Found.config_of};

use crate::client_state::ClientState;
use crate::configuration::Configuration;
use crate::event::{Event, Seen};
use crate::moves::Move;
use crate::shared_request::SharedRequest;
use xa_xid::{NoMemory, SessionNo};

impl Configuration {
    /// How far the session is once it calls; None if it has an open call. A session whose client is gone may call too:
    /// nobody hears the answer, and after its `DISCONNECT` the call does nothing.
    #[tactic(auto, unfolding(crate::specs::Explained::observed, crate::specs::Explained::called))]
    fn after_call(
        &self,
        session: SessionNo,
        request: &SharedRequest,
    ) -> Result<Option<ClientState>, NoMemory>
        ensures config { IfOk result (λ client. option_map (with_client (config_of self.now) session) client
            ≡ observed (config_of self.now) (Event.Call session request.now)) }
        ensures place { IfOk result (λ client. IfSome client (λ _. session < vec_len self.now.clients)) }
    {
        match self.client(session) {
            None => Ok(None),
            Some(ClientState::Idle) => Ok(Some(ClientState::Called(request.try_clone()?))),
            Some(ClientState::Called(_)) => Ok(None),
            Some(ClientState::Answered(_)) => Ok(None),
            Some(ClientState::Gone(None)) => {
                Ok(Some(ClientState::Gone(Some(request.try_clone()?))))
            }
            Some(ClientState::Gone(Some(_))) => Ok(None),
            Some(ClientState::Left) => Ok(Some(ClientState::Left)),
        }
    }

    /// How far the session is once its call returns this; None if it has no answer, or if its answer isn't shown so.
    #[tactic(auto, unfolding(crate::specs::Explained::observed, crate::specs::Explained::returned))]
    fn after_return(&self, session: SessionNo, seen: &Seen) -> Option<ClientState>
        ensures config { option_map (with_client (config_of self.now) session) result
            ≡ observed (config_of self.now) (Event.Return session seen.now) }
        ensures place { IfSome result (λ _. session < vec_len self.now.clients) }
    {
        match self.client(session) {
            None => None,
            Some(ClientState::Idle) => None,
            Some(ClientState::Called(_)) => None,
            Some(ClientState::Answered(answer)) => {
                if seen.shows_kept(answer.kept()) {
                    Some(ClientState::Idle)
                } else {
                    None
                }
            }
            Some(ClientState::Gone(_)) => None,
            Some(ClientState::Left) => None,
        }
    }

    /// How far the session is once its client is gone; None if it was gone before. An open call that hasn't taken
    /// effect may still do so; an answer that hasn't returned is forgotten.
    #[tactic(auto, unfolding(crate::specs::Explained::observed, crate::specs::Explained::lost))]
    fn after_loss(&self, session: SessionNo) -> Result<Option<ClientState>, NoMemory>
        ensures config { IfOk result (λ client. option_map (with_client (config_of self.now) session) client
            ≡ observed (config_of self.now) (Event.Lost session)) }
        ensures place { IfOk result (λ client. IfSome client (λ _. session < vec_len self.now.clients)) }
    {
        match self.client(session) {
            None => Ok(None),
            Some(ClientState::Idle) => Ok(Some(ClientState::Gone(None))),
            Some(ClientState::Called(request)) => {
                Ok(Some(ClientState::Gone(Some(request.try_clone()?))))
            }
            Some(ClientState::Answered(_)) => Ok(Some(ClientState::Gone(None))),
            Some(ClientState::Gone(_)) => Ok(None),
            Some(ClientState::Left) => Ok(None),
        }
    }

    /// How far the session is once its call is over with an answer that isn't known; None if it has no open call or its
    /// client is gone. If the call hasn't taken effect, it never will.
    #[tactic(auto, unfolding(crate::specs::Explained::observed, crate::specs::Explained::answered_unknown))]
    fn after_unknown(&self, session: SessionNo) -> Option<ClientState>
        ensures config { option_map (with_client (config_of self.now) session) result
            ≡ observed (config_of self.now) (Event.Unknown session) }
        ensures place { IfSome result (λ _. session < vec_len self.now.clients) }
    {
        match self.client(session) {
            None => None,
            Some(ClientState::Idle) => None,
            Some(ClientState::Called(_)) => Some(ClientState::Idle),
            Some(ClientState::Answered(_)) => Some(ClientState::Idle),
            Some(ClientState::Gone(_)) => None,
            Some(ClientState::Left) => None,
        }
    }

    /// The configuration after an event that leaves the session in this state; None if there is no state: the event
    /// can't be seen.
    fn seen_as(
        self,
        session: SessionNo,
        client: Option<ClientState>,
    ) -> Result<Option<Configuration>, NoMemory>
        requires { IfSome client (λ _. session < vec_len self.clients) }
        ensures config { IfOk result (λ found. option_map config_of found
            ≡ option_map (with_client (config_of self) session) client) }
        ensures path { IfOk result (λ found. IfSome found (λ new. new.path ≡ self.path ++ Move.Event ∷ [])) }
    {
        match client {
            None => Ok(None),
            Some(client) => Ok(Some(self.moved(session, client, Move::Event)?)),
        }
    }

    /// Returns the configuration after the event; None if it can't be seen here.
    ///
    /// May return `NoMemory`.
    pub fn observed(self, event: &Event) -> Result<Option<Configuration>, NoMemory>
        ensures config { IfOk result (λ found. option_map config_of found ≡ observed (config_of self) event.now) }
        ensures path { IfOk result (λ found. IfSome found (λ new. new.path ≡ self.path ++ Move.Event ∷ [])) }
    {
        let (session, client) = match event {
            Event::Call(session, request) => (*session, self.after_call(*session, request)?),
            Event::Return(session, seen) => (*session, self.after_return(*session, seen.seen())),
            Event::Lost(session) => (*session, self.after_loss(*session)?),
            Event::Unknown(session) => (*session, self.after_unknown(*session)),
        };
        self.seen_as(session, client)
    }
}
