//! Effects: the server carries out what a session has called for, or the `DISCONNECT` of one whose client is gone.
ghost use Rattle.std.specs.Prelude.{◌≡◌, ◌<◌, ◌∷◌, ◌++◌, [], false, Some, None, slice_get, vec_len, IfOk, IfSome};
ghost use Rattle.std.specs.Option.{option_map};
ghost use Rattle.xa_xid.specs.declared.statement.Statement.TheVariants.{Disconnect};
ghost use Rattle.xa_server.specs.Step.{after};
ghost use Rattle.xa_judge.specs.Explained.{answer_to, next_state, effect_of, IsSession};
ghost use Rattle.xa_judge.specs.{Found.{config_of, moved_to, IsSettledFrom}, Late.{called_for, after_settling}};

use crate::answer::Answer;
use crate::client_state::ClientState;
use crate::configuration::Configuration;
use crate::kept_server::KeptServer;
use crate::moves::{Act, Move};
use crate::request::Request;
use crate::shared_answer::SharedAnswer;
use crate::shared_lists::SharedLists;
use crate::shared_request::SharedRequest;
use std::alloc::Global;
use xa_xid::{NoMemory, SessionNo, Statement};

/// A session's `DISCONNECT`, as a request.
fn leaving(alloc: Global) -> Result<SharedRequest, NoMemory>
    ensures { IfOk result (λ request. request ≡ Request.Statement Disconnect) }
{
    SharedRequest::of(alloc, Request::Statement(Statement::Disconnect))
}

/// One more owner of an answer that one of the clients has and that is known to be the same as `answer`; None if none
/// has such an answer.
fn same_among(clients: &[ClientState], answer: &Answer) -> Result<Option<SharedAnswer>, NoMemory>
    ensures { IfOk result (λ found. IfSome found (λ same. same ≡ answer.now)) }
{
    for client in clients {
        if let ClientState::Answered(other) = client
            && other.is(answer)
        {
            return Ok(Some(other.try_clone()?));
        }
    }
    Ok(None)
}

/// The answer, to be shared: the one that a client has already, if that is known to be the same; else, if the answer is
/// a list, the one in `lists`, if that is the same; else a new one, which goes into `lists` if it is a list.
fn shared_among(
    clients: &[ClientState],
    lists: &mut SharedLists,
    answer: Answer,
) -> Result<SharedAnswer, NoMemory>
    ensures { IfOk result (λ shared. shared ≡ answer) }
{
    match same_among(clients, &answer)? {
        Some(same) => Ok(same),
        None => lists.with(answer),
    }
}

impl Configuration {
    /// What the session has called for, if that has taken no effect yet. None also if its client is gone: nobody hears
    /// what its call is answered.
    fn called_for(&self, session: SessionNo) -> Result<Option<SharedRequest>, NoMemory>
        ensures value { IfOk result (λ request. request ≡ called_for (slice_get self.now.clients.items session)) }
        ensures session { IsSession session }
    {
        match self.client(session) {
            None => Ok(None),
            Some(ClientState::Idle) => Ok(None),
            Some(ClientState::Called(request)) => Ok(Some(request.try_clone()?)),
            Some(ClientState::Answered(_)) => Ok(None),
            Some(ClientState::Gone(_)) => Ok(None),
            Some(ClientState::Left) => Ok(None),
        }
    }

    /// The configuration after the session's request takes effect: the session is answered, and its call hasn't
    /// returned yet. The answer is shared as in `shared_among`.
    fn answered(
        self,
        session: SessionNo,
        request: &SharedRequest,
        lists: &mut SharedLists,
    ) -> Result<Configuration, NoMemory>
        requires { session < vec_len self.clients }
        ensures config { IfOk result
            (λ new. config_of new ≡ moved_to (next_state self.server session request.now) self.clients.items session
            (ClientState.Answered (answer_to self.server session request.now))) }
        ensures path { IfOk result (λ new. new.path ≡ self.path ++ Move.Effect session Act.Statement ∷ []) }
    {
        let Configuration {
            server,
            clients,
            path,
        } = self;
        let (server, answer) = server.carried_out(session, request)?;
        // Many configurations have the same list of branches as an answer. They share one, since such lists are long.
        let shared = shared_among(clients.as_slice(), lists, answer)?;
        let answered = ClientState::Answered(shared);
        Configuration {
            server,
            clients,
            path,
        }
        .moved(session, answered, Move::Effect(session, Act::Statement))
    }

    /// The configuration after the request of a session whose client is gone takes effect; nobody hears the
    /// answer.
    fn unheard(self, session: SessionNo, request: &SharedRequest) -> Result<Configuration, NoMemory>
        requires { session < vec_len self.clients }
        ensures config { IfOk result
            (λ new. config_of new ≡ moved_to (next_state self.server session request.now) self.clients.items session
            (ClientState.Gone None)) }
        ensures path { IfOk result (λ new. new.path ≡ self.path ++ Move.Effect session Act.Statement ∷ []) }
    {
        let Configuration {
            server,
            clients,
            path,
        } = self;
        let (server, _answer) = server.carried_out(session, request)?;
        Configuration {
            server,
            clients,
            path,
        }
        .moved(
            session,
            ClientState::Gone(None),
            Move::Effect(session, Act::Statement),
        )
    }

    /// The configuration after the session's `DISCONNECT` takes effect.
    fn left(self, session: SessionNo) -> Result<Configuration, NoMemory>
        requires { session < vec_len self.clients }
        ensures config { IfOk result (λ new. config_of new ≡ moved_to
            (after self.server session Disconnect) self.clients.items session ClientState.Left) }
        ensures path { IfOk result (λ new. new.path ≡ self.path ++ Move.Effect session Act.Disconnect ∷ []) }
    {
        let Configuration {
            server,
            clients,
            path,
        } = self;
        let request = leaving(server.alloc())?;
        let (server, _answer) = server.carried_out(session, &request)?;
        Configuration {
            server,
            clients,
            path,
        }
        .moved(
            session,
            ClientState::Left,
            Move::Effect(session, Act::Disconnect),
        )
    }

    /// Returns the configuration after what the session has called for takes effect; the same one if that took effect
    /// before, if it has called for nothing, or if its client is gone. The answer is shared as in `effected_among`.
    ///
    /// May return `NoMemory`.
    #[tactic(auto, unfolding(crate::specs::Late::after_settling))]
    pub fn settled(
        self,
        session: SessionNo,
        lists: &mut SharedLists,
    ) -> Result<Configuration, NoMemory>
        ensures config { IfOk result (λ new. config_of new ≡ after_settling (config_of self) session) }
        ensures reach { IfOk result (IsSettledFrom session self) }
    {
        match self.called_for(session)? {
            None => Ok(self),
            Some(request) => {
                let new = self.answered(session, &request, lists)?;
                Ok(new)
            }
        }
    }

    /// The configuration after what the session called for takes effect: the session is answered or, if its client is
    /// gone, nobody hears the answer. None if it has no request that is still to take effect.
    #[tactic(auto, unfolding(crate::specs::Explained::effect_of, crate::specs::Explained::carried_out))]
    fn carried_out(
        self,
        session: SessionNo,
        lists: &mut SharedLists,
    ) -> Result<Option<Configuration>, NoMemory>
        ensures config { IfOk result (λ found. option_map config_of found
            ≡ effect_of (config_of self) session Act.Statement) }
        ensures path { IfOk result (λ found. IfSome found (λ new. new.path ≡ self.path
            ++ Move.Effect session Act.Statement ∷ [])) }
        ensures session { IsSession session }
    {
        match self.client(session) {
            None => Ok(None),
            Some(ClientState::Idle) => Ok(None),
            Some(ClientState::Called(request)) => {
                let request = request.try_clone()?;
                Ok(Some(self.answered(session, &request, lists)?))
            }
            Some(ClientState::Answered(_)) => Ok(None),
            Some(ClientState::Gone(None)) => Ok(None),
            Some(ClientState::Gone(Some(request))) => {
                let request = request.try_clone()?;
                Ok(Some(self.unheard(session, &request)?))
            }
            Some(ClientState::Left) => Ok(None),
        }
    }

    /// The configuration after the session's `DISCONNECT` takes effect; None if its client isn't gone, or if the
    /// `DISCONNECT` took effect before.
    #[tactic(auto, unfolding(crate::specs::Explained::effect_of, crate::specs::Explained::disconnected))]
    fn disconnected(self, session: SessionNo) -> Result<Option<Configuration>, NoMemory>
        ensures config { IfOk result (λ found. option_map config_of found
            ≡ effect_of (config_of self) session Act.Disconnect) }
        ensures path { IfOk result (λ found. IfSome found (λ new. new.path ≡ self.path
            ++ Move.Effect session Act.Disconnect ∷ [])) }
        ensures session { IsSession session }
    {
        match self.client(session) {
            None => Ok(None),
            Some(ClientState::Idle) => Ok(None),
            Some(ClientState::Called(_)) => Ok(None),
            Some(ClientState::Answered(_)) => Ok(None),
            // If it has a request that hasn't taken effect yet, that never does after the `DISCONNECT`.
            Some(ClientState::Gone(_)) => Ok(Some(self.left(session)?)),
            Some(ClientState::Left) => Ok(None),
        }
    }

    /// Returns the configuration after the session's act takes effect; None if it can't. An answer that a session has
    /// here already, or a list that `lists` has, is shared; a new list goes into `lists`.
    ///
    /// May return `NoMemory`.
    pub fn effected_among(
        self,
        session: SessionNo,
        act: Act,
        lists: &mut SharedLists,
    ) -> Result<Option<Configuration>, NoMemory>
        ensures config { IfOk result (λ found. option_map config_of found ≡ effect_of (config_of self) session act) }
        ensures path { IfOk result (λ found. IfSome found
            (λ new. new.path ≡ self.path ++ Move.Effect session act ∷ [])) }
        ensures session { IsSession session }
    {
        match act {
            Act::Statement => self.carried_out(session, lists),
            Act::Disconnect => self.disconnected(session),
        }
    }

    /// Returns the configuration after the session's act takes effect; None if it can't. The answer is shared only if
    /// it is the same as one that a session has here already.
    ///
    /// May return `NoMemory`.
    pub fn once_effected(
        self,
        session: SessionNo,
        act: Act,
    ) -> Result<Option<Configuration>, NoMemory>
        ensures config { IfOk result (λ found. option_map config_of found ≡ effect_of (config_of self) session act) }
        ensures path { IfOk result (λ found. IfSome found
            (λ new. new.path ≡ self.path ++ Move.Effect session act ∷ [])) }
        ensures session { IsSession session }
    {
        let mut lists = SharedLists::new(self.server.alloc());
        self.effected_among(session, act, &mut lists)
    }

    /// Tells whether the session's act can take effect.
    #[tactic(auto, unfolding(crate::specs::Explained::effect_of, crate::specs::Explained::carried_out, crate::specs::Explained::disconnected))]
    pub fn can_take_effect(&self, session: SessionNo, act: Act) -> bool
        ensures no { result ≡ false → effect_of (config_of self.now) session act ≡ None }
        ensures session { IsSession session }
    {
        match self.client(session) {
            None => false,
            Some(ClientState::Idle) => false,
            Some(ClientState::Called(_)) => matches!(act, Act::Statement),
            Some(ClientState::Answered(_)) => false,
            Some(ClientState::Gone(None)) => matches!(act, Act::Disconnect),
            // Its open request may take effect, or its `DISCONNECT` in place of the request.
            Some(ClientState::Gone(Some(_))) => true,
            Some(ClientState::Left) => false,
        }
    }

    /// Returns a copy of the configuration, with a server of its own, in which the session's act has taken effect; None
    /// if it can't. The answer is shared as in `effected_among`.
    ///
    /// May return `NoMemory`.
    pub fn effected(
        &self,
        session: SessionNo,
        act: Act,
        lists: &mut SharedLists,
    ) -> Result<Option<Configuration>, NoMemory>
        ensures config { IfOk result (λ found. option_map config_of found
            ≡ effect_of (config_of self.now) session act) }
        ensures path { IfOk result (λ found. IfSome found (λ new. new.path ≡ self.now.path
            ++ Move.Effect session act ∷ [])) }
        ensures session { IsSession session }
    {
        // Looked up first, since the copy takes time and memory.
        if !self.can_take_effect(session, act) {
            return Ok(None);
        }
        self.copy()?.effected_among(session, act, lists)
    }

    /// The server after the session's act, kept as this configuration's server is, with one request more; None if the
    /// act can't take effect.
    #[tactic(auto, unfolding(crate::specs::Explained::effect_of, crate::specs::Explained::carried_out, crate::specs::Explained::disconnected))]
    fn server_after(&self, session: SessionNo, act: Act) -> Result<Option<KeptServer>, NoMemory>
        ensures { IfOk result (λ found. found ≡ option_map (λ config. config.state)
            (effect_of (config_of self.now) session act)) }
    {
        match act {
            Act::Statement => match self.client(session) {
                Some(ClientState::Called(request)) => {
                    Ok(Some(self.server.after(session, request)?))
                }
                Some(ClientState::Gone(Some(request))) => {
                    Ok(Some(self.server.after(session, request)?))
                }
                _ => Ok(None),
            },
            Act::Disconnect => match self.client(session) {
                Some(ClientState::Gone(_)) => {
                    let request = leaving(self.server.alloc())?;
                    Ok(Some(self.server.after(session, &request)?))
                }
                _ => Ok(None),
            },
        }
    }

    /// Returns the same configuration, with its server kept as that of `before` is, with one request more: the
    /// session's act leads here from `before`. So no server is copied.
    ///
    /// May return `NoMemory`.
    pub fn over(
        self,
        before: &Configuration,
        session: SessionNo,
        act: Act,
    ) -> Result<Configuration, NoMemory>
        requires { effect_of (config_of before.now) session act ≡ Some (config_of self) }
        // Proved (records, kept-server)
        ensures { IfOk result (λ new. new ≡ self) }
    {
        match before.server_after(session, act)? {
            // Never None: as `requires` says, the act can take effect in `before`.
            None => Ok(self),
            Some(server) => {
                let Configuration {
                    server: _,
                    clients,
                    path,
                } = self;
                Ok(Configuration {
                    server,
                    clients,
                    path,
                })
            }
        }
    }
}
