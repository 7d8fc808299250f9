//! Configurations: a state of the server, and how far each session is.
ghost use Rattle.std.specs.Prelude.{◌≡◌, ◌<◌, ◌∷◌, ◌++◌, [], true, false, cond, Some, None, slice_get, vec_len, length};
ghost use Rattle.std.specs.{Prelude.{IfOk, IfSome, replicate}, Option.{option_copied, option_map}};
ghost use Rattle.xa_xid.specs.declared.statement.Statement.TheVariants.{Disconnect};
ghost use Rattle.xa_server.specs.Step.{after};
ghost use Rattle.xa_judge.specs.Explained.{opening_config, answer_to, next_state, effect_of, IsSession};
ghost use Rattle.xa_judge.specs.Found.{config_of, moved_to, IsSettledFrom};
ghost use Rattle.xa_judge.specs.Late.{called_for, call_is_answered, has_unheard, is_over, after_settling};

use crate::client_state::ClientState;
use crate::kept_server::KeptServer;
use crate::moves::Move;
use crate::path::Path;
use std::alloc::Global;
use xa_server::Server;
use xa_xid::{NoMemory, SessionNo};

/// One place for each session's number, from 1 to 16, and place 0, which no session has and which stays idle.
const PLACES: usize = 17;

/// A configuration: a state of the server, how far each session is, and the moves that led here.
#[derive(Drop)]
pub struct Configuration {
    /// The server.
    pub server: KeptServer,
    /// How far each session is, at the place of its number.
    pub clients: Vec<ClientState>,
    /// The moves that led here, after those of the trunk, which all configurations of its list have in common.
    pub path: Path,
}

/// How far each session is before all events.
fn all_idle(alloc: Global) -> Result<Vec<ClientState>, NoMemory>
    ensures { IfOk result (λ all. all.items ≡ replicate 17 ClientState.Idle) }
{
    let mut all = Vec::new(alloc);
    for _ in 0..PLACES {
        all.push(ClientState::Idle)?;
    }
    Ok(all)
}

/// Whether two lists are known to be the same.
fn is_same_list(left: &[ClientState], right: &[ClientState]) -> bool
    ensures { result ≡ true → left.now ≡ right.now }
{
    match left {
        [] => right.is_empty(),
        [one, rest @ ..] => match right {
            [] => false,
            [other, others @ ..] => one.is_same(other) && is_same_list(rest, others),
        },
    }
}

impl Configuration {
    /// Returns the configuration before all events.
    ///
    /// May return `NoMemory`.
    #[tactic(auto, unfolding(crate::specs::Explained::opening_config))]
    pub fn opening(alloc: Global, base: &Server) -> Result<Configuration, NoMemory>
        ensures config { IfOk result (λ first. config_of first ≡ opening_config base.now) }
        ensures path { IfOk result (λ first. first.path ≡ []) }
    {
        Ok(Configuration {
            server: KeptServer::of(alloc, base.copy()?)?,
            clients: all_idle(alloc)?,
            path: Path::new(alloc),
        })
    }

    /// Returns the same configuration with an empty path.
    pub fn without_path(mut self) -> Configuration
        ensures config { config_of result ≡ config_of self }
        ensures path { result.path ≡ [] }
    {
        self.path.clear();
        self
    }

    /// Returns a copy, with a server of its own.
    ///
    /// May return `NoMemory`.
    pub fn copy(&self) -> Result<Configuration, NoMemory>
        ensures config { IfOk result (λ copy. config_of copy ≡ config_of self.now) }
        ensures path { IfOk result (λ copy. copy.path ≡ self.now.path) }
    {
        Ok(Configuration {
            server: self.server.apart()?,
            clients: self.clients.clone()?,
            path: self.path.copy()?,
        })
    }

    /// Tells whether both are known to have the same server state and sessions. Their paths aren't compared.
    ///
    /// May return `NoMemory`.
    pub fn is_same(&self, other: &Configuration) -> Result<bool, NoMemory>
        ensures { IfOk result (λ same. same ≡ true → config_of self.now ≡ config_of other.now) }
    {
        if !is_same_list(self.clients.as_slice(), other.clients.as_slice()) {
            return Ok(false);
        }
        self.server.is_same(&other.server)
    }

    /// Returns the same configuration, with a server that is kept as itself, without requests to be carried out.
    ///
    /// May return `NoMemory`.
    pub fn whole(self) -> Result<Configuration, NoMemory>
        ensures { IfOk result (λ whole. whole ≡ self) }
    {
        let Configuration {
            server,
            clients,
            path,
        } = self;
        Ok(Configuration {
            server: server.whole()?,
            clients,
            path,
        })
    }

    /// Returns how far the session is: `None` only if `clients` has no place of its number. From `opening` on,
    /// `clients` has one for each session.
    ///
    /// The clause `session` tells callers that the number of any session is from 1 to 16.
    pub fn client(&self, session: SessionNo) -> Option<&ClientState>
        ensures value { option_copied result ≡ slice_get self.now.clients.items session }
        ensures session { IsSession session }
    {
        self.clients.get(session.get() as usize)
    }

    /// Returns the configuration after the move `by`, with the session in the state `client`. The server is left as it
    /// is: a caller whose move changes it does that first.
    ///
    /// May return `NoMemory`.
    pub fn moved(
        mut self,
        session: SessionNo,
        client: ClientState,
        by: Move,
    ) -> Result<Configuration, NoMemory>
        requires { session < vec_len self.clients }
        ensures config { IfOk result (λ new. config_of new ≡ moved_to self.server self.clients.items session client) }
        ensures path { IfOk result (λ new. new.path ≡ self.path ++ by ∷ []) }
    {
        self.clients[session.get() as usize] = client;
        self.path.push(by)?;
        Ok(self)
    }

    /// Tells whether the session's call was answered, and hasn't returned yet.
    pub fn is_answered(&self, session: SessionNo) -> bool
        ensures { result ≡ call_is_answered (config_of self.now) session }
    {
        match self.client(session) {
            None => false,
            Some(ClientState::Idle) => false,
            Some(ClientState::Called(_)) => false,
            Some(ClientState::Answered(_)) => true,
            Some(ClientState::Gone(_)) => false,
            Some(ClientState::Left) => false,
        }
    }

    /// Tells whether `returning` names a session whose call was answered, and hasn't returned yet.
    pub fn is_over(&self, returning: &Option<SessionNo>) -> bool
        ensures { result ≡ is_over returning.now (config_of self.now) }
    {
        match returning {
            None => false,
            Some(session) => self.is_answered(*session),
        }
    }

    /// Tells whether the session's client is gone with an open call that may still take effect.
    pub fn has_unheard(&self, session: SessionNo) -> bool
        ensures { result ≡ has_unheard (config_of self.now) session }
    {
        match self.client(session) {
            None => false,
            Some(ClientState::Idle) => false,
            Some(ClientState::Called(_)) => false,
            Some(ClientState::Answered(_)) => false,
            Some(ClientState::Gone(None)) => false,
            Some(ClientState::Gone(Some(_))) => true,
            Some(ClientState::Left) => false,
        }
    }
}
