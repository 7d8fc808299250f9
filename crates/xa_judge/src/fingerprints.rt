//! Fingerprints: 64-bit numbers by which configurations, keys and identifiers are told apart.
ghost use Rattle.std.specs.Prelude.{◌≡◌, fold, map, IfOk};
ghost use Rattle.xa_judge.specs.Marks.{with_word, with_text, with_xid, with_value, with_xids, with_state, with_error};
ghost use Rattle.xa_judge.specs.Marks.{with_answer, with_client, with_phase, with_owner, with_hold, with_row};
ghost use Rattle.xa_judge.specs.{Marks.{with_rows, with_branch, with_key, with_server, mark}, Answers.answer_kept};
ghost use Rattle.xa_judge.specs.Found.{config_of};
ghost use Rattle.xa_server.specs.Overview.{branches_of};

use crate::answer::Answer;
use crate::client_state::ClientState;
use crate::configuration::Configuration;
use crate::kept_answer::KeptAnswer;
use std::alloc::Global;
use xa_server::{
    BranchEntry, BranchState, HeldRow, Hold, Phase, Reply, Server, SharedXid, XaError,
};
use xa_xid::{Bytes, Key, NoMemory, SessionNo, Xid};

/// The factor for each word: odd, so that no information is lost, with bits as if by chance: 2^64 divided by
/// the golden ratio.
const MULTIPLIER: u64 = 0x9e37_79b9_7f4a_7c15;

/// A number made of words, one after another.
#[derive(Clone, Copy)]
struct Fingerprint {
    number: u64,
}

impl Fingerprint {
    /// The fingerprint of no words.
    fn new() -> Fingerprint
        ensures { result.number ≡ 0 }
    {
        Fingerprint { number: 0 }
    }

    /// Mixes a word into the number.
    #[tactic(auto, unfolding(crate::specs::Marks::with_word))]
    fn with(self, word: u64) -> Fingerprint
        ensures { result.number ≡ with_word self.number word }
    {
        // With the 1, the word 0 changes the number 0 too. The shift, by nearly half of the 64 bits, has the low bits
        // depend on the high ones.
        let product = (self.number ^ word)
            .wrapping_add(1)
            .wrapping_mul(MULTIPLIER);
        Fingerprint {
            number: product ^ (product >> 29),
        }
    }

    /// Adds the length of a text, which tells where it ends, and then its bytes.
    fn with_text(self, text: &[u8]) -> Fingerprint
        ensures { result.number ≡ with_text self.number text.now }
    {
        let mut fingerprint = self.with(text.len() as u64);
        for byte in text {
            fingerprint = fingerprint.with(*byte as u64);
        }
        fingerprint
    }

    /// Adds an identifier.
    fn with_xid(self, xid: &Xid) -> Fingerprint
        ensures { result.number ≡ with_xid self.number xid.now }
    {
        self.with(xid.format_id)
            .with_text(xid.gtrid.as_slice())
            .with_text(xid.bqual.as_slice())
    }

    /// Adds a value, or that there is none.
    fn with_value(self, value: &Option<Bytes>) -> Fingerprint
        ensures { result.number ≡ with_value self.number value.now }
    {
        match value {
            None => self.with(0),
            Some(text) => self.with(1).with_text(text.as_slice()),
        }
    }

    /// Adds identifiers.
    fn with_xids(self, xids: &[Xid]) -> Fingerprint
        ensures { result.number ≡ with_xids self.number xids.now }
    {
        let mut fingerprint = self.with(xids.len() as u64);
        for xid in xids {
            fingerprint = fingerprint.with_xid(xid);
        }
        fingerprint
    }

    /// Adds identifiers that several lists own.
    fn with_listed(self, xids: &[SharedXid]) -> Fingerprint
        ensures { result.number ≡ with_xids self.number xids.now }
    {
        let mut fingerprint = self.with(xids.len() as u64);
        for xid in xids {
            fingerprint = fingerprint.with_xid(xid.xid());
        }
        fingerprint
    }

    /// Adds a branch's state.
    fn with_state(self, state: &BranchState) -> Fingerprint
        ensures { result.number ≡ with_state self.number state.now }
    {
        match state {
            BranchState::NonExisting => self.with(0),
            BranchState::Active => self.with(1),
            BranchState::Idle => self.with(2),
            BranchState::Prepared => self.with(3),
        }
    }

    /// Adds a refusal: its number, and of `Rmfail`, the only one that has more, the branch's state too.
    fn with_error(self, error: &XaError) -> Fingerprint
        ensures { result.number ≡ with_error self.number error.now }
    {
        let fingerprint = self.with(error.number() as u64);
        match error {
            XaError::Nota => fingerprint,
            XaError::Inval => fingerprint,
            XaError::Rmfail(state) => fingerprint.with_state(state),
            XaError::Dupid => fingerprint,
            XaError::RowLocked => fingerprint,
        }
    }

    /// Adds an answer: a word for its kind, and then what it has.
    fn with_answer(self, answer: &Answer) -> Fingerprint
        ensures { result.number ≡ with_answer self.number answer.now }
    {
        match answer {
            Answer::Unread => self.with(0),
            Answer::Reply(Reply::Ok) => self.with(1),
            Answer::Reply(Reply::Value(value)) => self.with(2).with_value(value),
            Answer::Reply(Reply::Recovered(xids)) => self.with(3).with_xids(xids.as_slice()),
            Answer::Reply(Reply::Refused(error)) => self.with(4).with_error(error),
        }
    }

    /// Adds an answer as it is kept: what `with_answer` adds for the same answer, however it is kept.
    fn with_kept(self, answer: &KeptAnswer) -> Fingerprint
        ensures { result.number ≡ with_answer self.number (answer_kept answer.now) }
    {
        match answer {
            KeptAnswer::Whole(answer) => self.with_answer(answer),
            // 3 is the word for a list in `with_answer`.
            KeptAnswer::Listed(xids) => self.with(3).with_listed(xids.as_slice()),
        }
    }

    /// Adds how far a session is. The request of an open call is left out: all configurations of a list have seen the
    /// same call.
    fn with_client(self, client: &ClientState) -> Fingerprint
        ensures { result.number ≡ with_client self.number client.now }
    {
        match client {
            ClientState::Idle => self.with(0),
            ClientState::Called(_) => self.with(1),
            ClientState::Answered(answer) => self.with(2).with_kept(answer.kept()),
            ClientState::Gone(None) => self.with(3),
            ClientState::Gone(Some(_)) => self.with(4),
            ClientState::Left => self.with(5),
        }
    }

    /// Adds how far each session is.
    fn with_clients(self, clients: &[ClientState]) -> Fingerprint
        ensures { result.number ≡ fold with_client self.number clients.now }
    {
        let mut fingerprint = self;
        for client in clients {
            fingerprint = fingerprint.with_client(client);
        }
        fingerprint
    }

    /// Adds a phase.
    fn with_phase(self, phase: Phase) -> Fingerprint
        ensures { result.number ≡ with_phase self.number phase }
    {
        match phase {
            Phase::Active => self.with(0),
            Phase::Idle => self.with(1),
            Phase::Prepared => self.with(2),
        }
    }

    /// Adds an owner, or that there is none.
    fn with_owner(self, owner: &Option<SessionNo>) -> Fingerprint
        ensures { result.number ≡ with_owner self.number owner.now }
    {
        match owner {
            // No session has the number 0.
            None => self.with(0),
            Some(session) => self.with(session.get()),
        }
    }

    /// Adds a hold on a row: a word for its kind, and the value that the branch puts, if it does.
    fn with_hold(self, hold: &Hold) -> Fingerprint
        ensures { result.number ≡ with_hold self.number hold.now }
    {
        match hold {
            Hold::Shared => self.with(0),
            Hold::Put(value) => self.with(1).with_text(value.as_slice()),
            Hold::Delete => self.with(2),
        }
    }

    /// Adds rows that a branch holds: how many they are, and of each its key and how it is held.
    fn with_rows(self, rows: &[HeldRow]) -> Fingerprint
        ensures { result.number ≡ with_rows self.number rows.now }
    {
        let mut fingerprint = self.with(rows.len() as u64);
        for row in rows {
            fingerprint = fingerprint
                .with_text(row.key.as_slice())
                .with_hold(&row.hold);
        }
        fingerprint
    }

    /// Adds a branch of the server: its identifier, phase and owner, and the rows that it holds.
    fn with_branch(
        self,
        alloc: Global,
        server: &Server,
        branch: &BranchEntry,
    ) -> Result<Fingerprint, NoMemory>
        ensures { IfOk result (λ new. new.number ≡ with_branch server.now self.number branch.now) }
    {
        let rows = server.rows_of(alloc, &branch.xid)?;
        Ok(
            self.with_xid(&branch.xid)
                .with_phase(branch.phase)
                .with_owner(&branch.owner)
                .with_rows(rows.as_slice()),
        )
    }

    /// Adds the branches of the server.
    fn with_branches(self, alloc: Global, server: &Server) -> Result<Fingerprint, NoMemory>
        ensures { IfOk result (λ new. new.number ≡ fold (with_branch server.now) self.number (branches_of server.now)) }
    {
        let branches = server.branches(alloc)?;
        let mut fingerprint = self;
        for branch in branches.as_slice() {
            fingerprint = fingerprint.with_branch(alloc, server, branch)?;
        }
        Ok(fingerprint)
    }

    /// Adds the committed values of these rows.
    fn with_values(self, server: &Server, keys: &[Key]) -> Fingerprint
        ensures { result.number ≡ fold (with_key server.now) self.number keys.now }
    {
        let mut fingerprint = self;
        for key in keys {
            fingerprint = fingerprint.with_value(&server.value_of(key));
        }
        fingerprint
    }

    /// Adds the branches of the server, and the committed values of these rows.
    fn with_server(
        self,
        alloc: Global,
        server: &Server,
        keys: &[Key],
    ) -> Result<Fingerprint, NoMemory>
        ensures { IfOk result (λ new. new.number ≡ with_server keys.now self.number server.now) }
    {
        let branches = self.with_branches(alloc, server)?;
        Ok(branches.with_values(server, keys))
    }
}

/// Returns the fingerprint of a row's key.
pub fn mark_of_key(key: &Key) -> u64
    ensures { result ≡ with_text 0 key.now }
{
    Fingerprint::new().with_text(key.as_slice()).number
}

/// Returns the number with one more word mixed in.
pub fn mixed(number: u64, word: u64) -> u64 {
    Fingerprint { number }.with(word).number
}

/// Returns the fingerprint of an identifier.
pub fn mark_of_xid(xid: &Xid) -> u64
    ensures { result ≡ with_xid 0 xid.now }
{
    Fingerprint::new().with_xid(xid).number
}

/// Returns the fingerprint of a list of identifiers.
pub fn mark_of_xids(xids: &[Xid]) -> u64
    ensures { result ≡ with_xids 0 xids.now }
{
    Fingerprint::new().with_xids(xids).number
}

/// Returns the fingerprint of a configuration: made of how far its sessions are, of its server's branches
/// with the rows that they hold, and of the committed values of the rows `keys`.
///
/// May return `NoMemory`.
#[tactic(auto, unfolding(crate::specs::Marks::mark))]
pub fn mark_of(alloc: Global, one: &Configuration, keys: &[Key]) -> Result<u64, NoMemory>
    // Proved (records, fingerprints-tell-apart)
    ensures { IfOk result (λ number. number ≡ mark keys.now (config_of one.now)) }
{
    let clients = Fingerprint::new().with_clients(one.clients.as_slice());
    let whole = match one.server.own() {
        Some(server) => clients.with_server(alloc, server, keys)?,
        None => clients.with_server(alloc, &one.server.made()?, keys)?,
    };
    Ok(whole.number)
}
