//! Carrying calls out.
ghost use Rattle.std.specs.Prelude.{◌≡◌, ◌≤◌, ◌<◌, ◌-◌, ◌^◌, ◌⊎◌, ℕ, true, nat_lt, IfOk, OnErr, vec_len, length, map};
ghost use Rattle.xa_coordinator.specs.Stores.{EachStore};
ghost use Rattle.xa_manager.specs.{Calls.{takes_rows, IsWritten}, Carried.{vote_answer_of, stage_after as stage_with}};
ghost use Rattle.xa_manager.specs.Carried.{IsBegun, IsSpent, HasWorked, HasVoted, IsDecided, IsFinished, IsAbandoned};
ghost use Rattle.xa_manager.specs.{Carried.{IsLimited, IsStopped, HasRecovered, HasReplied, IsShown}, Limits.Passes};
ghost use Rattle.xa_manager.specs.{Managed.whole_of, Said.{IsGiven, IsListed, reply_of}, Whole.{IsRefused, Performs}};

use crate::{Call, Listing, Manager, Response, Stage, VoteAnswer};
use std::alloc::{AllocError, Global};
use std::sync::Wait;
use xa_coordinator::{BeginFault, Coordinator, Fused, Speak, Vote};
use xa_lines::converts;
use xa_server::Reply;
use xa_session::{Answer, Fault};
use xa_xid::{NoMemory, Statement};

/// The reply of an answer, or the fault that the session returned in its place.
pub(crate) fn reply_in(answered: Result<Answer, Fault>) -> Result<Reply, Fault>
    ensures { result ≡ reply_of answered }
{
    let answer = answered?;
    Ok(answer.reply)
}

/// The response if a transaction doesn't begin since all numbers are given. Err if memory was refused.
fn not_begun(fault: BeginFault) -> Result<Response, NoMemory>
    ensures { IfOk result (λ response. (fault ≡ BeginFault.NumbersSpent) × (response ≡ Response.NumbersSpent)) }
{
    match fault {
        BeginFault::NumbersSpent => Ok(Response::NumbersSpent),
        BeginFault::NoMemory => Err(AllocError),
    }
}

/// What is answered to a vote, and the transaction's stage after it.
fn told_of(vote: Vote) -> (VoteAnswer, Stage)
    ensures answer { result.0 ≡ vote_answer_of vote }
    ensures stage { result.1 ≡ stage_with vote }
{
    // Only a vote of Ready can be decided, so it has a stage of its own. If no store takes part, nothing is left to
    // finish.
    match vote {
        Vote::Ready(prepared) => (VoteAnswer::Ready, Stage::Ready(prepared)),
        Vote::OnePhase(prepared) => (VoteAnswer::OnePhase, Stage::Voted(prepared)),
        Vote::No {
            prepared,
            store,
            cause,
        } => (VoteAnswer::No { store, cause }, Stage::Voted(prepared)),
        Vote::Nothing => (VoteAnswer::Nothing, Stage::Over),
    }
}

/// Gives a statement to a client's session, and returns its reply, or the fault if it couldn't answer.
fn reply_from<T: Speak, R: Wait>(
    rt: &R,
    session: &mut T,
    statement: &Statement,
) -> Result<Reply, Fault>
    ensures { IsGiven statement.now result (T.view session.old) (T.view session.new) }
{
    reply_in(session.execute(rt, statement))
}

/// What the other client's session of each store answers to `XA RECOVER CONVERT XID`, or its fault, from store 0 on.
/// Room for the answers is taken before the first session is asked, so after `NoMemory` no session got a statement.
fn listed_by_each<T: Speak, R: Wait>(
    rt: &R,
    alloc: Global,
    other_clients: &mut [T],
) -> Result<Vec<Result<Reply, Fault>>, NoMemory>
    ensures each { IfOk result (λ answers. vec_len answers ≡ length other_clients.old) }
    ensures count { length other_clients.new ≡ length other_clients.old }
    ensures listed { IfOk result (λ answers. EachStore T.view
        (IsListed answers.items) other_clients.old other_clients.new) }
    ensures nothing { OnErr result (other_clients.new ≡ other_clients.old) }
{
    let mut answers = Vec::with_capacity(alloc, other_clients.len())?;
    let listing = Statement::Recover { convert: true };
    for store in 0..other_clients.len() {
        answers.push_reserved(reply_from(rt, &mut other_clients[store], &listing));
    }
    Ok(answers)
}

/// Lets the coordinator's sessions of the first `count` stores pass on 2^64 - 1 calls: more than any run makes.
fn allow_all<S: Speak>(coordinator: &mut Coordinator<Fused<S>>, count: u8)
    requires { count ≤ vec_len coordinator.old.stores }
    ensures name { coordinator.new.name ≡ coordinator.old.name }
    ensures sessions { map (λ session. session.inner) coordinator.new.stores.items
        ≡ map (λ session. session.inner) coordinator.old.stores.items }
    ensures passes { (store : ℕ) → store < count → Passes store (2 ^ 64 - 1) coordinator.new.stores.items }
{
    for store in 0..count {
        coordinator.allow(store, u64::MAX);
    }
}

impl<C: Speak, T: Speak> Manager<C, T> {
    /// Whether there is a store of this number. If so, the number fits into a `u8`, since there are at most 16 stores.
    pub(crate) fn has_store(&self, store: u64) -> bool
        ensures { result ≡ nat_lt store (vec_len self.now.coordinator.stores) }
    {
        // The list of other clients has one for each store.
        store < self.other_clients.len() as u64
    }

    /// Begins the transaction of the next number, or answers that all numbers were given. Errors: `NoMemory` if the
    /// ledger or the decisions can't grow; then nothing has changed.
    fn begin(&mut self) -> Result<Response, NoMemory>
        ensures answers { IfOk result
            (λ response. IsBegun (whole_of self.old) response (whole_of self.new)
            ⊎ IsSpent (whole_of self.old) response (whole_of self.new)) }
        ensures nothing { OnErr result (whole_of self.new ≡ whole_of self.old) }
    {
        // The place comes first: if there is no memory for it, no number is given. `Over` only holds the place until
        // the transaction is there. The ledger had a place for each number that was given, so this is the next
        // number's.
        self.ledger.add(Stage::Over)?;
        match self.coordinator.begin(&mut self.decisions) {
            Ok(transaction) => {
                let number = transaction.number();
                self.ledger.put(number, Stage::Working(transaction));
                Ok(Response::Begun(number))
            }
            Err(fault) => {
                // No number was given, so its place goes again.
                self.ledger.forget_last();
                not_begun(fault)
            }
        }
    }

    /// Gives a row statement of a transaction to a store, and answers what the coordinator's `work` returned. The
    /// answer is a refusal if there is no such store, or if the transaction wasn't begun or takes no more work.
    fn work<R: Wait>(&mut self, rt: &R, number: u64, store: u64, statement: &Statement) -> Response
        requires { takes_rows statement.now ≡ true }
        ensures { IsRefused (whole_of self.old) (Call.Work number store statement.now) result (whole_of self.new)
            ⊎ HasWorked C.view number store statement.now (whole_of self.old) result (whole_of self.new) }
    {
        // The store is looked at first: it goes before the transaction in the order of refusals.
        if !self.has_store(store) {
            return Response::UnknownStore(store);
        }
        match self.ledger.take_working(number) {
            Ok(mut transaction) => {
                let worked = self
                    .coordinator
                    .work(rt, &mut transaction, store as u8, statement);
                // The transaction goes on taking work, also after a refusal or a fault.
                self.ledger.put(number, Stage::Working(transaction));
                Response::Worked(worked)
            }
            Err(refusal) => refusal,
        }
    }

    /// Has the stores of a transaction vote, answers the vote, and keeps it as the transaction's stage. The answer is a
    /// refusal if the transaction wasn't begun or takes no more work.
    fn prepare<R: Wait>(&mut self, rt: &R, number: u64) -> Response
        ensures { IsRefused (whole_of self.old) (Call.Prepare number) result (whole_of self.new)
            ⊎ HasVoted C.view number (whole_of self.old) result (whole_of self.new) }
    {
        match self.ledger.take_working(number) {
            Ok(transaction) => {
                let vote = self.coordinator.prepare(rt, transaction);
                let (answer, stage) = told_of(vote);
                self.ledger.put(number, stage);
                Response::Voted(answer)
            }
            Err(refusal) => refusal,
        }
    }

    /// Decides that a transaction commits, or answers that its number is closed. The answer is a refusal if the
    /// transaction wasn't begun, has no vote of Ready, or is over.
    fn decide(&mut self, number: u64) -> Response
        ensures { IsRefused (whole_of self.old) (Call.Decide number) result (whole_of self.new)
            ⊎ IsDecided number (whole_of self.old) result (whole_of self.new) }
    {
        match self.ledger.take_ready(number) {
            Ok(prepared) => {
                let decided = self.decisions.decide(&prepared);
                // The transaction stays Ready, decided or not, so that it can be finished.
                self.ledger.put(number, Stage::Ready(prepared));
                match decided {
                    Ok(()) => Response::Decided,
                    // The only error. The number was given to this transaction, so a recovery has closed it.
                    Err(_) => Response::Closed,
                }
            }
            Err(refusal) => refusal,
        }
    }

    /// Ends a transaction that was voted on, as its vote and the decisions say, and answers how it ended. It is
    /// over then, also if it ended as Unfinished. The answer is a refusal if it wasn't begun or has no vote to finish.
    fn finish<R: Wait>(&mut self, rt: &R, number: u64) -> Response
        ensures { IsRefused (whole_of self.old) (Call.Finish number) result (whole_of self.new)
            ⊎ IsFinished C.view number (whole_of self.old) result (whole_of self.new) }
    {
        match self.ledger.take_voted(number) {
            // To take it out has set its stage to Over, which stays.
            Ok(prepared) => {
                Response::Ended(self.coordinator.finish(rt, &self.decisions, prepared))
            }
            Err(refusal) => refusal,
        }
    }

    /// Rolls back a transaction that takes work, and answers how it ended. It is over then, also if it ended as
    /// Unfinished. The answer is a refusal if it wasn't begun or takes no more work.
    fn abandon<R: Wait>(&mut self, rt: &R, number: u64) -> Response
        ensures { IsRefused (whole_of self.old) (Call.Abandon number) result (whole_of self.new)
            ⊎ IsAbandoned C.view number (whole_of self.old) result (whole_of self.new) }
    {
        match self.ledger.take_working(number) {
            // To take it out has set its stage to Over, which stays.
            Ok(transaction) => Response::Ended(self.coordinator.abandon(rt, transaction)),
            Err(refusal) => refusal,
        }
    }

    /// Has the coordinator recover, and answers its report or why it failed.
    fn recover<R: Wait>(&mut self, rt: &R, alloc: Global) -> Response
        ensures { HasRecovered C.view (whole_of self.old) result (whole_of self.new) }
    {
        Response::Recovered(self.coordinator.recover(rt, alloc, &mut self.decisions))
    }

    /// Gives a statement to the other client's session of a store, and answers the session's reply or fault;
    /// `UnknownStore` if there is no such store.
    fn at<R: Wait>(&mut self, rt: &R, store: u64, statement: &Statement) -> Response
        ensures { IsRefused (whole_of self.old) (Call.At store statement.now) result (whole_of self.new)
            ⊎ HasReplied T.view store statement.now (whole_of self.old) result (whole_of self.new) }
    {
        if !self.has_store(store) {
            return Response::UnknownStore(store);
        }
        Response::Replied {
            convert: converts(statement),
            answer: reply_from(rt, &mut self.other_clients[store as usize], statement),
        }
    }

    /// Has the other client of each store list what is prepared there. Errors: `NoMemory` if the list of answers has no
    /// room; then no session got a statement.
    fn show<R: Wait>(&mut self, rt: &R, alloc: Global) -> Result<Response, NoMemory>
        ensures answers { IfOk result (λ response. IsShown T.view (whole_of self.old) response (whole_of self.new)) }
        ensures nothing { OnErr result (whole_of self.new ≡ whole_of self.old) }
    {
        let answers = listed_by_each(rt, alloc, self.other_clients.as_mut_slice())?;
        Ok(Response::Shown(Listing { answers }))
    }
}

impl<S: Speak, T: Speak> Manager<Fused<S>, T> {
    /// Has the coordinator's session in a store pass on `calls` more calls, and then fail; `UnknownStore` if there is
    /// no such store.
    fn fail(&mut self, store: u64, calls: u64) -> Response
        ensures { IsRefused (whole_of self.old) (Call.Fail store calls) result (whole_of self.new)
            ⊎ IsLimited store calls (whole_of self.old) result (whole_of self.new) }
    {
        if !self.has_store(store) {
            return Response::UnknownStore(store);
        }
        self.coordinator.allow(store as u8, calls);
        Response::Limited
    }

    /// Replaces the coordinator by a new one of the same name over the same sessions, each of which then passes on
    /// 2^64 - 1 calls.
    fn stop(&mut self) -> Response
        ensures { IsStopped (whole_of self.old) result (whole_of self.new) }
    {
        // The list of other clients has one for each store. A coordinator that has forgotten what is open is as a new
        // one.
        allow_all(&mut self.coordinator, self.other_clients.len() as u8);
        self.coordinator.restart();
        Response::Stopped
    }

    /// Carries a call out, and returns its response.
    ///
    /// `call`: as `read_call` returns it. A call that the table of refusals (`refusal_of`) refuses changes nothing.
    /// After `FAIL` the coordinator's session in that store passes on as many calls as the call says; after `STOP` each
    /// of the coordinator's sessions passes on 2^64 - 1, and the coordinator has nothing open in any store.
    /// Errors: `NoMemory` if there is no room for a transaction that begins, or for the list of answers of `SHOW`.
    /// After an error no session got a statement, and nothing changed.
    /// May return `NoMemory`. May wait: no number of tries is promised.
    /// Own rule: docs/COORDINATOR.md#calls.
    pub fn answer<R: Wait>(
        &mut self,
        rt: &R,
        alloc: Global,
        call: &Call,
    ) -> Result<Response, NoMemory>
        requires { IsWritten call.now }
        // Proved (manager, refusals): A call is refused exactly if the table of refusals says so, in the
        //   order of the errors. Then numbers, stages and sessions stay. Else numbers and stages are as the
        //   call says.
        // Proved (manager, answers): The answer to work, a vote, an ending or a recovery is what the
        //   coordinator's own call did in its sessions; an ending is as the decisions say.
        // Proved (manager, answers-of-clients): The answer to `AT` is what the other client's session
        //   answered. The answer to `SHOW` is what each of these sessions answered to `XA RECOVER`, after
        //   which it has added nothing.
        // Proved (manager, begins-transaction): `BEGIN` begins the transaction of the next number, of the
        //   coordinator `c`, in which no store takes part. `WORK` leaves its number and name, and which other
        //   stores take part.
        // Proved (manager, no-other-session): No other session gets a statement than those that the call
        //   names, none for a refused call, and each session stays of its log.
        // Proved (manager, limits): After `FAIL` is answered OK only that session's limit changes, to the
        //   given number of calls. After `STOP` each session passes on 2^64 - 1 calls, and nothing is open in
        //   any store. No other call lifts a limit: each statement that it gives the coordinator's session takes
        //   one, and the session is out of memory only if none is left, or if memory was refused and this is noted.
        ensures answers { IfOk result (λ response. Performs S.view T.view (whole_of self.old) (call.now) response
            (whole_of self.new)) }
        // Proved (manager, no-memory): If `NoMemory` is returned, no session got a statement, and numbers,
        //   stages, sessions, limits and what is open are as they were.
        ensures nothing { OnErr result (whole_of self.new ≡ whole_of self.old) }
    {
        match call {
            Call::Silent => Ok(Response::Silent),
            Call::Unread(place) => Ok(Response::Unread(*place)),
            Call::Begin => self.begin(),
            Call::Work {
                number,
                store,
                statement,
            } => Ok(self.work(rt, *number, *store, statement)),
            Call::Prepare(number) => Ok(self.prepare(rt, *number)),
            Call::Decide(number) => Ok(self.decide(*number)),
            Call::Finish(number) => Ok(self.finish(rt, *number)),
            Call::Abandon(number) => Ok(self.abandon(rt, *number)),
            Call::Fail { store, calls } => Ok(self.fail(*store, *calls)),
            Call::Stop => Ok(self.stop()),
            Call::Recover => Ok(self.recover(rt, alloc)),
            Call::At { store, statement } => Ok(self.at(rt, *store, statement)),
            Call::Show => self.show(rt, alloc),
        }
    }
}
