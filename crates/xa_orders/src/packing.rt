//! Servers kept as a few statements that lead to them.
ghost use Rattle.std.specs.Prelude.{◌≡◌, IfOk, OnOk, IfSome};

use crate::done::Done;
use crate::kept_server::KeptServer;
use crate::line::Line;
use crate::shared_statement::SharedStatement;
use crate::wanted::Wanted;
use std::alloc::Global;
use std::sync::Arc;
use xa_server::{BranchEntry, HeldRow, Phase, Server};
use xa_statement::read_statement;
use xa_xid::{Key, NoMemory, SessionNo, Statement};

/// The greatest number of statements as which a server is kept. They are carried out again whenever the server is
/// needed, so more would take too long.
const MOST: usize = 64;

/// Keeps servers as statements that lead to them from one server, which all share.
///
/// The statements are carried out once to see that they lead there. So a poor choice of statements costs
/// memory, and changes no result.
#[derive(Drop)]
pub struct Packing {
    /// The server with which the search begins: no line side by side is carried out yet.
    base: Arc<Server>,
    /// A session that has no branch in that server, if there is one.
    free: Option<SessionNo>,
    /// The rows that a line writes. Each other row has the same value in every server.
    written: Vec<Key>,
    /// The statements of the lines, each once.
    statements: Vec<SharedStatement>,
    alloc: Global,
}

/// A session that owns none of these branches. None if each of the 16 sessions owns one.
fn free_session(branches: &[BranchEntry]) -> Option<SessionNo> {
    for number in 1..17 {
        // A prepared branch has no owner, so it leaves each session free.
        let session = SessionNo::of(number);
        if !branches.iter().any(|branch| branch.owner == session) {
            return session;
        }
    }
    None
}

/// Whether the statement gives a branch one of these holds: it reads, writes or deletes the row as the hold says.
fn holds_one(rows: &[HeldRow], statement: &Statement) -> bool {
    rows.iter()
        .any(|row| Wanted::hold(row).is_done_by(statement))
}

/// Whether the list has the statement.
fn has(statements: &[SharedStatement], statement: &Statement) -> bool {
    statements.iter().any(|one| one.statement() == statement)
}

/// The statements of the lines, each once. A line that can't be read has none.
fn statements_of(alloc: Global, lines: &[Line<'_>]) -> Result<Vec<SharedStatement>, NoMemory> {
    let mut statements = Vec::new(alloc);
    for line in lines {
        if let Ok(statement) = read_statement(line.text()) {
            if !has(statements.as_slice(), &statement) {
                statements.push(SharedStatement::of(alloc, statement)?)?;
            }
        }
    }
    Ok(statements)
}

impl Packing {
    /// Returns a packing over this server, with statements of these lines. `written` has the rows that the
    /// lines write.
    ///
    /// May return `NoMemory`.
    pub fn new(
        alloc: Global,
        base: &Server,
        lines: &[Line<'_>],
        written: Vec<Key>,
    ) -> Result<Packing, NoMemory> {
        let branches = base.branches(alloc)?;
        Ok(Packing {
            base: Arc::new(alloc, base.copy()?)?,
            free: free_session(branches.as_slice()),
            written,
            statements: statements_of(alloc, lines)?,
            alloc,
        })
    }

    /// Returns the rows that a line writes.
    pub fn written(&self) -> &[Key] {
        self.written.as_slice()
    }

    /// Adds the lines' first statement that does what is wanted, given by the session. Nothing is added if no line has
    /// one: then the statements may not lead to the server, which `packed` sees.
    fn add(
        &self,
        since: &mut Vec<Done>,
        session: SessionNo,
        wanted: &Wanted<'_>,
    ) -> Result<(), NoMemory> {
        for one in &self.statements {
            if wanted.is_done_by(one.statement()) {
                let statement = one.try_clone()?;
                since.push(Done { session, statement })?;
                return Ok(());
            }
        }
        Ok(())
    }

    /// Adds statements that give each row that a line writes its value in `server`, if that isn't its value in the
    /// shared server. The session has no branch, so they take effect at once, unless a branch there holds the row.
    fn add_rows(
        &self,
        since: &mut Vec<Done>,
        session: SessionNo,
        server: &Server,
    ) -> Result<(), NoMemory> {
        for key in &self.written {
            let value = server.value_of(key);
            if value != self.base.value_of(key) {
                self.add(since, session, &Wanted::value(key, &value))?;
            }
        }
        Ok(())
    }

    /// Adds statements that give a branch these holds, in the order of the lines. Mostly that is the order in
    /// which it got them.
    fn add_holds(
        &self,
        since: &mut Vec<Done>,
        session: SessionNo,
        rows: &[HeldRow],
    ) -> Result<(), NoMemory> {
        for one in &self.statements {
            if holds_one(rows, one.statement()) {
                let statement = one.try_clone()?;
                since.push(Done { session, statement })?;
            }
        }
        Ok(())
    }

    /// Adds statements that are meant to make a branch as it is in `server`. `session` starts it: its owner, or a free
    /// session if it is prepared.
    fn add_branch(
        &self,
        since: &mut Vec<Done>,
        session: SessionNo,
        server: &Server,
        branch: &BranchEntry,
    ) -> Result<(), NoMemory> {
        let xid = &branch.xid;
        // In the order in which a session gives them: start, work, end, prepare.
        self.add(since, session, &Wanted::Start(xid))?;
        let rows = server.rows_of(self.alloc, xid)?;
        self.add_holds(since, session, rows.as_slice())?;
        // IDLE or PREPARED: its work has ended.
        if branch.phase != Phase::Active {
            self.add(since, session, &Wanted::End(xid))?;
        }
        if branch.phase == Phase::Prepared {
            self.add(since, session, &Wanted::Prepare(xid))?;
        }
        Ok(())
    }

    /// Statements that are meant to lead to the server. Whether they do is seen by carrying them out.
    ///
    /// First come those for rows and prepared branches, which need a session without a branch: `free` may own an open
    /// branch in the end. A prepared branch leaves `free` without one again.
    fn since(&self, free: SessionNo, server: &Server) -> Result<Vec<Done>, NoMemory> {
        let mut since = Vec::new(self.alloc);
        self.add_rows(&mut since, free, server)?;
        let branches = server.branches(self.alloc)?;
        for branch in &branches {
            if branch.owner.is_none() {
                self.add_branch(&mut since, free, server, branch)?;
            }
        }
        for branch in &branches {
            if let Some(owner) = branch.owner {
                self.add_branch(&mut since, owner, server, branch)?;
            }
        }
        Ok(since)
    }

    /// The server `own`, kept as few statements. None if no session is free to give them, if they are too many, or if
    /// they aren't known to lead to it.
    fn packed(&self, own: &Server) -> Result<Option<KeptServer>, NoMemory>
        ensures { IfOk result (λ found. IfSome found (λ packed. packed ≡ own.now)) }
    {
        let Some(free) = self.free else {
            return Ok(None);
        };
        let since = self.since(free, own)?;
        // More statements would take too long to carry out again whenever the server is needed.
        if since.len() > MOST {
            return Ok(None);
        }
        let packed = KeptServer::since(&self.base, since)?;
        // The statements were only meant to lead there, so they are carried out and compared.
        if packed.is_like(own)? {
            Ok(Some(packed))
        } else {
            Ok(None)
        }
    }

    /// Keeps a server as few statements, if it is kept as itself and such statements are found. Its state
    /// stays the same.
    ///
    /// May return `NoMemory`.
    pub fn pack(&self, server: &mut KeptServer) -> Result<(), NoMemory>
        ensures { OnOk result (server.new ≡ server.old) }
    {
        let found = match server.own() {
            // It is kept as statements already.
            None => None,
            Some(own) => self.packed(own)?,
        };
        if let Some(packed) = found {
            *server = packed;
        }
        Ok(())
    }
}
