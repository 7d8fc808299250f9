//! The version, and what the help of the program, and of each job, shows after the options.

/// The version that the program prints.
pub const VERSION: &str = "0.1.0";

/// What the program's own help shows: how a job is called, and where to read more.
pub const START: &str =
    "A job reads the standard input, unless --file names a file; audit reads files. For example,
  echo \"1 PUT 'k','v'\" | xa_script run
prints
  1 OK
xa_script JOB --help shows what a job reads and prints.
A first hour: docs/TUTORIAL.md. All jobs: docs/COMMANDS.md. Exit statuses: docs/COMMANDS.md#exit-status.";

/// What `run` reads and prints, as its help shows it.
const LINES: &str =
    "The script is read to its end, and then its lines are answered in order. A line is the number of a
session, from 1 to 16, and a statement of that session:
  1 XA START 'abc','def',7
  1 PUT 'k','v'
  2 XA COMMIT 'abc','def',7
An answer begins with the number of its session:
  1 OK
  1 OK
  2 ERROR 1397 (XAE04): XAER_NOTA unknown xid
The statements are
  XA START x, XA END x, XA PREPARE x, XA COMMIT x [ONE PHASE], XA ROLLBACK x
                           x names a branch: 'gtrid'[,'bqual'[,formatID]]
  XA RECOVER [CONVERT XID] lists the prepared branches
  GET 'k'                  reads a row
  PUT 'k','v'              gives a row a value
  DEL 'k'                  removes a row's value
  DISCONNECT               ends the session
Write a text as 'abc', X'616263' or 0x616263. Blank lines have no answer.
More: docs/COMMANDS.md#run. Errors and their remedies: docs/STATEMENTS.md#errors.";

/// What `serve` reads and prints, as its help shows it.
const SERVED: &str =
    "A line is the number of a session, from 1 to 16, and a statement of that session, as for run:
  1 PUT 'k','v'
Each line is answered before more is read:
  1 OK
A line of more than 65,536 bytes is answered as a syntax fault. If memory for a statement runs out, its
answer is ERROR 1037, it has changed nothing, and the server goes on. Close the standard input to end it.
More: docs/COMMANDS.md#serve.";

/// What a race reads and prints, as its help shows it.
const RACED: &str =
    "A line is the number of a session, from 1 to 16, and a statement of that session, as for run:
  1 XA START 'a'
  2 XA START 'a'
The race prints one history: each statement that is logged, as its place, its session and its text. Then
come the answers of each session, each as the session, how many entries of the history come before the
answer, and the reply:
  HISTORY 1
  0 1 XA START 0x61,X'',1
  1 0 OK
  2 1 ERROR 1440 (XAE08): XAER_DUPID xid already exists
The history explains each answer: replay that many entries, and then give the statement. Another race of
the same lines may print another history. If lines have syntax faults, no line is raced, and each of these
is named:
  LINE 2 ERROR 1064 (42000): syntax fault at byte 9
Blank lines say nothing. If the first other line begins with #, so do all lines that begin with #.
With --runs the lines BESIDE and AFTER divide the script, as for explore. Each outcome that came is printed,
with its number in the list of explore, and how often it came:
  OUTCOME 2 CAME 14
  1 ERROR 1440 (XAE08): XAER_DUPID xid already exists
  2 OK
  SEEN 1 OF 2 OUTCOMES
If explore would print UNDECIDED, the outcomes are numbered in the order of their texts, and the last line
says only SEEN 1. If lines have syntax faults, the status is 6 with --runs.
More: docs/COMMANDS.md#race.";

/// What `show` reads and prints, as its help shows it.
const SHOWN: &str =
    "A line is the number of a session, from 1 to 16, and a statement of that session, as for serve:
  1 PUT 'k','v'
Lines that begin with two blanks follow its answer. They show each branch, with the rows that it has locked,
and then the committed values of the rows that the statement is about:
  1 OK
    BRANCH 0x616263,0x646566,7 ACTIVE SESSION 1
      HOLDS 0x6b WRITES 0x76
    ROW 0x6b NONE
A line that begins with # is a comment, and is printed again after two blanks.
More: docs/COMMANDS.md#show.";

/// The calls that `coordinate` reads, as its help shows them.
const CALLS: &str = "Each line is a call; n is a transaction, from 1 on, and k a store, from 0 on:
  BEGIN                    begins the next transaction
  WORK n k STATEMENT       gives a GET, PUT or DEL of the transaction to the store
  PREPARE n                asks the transaction's stores for their votes
  DECIDE n                 decides that the transaction commits
  FINISH n                 commits the transaction if it is decided or one-phase, else rolls it back
  ABANDON n                rolls back a transaction that hasn't been voted on
  FAIL k AFTER j           lets the coordinator's session in the store carry out j more calls,
                           and then run out of memory
  STOP                     replaces the coordinator by a new one, as after a crash
  RECOVER                  has the coordinator finish all its branches that are still prepared
  AT k STATEMENT           gives a statement of another client to the store
  SHOW                     prints what is prepared in each store, and the decisions
For example, the calls
  BEGIN
  WORK 1 0 PUT 'k','v'
are answered
  TRANSACTION 1
  OK
Blank lines, and lines that begin with #, have no answer. --capacity counts only with --fixed.
More: docs/COMMANDS.md#coordinate.";

/// What `stops` reads and prints, as its help shows it.
const STOPPED: &str = "Each line is a call, as for coordinate, but not FAIL, STOP, RECOVER or SHOW:
  BEGIN
  WORK 1 0 PUT 'k','v'
  PREPARE 1
  FINISH 1
The coordinator is stopped before each call that it makes on one of its sessions, and once at the end. Each
time the lines are carried out anew on fresh stores, up to the stop, and a new coordinator recovers. Its
answer is printed, and then each row that some line names:
  STOPS 5
  STOP 1 0
  RECOVERED committed 0 rolled back 0 missing 0
  ROW 0 0x6b NONE
STOP 2 1 means: in line 2, after 1 call. A row is a store, a key and a value. If coordinate would refuse a
line, only such lines are printed, and the status is 6:
  LINE 2: UNKNOWN STORE 7
Stores are never full here; --capacity has no effect.
More: docs/COMMANDS.md#stops.";

/// What `explore` reads and prints, as its help shows it.
const EXPLORED: &str =
    "A line is the number of a session, from 1 to 16, and a statement of that session, as for run. A line BESIDE
and a line AFTER divide the script. The lines before BESIDE are carried out first, and those after AFTER last.
The lines between come in every order of sessions, each session's in its own order. Without BESIDE these are
all lines up to AFTER:
  1 XA START 'a'
  2 XA START 'a'
An outcome is the answers to all lines, with the least order of sessions that gives them:
  OUTCOMES 2
  OUTCOME 1
  1 OK
  2 ERROR 1440 (XAE08): XAER_DUPID xid already exists
  ORDER 1 2
  OUTCOME 2
  1 ERROR 1440 (XAE08): XAER_DUPID xid already exists
  2 OK
  ORDER 2 1
If more than N ways have to be kept at once, it prints UNDECIDED, and the status is 5; raise --limit then. If
lines have syntax faults, no line is carried out, each of these is named, and the status is 6:
  LINE 2 ERROR 1064 (42000): syntax fault at byte 9
Blank lines, and lines that begin with #, say nothing.
More: docs/COMMANDS.md#explore.";

/// What `judge` reads and prints, as its help shows it.
const RECORDS: &str =
    "A record is what clients of a server saw, in the order in which they saw it. In its lines n is the number of a
session, from 1 to 16:
  n > STATEMENT            the session calls for the statement, as a script writes it
  n < OK                   its call returns OK; also n < NONE, n < VALUE literal, n < ERROR number
  n < ROWS k               its call returns k identifiers, which are the next k lines:
                           formatID gtrid_length bqual_length 0xDATA
  n ? ERROR ..             its call returns, but nobody knows whether it took effect
  n ! LOST                 its client is gone
  n ! GONE                 the server closed the session at some time since its last return
Blank lines, and lines that begin with #, say nothing. For example, the record
  1 > PUT 'k','v'
  2 > GET 'k'
  2 < VALUE 'v'
  1 < OK
has the verdict
  LEGAL
  1 PUT 0x6b,0x76
  2 GET 0x6b
The verdicts are
  LEGAL                    the lines below it are an order that explains the record; the status is 0
  ILLEGAL line l           an order explains the record before this line, but none explains this line too; below
                           it are the answers that could be there; the status is 4
  UNDECIDED line l         more than N configurations have to be kept there; the status is 5; raise --limit
If lines are faulty, each is named, as LINE l: CAUSE, and the status is 6. With --strict-calls a call whose text isn't a
statement is faulty too. A record in which nothing happens is EMPTY, and the status is 7.
A line of the file of --allow accepts another number for a refusal:
  1399 XA COMMIT: 1400     if the rules refuse such a statement with 1399, the server may return 1400
The file of --from lists the store with which the record begins: all branches as show prints them, and then each row
that has a value. For example, session 2 has a branch that wrote a row:
    BRANCH 0x62,X'',1 ACTIVE SESSION 2
      HOLDS 0x6b WRITES 0x77
    ROW 0x6b VALUE 0x76
With --explain ILLEGAL is followed by what was seen, by its call with the number of its line, and, below what could
have been answered, by an order that explains the lines before, and the store after that order:
  SEEN 1 < NONE
  CALL line 3 1 > GET 0x6b
  COULD BE VALUE 0x76
  ORDER BEFORE
  1 PUT 0x6b,0x76
  STATE
    ROW 0x6b VALUE 0x76
With --shrink a smaller record that is ILLEGAL too comes last, in place of such an order and store: calls that aren't
needed for that are left out. Below RECORD are its lines, which are lines of the record.
The object of --json has the keys verdict, line, seen, call, call_line, could_be, order, state, record and faulty.
If several records are named, a line for each has its name and the first line of its verdict, and the status is the
least that isn't 0. With --tap a record is ok if it is LEGAL, and its verdict is in comments:
  TAP version 13
  1..1
  not ok 1 - server.record
  # ILLEGAL line 4
  # COULD BE NONE
More: docs/COMMANDS.md#judge and docs/HISTORIES.md.";

/// What `audit` reads and prints, as its help shows it.
const AUDITED: &str =
    "Each file is the history of one store: a script, as run reads it, that a store of its own carries out. Blank
lines, and lines that begin with #, say nothing. The first file is store 1, the next one store 2:
  1 XA START 'transfer','debit'
  1 PUT 'alice','90'
  1 XA END 'transfer','debit'
  1 XA PREPARE 'transfer','debit'
  2 XA COMMIT 'transfer','debit'
Each global transaction is printed, with the store and the bqual of each of its branches, how each life of that
branch ended, and the verdict:
  GLOBAL 1 0x7472616e73666572
  STORE 1 0x6465626974 COMMITTED
  STORE 2 0x637265646974 ROLLED BACK
  MIXED
  GLOBALS 1 ATOMIC 0 MIXED 1 IN DOUBT 0 OPEN 0
A life ends COMMITTED, ROLLED BACK, EMPTY (rolled back, and it hadn't written), IN DOUBT (it is still prepared)
or OPEN (it isn't even that). The verdicts are
  MIXED                    one branch committed, and another one's writes were dropped
  IN DOUBT                 it isn't mixed, and a branch is in doubt
  OPEN                     it is neither, and a branch is open
  ATOMIC                   none of these
If all are ATOMIC, the status is 0, else 9. If some line isn't read, only such lines are named, and the status
is 6:
  STORE 2 LINE 7 ERROR 1064 (42000): syntax fault at byte 3
More: docs/COMMANDS.md#audit and docs/HISTORIES.md#audits.";

/// Returns what the help of this job shows after the options.
pub fn help_of(job: &str) -> &'static str {
    match job.as_bytes() {
        b"run" => LINES,
        b"race" => RACED,
        b"coordinate" => CALLS,
        b"stops" => STOPPED,
        b"serve" => SERVED,
        b"show" => SHOWN,
        b"judge" => RECORDS,
        b"explore" => EXPLORED,
        _ => AUDITED,
    }
}
