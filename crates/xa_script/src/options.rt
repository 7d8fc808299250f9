//! The jobs, and the options and arguments of each, in one table: as the command line names them, and as their help
//! shows them.

/// An option or an argument of a job: its name, what it takes, and last what its help says of it.
#[derive(Clone, Copy)]
pub enum Offer {
    /// An option without a value.
    Flag(&'static str, &'static str),
    /// An option whose value names a file.
    File(&'static str, &'static str),
    /// An option whose value, which help calls by this name, is a number from the one to the other.
    Number(&'static str, &'static str, u64, u64, &'static str),
    /// Such an option with a default.
    Default(&'static str, u64, u64, &'static str, &'static str),
    /// An argument of one file or more, which help calls by this name; true if there must be one.
    Names(&'static str, &'static str, bool, &'static str),
}

/// A job, as the command line names it.
#[derive(Clone, Copy)]
pub struct Task {
    /// The name of its subcommand.
    pub name: &'static str,
    /// What it does, as its help says first.
    pub about: &'static str,
    /// The options that are its own.
    pub own: &'static [Offer],
    /// The options after these, which other jobs have too.
    pub shared: &'static [Offer],
}

const CAPACITY: Offer = Offer::Default(
    "capacity",
    1,
    1024,
    "1024",
    "How many entries a history has room for, from 1 to 1024",
);

const STORES: Offer = Offer::Default("stores", 1, 16, "3", "How many stores there are");

const LIMIT: &str = "100000";

const LINES_AS_JSON: Offer = Offer::Flag("json", "Prints each line as one JSON object");

const VERBOSE: Offer = Offer::Flag(
    "verbose",
    "For each fault, says on the standard error where it is and what to do",
);

const TEXT: Offer = Offer::Flag(
    "text",
    "Prints keys, values and identifiers as 'text' if all their bytes are printable ASCII",
);

/// The options of every job that reads one input.
const COMMON: [Offer; 4] = [
    Offer::File("file", "Reads FILE instead of the standard input"),
    VERBOSE,
    Offer::Flag(
        "strict",
        "Ends with status 8 instead of 0 if a line has a syntax fault",
    ),
    TEXT,
];

/// The options of `race`.
const RACE: [Offer; 6] = [
    CAPACITY,
    Offer::Flag(
        "together",
        "Holds each session at its first line until all sessions have come to theirs",
    ),
    Offer::Number(
        "shuffle",
        "SEED",
        0,
        u64::MAX,
        "As --together, and sessions step aside before their lines for numbers of turns drawn from \
this seed; the numbers are repeatable, but the race's outcome isn't",
    ),
    Offer::Flag(
        "renew",
        "Goes on when the history has N entries: uses their memory again, for the next ones",
    ),
    Offer::Number(
        "runs",
        "N",
        1,
        1_000_000,
        "Races the script N times, and counts how often each outcome of explore comes",
    ),
    LINES_AS_JSON,
];

/// The options of `coordinate`.
const COORDINATE: [Offer; 3] = [
    STORES,
    CAPACITY,
    Offer::Flag(
        "fixed",
        "Limits each store's history to the N entries of --capacity, then answers log full",
    ),
];

/// The options of `stops`.
const STOPS: [Offer; 3] = [STORES, CAPACITY, LINES_AS_JSON];

/// The options of `judge`.
const JUDGE: [Offer; 11] = [
    Offer::Names(
        "name",
        "RECORD",
        false,
        "The files that are judged, at most 1000, instead of the standard input",
    ),
    Offer::Default(
        "limit",
        1,
        1_000_000,
        LIMIT,
        "How many configurations may be kept at a line before the verdict is UNDECIDED",
    ),
    Offer::Flag(
        "explain",
        "After ILLEGAL, prints what was seen, its call, an order of the lines before, and the store after it",
    ),
    Offer::Flag("json", "Prints the verdict as one JSON object, in one line"),
    Offer::Flag(
        "quiet",
        "Doesn't report on the standard error how far the judging is",
    ),
    Offer::File(
        "allow",
        "Accepts the error numbers that FILE allows in place of others",
    ),
    Offer::File(
        "from",
        "Begins with the store that FILE lists, as show prints one, instead of an empty store",
    ),
    Offer::Flag(
        "tap",
        "Lists the verdicts in the Test Anything Protocol, for prove and the like",
    ),
    Offer::Flag(
        "strict-calls",
        "Takes each call whose text isn't a statement as a faulty line",
    ),
    Offer::Flag(
        "shrink",
        "After ILLEGAL, prints a smaller record that no order explains either, in place of an order",
    ),
    Offer::Flag(
        "follow",
        "Judges a record while it comes, and says on the standard error once no order explains it",
    ),
];

/// The options of `explore`.
const EXPLORE: [Offer; 2] = [
    Offer::Default(
        "limit",
        1,
        1_000_000,
        LIMIT,
        "How many ways may be kept at once before the outcome is UNDECIDED",
    ),
    LINES_AS_JSON,
];

/// The options of `audit`, which has no others.
const AUDIT: [Offer; 5] = [
    Offer::Names(
        "name",
        "HISTORY",
        true,
        "The files that are audited, from 1 to 64: each is the history of one store",
    ),
    Offer::Flag("json", "Prints the audit as one JSON object, in one line"),
    Offer::Flag("quiet", "Prints the last line alone"),
    VERBOSE,
    TEXT,
];

/// All jobs.
pub const TASKS: [Task; 9] = [
    Task {
        name: "run",
        about: "Runs a script, and answers each of its lines",
        own: &[],
        shared: &COMMON,
    },
    Task {
        name: "race",
        about: "Races a script: each session runs on a thread of its own",
        own: &RACE,
        shared: &COMMON,
    },
    Task {
        name: "coordinate",
        about: "Runs a coordinator of two-phase commit over several stores, call by call",
        own: &COORDINATE,
        shared: &COMMON,
    },
    Task {
        name: "stops",
        about: "Stops a coordinator at each place, and shows what a recovery makes of it",
        own: &STOPS,
        shared: &COMMON,
    },
    Task {
        name: "serve",
        about: "Answers each line before it reads more",
        own: &[],
        shared: &COMMON,
    },
    Task {
        name: "show",
        about: "Answers each line as serve does, and prints the store after each answer",
        own: &[],
        shared: &COMMON,
    },
    Task {
        name: "judge",
        about: "Judges a record: whether some order of its statements explains what clients saw",
        own: &JUDGE,
        shared: &COMMON,
    },
    Task {
        name: "explore",
        about: "Runs a script in every order of its sessions, and lists each outcome once",
        own: &EXPLORE,
        shared: &COMMON,
    },
    Task {
        name: "audit",
        about: "Audits the histories of several stores: which global transactions stayed atomic",
        own: &AUDIT,
        shared: &[],
    },
];
