// Texts.

/// Bytes of a file that is read.
pub const MOST_BYTES: usize = 16_777_216;
/// Tokens of a text.
pub const MOST_TOKENS: usize = 16_777_216;
/// Brackets in an expression, one inside the other.
pub const MOST_BRACKETS: usize = 6;
/// Statements that hold statements, one inside the other.
pub const MOST_NESTED: usize = 12;

// Exchanges.

/// Signals, answers among them.
pub const MOST_SIGNALS: usize = 1_000;
/// Blocks.
pub const MOST_BLOCKS: usize = 64;
/// Entries at which jobs start.
pub const MOST_ENTRIES: usize = 256;
/// Statements, ENTERs and ends of text among them.
pub const MOST_STATEMENTS: usize = 20_000;
/// Temporaries of a block.
pub const MOST_TEMPORARIES: usize = 24;
/// Values of a signal.
pub const MOST_VALUES: usize = 8;
/// Numbers, names and fields in the expressions of one statement.
pub const MOST_OPERANDS: usize = 64;
/// Records of a file.
pub const MOST_RECORDS: usize = 65_535;
/// Stored cells, marks among them.
pub const MOST_CELLS: usize = 1_000_000;
/// Choices of all CASEs.
pub const MOST_WHENS: usize = 16_777_216;

// Jobs and runs.

/// Statements that one job may count.
pub const MOST_COUNTED: usize = 1_000_000;
/// Signals that one job may send to job buffers and out of the exchange.
pub const MOST_SENT: usize = 255;
/// Records that one forlopp may hold.
pub const MOST_HELD: usize = 64;
/// Callers of one job that wait for their answers.
pub const MOST_CALLERS: usize = 8;
/// Restarts of a run, the last of which ends it.
pub const MOST_RESTARTS: usize = 3;
/// Jobs that a run may be limited to.
pub const MOST_JOBS: usize = 10_000_000;
/// Threads that run jobs.
pub const MOST_WORKERS: usize = 64;
