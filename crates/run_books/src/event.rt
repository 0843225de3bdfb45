// What leaves the exchange, what happens to forlopps, and how a run ends.
use job_types::Fault;
use plex_num::Values;

/// A fault: by which job, as the number of jobs that have ended with it, which, and at which point.
#[derive(Clone, Copy)]
pub struct Faulty {
    pub job: u64,
    pub fault: Fault,
    pub point: u32,
}

/// What leaves the exchange, and what happens to forlopps. The `job` of a signal is by which job it
/// was sent, as the number of jobs that have ended with it.
#[derive(Drop)]
pub enum ReportEvent {
    /// A signal left the exchange.
    Out {
        job: u64,
        signal: u32,
        values: Values,
        forlopp: u64,
    },
    /// A forlopp was released: so many of its jobs were removed, and so many records were freed.
    Release {
        forlopp: u64,
        fault: Faulty,
        jobs: u64,
        records: u32,
    },
    /// A line of the signal file came to a dead forlopp.
    Lost {
        line: u32,
    },
    /// The exchange began anew: so many jobs were removed, and so many records were freed.
    Restart {
        fault: Faulty,
        jobs: u64,
        records: u32,
    },
}

/// How a run ends: nobody waits any more, the last restart has come, or as many jobs have ended as
/// may.
#[derive(Clone, Copy, PartialEq, Eq)]
pub enum Ending {
    Done,
    Restart,
    Limit,
}
