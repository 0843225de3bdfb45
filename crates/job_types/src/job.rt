ghost use Rattle.std.specs.Prelude.{◌≡◌};

use crate::chain::Chain;
use plex_num::{Level, Values};

/// A job: the entry at which it begins, its level, the values of its signal, and the number of its
/// forlopp, 0 for none.
#[derive(Drop)]
pub struct Job {
    pub entry: u32,
    pub level: Level,
    pub values: Values,
    pub forlopp: u64,
}

impl Job {
    /// Another job of the same entry, level, values and forlopp. It takes no memory.
    pub fn copy(&self) -> Job
        ensures { result ≡ self.now }
    {
        Job {
            entry: self.entry,
            level: self.level,
            values: self.values.copy(),
            forlopp: self.forlopp,
        }
    }
}

/// What a job runs from: the job, and the chain that its forlopp has as it starts.
#[derive(Drop)]
pub struct JobStart {
    pub job: Job,
    pub chain: Chain,
}

impl JobStart {
    /// Another start of the same job and chain. It takes no memory.
    pub fn copy(&self) -> JobStart
        ensures { result ≡ self.now }
    {
        JobStart {
            job: self.job.copy(),
            chain: self.chain.copy(),
        }
    }
}
