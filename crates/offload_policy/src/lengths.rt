// How long the jobs of a run have been of late.

/// What a job makes at the least, in instructions, that is worth it to be run at once with others,
/// however many are.
const LEAST: u64 = 10_000;

/// What it makes beside that where one alone may be handed over at a time, in instructions. Where
/// several may, they share the cost of waking a thread, and of one that looks for work.
const ALONE: u64 = 32_000;

/// What a job counts for at most in a mean, in instructions, so that a very long one among many
/// short ones does not make them long.
pub const MOST_COUNTED: u64 = 480_000;

/// How many jobs count in full.
const LATE: u64 = 64;

/// How many instructions jobs make in the mean where they are long for so many workers: it is worth
/// it then to run them at once.
pub fn long_job(workers: u32) -> u64 {
    LEAST.saturating_add(ALONE / u64::from(workers).max(1))
}

/// Where a run may rest: behind a job, where the jobs of late were longer than `mean` instructions
/// in the mean, and all jobs of its runner together at least so long.
#[derive(Clone, Copy)]
pub struct Rest {
    mean: u64,
    least: u64,
}

impl Rest {
    /// Where jobs are long for so many workers, and all together at least so long, in instructions.
    pub fn when(workers: u32, least: u64) -> Rest {
        Rest {
            mean: long_job(workers),
            least,
        }
    }
}

/// How many jobs count, how long they were, each at most so long as counts, and how long all jobs
/// were, in instructions.
#[derive(Drop)]
pub struct Lengths {
    jobs: u64,
    counted: u64,
    all: u64,
}

impl Lengths {
    /// Before the first job.
    pub fn new() -> Lengths {
        Lengths {
            jobs: 0,
            counted: 0,
            all: 0,
        }
    }

    /// A job has ended that was so long.
    pub fn add(&mut self, length: u64) {
        if self.jobs >= LATE {
            self.jobs /= 2;
            self.counted /= 2;
        }
        self.jobs = self.jobs.saturating_add(1);
        self.counted = self.counted.saturating_add(length.min(MOST_COUNTED));
        self.all = self.all.saturating_add(length);
    }

    /// Whether the jobs are as long as they must be for a rest.
    pub fn allow(&self, rest: Rest) -> bool {
        self.counted > self.jobs.saturating_mul(rest.mean) && self.all >= rest.least
    }
}
