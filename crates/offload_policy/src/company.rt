// How much of what the jobs of the dispatcher make is made beside others.

/// So many instructions with nobody beside them tell something.
const ENOUGH_ALONE: u64 = 2_000_000;

/// What a job counts for at most, so that a few long ones alone tell nothing.
const MOST_OF_JOB: u64 = ENOUGH_ALONE / 4;

/// Company is rare where those with nobody beside them make so many times what others make.
const RARE: u64 = 8;

/// How many instructions count in full.
const LATE: u64 = 64_000_000;

/// How many instructions a run makes at the least apart from the dispatcher once company was rare.
const FIRST_APART: u64 = 64_000_000;

/// The same for each word of the store, which is made anew for the dispatcher.
const APART_FOR_WORD: u64 = 1_000;

/// So many times a run leaves the dispatcher at most.
pub const MOST_APART: u32 = 24;

/// How many instructions jobs made of late with nobody beside them, and how many with company.
#[derive(Drop)]
pub struct Company {
    alone: u64,
    beside: u64,
}

impl Company {
    /// Before the first job.
    pub fn new() -> Company {
        Company {
            alone: 0,
            beside: 0,
        }
    }

    /// A job has ended that made so many instructions, with nobody beside it or not.
    pub fn add(&mut self, made: u64, alone: bool) {
        if self.alone.saturating_add(self.beside) >= LATE {
            self.alone /= 2;
            self.beside /= 2;
        }
        let counted = made.min(MOST_OF_JOB);
        if alone {
            self.alone = self.alone.saturating_add(counted);
        } else {
            self.beside = self.beside.saturating_add(counted);
        }
    }

    /// Whether hardly any job of late had company.
    pub fn is_rare(&self) -> bool {
        self.alone >= ENOUGH_ALONE && self.alone / RARE >= self.beside
    }
}

/// How many instructions a run with so many words makes at the least apart from the dispatcher. The
/// last time it was so many, or 0, and the dispatcher has made so many since: it is twice as many
/// each time, unless the dispatcher had work for long.
pub fn time_apart(words: u64, last: u64, made: u64) -> u64 {
    if last == 0 || made >= LATE {
        return FIRST_APART.max(words.saturating_mul(APART_FOR_WORD));
    }
    last.saturating_mul(2)
}
