// The progress of a run, shown on the standard error.
use plex_io::{Gate, Moment};
use plex_limits::MOST_WORKERS;
use std::env::FillError;
use std::rt::{Clock, Env};
use std::sync::atomic::{AtomicBool, AtomicU64, Ordering};
use std::time::{Duration, Instant};

/// The environment variable that turns the progress line on.
const VARIABLE: &str = "PLEX_PROGRESS";

/// The clock is read after each job whose number is a multiple of this.
const JOBS_A_LOOK: u64 = 256;

/// The clock is read after each job of at least this many instructions.
const LONG: u64 = 4096;

/// Where steps are not counted, the clock is read after each job whose number is a multiple of
/// this.
const UNCOUNTED_A_LOOK: u64 = 16;

/// The time between two updates of the line, in milliseconds.
const PAUSE: u64 = 1000;

/// A gate that shows, once a second, how many jobs have ended and how many end per second, on one
/// line that it overwrites.
#[derive(Drop)]
pub struct Progress<'a, R> {
    rt: &'a R,
    begun: Instant,
    /// The number of the last job seen.
    seen: AtomicU64,
    /// How many jobs had ended when the numbers last restarted: a run that continues with another
    /// exchange may count from 1 again.
    before: AtomicU64,
    /// The time of the last update, in milliseconds since the start.
    told: AtomicU64,
    /// How many jobs had ended at the last update.
    ended: AtomicU64,
    /// Whether the line is on the terminal.
    shown: AtomicBool,
}

/// Whether the environment turns the progress line on: the variable is set and not empty.
pub fn is_asked<R: Env>(rt: &R) -> bool {
    let mut value = [0; 16];
    match rt.var(VARIABLE, &mut value) {
        Ok(length) => length > 0,
        Err(FillError::TooLong) => true,
        Err(FillError::NotPresent) => false,
    }
}

impl<'a, R: Clock + Eprint> Progress<'a, R> {
    /// Starts the clock of a run; `None` if there is no clock.
    pub fn begin(rt: &'a R) -> Option<Progress<'a, R>> {
        let begun = Instant::now(rt).ok()?;
        Some(Progress {
            rt,
            begun,
            seen: AtomicU64::new(0),
            before: AtomicU64::new(0),
            told: AtomicU64::new(0),
            ended: AtomicU64::new(0),
            shown: AtomicBool::new(false),
        })
    }

    /// Called when the job of this number has ended: updates the line if a second has passed. Among
    /// parallel jobs a later one may have been seen before, so a smaller number is taken for a
    /// restart of the count only where it is smaller by more than the most workers.
    #[cold]
    #[inline(never)]
    fn look(&self, job: u64) {
        let seen = self.seen.swap(job, Ordering::SeqCst);
        if job.saturating_add(MOST_WORKERS as u64) < seen {
            self.before.fetch_add(seen, Ordering::SeqCst);
        }
        let Ok(passed) = self.begun.elapsed(self.rt) else {
            return;
        };
        let now = milliseconds(passed);
        let told = self.told.load(Ordering::SeqCst);
        let since = now.saturating_sub(told);
        if since < PAUSE {
            return;
        }
        let turn = self
            .told
            .compare_exchange(told, now, Ordering::SeqCst, Ordering::SeqCst);
        if turn.is_ok() {
            let jobs = self.before.load(Ordering::SeqCst).saturating_add(job);
            self.tell(jobs, since);
        }
    }

    /// Shows the number of jobs ended; `since` is the time since the last update, in milliseconds.
    fn tell(&self, jobs: u64, since: u64) {
        let ended = self.ended.swap(jobs, Ordering::SeqCst);
        let more = jobs.saturating_sub(ended);
        let rate = more.saturating_mul(1000) / since.max(1);
        self.shown.store(true, Ordering::SeqCst);
        let _ = eprint!(self.rt; "\rplex: {jobs} jobs done, {rate} jobs a second\x1b[K");
    }
}

impl<R: Eprint> Progress<'_, R> {
    /// Clears the line if it is on the terminal.
    pub fn clear(&self) {
        if self.shown.swap(false, Ordering::SeqCst) {
            let _ = eprint!(self.rt; "\r\x1b[K");
        }
    }
}

impl<R: Clock + Eprint> Gate for Progress<'_, R> {
    #[inline]
    fn at(&self, job: u64, moment: Moment) {
        if let Moment::After { steps } = moment
            && is_due(job, steps)
        {
            self.look(job);
        }
    }
}

/// Whether to read the clock after the job of this number. `steps` is the number of its steps, 0 if
/// steps are not counted.
#[inline]
fn is_due(job: u64, steps: u64) -> bool {
    if steps == 0 {
        job % UNCOUNTED_A_LOOK == 0
    } else {
        job % JOBS_A_LOOK == 0 || steps >= LONG
    }
}

fn milliseconds(time: Duration) -> u64 {
    time.as_secs()
        .saturating_mul(1000)
        .saturating_add(u64::from(time.subsec_millis()))
}
