// Who is told of the jobs of a run.
ghost use Rattle.std.specs.Prelude.{◌≡◌, ℕ, OnOk};
ghost use Rattle.exchange_model.specs.declared.exchange.Exchange.{Exchange};
ghost use Rattle.job_types.specs.declared.job.JobStart.{JobStart};
ghost use Rattle.job_types.specs.declared.outcome.JobDone.{JobDone};

use exchange_model::Exchange;
use job_types::{JobDone, JobStart};
use plex_num::Memory;

/// Something that is told of each job of a run as it has ended, in order.
pub trait Watcher {
    // What it is once it has been told of a job of this number, which started so and left this.
    ghost told: { Self → Exchange → ℕ → JobStart → JobDone → Self };

    /// Tells of a job: its number, how it started, and what it left.
    fn note(
        &mut self,
        exchange: &Exchange,
        number: u64,
        start: &JobStart,
        done: &JobDone,
    ) -> Result<(), Memory>
        ensures { OnOk result
            (self.new ≡ told self.old exchange.now number start.now done.now) };
}

/// Nobody is told.
#[derive(Clone, Copy)]
pub struct Unwatched;

impl Watcher for Unwatched {
    ghost told = { λ w _ _ _ _. w };

    fn note(
        &mut self,
        _exchange: &Exchange,
        _number: u64,
        _start: &JobStart,
        _done: &JobDone,
    ) -> Result<(), Memory> {
        Ok(())
    }
}
