// What runs a job.
ghost use Rattle.std.specs.Prelude.{◌≡◌, ℕ, List, OnOk};
ghost use Rattle.exchange_model.specs.declared.exchange.Exchange.{Exchange};
ghost use Rattle.job_types.specs.declared.outcome.JobDone.{JobDone};
ghost use Rattle.exchange_run.specs.Runs.{MayRun, left_by, words_after};

use exchange_model::Exchange;
use job_types::{JobDone, JobStart};
use offload_policy::Rest;
use plex_num::{Memory, Seq};

/// Something that runs jobs of an exchange, one at a time, and lends what the last one left.
pub trait Runner {
    // It runs jobs of this exchange.
    ghost runs: { Self → Exchange → Type 0 };

    // The last job left this.
    ghost has_left: { Self → JobDone → Type 0 };

    /// Runs a job of this start on the stored words, to its end.
    fn run(
        &mut self,
        exchange: &Exchange,
        start: &JobStart,
        words: &mut Seq<u32>,
    ) -> Result<(), Memory>
        requires runs { runs self.old exchange.now }
        requires start { MayRun exchange.now start.now words.old }
        ensures runs { runs self.new exchange.now }
        ensures done { OnOk result (has_left self.new (left_by exchange.now start.now words.old)) }
        ensures words { OnOk result (words.new ≡ words_after exchange.now start.now words.old) };

    /// What the last job left; there must have been one.
    fn done(&self) -> &JobDone
        requires { (d : JobDone) × has_left self.now d }
        ensures { (d : JobDone) → has_left self.now d → result.now ≡ d };

    /// Whether its jobs are as long as they must be for a rest.
    fn has_long_jobs(&self, rest: Rest) -> bool;
}
