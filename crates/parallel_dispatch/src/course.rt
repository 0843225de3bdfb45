// Constants of one dispatch, which only contracts see.
use std::marker::Brand;
use worker_pool::Naming;

/// Adds to `Naming` the kept summaries, the most jobs at a time, the state in which the run begins
/// (before the arrivals that are due), and the limit of jobs.
pub(crate) trait Course: Naming {
    ghost use Rattle.std.specs.Prelude.{ℕ};
    ghost use Rattle.checked.specs.Kept.{KeptSummaries};
    ghost use Rattle.source_meaning.specs.State.{State};

    ghost kept: { KeptSummaries };

    ghost workers: { ℕ };

    ghost first: { State };

    ghost limit: { ℕ };
}

impl Course for Brand {
    ghost use Rattle.parallel_dispatch.specs.DispatcherStates.{no_kept, no_state};

    ghost kept = { no_kept };

    ghost workers = { 0 };

    ghost first = { no_state };

    ghost limit = { 0 };
}
