// What summaries say of every job, said by clauses.
ghost use Rattle.std.specs.Prelude.{ℕ, List};
ghost use Rattle.std.specs.List.{Contains};
ghost use Rattle.job_types.specs.declared.job.JobStart.{JobStart};
ghost use Rattle.exchange_model.specs.declared.exchange.Exchange.{Exchange};
ghost use Rattle.exchange_model.specs.Kept.{IsExchange};
ghost use Rattle.entry_summary.specs.Summaries.{IsSummary};
ghost use Rattle.entry_summary.specs.declared.summary.Summary.{Summary};
ghost use Rattle.flow_points.specs.Facts.{IsClosed, IsLeast};
ghost use Rattle.flow_points.specs.declared.fact.Fact.{Fact};
ghost use Rattle.permit_laws.specs.Permitted.{AreToLevels, ArePermitted, MayHoldAll};
ghost use Rattle.source_meaning.specs.Job.{after_steps, begins, job};
ghost use Rattle.source_meaning.specs.State.{State};
ghost use Rattle.source_meaning.specs.Traces.{trace_of};
ghost use Rattle.source_meaning.specs.Valid.{IsFitting, IsValid};

/// A job that begins in a valid state touches only words that its permit lets it touch: it loads
/// words that it may read, and stores to words that it may write. The permit is that of its start
/// and the chains of that state, by the summary of its entry from facts that are closed. So it is
/// after any number of steps, and of the whole job. The summary from the least facts, which are
/// closed, is such a one.
pub fn touches_are_permitted()
    ensures steps { (x : Exchange) (facts : List Fact) (m : Summary) (s : State) (start : JobStart)
        (n : ℕ)
        → IsExchange x → IsClosed x (Contains facts) → IsValid x s → IsFitting x s start
        → IsSummary x (Contains facts) start.job.entry m
        → ArePermitted x m start s.chains (after_steps n x (begins x start s.store)).world.trace }
    ensures job { (x : Exchange) (facts : List Fact) (m : Summary) (s : State) (start : JobStart)
        → IsExchange x → IsClosed x (Contains facts) → IsValid x s → IsFitting x s start
        → IsSummary x (Contains facts) start.job.entry m
        → ArePermitted x m start s.chains (trace_of x start s.store) }
    ensures least { (x : Exchange) (m : Summary) (s : State) (start : JobStart) (n : ℕ)
        → IsExchange x → IsValid x s → IsFitting x s start
        → IsSummary x (IsLeast x) start.job.entry m
        → ArePermitted x m start s.chains (after_steps n x (begins x start s.store)).world.trace }
{}

/// Each record that the job holds is one that it may hold: it stood in the chain with which the job
/// began, or it was free then and is of a file that the job may seize.
pub fn records_may_be_held()
    ensures steps { (x : Exchange) (facts : List Fact) (m : Summary) (s : State) (start : JobStart)
        (n : ℕ)
        → IsExchange x → IsClosed x (Contains facts) → IsValid x s → IsFitting x s start
        → IsSummary x (Contains facts) start.job.entry m
        → MayHoldAll m start s.chains (after_steps n x (begins x start s.store)).own.chain }
    ensures job { (x : Exchange) (facts : List Fact) (m : Summary) (s : State) (start : JobStart)
        → IsExchange x → IsClosed x (Contains facts) → IsValid x s → IsFitting x s start
        → IsSummary x (Contains facts) start.job.entry m
        → MayHoldAll m start s.chains (job x start s.store).own.chain }
    ensures least { (x : Exchange) (m : Summary) (s : State) (start : JobStart) (n : ℕ)
        → IsExchange x → IsValid x s → IsFitting x s start
        → IsSummary x (IsLeast x) start.job.entry m
        → MayHoldAll m start s.chains (after_steps n x (begins x start s.store)).own.chain }
{}

/// Each signal that the job has sent to a buffer goes to one of the levels of the summary.
pub fn sends_go_to_levels()
    ensures steps { (x : Exchange) (facts : List Fact) (m : Summary) (s : State) (start : JobStart)
        (n : ℕ)
        → IsExchange x → IsClosed x (Contains facts) → IsValid x s → IsFitting x s start
        → IsSummary x (Contains facts) start.job.entry m
        → AreToLevels m (after_steps n x (begins x start s.store)).own.sends }
    ensures job { (x : Exchange) (facts : List Fact) (m : Summary) (s : State) (start : JobStart)
        → IsExchange x → IsClosed x (Contains facts) → IsValid x s → IsFitting x s start
        → IsSummary x (Contains facts) start.job.entry m
        → AreToLevels m (job x start s.store).own.sends }
    ensures least { (x : Exchange) (m : Summary) (s : State) (start : JobStart) (n : ℕ)
        → IsExchange x → IsValid x s → IsFitting x s start
        → IsSummary x (IsLeast x) start.job.entry m
        → AreToLevels m (after_steps n x (begins x start s.store)).own.sends }
{}
