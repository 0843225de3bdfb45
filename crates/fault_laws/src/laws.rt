// What the summary of an entry says of every job of it that faults, said by clauses.
ghost use Rattle.std.specs.Prelude.{◌≡◌, ℕ, true, List, Some};
ghost use Rattle.std.specs.List.{Contains};
ghost use Rattle.job_types.specs.declared.fault.Fault.{Fault};
ghost use Rattle.job_types.specs.declared.job.JobStart.{JobStart};
ghost use Rattle.job_types.specs.declared.outcome.Outcome.TheVariants.{Faulted};
ghost use Rattle.exchange_model.specs.declared.exchange.Exchange.{Exchange};
ghost use Rattle.exchange_model.specs.Kept.{IsExchange};
ghost use Rattle.flow_points.specs.declared.fact.Fact.{Fact};
ghost use Rattle.flow_points.specs.Facts.{IsClosed, IsLeast};
ghost use Rattle.source_meaning.specs.Job.{after_steps, begins, job};
ghost use Rattle.source_meaning.specs.Valid.{IsJob, StoreFits};
ghost use Rattle.entry_summary.specs.declared.summary.Summary.{Summary};
ghost use Rattle.entry_summary.specs.Faults.{MayFault};
ghost use Rattle.entry_summary.specs.Summaries.{IsSummary};

/// A job faults only where facts that are closed, or the least facts, say that a job of its entry
/// may: at a statement that is reached and may fault, by more sends than a job may make, or by more
/// statements than it may count. So the summary of its entry by these facts says that it may fault.
/// It holds over every store of an exchange, whatever records the job holds.
pub fn faults_are_told()
    ensures steps { (x : Exchange) (facts : List Fact) (start : JobStart) (store : List ℕ) (n : ℕ)
        (f : Fault) (point : ℕ)
        → IsExchange x → IsClosed x (Contains facts) → IsJob x start.job → StoreFits x store
        → (after_steps n x (begins x start store)).over ≡ Some (Faulted f point)
        → MayFault x (Contains facts) start.job.entry }
    ensures job { (x : Exchange) (facts : List Fact) (start : JobStart) (store : List ℕ)
        (f : Fault) (point : ℕ)
        → IsExchange x → IsClosed x (Contains facts) → IsJob x start.job → StoreFits x store
        → (job x start store).over ≡ Some (Faulted f point)
        → MayFault x (Contains facts) start.job.entry }
    ensures least { (x : Exchange) (start : JobStart) (store : List ℕ) (n : ℕ)
        (f : Fault) (point : ℕ)
        → IsExchange x → IsJob x start.job → StoreFits x store
        → (after_steps n x (begins x start store)).over ≡ Some (Faulted f point)
        → MayFault x (IsLeast x) start.job.entry }
    ensures least_job { (x : Exchange) (start : JobStart) (store : List ℕ) (f : Fault) (point : ℕ)
        → IsExchange x → IsJob x start.job → StoreFits x store
        → (job x start store).over ≡ Some (Faulted f point)
        → MayFault x (IsLeast x) start.job.entry }
    ensures summary { (x : Exchange) (facts : List Fact) (start : JobStart) (store : List ℕ)
        (m : Summary) (f : Fault) (point : ℕ)
        → IsExchange x → IsClosed x (Contains facts) → IsJob x start.job → StoreFits x store
        → IsSummary x (Contains facts) start.job.entry m
        → (job x start store).over ≡ Some (Faulted f point) → m.fault ≡ true }
    ensures least_summary { (x : Exchange) (start : JobStart) (store : List ℕ)
        (m : Summary) (f : Fault) (point : ℕ)
        → IsExchange x → IsJob x start.job → StoreFits x store
        → IsSummary x (IsLeast x) start.job.entry m
        → (job x start store).over ≡ Some (Faulted f point) → m.fault ≡ true }
{}
