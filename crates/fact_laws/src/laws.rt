// What facts that are closed say of every job, said by clauses.
ghost use Rattle.std.specs.Prelude.{◌≡◌, ℕ, List, ◌∷◌};
ghost use Rattle.std.specs.Prelude.{None};
ghost use Rattle.std.specs.List.{Contains};
ghost use Rattle.job_types.specs.declared.job.JobStart.{JobStart};
ghost use Rattle.exchange_model.specs.declared.exchange.Exchange.{Exchange};
ghost use Rattle.exchange_model.specs.Kept.{IsExchange};
ghost use Rattle.flow_points.specs.declared.fact.Fact.{Fact};
ghost use Rattle.flow_points.specs.Facts.{IsClosed, IsLeast};
ghost use Rattle.source_meaning.specs.Config.{Item, next_counted};
ghost use Rattle.source_meaning.specs.Job.{after_steps, begins};
ghost use Rattle.source_meaning.specs.Valid.{IsJob, StoreFits};
ghost use Rattle.fact_laws.specs.Covers.{Covered, KnownNext};

/// Facts that are closed cover every job, from its start to its end. Before each of its steps every
/// temporary, every entry value and, at a RETRIEVE, every value of the answer has a fact whose
/// value stands for it; how many callers wait, and which answer the last of them awaits, is known
/// exactly; and so it is of each caller that waits, where it goes on. The same is known at the
/// statement that is counted next, which may come past ENTERs and past ONs with no turn left. The
/// least facts, which are closed, cover every job so.
pub fn jobs_are_covered()
    ensures steps { (x : Exchange) (facts : List Fact) (start : JobStart) (store : List ℕ) (n : ℕ)
        → IsExchange x → IsClosed x (Contains facts) → IsJob x start.job → StoreFits x store
        → (after_steps n x (begins x start store)).over ≡ None
        → Covered x (Contains facts) start.job.entry start.job.values
        (after_steps n x (begins x start store)) }
    ensures next { (x : Exchange) (facts : List Fact) (start : JobStart) (store : List ℕ) (n : ℕ)
        (i : Item) (rest : List Item)
        → IsExchange x → IsClosed x (Contains facts) → IsJob x start.job → StoreFits x store
        → (after_steps n x (begins x start store)).over ≡ None
        → next_counted (after_steps n x (begins x start store)).todo ≡ i ∷ rest
        → KnownNext x (Contains facts) start.job.entry start.job.values
        (after_steps n x (begins x start store)) i }
    ensures least { (x : Exchange) (start : JobStart) (store : List ℕ) (n : ℕ)
        → IsExchange x → IsJob x start.job → StoreFits x store
        → (after_steps n x (begins x start store)).over ≡ None
        → Covered x (IsLeast x) start.job.entry start.job.values
        (after_steps n x (begins x start store)) }
    ensures least_next { (x : Exchange) (start : JobStart) (store : List ℕ) (n : ℕ)
        (i : Item) (rest : List Item)
        → IsExchange x → IsJob x start.job → StoreFits x store
        → (after_steps n x (begins x start store)).over ≡ None
        → next_counted (after_steps n x (begins x start store)).todo ≡ i ∷ rest
        → KnownNext x (IsLeast x) start.job.entry start.job.values
        (after_steps n x (begins x start store)) i }
{}
