// What holds of two jobs that may run at once, said by clauses.
ghost use Rattle.std.specs.Prelude.{◌≡◌, ◌≢◌, ◌↔◌, ◌≤◌, ℕ, true, List};
ghost use Rattle.std.specs.List.{AllByRecursion, Contains};
ghost use Rattle.plex_num.specs.declared.level.Level.{Level};
ghost use Rattle.job_types.specs.Forlopps.{ChainMap};
ghost use Rattle.job_types.specs.Own.{untouched};
ghost use Rattle.job_types.specs.Touches.{NoStore, stored};
ghost use Rattle.job_types.specs.declared.chain.Held.{Held};
ghost use Rattle.job_types.specs.declared.job.JobStart.{JobStart};
ghost use Rattle.job_types.specs.declared.outcome.JobDone.{JobDone};
ghost use Rattle.job_types.specs.declared.touch.Touch.{Touch};
ghost use Rattle.exchange_model.specs.declared.exchange.Exchange.{Exchange};
ghost use Rattle.exchange_model.specs.Kept.{IsExchange};
ghost use Rattle.flow_points.specs.Facts.{IsClosed};
ghost use Rattle.flow_points.specs.declared.fact.Fact.{Fact};
ghost use Rattle.entry_summary.specs.declared.summary.Summary.{Summary};
ghost use Rattle.entry_summary.specs.Orders.{level_number};
ghost use Rattle.entry_summary.specs.Summaries.{IsSummary};
ghost use Rattle.order_laws.specs.Windows.{MakesWay, done_by};
ghost use Rattle.pair_laws.specs.Orders.{KeepsTo, SameOrders, after_job, retirement_touches};
ghost use Rattle.pair_laws.specs.Pairs.{IsDoneBy, LeavesChains, MayRunAtOnce};
ghost use Rattle.pair_tests.specs.Pairs.{Passes};
ghost use Rattle.pair_laws.specs.Together.{RunTogether};
ghost use Rattle.permit_laws.specs.Permitted.{ArePermitted, MayHoldAll};
ghost use Rattle.source_meaning.specs.Job.{job};
ghost use Rattle.source_meaning.specs.Retirement.{release_world, retires};
ghost use Rattle.source_meaning.specs.SingleRun.{begun, ended_as};
ghost use Rattle.source_meaning.specs.State.{State};
ghost use Rattle.source_meaning.specs.Traces.{LeavesAlone};
ghost use Rattle.source_meaning.specs.Valid.{IsFitting, IsJob, IsRecord, IsValid};
ghost use Rattle.start_permit.specs.Granted.{MayRead, MayWrite};

/// Of two jobs that may run at once, neither may write a word that the other may read, and so none
/// that the other may write.
pub fn permits_are_apart()
    ensures writes { (x : Exchange) (facts : List Fact) (s : State) (first later : Summary)
        (a b : JobStart) (w : ℕ) → MayRunAtOnce x facts s first later a b
        → MayWrite x first a s.chains w → MayRead x later b s.chains w → ⊥ }
    ensures reads { (x : Exchange) (facts : List Fact) (s : State) (first later : Summary)
        (a b : JobStart) (w : ℕ) → MayRunAtOnce x facts s first later a b
        → MayRead x first a s.chains w → MayWrite x later b s.chains w → ⊥ }
{}

/// Where the first of two jobs that may run at once may fault, it is of a forlopp, and of another
/// one than the later job. The release of records that it may hold stores to no word that the later
/// job may read.
pub fn releases_are_apart()
    ensures forlopps { (x : Exchange) (facts : List Fact) (s : State) (first later : Summary)
        (a b : JobStart) → MayRunAtOnce x facts s first later a b → first.fault ≡ true
        → (a.job.forlopp ≢ 0) × (a.job.forlopp ≢ b.job.forlopp) }
    ensures words { (x : Exchange) (facts : List Fact) (s : State) (first later : Summary)
        (a b : JobStart) (held : List Held) (store : List ℕ) (w : ℕ)
        → MayRunAtOnce x facts s first later a b → first.fault ≡ true
        → AllByRecursion (IsRecord x) held → MayHoldAll first a s.chains held
        → MayRead x later b s.chains w
        → NoStore w (release_world x held (untouched store)).trace }
{}

/// The later of two jobs that may run at once may read and write the same words before the first
/// one has retired and after it, however that one leaves the chains.
pub fn permits_stay()
    ensures reads { (x : Exchange) (facts : List Fact) (s : State) (first later : Summary)
        (a b : JobStart) (chains : ChainMap) (w : ℕ)
        → MayRunAtOnce x facts s first later a b → LeavesChains first a s.chains chains
        → MayRead x later b s.chains w ↔ MayRead x later b chains w }
    ensures writes { (x : Exchange) (facts : List Fact) (s : State) (first later : Summary)
        (a b : JobStart) (chains : ChainMap) (w : ℕ)
        → MayRunAtOnce x facts s first later a b → LeavesChains first a s.chains chains
        → MayWrite x later b s.chains w ↔ MayWrite x later b chains w }
{}

/// The retirement of the first of two jobs that may run at once leaves the chains so, in every
/// state that has the chains over which it began.
pub fn retirements_leave_chains()
    ensures { (x : Exchange) (facts : List Fact) (s t : State) (first later : Summary)
        (a b : JobStart) (done : JobDone) → MayRunAtOnce x facts s first later a b
        → IsDoneBy x first a s.chains done → t.chains ≡ s.chains
        → LeavesChains first a s.chains (retires x a done t).chains }
{}

/// The start of the later of two jobs that may run at once fits still after the first has retired,
/// in every state that has the forlopps of the one in which they began.
pub fn starts_stay_fitting()
    ensures { (x : Exchange) (facts : List Fact) (s t : State) (first later : Summary)
        (a b : JobStart) (done : JobDone) → MayRunAtOnce x facts s first later a b
        → IsDoneBy x first a s.chains done
        → t.chains ≡ s.chains → t.dead ≡ s.dead → t.next ≡ s.next
        → IsFitting x (retires x a done t) b }
{}

/// Of two jobs that may run at once, the first sends to no level above that of the later one. A,
/// the highest, has the number 0.
pub fn levels_are_not_above()
    ensures { (x : Exchange) (facts : List Fact) (s : State) (first later : Summary)
        (a b : JobStart) (level : Level) → MayRunAtOnce x facts s first later a b
        → Contains first.levels level → level_number b.job.level ≤ level_number level }
{}

/// Touches that stay in the permits of two jobs that may run at once leave each other alone:
/// neither list stores to a word that the other one touches. So they may be made in either order.
pub fn touches_are_apart()
    ensures apart { (x : Exchange) (facts : List Fact) (s : State) (first later : Summary)
        (a b : JobStart) (ts us : List Touch) → MayRunAtOnce x facts s first later a b
        → ArePermitted x first a s.chains ts → ArePermitted x later b s.chains us
        → LeavesAlone ts us × LeavesAlone us ts }
    ensures order { (ts us : List Touch) (store : List ℕ) → LeavesAlone us ts
        → stored (stored store ts) us ≡ stored (stored store us) ts }
{}

/// The retirement of the first of two jobs that may run at once makes the same stores whatever the
/// words are: none, or those of its release. None of them is to a word that the later job may read.
pub fn retirements_are_stores()
    ensures words { (x : Exchange) (facts : List Fact) (s t : State) (first later : Summary)
        (a b : JobStart) (done : JobDone) → MayRunAtOnce x facts s first later a b
        → IsDoneBy x first a s.chains done
        → (retires x a done t).store ≡ stored t.store (retirement_touches x done) }
    ensures apart { (x : Exchange) (facts : List Fact) (s : State) (first later : Summary)
        (a b : JobStart) (done : JobDone) (w : ℕ) → MayRunAtOnce x facts s first later a b
        → IsDoneBy x first a s.chains done → MayRead x later b s.chains w
        → NoStore w (retirement_touches x done) }
{}

/// A job that keeps to its summary leaves what it may leave: its chain is of records that it may
/// hold, those of its start that are gone from it are of files of which it frees records, and a
/// fault ended it only if it may fault.
pub fn jobs_leave_what_they_may()
    ensures { (x : Exchange) (facts : List Fact) (s : State) (m : Summary) (start : JobStart)
        → IsExchange x → IsValid x s → IsFitting x s start
        → IsSummary x (Contains facts) start.job.entry m → KeepsTo x s m start
        → IsDoneBy x m start s.chains (done_by (job x start s.store)) }
{}

/// Two jobs that may run at once, each of which keeps to its summary, do the same in either order.
/// The later one, run after the first has retired, is the job that it is in the state itself: it
/// makes the same touches, sends the same, ends with the same chain and the same outcome, and has
/// the same permit. So is the first one after the later one's words; and the words in the end are
/// the same.
pub fn orders_are_alike()
    ensures orders { (x : Exchange) (facts : List Fact) (s : State) (first later : Summary)
        (a b : JobStart) → MayRunAtOnce x facts s first later a b
        → KeepsTo x s first a → KeepsTo x s later b → SameOrders x s a b }
    ensures reads { (x : Exchange) (facts : List Fact) (s : State) (first later : Summary)
        (a b : JobStart) (w : ℕ) → MayRunAtOnce x facts s first later a b → KeepsTo x s first a
        → MayRead x later b s.chains w ↔ MayRead x later b (after_job x a s).chains w }
    ensures writes { (x : Exchange) (facts : List Fact) (s : State) (first later : Summary)
        (a b : JobStart) (w : ℕ) → MayRunAtOnce x facts s first later a b → KeepsTo x s first a
        → MayWrite x later b s.chains w ↔ MayWrite x later b (after_job x a s).chains w }
{}

/// Two jobs that may run at once may do so still after the turn of an older one, with each of which
/// it may run at once: where it has begun, has run to its end and has retired.
pub fn pairs_stay()
    ensures { (x : Exchange) (facts : List Fact) (s : State) (first second third : Summary)
        (a b c : JobStart) → MayRunAtOnce x facts s first second a b
        → MayRunAtOnce x facts s first third a c → MayRunAtOnce x facts s second third b c
        → KeepsTo x s first a
        → MayRunAtOnce x facts (ended_as x a (job x a s.store) (begun s)) second third b c }
{}

/// Every job keeps to the summary of its entry by facts that are closed: each of its touches is one
/// that its permit lets it make, and a fault ends it only if the summary says that it may.
pub fn jobs_keep_to_summaries()
    ensures { (x : Exchange) (facts : List Fact) (s : State) (m : Summary) (start : JobStart)
        → IsExchange x → IsClosed x (Contains facts) → IsValid x s → IsFitting x s start
        → IsSummary x (Contains facts) start.job.entry m → KeepsTo x s m start }
{}

/// Two jobs that may run at once by facts that are closed do so without seeing one another. Neither
/// stores to a word that the other one touches, and no word that one of them may write is one that
/// the other may read. The first sends to no level above the later one's; where it faults it is of
/// a forlopp, which is not the later one's; and its retirement stores to no word that the later one
/// may read. So the later one, run after the first has retired, fits, may read and write the same
/// words, and is the same job with the same touches, sends, chain and outcome; so is the first one
/// after the later one's words; and the words in the end are the same in both orders.
pub fn jobs_run_together()
    ensures { (x : Exchange) (facts : List Fact) (s : State) (first later : Summary)
        (a b : JobStart) → IsClosed x (Contains facts) → MayRunAtOnce x facts s first later a b
        → RunTogether x s first later a b }
{}

/// Where two jobs pass by facts that are closed, the first makes way to the later one, wherever it
/// begins: all that it sends goes behind the later one, and a fault of it neither restarts the
/// exchange nor releases the later one's forlopp.
pub fn jobs_make_way()
    ensures { (x : Exchange) (facts : List Fact) (first later : Summary) (a b : JobStart)
        → IsExchange x → IsClosed x (Contains facts)
        → IsSummary x (Contains facts) a.job.entry first
        → IsSummary x (Contains facts) b.job.entry later
        → IsJob x b.job → Passes first later a b → MakesWay x a b }
{}
