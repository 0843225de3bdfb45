// What holds of every job, said by clauses.
ghost use Rattle.std.specs.Prelude.{◌≡◌, ◌<◌, ℕ, List, [], ◌∷◌, length, slice_get, slice_index};
ghost use Rattle.std.specs.Prelude.{Option};
ghost use Rattle.std.specs.Prelude.{Some};
ghost use Rattle.job_types.specs.Touches.{NoStore, stored};
ghost use Rattle.job_types.specs.declared.touch.Touch.{Touch};
ghost use Rattle.job_types.specs.declared.job.JobStart.{JobStart};
ghost use Rattle.job_types.specs.declared.outcome.Outcome.{Outcome};
ghost use Rattle.exchange_model.specs.declared.block.Block.{Block};
ghost use Rattle.exchange_model.specs.declared.entry.Entry.{Entry};
ghost use Rattle.exchange_model.specs.declared.exchange.Exchange.{Exchange};
ghost use Rattle.exchange_model.specs.declared.stmt.Stmt.{Stmt};
ghost use Rattle.exchange_model.specs.declared.stmt.StmtKind.{out-StmtKind};
ghost use Rattle.exchange_model.specs.Fits.{ArePaired, awaited};
ghost use Rattle.exchange_model.specs.Kept.{IsExchange};
ghost use Rattle.source_meaning.specs.Arrivals.{arrivals};
ghost use Rattle.source_meaning.specs.Config.{Config, Item, next_counted};
ghost use Rattle.source_meaning.specs.Deeds.{Deed, IsAsking, IsBeginning, deed_of};
ghost use Rattle.source_meaning.specs.Effects.{Step};
ghost use Rattle.source_meaning.specs.Holdings.{AnyFile, HoldsFrom, RunningFits, running};
ghost use Rattle.source_meaning.specs.Job.{after_steps, begins, job};
ghost use Rattle.source_meaning.specs.Ranges.{HasTemporaries, IsInRange};
ghost use Rattle.source_meaning.specs.Rests.{AllWaitAtRetrieve, AreRests, BeginsAs, BeginsAt};
ghost use Rattle.source_meaning.specs.Rests.{IsRest, IsRow, Past, StandsInText, first_point};
ghost use Rattle.source_meaning.specs.Rests.{head_point};
ghost use Rattle.source_meaning.specs.Rests.{AllEndText, DeedStands, EndsText, IsOfBlock, JumpsTo};
ghost use Rattle.source_meaning.specs.Rests.{point_of};
ghost use Rattle.source_meaning.specs.SingleRun.{after, begun, ended_as, next_start, opening};
ghost use Rattle.source_meaning.specs.State.{Coming, State};
ghost use Rattle.source_meaning.specs.Step.{step};
ghost use Rattle.source_meaning.specs.Traces.{AgreeOn, Answers, AreOfCells, Grows, LeavesAlone};
ghost use Rattle.source_meaning.specs.Traces.{over_words, store_after, trace_of};
ghost use Rattle.source_meaning.specs.Valid.{IsFitting, IsJob, IsValid, LinesFit, StoreFits};

/// Each step counts one item and makes effects, or ends the job. Each of the effects begins while
/// the job has the temporaries that it had when it counted. Whatever each effect keeps, a step
/// keeps.
pub fn steps_make_effects()
    ensures { (x : Exchange) (c : Config) → Step x c (step x c) }
{}

/// Every job comes to its end within the budget.
pub fn jobs_end()
    ensures { (x : Exchange) (start : JobStart) (store : List ℕ)
        → (o : Outcome) × ((job x start store).over ≡ Some o) }
{}

/// The trace of a job only grows. It tells the store that the job leaves, and each of its loads
/// found the value that the word had then.
pub fn traces_tell()
    ensures grows { (x : Exchange) (c : Config) → Grows c.world (step x c).world }
    ensures store { (x : Exchange) (start : JobStart) (store : List ℕ)
        → store_after x start store ≡ stored store (trace_of x start store) }
    ensures loads { (x : Exchange) (start : JobStart) (store : List ℕ)
        → Answers store (trace_of x start store) }
{}

/// A job depends on the words that it loads, and on no others: over words that answer its trace it
/// is the same job with the same trace, and so are as many steps of it. So it is where two stores
/// agree on every cell that it touches, and they agree there after it; so it is after stores that
/// leave these cells alone. A cell that it does not store to keeps its value.
pub fn jobs_are_framed()
    ensures steps { (n : ℕ) (x : Exchange) (start : JobStart) (store words : List ℕ)
        → Answers words (after_steps n x (begins x start store)).world.trace
        → after_steps n x (begins x start words)
        ≡ over_words words (after_steps n x (begins x start store)) }
    ensures answered { (x : Exchange) (start : JobStart) (store words : List ℕ)
        → Answers words (trace_of x start store)
        → job x start words ≡ over_words words (job x start store) }
    ensures agreed { (x : Exchange) (start : JobStart) (store words : List ℕ)
        → AgreeOn (trace_of x start store) store words
        → job x start words ≡ over_words words (job x start store) }
    ensures after { (x : Exchange) (start : JobStart) (store words : List ℕ)
        → AgreeOn (trace_of x start store) store words
        → AgreeOn (trace_of x start store) (store_after x start store) (store_after x start words) }
    ensures alone { (x : Exchange) (start : JobStart) (store : List ℕ) (first : List Touch)
        → LeavesAlone first (trace_of x start store)
        → job x start (stored store first) ≡ over_words (stored store first) (job x start store) }
    ensures others { (x : Exchange) (start : JobStart) (store : List ℕ) (w : ℕ)
        → NoStore w (trace_of x start store)
        → slice_index (store_after x start store) w ≡ slice_index store w }
    ensures long { (x : Exchange) (start : JobStart) (store : List ℕ)
        → length (store_after x start store) ≡ length store }
{}

/// What remains to be done is of the text of its block, so that each item that is counted stands in
/// that text, before what follows it there. From the head of what remains that item is the next, or
/// comes past ONs with no turn left. Each caller waits at the RETRIEVE of its answer.
pub fn rests_are_of_the_text()
    ensures job { (x : Exchange) (start : JobStart) (store : List ℕ) (n : ℕ)
        → AreRests x (after_steps n x (begins x start store)) }
    ensures counted { (x : Exchange) (b : ℕ) (todo : List Item) (i : Item) (rest : List Item)
        → IsRest x b todo → next_counted todo ≡ i ∷ rest
        → DeedStands x b (deed_of i) rest × IsRest x b rest }
    ensures next { (x : Exchange) (b : ℕ) (s : Stmt) (rest : List Item)
        (h : StandsInText x b s rest)
        → head_point rest ≡ first_point h.list h.end }
    ensures point { (x : Exchange) (b : ℕ) (todo : List Item)
        → IsRest x b todo → Past x b (head_point todo) (point_of todo) }
    ensures callers { (x : Exchange) (n : ℕ) (start : JobStart) (store : List ℕ)
        → IsExchange x → AllWaitAtRetrieve (after_steps n x (begins x start store)) }
{}

/// What stands in the text of an exchange is of its block; a combined SEND stands directly before
/// the RETRIEVE of its answer, and a RETRIEVE nowhere else.
pub fn texts_are_kept()
    ensures fits { (x : Exchange) (b : ℕ) (s : Stmt) (rest : List Item)
        → IsExchange x → StandsInText x b s rest → IsOfBlock x b (out-StmtKind s.kind) }
    ensures paired { (x : Exchange) (b : ℕ) (s : Stmt) (rest : List Stmt) (end : Option ℕ)
        → IsExchange x → IsRow x b (s ∷ rest) end
        → ArePaired x.signals (awaited x.signals (out-StmtKind s.kind)) rest }
{}

/// An activation begins at the ENTER of its signal: that of a job at the point of its entry, and
/// any other in the block that the signal goes to, which receives it. It has all temporaries.
pub fn activations_begin_at_their_enter()
    ensures entry { (x : Exchange) (n : ℕ) (e : Entry)
        → IsExchange x → slice_get x.entries n ≡ Some e → BeginsAs x e }
    ensures beginning { (x : Exchange) (c : Config) (deed : Deed) (rest : List Item)
        (b signal : ℕ) (vs : List ℕ)
        → IsExchange x → DeedStands x c.block deed rest → IsBeginning x c deed b signal vs
        → BeginsAt x b signal }
    ensures asking { (x : Exchange) (c : Config) (deed : Deed) (rest : List Item)
        (b signal answer : ℕ) (vs : List ℕ)
        → IsExchange x → DeedStands x c.block deed rest → IsAsking x c deed b signal answer vs
        → BeginsAt x b signal }
    ensures temporaries { (x : Exchange) (n : ℕ) (start : JobStart) (store : List ℕ)
        → HasTemporaries (after_steps n x (begins x start store)) }
{}

/// A jump goes to the statement at its label, which is no RETRIEVE. What remains to be done ends
/// with the end of the text, so that each step of a job that is not over counts an item.
pub fn texts_come_to_their_end()
    ensures label { (x : Exchange) (b label : ℕ) (k : Block)
        → IsExchange x → slice_get x.blocks b ≡ Some k → label < length k.labels
        → JumpsTo x b label }
    ensures end { (x : Exchange) (n : ℕ) (start : JobStart) (store : List ℕ)
        → IsExchange x → IsJob x start.job → AllEndText (after_steps n x (begins x start store)) }
    ensures counted { (todo : List Item) → EndsText todo → next_counted todo ≡ [] → ⊥ }
{}

/// A job touches cells of its exchange alone.
pub fn touches_are_of_the_exchange()
    ensures { (x : Exchange) (start : JobStart) (store : List ℕ)
        → IsExchange x → AreOfCells x (trace_of x start store) }
{}

/// What is in range when a job begins stays so: each of its numbers is below 2^32, the stored words
/// fit their widths, what it has sent fits, and its point, and that of its fault, is one of the
/// exchange.
pub fn jobs_stay_in_range()
    ensures steps { (x : Exchange) (n : ℕ) (start : JobStart) (store : List ℕ)
        → IsExchange x → IsJob x start.job → StoreFits x store
        → IsInRange x (after_steps n x (begins x start store)) }
    ensures job { (x : Exchange) (start : JobStart) (store : List ℕ)
        → IsExchange x → IsJob x start.job → StoreFits x store → IsInRange x (job x start store) }
{}

/// A record that a job holds was in its chain when it began, or was free then. While a job runs
/// that began in a valid state, chains and marks fit one another, its own chain in the place of its
/// forlopp's.
pub fn records_are_held()
    ensures from { (x : Exchange) (n : ℕ) (start : JobStart) (store : List ℕ)
        → IsExchange x → IsJob x start.job → StoreFits x store
        → HoldsFrom x AnyFile start.chain store (after_steps n x (begins x start store)) }
    ensures running { (x : Exchange) (s : State) (start : JobStart) (n : ℕ)
        → IsExchange x → IsValid x s → IsFitting x s start
        → RunningFits x (running start.job.forlopp s (after_steps n x (begins x start s.store))) }
{}

/// The opening is valid where its lines fit, and each state that follows a valid one is valid:
/// after lines have arrived, after a job that begins there has come to its end and retired, and
/// after any number of jobs. The next start fits.
pub fn states_stay_valid()
    ensures opening { (x : Exchange) (lines : List Coming)
        → IsExchange x → LinesFit x [] lines → IsValid x (opening x lines) }
    ensures arrival { (x : Exchange) (s : State) → IsValid x s → IsValid x (arrivals x s) }
    ensures start { (x : Exchange) (s : State) (start : JobStart)
        → IsValid x s → next_start s ≡ Some start → IsFitting x s start }
    ensures begun { (x : Exchange) (s : State) (start : JobStart)
        → IsValid x s → IsFitting x s start
        → IsValid x (begun s) × IsFitting x (begun s) start }
    ensures retired { (x : Exchange) (s : State) (start : JobStart)
        → IsExchange x → IsValid x s → IsFitting x s start
        → IsValid x (ended_as x start (job x start s.store) s) }
    ensures later { (x : Exchange) (s : State) (n : ℕ)
        → IsExchange x → IsValid x s → IsValid x (after x s n) }
{}
