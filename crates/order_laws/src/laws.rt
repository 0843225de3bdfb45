// What holds of retirements, picks and arrivals, said by clauses.
ghost use Rattle.std.specs.Prelude.{◌≡◌, ◌≤◌, ◌+◌, ℕ, true, false, List, [], ◌∷◌, ◌++◌, slice_get};
ghost use Rattle.std.specs.Prelude.{length, None, Some};
ghost use Rattle.std.specs.List.{AllByRecursion};
ghost use Rattle.job_types.specs.declared.job.Job.{Job};
ghost use Rattle.job_types.specs.declared.job.JobStart.{JobStart};
ghost use Rattle.job_types.specs.declared.outbox.Sent.{Sent};
ghost use Rattle.job_types.specs.declared.outcome.JobDone.{JobDone};
ghost use Rattle.job_types.specs.Waiting.{Waiting, after_pick, pick};
ghost use Rattle.exchange_model.specs.declared.exchange.Exchange.{Exchange};
ghost use Rattle.exchange_model.specs.Kept.{IsExchange};
ghost use Rattle.source_meaning.specs.Arrivals.{arrivals};
ghost use Rattle.source_meaning.specs.Config.{Config};
ghost use Rattle.source_meaning.specs.Job.{job};
ghost use Rattle.source_meaning.specs.Retirement.{retires};
ghost use Rattle.source_meaning.specs.SingleRun.{after, begun, ended_as, ending_at};
ghost use Rattle.source_meaning.specs.SingleRun.{next_start, turn};
ghost use Rattle.source_meaning.specs.State.{State, has_stopped};
ghost use Rattle.source_meaning.specs.Valid.{IsFitting, IsValid};
ghost use Rattle.order_laws.specs.Books.{AreAhead, MayRetire, settles};
ghost use Rattle.order_laws.specs.Ends.{AreOther, GoesBehind, GoesOn, LetsStay, words_left};
ghost use Rattle.order_laws.specs.Keeps.{ArrivalsKeep, NoLineBefore, NoneDue};
ghost use Rattle.order_laws.specs.Keeps.{NoRestart, RetirementKeeps};
ghost use Rattle.order_laws.specs.Picks.{AllInPlace, PickStays, Picks, PicksStay, after_picks};
ghost use Rattle.order_laws.specs.Picks.{all_begun};
ghost use Rattle.order_laws.specs.Windows.{IsTurnOf, IsWindow, MakesWay, done_by, jobs_of, turns};

/// Where an older job retires that lets a later one keep its turn, the later one is next as before,
/// and its beginning and the retirement change places: both orders lead to the same state. So it is
/// of several later jobs, one after the other. It does where all that it sends goes behind the
/// later one, its end is no restart, and they are not of one forlopp.
pub fn picks_stay()
    ensures lets { (start : JobStart) (done : JobDone) (later : Job)
        → AllByRecursion (λ (m : Sent). GoesBehind later.level m.to) done.sends
        → GoesOn start.job.forlopp done.outcome → AreOther start.job.forlopp later.forlopp
        → LetsStay start done later }
    ensures one { (x : Exchange) (start : JobStart) (done : JobDone) (s : State) (j : Job)
        → AllInPlace s.waiting → pick s.waiting ≡ Some j → LetsStay start done j
        → PickStays j (retires x start done) s }
    ensures ended { (x : Exchange) (start : JobStart) (end : Config) (s : State) (j : Job)
        → AllInPlace s.waiting → pick s.waiting ≡ Some j → LetsStay start (done_by end) j
        → PickStays j (ended_as x start end) s }
    ensures all { (x : Exchange) (start : JobStart) (done : JobDone) (s : State) (js : List Job)
        → AllInPlace s.waiting → Picks s.waiting js → AllByRecursion (LetsStay start done) js
        → PicksStay js (retires x start done) s }
    ensures all_ended { (x : Exchange) (start : JobStart) (end : Config) (s : State) (js : List Job)
        → AllInPlace s.waiting → Picks s.waiting js
        → AllByRecursion (LetsStay start (done_by end)) js
        → PicksStay js (ended_as x start end) s }
{}

/// The next job after some that were picked is picked after them.
pub fn picks_go_on()
    ensures picked { (w : Waiting) (js : List Job) (j : Job)
        → Picks w js → pick (after_picks js w) ≡ Some j → Picks w (js ++ j ∷ []) }
    ensures left { (w : Waiting) (js : List Job) (j : Job)
        → after_picks (js ++ j ∷ []) w ≡ after_pick (after_picks js w) }
{}

/// In a valid state each job stands in the list of its level, and it stays there when one begins.
pub fn jobs_stay_in_place()
    ensures valid { (x : Exchange) (s : State) → IsValid x s → AllInPlace s.waiting }
    ensures begun { (s : State) → AllInPlace s.waiting → AllInPlace (begun s).waiting }
    ensures all_begun { (js : List Job) (s : State)
        → AllInPlace s.waiting → AllInPlace (all_begun js s).waiting }
{}

/// Nothing arrives while a job waits and fewer jobs have ended than the next line waits for, nor
/// after the last restart, nor where no line is due, which is so after arrivals. What arrives
/// changes no word, chain or count, and joins the list of its level.
pub fn arrivals_keep_the_order()
    ensures quiet { (x : Exchange) (s : State) (j : Job)
        → pick s.waiting ≡ Some j → NoLineBefore (s.ended + 1) s.lines → arrivals x s ≡ s }
    ensures stopped { (x : Exchange) (s : State) → has_stopped s ≡ true → arrivals x s ≡ s }
    ensures idle { (x : Exchange) (s : State) → NoneDue s.lines s → arrivals x s ≡ s }
    ensures settled { (x : Exchange) (s : State)
        → has_stopped s ≡ false → NoneDue (arrivals x s).lines (arrivals x s) }
    ensures kept { (x : Exchange) (s : State) → ArrivalsKeep s (arrivals x s) }
{}

/// A retirement counts one job, brings no line, and leaves each job in the list of its level; one
/// that is no restart changes no chain but that of its own forlopp.
pub fn retirements_keep()
    ensures always { (x : Exchange) (start : JobStart) (done : JobDone) (s : State)
        → RetirementKeeps s (retires x start done s) }
    ensures running { (x : Exchange) (start : JobStart) (done : JobDone) (s : State)
        → GoesOn start.job.forlopp done.outcome
        → NoRestart start.job.forlopp s (retires x start done s) }
    ensures ended { (x : Exchange) (start : JobStart) (end : Config) (s : State)
        → RetirementKeeps s (ended_as x start end s) }
    ensures ended_running { (x : Exchange) (start : JobStart) (end : Config) (s : State)
        → GoesOn start.job.forlopp (done_by end).outcome
        → NoRestart start.job.forlopp s (ended_as x start end s) }
{}

/// A retirement changes all but the stored words whatever these are, and the words by the job's
/// chain alone, or where it restarts the exchange by all chains. Arrivals and the next start are
/// the same over any words.
pub fn words_are_apart()
    ensures retired { (x : Exchange) (start : JobStart) (done : JobDone) (s : State)
        (words : List ℕ)
        → retires x start done (record s { store = words })
        ≡ record (retires x start done s) {
          store = words_left x start.job.forlopp done.outcome done.chain s.chains words;
        } }
    ensures arrived { (x : Exchange) (s : State) (words : List ℕ)
        → arrivals x (record s { store = words }) ≡ record (arrivals x s) { store = words } }
    ensures next { (s : State) (words : List ℕ)
        → next_start (record s { store = words }) ≡ next_start s }
{}

/// The jobs of a window are those that the single run begins next, one after the other, each with
/// the start that it has in the window, and before any limit that is not below the jobs that have
/// ended and the window's. While others of the window wait, nothing arrives.
pub fn windows_run()
    ensures turn { (x : Exchange) (s : State) (starts : List JobStart) (n : ℕ) (start : JobStart)
        → IsExchange x → IsValid x s → IsWindow x s starts → slice_get starts n ≡ Some start
        → IsTurnOf x s starts n start }
    ensures limit { (x : Exchange) (s : State) (starts : List JobStart) (n : ℕ) (start : JobStart)
        (limit : ℕ)
        → IsExchange x → IsValid x s → IsWindow x s starts → slice_get starts n ≡ Some start
        → s.ended + length starts ≤ limit → ending_at limit (turns x s n) ≡ None }
    ensures valid { (x : Exchange) (s : State) (n : ℕ)
        → IsExchange x → IsValid x s → IsValid x (turns x s n) }
    ensures turned { (x : Exchange) (s : State)
        → IsExchange x → IsValid x s → IsValid x (turn x s) }
    ensures after { (x : Exchange) (s : State) (m n : ℕ)
        → after x s (m + n) ≡ turns x (after x s m) n }
    ensures later { (x : Exchange) (s : State) (n : ℕ)
        → after x s (n + 1) ≡ turn x (after x s n) }
    ensures next { (x : Exchange) (s : State) (oldest : JobStart) (rest : List JobStart)
        → IsWindow x s (oldest ∷ rest)
        → turn x s ≡ arrivals x (ended_as x oldest (job x oldest s.store) (begun s)) }
    ensures quiet { (x : Exchange) (s : State) (oldest next : JobStart) (rest : List JobStart)
        → IsValid x s → IsWindow x s (oldest ∷ next ∷ rest)
        → turn x s ≡ ended_as x oldest (job x oldest s.store) (begun s) }
{}

/// No start is a window, and a window gets the next start more where all in it make way to it and
/// it retires before the next line comes. When the oldest job has retired, the others are a window;
/// and to retire it while all of them have begun, over whatever words, comes to the same, but for
/// the words. Each start of a window fits the state.
pub fn windows_move()
    ensures none { (x : Exchange) (s : State) → IsWindow x s [] }
    ensures grows { (x : Exchange) (s : State) (starts : List JobStart) (start : JobStart)
        → IsWindow x s starts → next_start (all_begun (jobs_of starts) s) ≡ Some start
        → AllByRecursion (λ (older : JobStart). MakesWay x older start) starts
        → NoLineBefore (s.ended + length starts + 1) s.lines
        → IsWindow x s (starts ++ start ∷ []) }
    ensures retired { (x : Exchange) (s : State) (oldest : JobStart) (rest : List JobStart)
        → IsValid x s → IsWindow x s (oldest ∷ rest)
        → IsWindow x (ended_as x oldest (job x oldest s.store) (begun s)) rest }
    ensures books { (x : Exchange) (s : State) (oldest : JobStart) (rest : List JobStart)
        (words : List ℕ)
        → IsValid x s → IsWindow x s (oldest ∷ rest)
        → retires x oldest (done_by (job x oldest s.store))
        (record (all_begun (jobs_of (oldest ∷ rest)) s) { store = words })
        ≡ record (all_begun (jobs_of rest)
        (ended_as x oldest (job x oldest s.store) (begun s))) {
          store = words_left x oldest.job.forlopp (done_by (job x oldest s.store)).outcome
              (done_by (job x oldest s.store)).chain s.chains words;
        } }
    ensures fits { (x : Exchange) (s : State) (starts : List JobStart)
        → IsValid x s → IsWindow x s starts → AllByRecursion (IsFitting x s) starts }
{}

/// The books of an exchange that keeps several jobs at once are those of the single run, but that
/// the jobs of the window have begun. So they are where none has begun, over whatever words, and
/// when another job begins that the books have next, to which all in the window make way, and which
/// retires before the next line comes. When the oldest retires, with the end that it has in the
/// single run, they are those of the single run a turn later: its words change as in the single
/// run, and the forlopps of all that have begun live.
pub fn books_follow()
    ensures none { (x : Exchange) (s : State) (words : List ℕ)
        → AreAhead x s [] (record s { store = words }) }
    ensures words { (x : Exchange) (s : State) (starts : List JobStart) (books : State)
        (words : List ℕ)
        → AreAhead x s starts books → AreAhead x s starts (record books { store = words }) }
    ensures issued { (x : Exchange) (s : State) (starts : List JobStart) (books : State)
        (start : JobStart)
        → AreAhead x s starts books → next_start books ≡ Some start
        → AllByRecursion (λ (older : JobStart). MakesWay x older start) starts
        → NoLineBefore (books.ended + length starts + 1) books.lines
        → AreAhead x s (starts ++ start ∷ []) (begun books) }
    ensures live { (x : Exchange) (s : State) (starts : List JobStart) (books : State)
        → IsValid x s → AreAhead x s starts books → AllByRecursion (MayRetire books) starts }
    ensures retired { (x : Exchange) (s : State) (oldest : JobStart) (rest : List JobStart)
        (books : State)
        → IsValid x s → AreAhead x s (oldest ∷ rest) books
        → AreAhead x (turn x s) rest
        (settles x oldest (done_by (job x oldest s.store)) rest books) }
    ensures stored { (x : Exchange) (s : State) (oldest : JobStart) (rest : List JobStart)
        (books : State)
        → IsValid x s → AreAhead x s (oldest ∷ rest) books
        → (settles x oldest (done_by (job x oldest s.store)) rest books).store
        ≡ words_left x oldest.job.forlopp (done_by (job x oldest s.store)).outcome
        (done_by (job x oldest s.store)).chain s.chains books.store }
    ensures turn { (x : Exchange) (s : State) (oldest : JobStart) (rest : List JobStart)
        → IsWindow x s (oldest ∷ rest)
        → (turn x s).store
        ≡ words_left x oldest.job.forlopp (done_by (job x oldest s.store)).outcome
        (done_by (job x oldest s.store)).chain s.chains (job x oldest s.store).world.store }
{}
