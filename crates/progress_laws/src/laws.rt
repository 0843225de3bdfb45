// What holds of every list of allowed events, said by clauses.
ghost use Rattle.std.specs.Prelude.{◌≡◌, ◌⊎◌, ◌≤◌, ℕ, List, length};
ghost use Rattle.exchange_model.specs.declared.exchange.Exchange.{Exchange};
ghost use Rattle.run_books.specs.Accounts.{Account, with_words};
ghost use Rattle.interleave_core.specs.declared.event.CoreEvent.{CoreEvent};
ghost use Rattle.interleave_core.specs.Cores.{Core, opened_core};
ghost use Rattle.interleave_core.specs.Runs.{Setting};
ghost use Rattle.interleave_core.specs.Safe.{StaysSafe};
ghost use Rattle.progress_laws.specs.Counts.{HasInstructions, RunMakes, events_of, jobs_of_run};
ghost use Rattle.progress_laws.specs.Going.{ComesToEnd, HasEvent, IsOver, IsReached};
ghost use Rattle.progress_laws.specs.Going.{IsSingleEnd, MayBegin, NoEvent};

/// In each core to which events lead some event is allowed, unless the run is over and the window
/// is empty; then none is. Each event that is allowed can be made.
pub fn some_event_is_allowed()
    ensures goes_on { (k : Setting) (b : Account) (words : List ℕ) (events : List CoreEvent)
        (c : Core)
        → IsReached k b words events c → HasEvent k c ⊎ IsOver c }
    ensures over { (k : Setting) (c : Core) → IsOver c → NoEvent k c }
    ensures safe { (k : Setting) (b : Account) (words : List ℕ)
        → MayBegin k b words → StaysSafe k (opened_core b words) }
{}

/// The jobs of the single run make some number of instructions in all, each job alone in its turn,
/// and these jobs are no more than the limit. No list of allowed events is longer than an issue and
/// a retirement for each of these jobs, and these instructions.
pub fn events_are_bounded()
    ensures some { (k : Setting) (b : Account) (words : List ℕ)
        → MayBegin k b words → HasInstructions k.exchange k.code b words }
    ensures one { (k : Setting) (b : Account) (words : List ℕ) (n m : ℕ)
        → RunMakes k.exchange k.code b words n → RunMakes k.exchange k.code b words m
        → n ≡ m }
    ensures limited { (x : Exchange) (b : Account) (words : List ℕ)
        → jobs_of_run x b words ≤ b.limit }
    ensures bound { (k : Setting) (b : Account) (words : List ℕ) (events : List CoreEvent)
        (c : Core) (instructions : ℕ)
        → IsReached k b words events c → RunMakes k.exchange k.code b words instructions
        → length events ≤ events_of (jobs_of_run k.exchange b words) instructions }
{}

/// A list of allowed events after which none is allowed ends where the single run ends, and is just
/// as long as that bound. From each core to which events lead, some further events lead there.
pub fn events_end_as_the_single_run()
    ensures ends { (k : Setting) (b : Account) (words : List ℕ) (events : List CoreEvent)
        (c : Core)
        → IsReached k b words events c → NoEvent k c
        → IsSingleEnd k.exchange (with_words b.state words) b.limit c }
    ensures exact { (k : Setting) (b : Account) (words : List ℕ) (events : List CoreEvent)
        (c : Core) (instructions : ℕ)
        → IsReached k b words events c → NoEvent k c
        → RunMakes k.exchange k.code b words instructions
        → length events ≡ events_of (jobs_of_run k.exchange b words) instructions }
    ensures comes { (k : Setting) (b : Account) (words : List ℕ) (events : List CoreEvent)
        (c : Core)
        → IsReached k b words events c
        → ComesToEnd k (with_words b.state words) b.limit c }
{}
