// What additions leave alone, said by clauses.
ghost use Rattle.std.specs.Prelude.{◌↔◌, ℕ, List, []};
ghost use Rattle.std.specs.List.{Contains};
ghost use Rattle.job_types.specs.declared.job.JobStart.{JobStart};
ghost use Rattle.job_types.specs.declared.touch.Touch.{Touch};
ghost use Rattle.exchange_model.specs.declared.exchange.Exchange.{Exchange};
ghost use Rattle.exchange_model.specs.Kept.{IsExchange};
ghost use Rattle.source_meaning.specs.Job.{after_steps, begins, job};
ghost use Rattle.source_meaning.specs.State.{State};
ghost use Rattle.source_meaning.specs.Valid.{IsFitting, IsJob, IsValid, StoreFits};
ghost use Rattle.entry_summary.specs.Summaries.{IsSummary};
ghost use Rattle.entry_summary.specs.declared.summary.Summary.{Summary};
ghost use Rattle.flow_points.specs.declared.fact.Fact.{Fact};
ghost use Rattle.flow_points.specs.Facts.{IsClosed, IsLeast};
ghost use Rattle.order_laws.specs.Windows.{MakesWay};
ghost use Rattle.addition_laws.specs.Sparing.{PassesAdding};
ghost use Rattle.addition_laws.specs.Together.{MayAddAtOnce, RunTogetherAdding};
ghost use Rattle.pair_tests.specs.Pairs.{Passes};
ghost use Rattle.pair_laws.specs.Together.{HaveOwnWords};
ghost use Rattle.addition_laws.specs.Either.{AreApartBut, SameInEitherOrder, ShareOnly};
ghost use Rattle.additions_meaning.specs.Additions.{IsAddedWord, OnlyAddsToEach, Targets};
ghost use Rattle.additions_meaning.specs.Lists.{AreAdded, AreOfBoth, HaveTheSame};
ghost use Rattle.additions_meaning.specs.Amounts.{DiffersBy, RunsAlike};
ghost use Rattle.additions_meaning.specs.Sparing.{IsSparing};

/// A job over stored words that fit the exchange, and the same job over others: at listed
/// variables, and at listed fields in whatever record, to which the jobs of its entry only add by
/// facts that are closed, these have so much more, modulo 2^32, and else they are the same. Then
/// both runs take the same way: after any number of steps they are at the same statement, with the
/// same temporaries, callers, records, count and outcome, and have sent the same signals. And the
/// words differ as they did: each listed variable and field has so much more in the second run, so
/// that both have added as much to it. All this holds of the whole job, and of the least facts,
/// which are closed.
pub fn jobs_add_as_much_to_other_words()
    ensures steps { (x : Exchange) (facts : List Fact) (start : JobStart) (d : Targets)
        (more : ℕ → ℕ) (s t : List ℕ) (n : ℕ)
        → IsExchange x → IsClosed x (Contains facts) → IsJob x start.job → StoreFits x s
        → OnlyAddsToEach x (Contains facts) start.job.entry d
        → DiffersBy (IsAddedWord x d) more s t
        → RunsAlike (IsAddedWord x d) more (after_steps n x (begins x start s))
        (after_steps n x (begins x start t)) }
    ensures job { (x : Exchange) (facts : List Fact) (start : JobStart) (d : Targets)
        (more : ℕ → ℕ) (s t : List ℕ)
        → IsExchange x → IsClosed x (Contains facts) → IsJob x start.job → StoreFits x s
        → OnlyAddsToEach x (Contains facts) start.job.entry d
        → DiffersBy (IsAddedWord x d) more s t
        → RunsAlike (IsAddedWord x d) more (job x start s) (job x start t) }
    ensures least { (x : Exchange) (start : JobStart) (d : Targets) (more : ℕ → ℕ)
        (s t : List ℕ)
        → IsExchange x → IsJob x start.job → StoreFits x s
        → OnlyAddsToEach x (IsLeast x) start.job.entry d
        → DiffersBy (IsAddedWord x d) more s t
        → RunsAlike (IsAddedWord x d) more (job x start s) (job x start t) }
{}

/// Two jobs that both only add to listed variables and fields, by facts that are closed, begun over
/// words that fit the exchange. Stores may follow the first one, such as those of its retirement,
/// which are to none of these. But for these neither stores to a word that the other one touches.
/// Then in either order each of them takes the same way as alone: it sends the same, holds the
/// same, and ends the same. And the words in the end are the same in both orders. So it is, where
/// nothing follows the first one, of two jobs that begin in a valid state, if each word that one of
/// them may write and the other one may read, by the summaries of their entries, is of these.
pub fn jobs_add_in_either_order()
    ensures touches { (x : Exchange) (facts : List Fact) (a b : JobStart) (d : Targets) (s : List ℕ)
        (ending : List Touch)
        → IsExchange x → IsClosed x (Contains facts) → IsJob x a.job → IsJob x b.job
        → StoreFits x s
        → OnlyAddsToEach x (Contains facts) a.job.entry d
        → OnlyAddsToEach x (Contains facts) b.job.entry d
        → AreApartBut x (IsAddedWord x d) s a b ending
        → SameInEitherOrder x s a b ending }
    ensures permits { (x : Exchange) (facts : List Fact) (s : State) (first later : Summary)
        (a b : JobStart) (d : Targets)
        → IsExchange x → IsClosed x (Contains facts) → IsValid x s
        → IsFitting x s a → IsFitting x s b
        → IsSummary x (Contains facts) a.job.entry first
        → IsSummary x (Contains facts) b.job.entry later
        → OnlyAddsToEach x (Contains facts) a.job.entry d
        → OnlyAddsToEach x (Contains facts) b.job.entry d
        → ShareOnly x (IsAddedWord x d) s first later a b
        → SameInEitherOrder x s.store a b [] }
{}

/// Two jobs that pass by their summaries without the accesses to variables and fields to which both
/// only add, by facts that are closed, and whose starts fit a valid state, do the same in either
/// order, before they retire. Whatever passes passes so.
pub fn passing_jobs_add_in_either_order()
    ensures orders { (x : Exchange) (facts : List Fact) (s : State) (first later : Summary)
        (a b : JobStart) → IsClosed x (Contains facts) → MayAddAtOnce x facts s first later a b
        → SameInEitherOrder x s.store a b [] }
    ensures passes { (x : Exchange) (facts : List Fact) (first later : Summary) (a b : JobStart)
        → Passes first later a b → PassesAdding x (Contains facts) first later a b }
{}

/// Two such jobs leave one another alone but for the words to which both only add.
/// The first sends to no level above the later one's; where it faults it is of a forlopp, which is
/// not the later one's; and its retirement, with its release after a fault, stores to no word that
/// the later one may read. So the later one, run after the first has retired, fits, may touch the
/// same words, takes the same way, sends the same, holds the same records, counts the same and ends
/// the same; so does the first one after the later one's words; and the words in the end are the
/// same in both orders.
pub fn adding_jobs_run_together()
    ensures { (x : Exchange) (facts : List Fact) (s : State) (first later : Summary)
        (a b : JobStart) → IsClosed x (Contains facts)
        → (h : MayAddAtOnce x facts s first later a b)
        → RunTogetherAdding x (IsAddedWord x h.passes.shared) s first later a b }
{}

/// Where two jobs pass so by facts that are closed, the first makes way to the later one, wherever
/// it begins: all that it sends goes behind the later one, and a fault of it neither restarts the
/// exchange nor releases the later one's forlopp.
pub fn adding_jobs_make_way()
    ensures { (x : Exchange) (facts : List Fact) (first later : Summary) (a b : JobStart)
        → IsExchange x → IsClosed x (Contains facts)
        → IsSummary x (Contains facts) a.job.entry first
        → IsSummary x (Contains facts) b.job.entry later
        → IsJob x b.job → PassesAdding x (Contains facts) first later a b → MakesWay x a b }
{}

/// Where two summaries without their accesses to listed variables and fields let two jobs share no
/// word, the whole summaries let them share no words but those of these.
pub fn spared_words_are_added_to()
    ensures { (x : Exchange) (d : Targets) (s : State) (first later one other : Summary)
        (a b : JobStart)
        → IsSparing d first one → IsSparing d later other
        → HaveOwnWords x s one other a b
        → ShareOnly x (IsAddedWord x d) s first later a b }
{}

/// Two lists of what the jobs of an entry only add to, by the same facts, have the same variables
/// and the same fields.
pub fn added_lists_are_one()
    ensures facts { (x : Exchange) (facts : List Fact) (entry : ℕ) (d e : Targets)
        → AreAdded x (Contains facts) entry d → AreAdded x (Contains facts) entry e
        → HaveTheSame d e }
    ensures least { (x : Exchange) (entry : ℕ) (d e : Targets)
        → AreAdded x (IsLeast x) entry d → AreAdded x (IsLeast x) entry e → HaveTheSame d e }
{}

/// Two jobs pass but for additions exactly where they pass by their summaries without the accesses
/// to what the lists of both entries have.
pub fn lists_tell_who_passes()
    ensures { (x : Exchange) (facts : List Fact) (first later one other : Summary)
        (a b : JobStart) (d e shared : Targets) → IsExchange x
        → IsSummary x (Contains facts) a.job.entry first
        → IsSummary x (Contains facts) b.job.entry later
        → AreAdded x (Contains facts) a.job.entry d → AreAdded x (Contains facts) b.job.entry e
        → AreOfBoth d e shared → IsSparing shared first one → IsSparing shared later other
        → Passes one other a b ↔ PassesAdding x (Contains facts) first later a b }
{}
