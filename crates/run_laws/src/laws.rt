// What holds of every run of a job by code, said by clauses.
ghost use Rattle.std.specs.Prelude.{◌≡◌, ℕ, List, IsSome, None};
ghost use Rattle.job_types.specs.declared.outcome.Outcome.{Outcome};
ghost use Rattle.machine_code.specs.declared.op.Op.{Op};
ghost use Rattle.source_meaning.specs.Traces.{Answers};
ghost use Rattle.machine_meaning.specs.Private.{Private};
ghost use Rattle.machine_meaning.specs.Faithful.{Ends, begun};
ghost use Rattle.machine_meaning.specs.Machine.{Machine};
ghost use Rattle.run_laws.specs.Alone.{CanGoOn, IsTold, TraceGrows, alone, on_words};

/// The trace of a run tells the words that it leaves, and each of its loads found the value that
/// the word had then.
pub fn runs_are_told()
    ensures { (n : ℕ) (code : List Op) (run : Private) (store : List ℕ)
        → IsTold store (alone n code run store) }
{}

/// A run depends on the words that it loads, and on no others: over words that answer its trace it
/// is the same run with the same trace.
pub fn runs_are_framed()
    ensures { (n : ℕ) (code : List Op) (run : Private) (store words : List ℕ)
        → Answers words (alone n code run store).world.trace
        → alone n code run words ≡ on_words words (alone n code run store) }
{}

/// So does its end: over words that answer the trace at an end, the run comes to the same end with
/// the same trace.
pub fn ends_are_framed()
    ensures { (code : List Op) (run : Private) (store words : List ℕ) (end : Machine)
        → Ends code (begun run store) end → Answers words end.world.trace
        → Ends code (begun run words) (on_words words end) }
{}

/// A run that comes to an end is on its way there after any number of instructions: its trace is
/// the front of that at the end; while it is not over its next instruction may be made; and where
/// it is over it is at that end.
pub fn runs_go_to_their_end()
    ensures front { (n : ℕ) (code : List Op) (run : Private) (store : List ℕ) (end : Machine)
        → Ends code (begun run store) end → TraceGrows (alone n code run store) end }
    ensures next { (n : ℕ) (code : List Op) (run : Private) (store : List ℕ) (end : Machine)
        → Ends code (begun run store) end → (alone n code run store).run.over ≡ None
        → CanGoOn code (alone n code run store) end }
    ensures over { (n : ℕ) (code : List Op) (run : Private) (store : List ℕ) (end : Machine)
        → Ends code (begun run store) end → IsSome (alone n code run store).run.over
        → alone n code run store ≡ end }
{}
