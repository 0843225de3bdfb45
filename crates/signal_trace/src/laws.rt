// What a trace means, for every exchange, every run and every filter.
ghost use Rattle.std.specs.Prelude.{◌≡◌, ◌+◌, ◌++◌, ◌||◌, [], ◌∷◌, ℕ, List, length, map, Err, Ok};
ghost use Rattle.std.specs.List.{filter, range_with_len};
ghost use Rattle.exchange_model.specs.declared.exchange.Exchange.{Exchange};
ghost use Rattle.source_meaning.specs.SingleRun.{end_state};
ghost use Rattle.source_meaning.specs.State.{State};
ghost use Rattle.signal_trace.specs.declared.fault.FilterFault.{FilterFault};
ghost use Rattle.signal_trace.specs.declared.show.Show.{Show};
ghost use Rattle.signal_trace.specs.declared.tracer.TracedJob.{TracedJob};
ghost use Rattle.signal_trace.specs.Filter.{added, lines_from, names_of};
ghost use Rattle.signal_trace.specs.Trace.{full_trace, is_shown, trace};

/// The lines of two filters together show exactly the jobs that one or the other shows.
pub fn both_filters_show_what_either_shows()
    ensures job { (x : Exchange) (one other : List Show) (t : TracedJob)
        → is_shown x (one ++ other) t ≡ (is_shown x one t || is_shown x other t) }
    ensures run { (x : Exchange) (limit : ℕ) (first : State) (one other : List Show)
        → trace x limit first (one ++ other)
        ≡ filter (λ t. is_shown x one t || is_shown x other t) (full_trace x limit first) }
{}

/// A filter without lines shows no job.
pub fn no_lines_show_nothing()
    ensures { (x : Exchange) (limit : ℕ) (first : State) → trace x limit first [] ≡ [] }
{}

/// The full trace of a run that begins before the first job has ended has each job that ends, in
/// order, and no other.
pub fn all_jobs_are_traced()
    ensures { (x : Exchange) (limit : ℕ) (first : State) → first.ended ≡ 0
        → map (λ (t : TracedJob). t.number) (full_trace x limit first)
        ≡ range_with_len 1 (end_state x limit first).ended }
{}

/// The first faulty line of a filter decides: where the lines before it are right, its first fault
/// is that of the filter, whatever stands behind it.
pub fn first_faulty_line_decides()
    ensures { (x : Exchange) (front rest : List (List ℕ)) (line : List ℕ)
        (list : List Show) (f : FilterFault)
        → lines_from (names_of x) 1 front ≡ Ok list
        → added (names_of x) (1 + length front) line ≡ Err f
        → lines_from (names_of x) 1 (front ++ line ∷ rest) ≡ Err f }
{}
