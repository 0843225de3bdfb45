// The single run, and its jobs that a filter selects.
ghost use Rattle.std.specs.Prelude.{◌≡◌, ◌≤◌, IfOk, map};
ghost use Rattle.plex_limits.specs.declared.limits.TheConstants.{MOST_JOBS};
ghost use Rattle.store_layout.specs.Laid.{IsLayout};
ghost use Rattle.source_meaning.specs.SingleRun.{opening};
ghost use Rattle.run_books.specs.Lines.{coming_of};
ghost use Rattle.exchange_run.specs.Runs.{IsEndOf, MayGoOn, state_of};
ghost use Rattle.signal_trace.specs.Text.{trace_text};
ghost use Rattle.signal_trace.specs.Trace.{trace};
ghost use Rattle.answer_meaning.specs.Stages.{Comes};
ghost use Rattle.answer_meaning.specs.TraceAnswer.{shows_at, trace_answer, trace_of};
ghost use Rattle.answer_meaning.specs.Program.{IsEnding};
ghost use Rattle.answer_meaning.specs.Lines.{AreRead};
ghost use Rattle.run_answers.specs.Runs.{IsRunOf};

use answer_meaning::{Answer, KnownExchange, Stop};
use code_gen::compile;
use command_words::TraceWords;
use exchange_model::Exchange;
use exchange_run::{Standing, before_lines};
use known_exchange::{known_in, lines_in, text_in};
use plex_io::{NoGate, Shelf, Word};
use plex_num::{Memory, Seq};
use refusal_lines::filter_stop;
use run_answers::{has_short_code, headed_answer};
use run_engines::{ByCode, BySource};
use signal_file::{Known, Line};
use signal_trace::{FilterFault, FilterRule, Show, Traced, read_filter, trace_run};
use std::alloc::Global;
use store_layout::{Layout, layout_of};

/// Performs `trace`. Stops where a file is missing or cannot be read, at the first fault of the
/// first file that has one, or out of memory.
#[tactic(auto, using(answer_meaning::proofs::Stages::comes_rules))]
pub fn perform_trace<S: Shelf>(
    alloc: Global,
    shelf: &mut S,
    words: &TraceWords,
) -> Result<Answer, Stop>
    requires { words.now.run.bounds.jobs ≤ MOST_JOBS }
    ensures comes { Comes (S.held shelf.old) (trace_of words.now) (S.faults shelf.old)
        (S.faults shelf.new) result }
    ensures ending { IfOk result (λ a. IsEnding a.status) }
{
    let known = known_in(alloc, shelf, &words.run.exchange)?;
    let lines = lines_in(alloc, shelf, &known, &words.run.signals)?;
    let shows = shows_in(alloc, shelf, &known, &words.filter)?;
    let answer = trace_answer(alloc, &known.exchange, lines, &shows, words.run.bounds.jobs)?;
    Ok(answer)
}

/// The lines of a filter's file. Stops where the file is missing or cannot be read, at its first
/// faulty line, or out of memory.
#[tactic(auto, using(answer_meaning::proofs::Stages::comes_rules, answer_meaning::proofs::Stages::refused_rules))]
fn shows_in<S: Shelf>(
    alloc: Global,
    shelf: &mut S,
    known: &KnownExchange,
    name: &Word,
) -> Result<Seq<Show>, Stop>
    ensures { Comes (S.held shelf.old) (shows_at known.now.exchange name.now)
        (S.faults shelf.old) (S.faults shelf.new) result }
{
    let Some(text) = text_in(alloc, shelf, name)? else {
        let rule = FilterRule::TooLarge;
        return Err(filter_stop(alloc, FilterFault { line: 0, rule }));
    };
    let reader = Known {
        exchange: &known.exchange,
        names: &known.names,
    };
    match read_filter(alloc, &reader, text.as_slice())? {
        Ok(shows) => Ok(shows),
        Err(fault) => Err(filter_stop(alloc, fault)),
    }
}

/// The jobs of the single run of these lines that the filter selects, then the run's report.
#[tactic(auto, using(crate::proofs::Showing::trace_is))]
fn trace_answer(
    alloc: Global,
    exchange: &Exchange,
    lines: Seq<Line>,
    shows: &Seq<Show>,
    jobs: u32,
) -> Result<Answer, Memory>
    requires lines { AreRead exchange.now lines }
    requires jobs { jobs ≤ MOST_JOBS }
    ensures answer { IfOk result (λ a. a ≡ trace_answer exchange.now lines shows.now jobs) }
    ensures ending { IfOk result (λ a. IsEnding a.status) }
{
    let Traced { text, end } = run_traced(alloc, exchange, lines, shows, jobs)?;
    let answer = headed_answer(text, exchange, end)?;
    Ok(answer)
}

/// Runs these lines sequentially, and writes the text of the jobs that the filter selects.
#[tactic(auto, using(crate::proofs::Showing::traced_rules))]
fn run_traced(
    alloc: Global,
    exchange: &Exchange,
    lines: Seq<Line>,
    shows: &Seq<Show>,
    jobs: u32,
) -> Result<Traced, Memory>
    requires lines { AreRead exchange.now lines }
    requires jobs { jobs ≤ MOST_JOBS }
    ensures end { IfOk result (λ t. IsRunOf exchange.now lines jobs t.end) }
    ensures text { IfOk result (λ t. t.text ≡ trace_text exchange.now
        (trace exchange.now jobs (opening exchange.now (map coming_of lines)) shows.now)) }
{
    let layout = layout_of(alloc, exchange)?;
    let run = before_lines(alloc, exchange, &layout, lines, u64::from(jobs))?;
    let traced = trace_from(alloc, exchange, &layout, run, shows)?;
    Ok(traced)
}

/// The same from books and words with no ended job: by compiled code, or by the source interpreter
/// if the code would be too long.
fn trace_from(
    alloc: Global,
    exchange: &Exchange,
    layout: &Layout,
    run: Standing,
    shows: &Seq<Show>,
) -> Result<Traced, Memory>
    requires run { MayGoOn exchange.now run }
    requires none { run.books.state.ended ≡ 0 }
    requires layout { IsLayout exchange.now.blocks layout.now }
    ensures end { IfOk result (λ t.
        IsEndOf exchange.now (state_of run) run.books.limit t.end) }
    ensures text { IfOk result (λ t. t.text ≡ trace_text exchange.now
        (trace exchange.now run.books.limit (state_of run) shows.now)) }
{
    exchange.kept();
    if !has_short_code(alloc, exchange)? {
        let mut runner = BySource::new(alloc, exchange, &NoGate)?;
        return trace_run(alloc, exchange, layout, run, shows, &mut runner);
    }
    let code = compile(alloc, exchange, layout)?;
    let mut runner = ByCode::behind(&code, &NoGate, 0);
    trace_run(alloc, exchange, layout, run, shows, &mut runner)
}
