// Continues the single run from given books and memory words, which need not be those before the
// first line: sequentially, or with jobs in parallel.
ghost use Rattle.std.specs.Prelude.{◌≡◌, ◌≤◌, false, IfOk, IfSome};
ghost use Rattle.plex_limits.specs.declared.limits.TheConstants.{MOST_JOBS};
ghost use Rattle.store_layout.specs.Laid.{IsLayout};
ghost use Rattle.checked.specs.Kept.{IsChecked};
ghost use Rattle.exchange_run.specs.Comes.{HasCome};
ghost use Rattle.exchange_run.specs.Runs.{IsEndOf, MayGoOn, state_of};
ghost use Rattle.lone_job.specs.Contexts.{IsContext};
ghost use Rattle.parallel_dispatch.specs.Ends.{IsOver, IsRunTo};
ghost use Rattle.command_words.specs.Bounded.{AreWorkers};

use checked::Checked;
use code_gen::compile;
use exchange_model::Exchange;
use exchange_run::{Come, Ended, Standing, Unwatched, run_books, run_until};
use lone_job::RunContext;
use offload_policy::{MOST_APART, Rest, time_apart};
use parallel_dispatch::{Dispatched, Host, StoredRun, dispatch};
use plex_io::Gate;
use plex_num::Memory;
use run_answers::has_short_code;
use run_certificates::{Grown, until_long};
use run_engines::{ByCode, BySource};
use shared_store::SharedStore;
use std::alloc::Global;
use std::sync::Wait;
use std::thread::Threads;
use store_layout::Layout;

/// How the jobs of a run are executed.
#[derive(Clone, Copy)]
pub enum Way {
    /// By the source interpreter, sequentially.
    Source,
    /// By compiled code, unless that would be too long; then by the source interpreter.
    Code,
}

/// Continues the single run from these books and words to its end.
///
/// Jobs run sequentially with one worker, and by the source interpreter, which is used for
/// `Way::Source` and where the code would be too long to compile. Otherwise they run in parallel as
/// far as the given certificate permits, or, if none is given, the exchange's own, which is made
/// once jobs are long enough. The only error is out of memory.
#[tactic(auto, using(run_certificates::proofs::Growth::grown_rules))]
pub fn go_on<R: Threads + Wait + Sync, G: Gate + Sync>(
    host: &Host<'_, R, G>,
    exchange: &Exchange,
    layout: &Layout,
    way: Way,
    given: Option<Checked>,
    workers: u32,
    run: Standing,
) -> Result<Ended, Memory>
    requires layout { IsLayout exchange.now.blocks layout.now }
    requires given { IfSome given (IsChecked exchange.now) }
    requires workers { AreWorkers workers }
    requires run { MayGoOn exchange.now run }
    requires limit { run.books.limit ≤ MOST_JOBS }
    ensures { IfOk result (λ end. IsEndOf exchange.now (state_of run) run.books.limit end) }
{
    exchange.kept();
    if !may_compile(host.alloc, exchange, way)? {
        let mut runner = BySource::new(host.alloc, exchange, host.gate)?;
        return run_books(exchange, layout, run, &mut runner, &mut Unwatched);
    }
    let code = compile(host.alloc, exchange, layout)?;
    if workers == 1 {
        let mut runner = ByCode::behind(&code, host.gate, run.books.ended());
        return run_books(exchange, layout, run, &mut runner, &mut Unwatched);
    }
    if let Some(checked) = given {
        let context = RunContext {
            exchange,
            layout,
            code: &code,
            checked: &checked,
            workers,
        };
        return run_at_once(host, &context, run);
    }
    let mut runner = ByCode::behind(&code, host.gate, run.books.ended());
    match until_long(host.alloc, exchange, layout, run, &mut runner, workers)? {
        Grown::Over(end) => Ok(end),
        Grown::Long(long, checked) => {
            let context = RunContext {
                exchange,
                layout,
                code: &code,
                checked: &checked,
                workers,
            };
            let end = run_at_once(host, &context, long)?;
            Ok(end)
        }
    }
}

/// The same with jobs in parallel, as far as the kept summaries of a certificate permit. While
/// hardly any job has others running beside it, jobs run sequentially for a while, long enough that
/// leaving and re-entering the dispatcher costs little in comparison.
fn run_at_once<R: Threads + Wait + Sync, G: Gate + Sync>(
    host: &Host<'_, R, G>,
    context: &RunContext<'_>,
    run: Standing,
) -> Result<Ended, Memory>
    requires context { IsContext context.now }
    requires run { MayGoOn context.now.exchange.now run }
    requires limit { run.books.limit ≤ MOST_JOBS }
    ensures { IfOk result
        (λ end. IsEndOf context.now.exchange.now (state_of run) run.books.limit end) }
{
    let mut there = run;
    let mut apart = 0;
    for _round in 0..MOST_APART {
        let rested = match by_dispatcher(host, context, there, true)? {
            Dispatched::Over(end) => return Ok(ended(end)),
            Dispatched::Rests(rested) => rested,
        };
        let words = rested.there.words.len() as u64;
        apart = time_apart(words, apart, rested.steps);
        there = match run_apart(host, context, rested.there, apart)? {
            Come::Over(end) => return Ok(end),
            Come::Among(rests) => rests,
        };
    }
    match by_dispatcher(host, context, there, false)? {
        Dispatched::Over(end) => Ok(ended(end)),
        Dispatched::Rests(_) => unreachable!(),
    }
}

/// Runs jobs sequentially, to the end of the run or until its jobs are long and have executed
/// `apart` instructions.
fn run_apart<R, G: Gate>(
    host: &Host<'_, R, G>,
    context: &RunContext<'_>,
    run: Standing,
    apart: u64,
) -> Result<Come, Memory>
    requires context { IsContext context.now }
    requires run { MayGoOn context.now.exchange.now run }
    ensures { IfOk result
        (λ come. HasCome context.now.exchange.now (state_of run) run.books.limit come) }
{
    let mut runner = ByCode::behind(context.code, host.gate, run.books.ended());
    let rest = Some(Rest::when(context.workers, apart));
    run_until(
        context.exchange,
        context.layout,
        run,
        &mut runner,
        &mut Unwatched,
        rest,
    )
}

/// Runs the dispatcher from these books and words. When it is out of memory, it first lets each
/// running job end and return its words.
#[tactic(auto, using(crate::proofs::Rooted::root_rules))]
fn by_dispatcher<R: Threads + Wait + Sync, G: Gate + Sync>(
    host: &Host<'_, R, G>,
    context: &RunContext<'_>,
    run: Standing,
    may_rest: bool,
) -> Result<Dispatched, Memory>
    requires context { IsContext context.now }
    requires run { MayGoOn context.now.exchange.now run }
    requires limit { run.books.limit ≤ MOST_JOBS }
    ensures come { IfOk result (λ come. IsRunTo context.now.exchange.now
        context.now.code.now context.now.checked.now context.now.workers
        (state_of run) run.books.limit come) }
    ensures over { may_rest ≡ false → IfOk result (λ come. IsOver come) }
{
    let (store, root) = SharedStore::new(host.alloc, &run.words)?;
    let stored = StoredRun {
        books: run.books,
        root,
        may_rest,
    };
    match dispatch(host, context, &store, stored) {
        Ok(come) => Ok(come),
        Err(_) => Err(Memory),
    }
}

/// Converts the end that the dispatcher reached.
fn ended(end: parallel_dispatch::Ended) -> Ended
    ensures { result ≡ record { books = end.books; words = end.words; ending = end.ending } }
{
    Ended {
        books: end.books,
        words: end.words,
        ending: end.ending,
    }
}

/// Whether jobs are executed by compiled code. The only error is out of memory.
fn may_compile(alloc: Global, exchange: &Exchange, way: Way) -> Result<bool, Memory> {
    match way {
        Way::Source => Ok(false),
        Way::Code => has_short_code(alloc, exchange),
    }
}
