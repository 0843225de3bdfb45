// One turn after the other, to the end of the run or to where it may rest.
ghost use Rattle.std.specs.Prelude.{◌≡◌, ◌<◌, ◌≤◌, ◌^◌, [], length, map, false, None, IfOk, OnOk};
ghost use Rattle.plex_limits.specs.declared.limits.TheConstants.{MOST_JOBS};
ghost use Rattle.store_layout.specs.Laid.{IsLayout};
ghost use Rattle.source_meaning.specs.SingleRun.{jobs_at_end, opening};
ghost use Rattle.source_meaning.specs.Valid.{LinesFit};
ghost use Rattle.run_books.specs.Accounts.{with_words};
ghost use Rattle.run_books.specs.Lines.{coming_of};
ghost use Rattle.exchange_run.specs.Comes.{HasCome, IsOver, IsTold};
ghost use Rattle.exchange_run.specs.Runs.{HasTurn, IsEndOf, IsTurn, MayGoOn, state_of, told_next};
ghost use Rattle.exchange_run.specs.Runs.{told_of};

use crate::runner::Runner;
use crate::watcher::Watcher;
use exchange_model::Exchange;
use offload_policy::Rest;
use plex_num::{Memory, Seq};
use run_books::{Books, Ending, let_arrive};
use signal_file::Line;
use std::alloc::Global;
use store_layout::{Layout, opening};

/// The books of a run and the stored words, one for each cell.
#[derive(Drop)]
pub struct Standing {
    pub books: Books,
    pub words: Seq<u32>,
}

/// The end of a run: the books, the stored words, one for each cell, and how it ended.
#[derive(Drop)]
pub struct Ended {
    pub books: Books,
    pub words: Seq<u32>,
    pub ending: Ending,
}

/// How far a run has come.
#[derive(Drop)]
pub enum Come {
    /// To its end.
    Over(Ended),
    /// To a job after which it may rest.
    Among(Standing),
}

/// Before the first of these lines has arrived. `limit` is after how many jobs the run ends at the
/// latest.
#[tactic(auto, using(crate::proofs::Opened::opened_rules))]
pub fn before_lines(
    alloc: Global,
    exchange: &Exchange,
    layout: &Layout,
    lines: Seq<Line>,
    limit: u64,
) -> Result<Standing, Memory>
    requires limit { limit ≤ MOST_JOBS }
    requires few { length lines < 2 ^ 32 }
    requires lines { LinesFit exchange.now [] (map coming_of lines) }
    requires layout { IsLayout exchange.now.blocks layout.now }
    ensures state { IfOk result
        (λ run. state_of run ≡ opening exchange.now (map coming_of lines)) }
    ensures limit { IfOk result (λ run. run.books.limit ≡ limit) }
    ensures may { IfOk result (λ run. MayGoOn exchange.now run) }
{
    exchange.kept();
    let words = opening(alloc, exchange, layout)?;
    let books = Books::new(alloc, lines, limit);
    Ok(Standing { books, words })
}

/// Goes on with these books and words to the end of the single run, each job by the runner, and
/// tells the watcher of each. Nobody may run, and they must stand for a valid state.
pub fn run_books<R: Runner, W: Watcher>(
    exchange: &Exchange,
    layout: &Layout,
    run: Standing,
    runner: &mut R,
    watcher: &mut W,
) -> Result<Ended, Memory>
    requires run { MayGoOn exchange.now run }
    requires layout { IsLayout exchange.now.blocks layout.now }
    requires runner { R.runs runner.old exchange.now }
    ensures end { IfOk result (λ end. IsEndOf exchange.now (state_of run) run.books.limit end) }
    ensures watcher { OnOk result (watcher.new ≡ told_of W.told exchange.now (state_of run)
        (jobs_at_end exchange.now run.books.limit (state_of run)) watcher.old) }
{
    let come = run_until(exchange, layout, run, runner, watcher, None)?;
    match come {
        Come::Over(end) => Ok(end),
        Come::Among(_) => unreachable!(),
    }
}

/// The same, but where the jobs have become so long, the run rests among them.
pub fn run_until<R: Runner, W: Watcher>(
    exchange: &Exchange,
    layout: &Layout,
    run: Standing,
    runner: &mut R,
    watcher: &mut W,
    rest: Option<Rest>,
) -> Result<Come, Memory>
    requires run { MayGoOn exchange.now run }
    requires layout { IsLayout exchange.now.blocks layout.now }
    requires runner { R.runs runner.old exchange.now }
    ensures come { IfOk result
        (λ come. HasCome exchange.now (state_of run) run.books.limit come) }
    ensures over { rest ≡ None → IfOk result (λ come. IsOver come) }
    ensures runner { R.runs runner.new exchange.now }
    ensures told { IfOk result (λ come. IsTold W.told exchange.now
        (state_of run) run.books.limit watcher.old watcher.new come) }
{
    exchange.kept();
    let Standing {
        mut books,
        mut words,
    } = run;
    let_arrive(exchange, &mut books)?;
    'jobs: loop {
        if let Some(ending) = books.finished() {
            return Ok(Come::Over(Ended {
                books,
                words,
                ending,
            }));
        }
        if may_rest(runner, rest) {
            return Ok(Come::Among(Standing { books, words }));
        }
        make_turn(exchange, layout, &mut books, &mut words, runner, watcher)?;
    }
}

/// Whether the jobs of a runner are as long as they must be for a rest.
fn may_rest<R: Runner>(runner: &R, rest: Option<Rest>) -> bool
    ensures { rest ≡ None → result ≡ false }
{
    match rest {
        Some(rest) => runner.has_long_jobs(rest),
        None => false,
    }
}

/// The next job runs and retires, what is due arrives, and the watcher is told of the job. No job
/// may run before, and the run may not be over.
fn make_turn<R: Runner, W: Watcher>(
    exchange: &Exchange,
    layout: &Layout,
    books: &mut Books,
    words: &mut Seq<u32>,
    runner: &mut R,
    watcher: &mut W,
) -> Result<(), Memory>
    requires turn { HasTurn exchange.now books.old words.old }
    requires layout { IsLayout exchange.now.blocks layout.now }
    requires runner { R.runs runner.old exchange.now }
    ensures turn { OnOk result (IsTurn exchange.now books.old books.new words.old words.new) }
    ensures runner { R.runs runner.new exchange.now }
    ensures watcher { OnOk result (watcher.new ≡ told_next W.told exchange.now
        (with_words books.old.state words.old) watcher.old) }
{
    exchange.kept();
    let Some(start) = books.next_job() else {
        unreachable!()
    };
    runner.run(exchange, &start, words)?;
    books.retire(exchange, layout, &start, runner.done(), words)?;
    let_arrive(exchange, books)?;
    watcher.note(exchange, books.ended(), &start, runner.done())?;
    Ok(())
}
