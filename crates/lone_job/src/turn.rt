// Runs the next job to its end on the root's own words, and retires it.
ghost use Rattle.std.specs.Prelude.{◌≡◌, ◌+◌, ◌<◌, ◌^◌, [], IfOk, IfErr, OnOk};
ghost use Rattle.store_layout.specs.Laid.{IsLayout};
ghost use Rattle.source_meaning.specs.Valid.{MayBe};
ghost use Rattle.run_books.specs.Retired.{retired_trace};
ghost use Rattle.run_books.specs.Stores.{MayStore};
ghost use Rattle.job_runner.specs.Seen.{free_to_write};
ghost use Rattle.exchange_run.specs.Runs.{MayRun};
ghost use Rattle.machine_meaning.specs.Faithful.{Faithful, started};
ghost use Rattle.lone_job.specs.Contexts.{IsContext};
ghost use Rattle.lone_job.specs.Turns.{HasRetiredOn, HasRunAlone, HasTurnedAlone, KeepsLoans};
ghost use Rattle.lone_job.specs.Turns.{LendsNothing, MayTurn, arrived};

use crate::context::RunContext;
use exchange_model::Exchange;
use job_run::JobRun;
use job_runner::RootWords;
use job_types::{JobDone, JobStart};
use machine_code::Code;
use plex_io::{Gate, Moment};
use plex_num::Memory;
use register_machine::run_to_end;
use run_books::{Books, let_arrive};
use run_engines::length_of;
use shared_store::{RootSeat, SharedStore};

/// The result of a job that ran alone: the root of the store, the number of instructions of its run
/// modulo 2^64, its entry, and its length in instructions.
#[derive(Drop)]
pub struct Alone {
    pub root: RootSeat,
    pub steps: u64,
    pub entry: u32,
    pub length: u64,
}

/// The number of the next job in the single run, from 1.
pub fn number_of_next(books: &Books) -> u64
    requires { books.now.state.ended + books.now.running + 1 < 2 ^ 64 }
    ensures { result ≡ books.now.state.ended + books.now.running + 1 }
{
    books.ended() + books.running() + 1
}

/// Runs the next job to its end on the root's own words, and calls the gate before and after it.
/// `run` is started anew for it. The job retires at once, and the lines that are due arrive. Out of
/// memory is an error that returns the root, without loans.
#[tactic(auto, using(crate::proofs::Turning::some_next))]
pub fn turn_alone<G: Gate>(
    context: &RunContext<'_>,
    store: &SharedStore,
    gate: &G,
    books: &mut Books,
    root: RootSeat,
    run: &mut JobRun,
) -> Result<Alone, RootSeat>
    requires context { IsContext context.now }
    requires home { root.0 ≡ store.now }
    requires may { MayTurn context.now.exchange.now books.old root.1 }
    ensures turned { IfOk result (λ alone.
        HasTurnedAlone context.now.exchange.now context.now.code.now books.old root.1
        books.new alone.root.1 alone.steps) }
    ensures home { IfOk result (λ alone. alone.root.0 ≡ root.0) }
    ensures left { IfErr result (LendsNothing root.0) }
{
    let exchange = context.exchange;
    exchange.kept();
    let job = number_of_next(books);
    let Some(start) = books.next_job() else {
        unreachable!()
    };
    run.begin(context.code, &start);
    gate.at(job, Moment::Before);
    let root = run_on_root(exchange, context.code, store, root, run, &start);
    let steps = run.steps();
    gate.at(job, Moment::After { steps });
    let done = run.done();
    match retire_on_root(context, store, books, root, &start, done) {
        Ok(root) => Ok(Alone {
            root,
            steps,
            entry: start.job.entry,
            length: length_of(run),
        }),
        Err(root) => Err(root),
    }
}

/// Retires a job in the books and on the root's words, given its start and its outcome. Where no
/// job is running any more, the lines that are due arrive. Out of memory is an error that returns
/// the root with the loans that it had.
pub fn retire_on_root(
    context: &RunContext<'_>,
    store: &SharedStore,
    books: &mut Books,
    root: RootSeat,
    start: &JobStart,
    done: &JobDone,
) -> Result<RootSeat, RootSeat>
    requires layout { IsLayout context.now.exchange.now.blocks context.now.layout.now }
    requires home { root.0 ≡ store.now }
    requires running { 0 < books.old.running }
    requires forlopp { MayBe books.old.state start.now.job.forlopp }
    requires words { MayStore (free_to_write root.1)
        (retired_trace context.now.exchange.now start.now done.now books.old.state root.1.values) }
    ensures retired { IfOk result (λ now. HasRetiredOn context.now.exchange.now start.now done.now
        books.old root.1 books.new now.1) }
    ensures home { IfOk result (λ now. now.0 ≡ root.0) }
    ensures left { IfErr result (λ now. KeepsLoans root now) }
{
    let mut words = RootWords::new(store, root);
    let retired = books.retire(context.exchange, context.layout, start, done, &mut words);
    let root = words.into_root();
    let Ok(()) = retired else {
        return Err(root);
    };
    let Ok(()) = arrive(books, context.exchange) else {
        return Err(root);
    };
    Ok(root)
}

/// Lets the lines that are due arrive, if no job is running.
fn arrive(books: &mut Books, exchange: &Exchange) -> Result<(), Memory>
    ensures { OnOk result (books.new
        ≡ record books.old { state = arrived exchange.now books.old.running books.old.state }) }
{
    if books.running() == 0 {
        let_arrive(exchange, books)?;
    }
    Ok(())
}

/// Runs a job to its end on the words of a root without loans.
fn run_on_root(
    exchange: &Exchange,
    code: &Code,
    store: &SharedStore,
    root: RootSeat,
    run: &mut JobRun,
    start: &JobStart,
) -> RootSeat
    requires faithful { Faithful exchange.now code.now }
    requires root { root.0 ≡ store.now }
    requires bare { root.1.loans ≡ [] }
    requires start { MayRun exchange.now start.now root.1.values }
    requires run { run.old ≡ started code.now start.now }
    ensures root { result.0 ≡ root.0 }
    ensures ran { HasRunAlone exchange.now code.now start.now root.1.values run.new result.1 }
{
    exchange.kept();
    let _ = start;
    let mut words = RootWords::new(store, root);
    run_to_end(exchange, run, code, &mut words);
    words.into_root()
}
