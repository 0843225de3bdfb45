// Runs all jobs in a scope of threads.
ghost use Rattle.std.specs.Prelude.{◌≡◌, ◌<◌, false, IfOk, IfErr};
ghost use Rattle.store_layout.specs.Laid.{IsLayout};
ghost use Rattle.parallel_dispatch.specs.Ends.{IsOver, IsRunTo};
ghost use Rattle.parallel_dispatch.specs.Moves.{AreOf, IsBare, MayBegin, Suits};

use crate::course::Course;
use crate::dispatcher::{Dispatched, StoredRun};
use crate::dispatcher_state::DispatcherState;
use crate::moves::drain;
use crate::thread_setup::{Host, ThreadSetup};
use interference_check::PairTable;
use job_pace::Pace;
use lone_job::RunContext;
use plex_io::Gate;
use shared_store::RootSeat;
use std::sync::Wait;
use std::thread;
use std::thread::{Scope, Threads, available_parallelism};
use ticket_book::{Pen, TicketBook};
use worker_pool::{Means, WorkQueue};

/// Runs the jobs to the end of the run, or until it is handed back. The only error is out of
/// memory; the root then has no loans.
pub(crate) fn run_named<B: Course + Send + Sync, R: Threads + Wait + Sync, G: Gate + Sync>(
    host: &Host<'_, R, G>,
    context: &RunContext<'_>,
    means: &Means<'_>,
    book: &TicketBook,
    pen: Pen,
    run: StoredRun,
) -> Result<Dispatched, RootSeat>
    requires suits { Suits B.exchange B.code B.store B.book B.kept B.workers
        context.now means.now book.now }
    requires begin { MayBegin B.exchange B.store B.book B.first B.limit pen run }
    ensures come { IfOk result
        (λ come. IsRunTo B.exchange B.code B.kept B.workers B.first B.limit come) }
    ensures over { run.may_rest ≡ false → IfOk result (λ come. IsOver come) }
    ensures bare { IfErr result (λ root. IsBare B.store root) }
{
    let Ok(queue) = WorkQueue::<B>::new(host.alloc, context.workers) else {
        return Err(run.root);
    };
    run_with_queue(host, context, means, book, &queue, pen, run)
}

/// The same with a work queue. The closure captures each reference on its own and builds
/// `ThreadSetup` from them, because contracts say nothing about a closure that captures structs of
/// references.
fn run_with_queue<'x, B: Course + Send + Sync, R: Threads + Wait + Sync, G: Gate + Sync>(
    host: &'x Host<'x, R, G>,
    context: &'x RunContext<'x>,
    means: &'x Means<'x>,
    book: &'x TicketBook,
    queue: &'x WorkQueue<B>,
    pen: Pen,
    run: StoredRun,
) -> Result<Dispatched, RootSeat>
    requires suits { Suits B.exchange B.code B.store B.book B.kept B.workers
        context.now means.now book.now }
    requires begin { MayBegin B.exchange B.store B.book B.first B.limit pen run }
    ensures come { IfOk result
        (λ come. IsRunTo B.exchange B.code B.kept B.workers B.first B.limit come) }
    ensures over { run.may_rest ≡ false → IfOk result (λ come. IsOver come) }
    ensures bare { IfErr result (λ root. IsBare B.store root) }
{
    let rt = host.rt;
    let alloc = host.alloc;
    let gate = host.gate;
    let exchange = context.exchange;
    let layout = context.layout;
    let code = context.code;
    let checked = context.checked;
    let workers = context.workers;
    let store = means.store;
    thread::scope(
        thread::scope_env(),
        rt,
        |scope| -> Result<Dispatched, RootSeat>
            requires { ((exchange.now ≡ B.exchange) × (code.now ≡ B.code)
                × (store.now ≡ B.store) × (book.now ≡ B.book))
                × (checked.now ≡ B.kept)
                × (workers ≡ B.workers) × (0 < workers)
                × IsLayout B.exchange.blocks layout.now
                × AreOf B.exchange B.code B.kept
                × MayBegin B.exchange B.store B.book B.first B.limit pen run }
            ensures { IfOk result
                (λ come. IsRunTo B.exchange B.code B.kept B.workers B.first B.limit come)
                × (run.may_rest ≡ false → IfOk result (λ come. IsOver come))
                × IfErr result (λ root. IsBare B.store root) }
        {
            let setup = ThreadSetup {
                rt,
                alloc,
                gate,
                context: RunContext {
                    exchange,
                    layout,
                    code,
                    checked,
                    workers,
                },
                means: Means {
                    exchange,
                    code,
                    store,
                },
                book,
                queue,
            };
            drive(scope, &setup, pen, run)
        },
    )
}

/// The same within the scope. Jobs run alone, or are issued and retire, until the run is over or is
/// handed back; workers are started for the jobs that go to them. At the end, also when out of
/// memory, no job is in flight and the queue is closed.
#[tactic(auto, using(crate::proofs::DispatcherMoves::begins_valid))]
fn drive<'s, 'e: 's, B: Course + Send + Sync, R: Threads + Wait + Sync, G: Gate + Sync>(
    scope: &'s Scope<'s, &'e ()>,
    setup: &ThreadSetup<'e, B, R, G>,
    pen: Pen,
    run: StoredRun,
) -> Result<Dispatched, RootSeat>
    requires suits { Suits B.exchange B.code B.store B.book B.kept B.workers
        setup.now.context setup.now.means setup.now.book.now }
    requires begin { MayBegin B.exchange B.store B.book B.first B.limit pen run }
    ensures come { IfOk result
        (λ come. IsRunTo B.exchange B.code B.kept B.workers B.first B.limit come) }
    ensures over { run.may_rest ≡ false → IfOk result (λ come. IsOver come) }
    ensures bare { IfErr result (λ root. IsBare B.store root) }
{
    let context = &setup.context;
    let Ok(mut pairs) = PairTable::new(setup.alloc, context.checked) else {
        return Err(run.root);
    };
    let helpers = helpers(setup.rt, context.workers);
    let entries = context.checked.entries();
    let Ok(mut pace) = Pace::new(setup.alloc, entries, helpers, context.workers) else {
        return Err(run.root);
    };
    let may_rest = run.may_rest;
    let mut dispatcher = match DispatcherState::<B>::open(setup, pen, run) {
        Ok(dispatcher) => dispatcher,
        Err(root) => return Err(root),
    };
    let _closing = setup.queue.closing();
    'jobs: loop {
        if let Some(ending) = dispatcher.ending() {
            let end = dispatcher.finish(setup, ending)?;
            return Ok(Dispatched::Over(end));
        }
        if may_rest && pace.rests() && dispatcher.is_idle() {
            let there = dispatcher.rest(setup)?;
            return Ok(Dispatched::Rests(there));
        }
        dispatcher = match dispatcher.make_move(scope, setup, &mut pairs, &mut pace) {
            Ok(next) => next,
            Err(left) => return Err(drain(setup, left)),
        };
    }
}

/// The most threads that run jobs beside the dispatcher: with the dispatcher as many as there are
/// workers, or processors if there are fewer of these. Processors are counted as at least two, and
/// are no bound if their number is unknown.
fn helpers<R: Threads>(rt: &R, workers: u32) -> u64 {
    if workers < 2 {
        return 0;
    }
    let processors = match available_parallelism(rt) {
        Ok(count) => count.get() as u64,
        Err(_) => u64::MAX,
    };
    u64::from(workers).min(processors.max(2)).saturating_sub(1)
}
