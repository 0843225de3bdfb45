// The public call of the dispatcher.
ghost use Rattle.std.specs.Prelude.{◌≡◌, false, IfOk, IfErr};
ghost use Rattle.lone_job.specs.Contexts.{IsContext};
ghost use Rattle.parallel_dispatch.specs.Ends.{IsDispatched, IsOver, MayStart};
ghost use Rattle.parallel_dispatch.specs.Moves.{IsBare};

use crate::thread_setup::Host;
use crate::threads::run_named;
use exchange_run::Standing;
use lone_job::RunContext;
use plex_io::Gate;
use plex_num::Seq;
use run_books::{Books, Ending};
use shared_store::{RootSeat, SharedStore};
use std::marker::Brand;
use std::sync::Wait;
use std::thread::Threads;
use ticket_book::TicketBook;
use worker_pool::Means;

/// The books of a run, the root of the store with its words, and whether the run may be handed back
/// before its end.
#[derive(Drop)]
pub struct StoredRun {
    pub books: Books,
    pub root: RootSeat,
    pub may_rest: bool,
}

/// The end of a run: the books, the stored words (one for each cell), how it ended, and the number
/// of instructions that its jobs executed, modulo 2^64.
#[derive(Drop)]
pub struct Ended {
    pub books: Books,
    pub words: Seq<u32>,
    pub ending: Ending,
    pub steps: u64,
}

/// A run that is handed back before its end: its books and stored words (one for each cell), and
/// the number of instructions that its jobs executed, modulo 2^64.
#[derive(Drop)]
pub struct Rested {
    pub there: Standing,
    pub steps: u64,
}

/// How far a run has come.
#[derive(Drop)]
pub enum Dispatched {
    /// It is at its end.
    Over(Ended),
    /// It was handed back after some job, because hardly any recent job could run beside another
    /// one.
    Rests(Rested),
}

/// Runs the jobs of an exchange to the end of the single run, at most as many at a time as the
/// context says: each alone, or beside those with which it passes all conflict tests. The gate is
/// called on the thread of each job.
///
/// For every interleaving of the threads, the result is that of the single run: its books, its
/// words, how it ended, and how many instructions its jobs executed. If `may_rest`, the run is
/// handed back in an intermediate state of the single run once hardly any job has others running
/// beside it, since jobs take less time on words that are not shared.
///
/// No job may be running in the books; the root must be that of the store, without loans; and books
/// and root must stand for a valid state. The only error is out of memory. Then no job is running
/// any more, and the store's root is returned without loans: each job with a loan has ended, and
/// its seat was taken back.
pub fn dispatch<R: Threads + Wait + Sync, G: Gate + Sync>(
    host: &Host<'_, R, G>,
    context: &RunContext<'_>,
    store: &SharedStore,
    run: StoredRun,
) -> Result<Dispatched, RootSeat>
    requires context { IsContext context.now }
    requires run { MayStart context.now.exchange.now store.now run }
    ensures come { IfOk result (λ come. IsDispatched context.now run come) }
    ensures over { run.may_rest ≡ false → IfOk result (λ come. IsOver come) }
    ensures joined { IfErr result (λ back. IsBare store.now back) }
{
    match TicketBook::new(host.alloc) {
        Ok((book, pen)) => {
            context.exchange.kept();
            let means = Means {
                exchange: context.exchange,
                code: context.code,
                store,
            };
            run_named::<Brand, R, G>(host, context, &means, &book, pen, run)
        }
        Err(_) => Err(run.root),
    }
}
