// When workers are started, and when the dispatcher helps them.
ghost use Rattle.std.specs.Prelude.{◌≡◌};
ghost use Rattle.worker_pool.specs.Ways.{AreMeans};

use crate::thread_setup::ThreadSetup;
use crate::window::Window;
use interference_check::PairTable;
use job_pace::{Pace, Way};
use plex_io::Gate;
use std::sync::Wait;
use std::thread::{Scope, Threads};
use worker_pool::{Naming, start_workers};

/// Runs one of the queued jobs on the dispatcher's thread, if enough are queued, every worker is
/// busy and the oldest in flight is not in hand.
pub(crate) fn relieve<B: Naming, R: Wait, G: Gate>(
    setup: &ThreadSetup<'_, B, R, G>,
    pace: &Pace,
    window: &Window<B>,
)
    requires means { AreMeans B.exchange B.code B.store setup.now.means }
{
    let queue = setup.queue;
    if window.len() > 0
        && pace.are_enough(queue.waiting())
        && queue.are_all_busy()
        && !window.oldest_is_in_hand()
    {
        queue.help(setup.rt, &setup.means, setup.gate);
    }
}

/// How the next job, of this entry, is to run. If it goes to the workers, it and the oldest one
/// count as having company, and the workers wanted for that are started.
pub(crate) fn way_for<
    's,
    'e: 's,
    B: Naming + Send + Sync,
    R: Threads + Wait + Sync,
    G: Gate + Sync,
>(
    scope: &'s Scope<'s, &'e ()>,
    setup: &ThreadSetup<'e, B, R, G>,
    entry: u32,
    pairs: &mut PairTable<'_>,
    pace: &mut Pace,
    window: &Window<B>,
) -> Way
    requires means { AreMeans B.exchange B.code B.store setup.now.means }
    ensures { pairs.new ≡ pairs.old }
{
    let way = pace.way(pairs, entry, window.len());
    let Way::Brought = way else {
        return way;
    };
    pace.has_company(entry);
    if let Some(oldest) = window.oldest_entry() {
        pace.has_company(oldest);
    }
    let queue = setup.queue;
    let wanted = pace.threads_for(entry, window.len());
    queue.wakes_for(pace.batch(entry));
    queue.spares(pace.spare(queue.started()));
    start_workers(setup.rt, scope, queue, &setup.means, setup.gate, wanted);
    way
}

/// Starts the workers that are wanted while the dispatcher waits for the oldest job in flight or
/// runs it: one more if a job is queued.
pub(crate) fn hire_meanwhile<
    's,
    'e: 's,
    B: Naming + Send + Sync,
    R: Threads + Wait + Sync,
    G: Gate + Sync,
>(scope: &'s Scope<'s, &'e ()>, setup: &ThreadSetup<'e, B, R, G>, pace: &Pace, window: &Window<B>)
    requires means { AreMeans B.exchange B.code B.store setup.now.means }
{
    let queue = setup.queue;
    if queue.waiting() > 0 && !window.oldest_has_ended(queue) {
        let wanted = pace.threads_beside(queue.started());
        start_workers(setup.rt, scope, queue, &setup.means, setup.gate, wanted);
    }
}
