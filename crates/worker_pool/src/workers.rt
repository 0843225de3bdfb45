// The threads that run jobs.
ghost use Rattle.std.specs.Prelude.{◌≡◌};
ghost use Rattle.worker_pool.specs.Ways.{AreMeans};

use crate::means::Means;
use crate::naming::Naming;
use crate::work_queue::{WorkQueue, first_nap, longer_nap};
use plex_io::Gate;
use std::sync::Wait;
use std::thread::{Scope, Threads};

/// Starts workers in a scope until there are so many. They run the jobs that are brought to the
/// work queue, and end once it is closed. Where a thread cannot be made there are fewer, and none
/// is tried again: a job that no worker has is run by who finishes its flight.
pub fn start_workers<'s, 'e: 's, B: Naming + Send + Sync, R: Threads + Wait + Sync, G: Gate + Sync>(
    rt: &'e R,
    scope: &'s Scope<'s, &'e ()>,
    queue: &'e WorkQueue<B>,
    means: &Means<'e>,
    gate: &'e G,
    wanted: u64,
)
    requires means { AreMeans B.exchange B.code B.store means.now }
{
    let started = queue.started();
    if wanted <= started {
        return;
    }
    let Means {
        exchange,
        code,
        store,
    } = *means;
    for _ in started..wanted {
        let worker = move ||
            requires { (exchange.now ≡ B.exchange) × (code.now ≡ B.code) × (store.now ≡ B.store) }
        {
            work(
                rt,
                queue,
                &Means {
                    exchange,
                    code,
                    store,
                },
                gate,
            )
        };
        queue.looks_more();
        if scope.spawn(worker).is_err() {
            queue.looks_less();
            queue.starts_no_more();
            return;
        }
    }
    queue.has_started(wanted);
}

/// A worker: it runs jobs until the work queue is closed.
fn work<R: Wait, B: Naming, G: Gate>(rt: &R, queue: &WorkQueue<B>, means: &Means<'_>, gate: &G)
    requires means { AreMeans B.exchange B.code B.store means.now }
{
    let mut nap = first_nap();
    for _ in rt.forever() {
        if queue.is_closed() {
            queue.looks_less();
            return;
        }
        let served = queue.serve(rt, means, gate);
        nap = if served { first_nap() } else { nap };
        queue.nap(rt, nap);
        nap = longer_nap(nap);
    }
}
