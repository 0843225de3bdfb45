// What the dispatcher and its workers share: a row of places for jobs, which are filled and emptied
// in turn, and a few counts by which threads find jobs, sleep and are woken.
ghost use Rattle.std.specs.Prelude.{◌≡◌, ◌<◌, IfOk, vec_len};
ghost use Rattle.worker_pool.specs.Ways.{AreMeans};

use crate::line::Line;
use crate::means::Means;
use crate::naming::Naming;
use crate::task::{Ended, Task};
use plex_io::Gate;
use plex_num::Memory;
use std::alloc::{AllocError, Global};
use std::marker::Model;
use std::sync::{Mutex, Wait};
use std::{hint, mem};

/// What stands in a place.
#[derive(Drop)]
enum Slot<B: Naming> {
    /// Nothing, or a job that a thread runs.
    Free,
    Waits(Task<B>),
    Has(Ended<B>),
}

/// A place for a job.
#[derive(Drop)]
struct Place<B: Naming> {
    slot: Mutex<Slot<B>>,
    /// One more than the number of the last job that ended here.
    ended: Line,
}

/// How often a worker looks again for a job before it sleeps. A look takes some ten nanoseconds,
/// and several times as long on processors that pause for longer: to sleep and be woken costs two
/// threads more than all looks together.
const LOOKS: u32 = 400;

/// How often the dispatcher looks again whether a job has ended before it sleeps.
const LOOKS_AT_END: u32 = 1_000;

/// How often a thread tries to take a job before it looks for another one.
const TRIES: u32 = 64;

/// How long a thread sleeps at first before it looks again, in microseconds, where nobody wakes it.
const NAP: u64 = 20_000;

/// How long it sleeps at most: a worker that finds nothing sleeps twice as long each time.
const LONGEST_NAP: u64 = 2_000_000;

/// The meeting place of the dispatcher, which brings jobs and fetches their ends, and of its
/// workers. Jobs are taken in the order in which they were brought. Contracts see how many jobs it
/// has room for.
#[derive(Drop)]
pub struct WorkQueue<B: Naming> {
    /// How many jobs were brought. The dispatcher alone changes it.
    brought: Line,
    /// How many were taken.
    taken: Line,
    /// How many workers look for a job, those among them that are being started.
    searching: Line,
    /// How many workers sleep.
    asleep: Line,
    /// Counts wake-ups. Workers sleep on it.
    bell: Line,
    /// 1 while a worker that was woken has not yet come to look for a job.
    called: Line,
    /// One more than the number of the job for whose end the dispatcher sleeps, on this very word;
    /// 0 where it does not.
    waits_for: Line,
    /// So many jobs have to wait before a worker is woken for them.
    batch: Line,
    /// So many workers that sleep are not woken.
    spare: Line,
    /// 1 once no more jobs come.
    closed: Line,
    /// How many workers were started; `NO_MORE` once one could not be. The dispatcher alone uses
    /// it.
    started: Line,
    /// The job of number k is at place k modulo their number.
    places: Vec<Place<B>>,
}

/// Stands for more workers than will ever be wanted.
const NO_MORE: u64 = u64::MAX;

impl<B: Naming> Model for WorkQueue<B> {
    ghost use Rattle.std.specs.Prelude.{ℕ, ◌<◌, vec_len};

    ghost Value = { ℕ };

    ghost view = { λ s. vec_len s.places };

    ghost invariant = { λ s. 0 < vec_len s.places };
}

impl<B: Naming> WorkQueue<B> {
    /// A work queue with room for so many jobs, and as yet no worker. Memory is the only reason for
    /// an error.
    pub fn new(alloc: Global, room: u32) -> Result<WorkQueue<B>, Memory>
        requires { 0 < room }
        ensures { IfOk result (λ queue. queue ≡ room) }
    {
        let Ok(places) = free_places(alloc, room) else {
            return Err(Memory);
        };
        Ok(WorkQueue {
            brought: Line::new(),
            taken: Line::new(),
            searching: Line::new(),
            asleep: Line::new(),
            bell: Line::new(),
            called: Line::new(),
            waits_for: Line::new(),
            batch: Line::new(),
            spare: Line::new(),
            closed: Line::new(),
            started: Line::new(),
            places,
        })
    }

    /// Brings a job, and wakes a worker for it where that is worth it. Its number here. No more
    /// jobs may be there at once than the work queue has room for: else one takes the place of
    /// another, whose flight then never ends.
    pub fn bring<R: Wait>(&self, rt: &R, task: Task<B>) -> u64 {
        let number = self.brought.get();
        *self.place(number).slot.lock(rt) = Slot::Waits(task);
        self.brought.set(number.wrapping_add(1));
        self.call();
        number
    }

    /// So many jobs have to wait before a worker is woken for them.
    pub fn wakes_for(&self, batch: u64) {
        if self.batch.get() != batch {
            self.batch.set(batch);
        }
    }

    /// So many workers that sleep are not woken: others are enough.
    pub fn spares(&self, workers: u64) {
        if self.spare.get() != workers {
            self.spare.set(workers);
        }
    }

    /// Whether a worker sleeps that may be woken.
    fn has_sleepers(&self) -> bool {
        self.asleep.get() > self.spare.get()
    }

    /// How many jobs were brought and wait for a thread.
    pub fn waiting(&self) -> u64 {
        let taken = self.taken.get();
        self.brought.get().wrapping_sub(taken)
    }

    /// Wakes a worker where one sleeps that may be woken, enough jobs wait, and none looks for a
    /// job or was woken and is on its way.
    fn call(&self) {
        if self.waiting() < self.batch.get().max(1)
            || self.searching.get() > 0
            || !self.has_sleepers()
            || !self.called.follows(0)
        {
            return;
        }
        if self.has_sleepers() {
            self.bell.add_one();
            self.bell.wake_one();
        } else {
            self.called.set(0);
        }
    }

    /// What closes the work queue when it goes: no more jobs come then, and the workers end. It
    /// must go before the end of the workers' scope, which else waits for ever.
    pub fn closing(&self) -> Closing<'_, B> {
        Closing { queue: self }
    }

    fn close(&self) {
        self.closed.set(1);
        self.bell.add_one();
        self.bell.wake_all();
    }

    /// Whether no more jobs come.
    pub(crate) fn is_closed(&self) -> bool {
        self.closed.get() > 0
    }

    /// Whether the job of this number has ended.
    pub(crate) fn has_ended(&self, number: u64) -> bool {
        self.place(number).ended.get() == number.wrapping_add(1)
    }

    /// Whether the job of this number has ended when it was looked at so often.
    fn ends_within(&self, number: u64, looks: u32) -> bool {
        let ended = &self.place(number).ended;
        let after = number.wrapping_add(1);
        for _ in 0..looks {
            if ended.get() == after {
                return true;
            }
            hint::spin_loop();
        }
        false
    }

    /// The end of the job of this number. Until it has ended other jobs that wait are run here, the
    /// oldest first; where none waits the caller does.
    pub(crate) fn end_of<R: Wait, G: Gate>(
        &self,
        rt: &R,
        number: u64,
        means: &Means<'_>,
        gate: &G,
    ) -> Ended<B>
        requires means { AreMeans B.exchange B.code B.store means.now }
    {
        for _ in rt.forever() {
            if self.has_ended(number) {
                let found = take(&mut *self.place(number).slot.lock(rt));
                if let Slot::Has(ended) = found {
                    return ended;
                }
            }
            if !self.help(rt, means, gate) {
                self.wait_for(rt, number);
            }
        }
        unreachable!()
    }

    /// The number of the oldest job that waits, which is then taken.
    fn claim(&self) -> Option<u64> {
        for _ in 0..TRIES {
            let taken = self.taken.get();
            if self.brought.get() == taken {
                return None;
            }
            if self.taken.follows(taken) {
                return Some(taken);
            }
        }
        None
    }

    /// Runs the oldest job that waits, if there is one, in the thread that calls. Whether there
    /// was.
    pub fn help<R: Wait, G: Gate>(&self, rt: &R, means: &Means<'_>, gate: &G) -> bool
        requires means { AreMeans B.exchange B.code B.store means.now }
    {
        let Some(number) = self.claim() else {
            return false;
        };
        self.run_taken(rt, number, means, gate);
        true
    }

    /// Runs the job of this number, which the caller has taken.
    fn run_taken<R: Wait, G: Gate>(&self, rt: &R, number: u64, means: &Means<'_>, gate: &G)
        requires means { AreMeans B.exchange B.code B.store means.now }
    {
        let place = self.place(number);
        let found = take(&mut *place.slot.lock(rt));
        let Slot::Waits(task) = found else {
            return;
        };
        let ended = task.run(means, gate);
        *place.slot.lock(rt) = Slot::Has(ended);
        let after = number.wrapping_add(1);
        place.ended.set(after);
        if self.waits_for.get() == after {
            self.waits_for.set(0);
            self.waits_for.wake_one();
        }
    }

    /// The dispatcher waits until the job of this number has ended, or for the length of a nap.
    fn wait_for<R: Wait>(&self, rt: &R, number: u64) {
        if self.ends_within(number, LOOKS_AT_END) {
            return;
        }
        let after = number.wrapping_add(1);
        self.waits_for.set(after);
        if !self.has_ended(number) {
            self.waits_for.sleep(rt, after, NAP);
        }
        self.waits_for.set(0);
    }

    /// A worker that looks for jobs runs those that wait, the oldest first, until none has come for
    /// some time. Whether it ran any. While it runs them it does not count as one that looks, and
    /// before each another worker is woken where enough are left.
    pub(crate) fn serve<R: Wait, G: Gate>(&self, rt: &R, means: &Means<'_>, gate: &G) -> bool
        requires means { AreMeans B.exchange B.code B.store means.now }
    {
        let mut served = false;
        let mut searches = true;
        let mut looks: u32 = 0;
        for _ in rt.forever() {
            if let Some(number) = self.claim() {
                if searches {
                    self.looks_less();
                }
                self.call();
                self.run_taken(rt, number, means, gate);
                served = true;
                searches = false;
                looks = 0;
            } else if looks < LOOKS {
                if !searches {
                    self.looks_more();
                }
                searches = true;
                looks += 1;
                hint::spin_loop();
            } else {
                return served;
            }
        }
        unreachable!()
    }

    /// A worker that looks for jobs sleeps until one is brought, or for so many microseconds, and
    /// looks again.
    pub(crate) fn nap<R: Wait>(&self, rt: &R, micros: u64) {
        let bell = self.bell.get();
        self.asleep.add_one();
        self.searching.take_one();
        if self.waiting() == 0 && !self.is_closed() {
            self.bell.sleep(rt, bell, micros);
        }
        self.searching.add_one();
        self.asleep.take_one();
        self.called.set(0);
    }

    /// One more worker looks for jobs: it is being started.
    pub(crate) fn looks_more(&self) {
        self.searching.add_one();
    }

    /// One worker fewer looks for jobs: it ends, or could not be started.
    pub(crate) fn looks_less(&self) {
        self.searching.take_one();
    }

    /// Whether each worker that was started runs a job.
    pub fn are_all_busy(&self) -> bool {
        self.searching.get() == 0 && self.asleep.get() == 0
    }

    /// How many workers were started; 2^64 - 1 once one could not be.
    pub fn started(&self) -> u64 {
        self.started.get()
    }

    /// So many workers were started. The dispatcher alone starts them.
    pub(crate) fn has_started(&self, workers: u64) {
        self.started.set(workers);
    }

    /// A worker could not be started: none is tried again.
    pub(crate) fn starts_no_more(&self) {
        self.started.set(NO_MORE);
    }

    fn place(&self, number: u64) -> &Place<B> {
        let many = self.places.len() as u64;
        &self.places[(number % many) as usize]
    }
}

/// Closes a work queue when it goes, on whichever way out that is.
pub struct Closing<'e, B: Naming> {
    queue: &'e WorkQueue<B>,
}

impl<B: Naming> Drop for Closing<'_, B> {
    fn drop(self) {
        let Closing { queue } = self;
        queue.close();
    }
}

/// How long a worker sleeps first, in microseconds.
pub(crate) fn first_nap() -> u64 {
    NAP
}

/// How long a worker sleeps that found nothing after a nap of so many microseconds.
pub(crate) fn longer_nap(nap: u64) -> u64 {
    nap.saturating_mul(2).min(LONGEST_NAP)
}

/// So many places that are free.
fn free_places<B: Naming>(alloc: Global, room: u32) -> Result<Vec<Place<B>>, AllocError>
    ensures { IfOk result (λ places. vec_len places ≡ room) }
{
    let mut places = Vec::with_capacity(alloc, room as usize)?;
    for _ in 0..room {
        places.push_reserved(Place {
            slot: Mutex::new(Slot::Free),
            ended: Line::new(),
        });
    }
    Ok(places)
}

/// What is there, which is then free.
fn take<B: Naming>(here: &mut Slot<B>) -> Slot<B> {
    mem::replace(here, Slot::Free)
}
