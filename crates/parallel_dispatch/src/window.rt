// The jobs in flight, in the order of the single run.
ghost use Rattle.std.specs.Prelude.{◌≡◌, ◌+◌, ◌<◌, ◌^◌, ◌∷◌, ◌++◌, [], length, IsTrue, IfOk};
ghost use Rattle.std.specs.Prelude.{MatchOption};
ghost use Rattle.std.specs.List.{AllByRecursion};
ghost use Rattle.job_runner.specs.Runs.{IsReady};
ghost use Rattle.machine_meaning.specs.Faithful.{Faithful};
ghost use Rattle.parallel_dispatch.specs.Flying.{starts_of};
ghost use Rattle.parallel_dispatch.specs.Moves.{FollowsAll, HasSummary};
ghost use Rattle.interleave_core.specs.Allowed.{MayFollow};

use interference_check::PairTable;
use job_run::JobRun;
use job_types::JobStart;
use plex_num::Memory;
use shared_store::JobSeat;
use std::alloc::Global;
use std::collections::VecDeque;
use std::marker::Model;
use ticket_book::{Pen, TicketBook};
use worker_pool::{Flight, Naming, WorkQueue, launch};

/// A job in flight, and its start. Contracts see its loan. It cannot be dropped: its flight must be
/// finished.
struct InFlight<B: Naming> {
    flight: Flight<B>,
    start: Box<JobStart>,
}

impl<B: Naming> Model for InFlight<B> {
    ghost use Rattle.std.specs.Prelude.{◌≡◌};
    ghost use Rattle.shared_store.specs.declared.view.Lent.{Lent};

    ghost Value = { Lent };

    ghost view = { λ f. f.flight };

    ghost invariant = { λ f. f.start.value ≡ f.flight.start };
}

impl<B: Naming> InFlight<B> {
    /// The job's start.
    fn start(&self) -> &JobStart
        ensures { result.now ≡ self.now.start }
    {
        &self.start
    }

    /// Takes the job apart into its flight and its start.
    fn into_oldest(self) -> Oldest<B>
        ensures flight { result.flight ≡ self }
        ensures start { result.start.value ≡ self.start }
    {
        let InFlight { flight, start } = self;
        Oldest { flight, start }
    }
}

/// The window: the jobs that have begun and not retired, the oldest first, and the pen that writes
/// their tickets. Finished runs are kept here for reuse. Contracts see the loans, the capacity, and
/// the number of jobs that have been in flight so far. It cannot be dropped: it must be closed,
/// once it is empty.
pub(crate) struct Window<B: Naming> {
    flying: VecDeque<InFlight<B>>,
    idle: Vec<Box<JobRun>>,
    pen: Pen,
}

impl<B: Naming> Model for Window<B> {
    ghost use Rattle.std.specs.Prelude.{◌≡◌};
    ghost use Rattle.std.specs.VecDeque.{deque_capacity};
    ghost use Rattle.parallel_dispatch.specs.Windows.{View};

    ghost Value = { View };

    ghost view = { λ w. record {
      loans = w.flying.items;
      room = deque_capacity w.flying;
      flown = w.pen.1;
    } };

    ghost invariant = { λ w. w.pen.0 ≡ B.book };
}

/// The oldest job of a window.
pub(crate) struct Oldest<B: Naming> {
    pub flight: Flight<B>,
    pub start: Box<JobStart>,
}

impl<B: Naming> Window<B> {
    /// An empty window with this capacity.
    pub fn new(alloc: Global, pen: Pen, room: u32) -> Result<Window<B>, Memory>
        requires pen { pen.0 ≡ B.book }
        ensures { IfOk result (λ w. w ≡ record { loans = []; room = room; flown = pen.1 }) }
    {
        let Ok(flying) = VecDeque::with_capacity(alloc, room as usize) else {
            return Err(Memory);
        };
        Ok(Window {
            flying,
            idle: Vec::new(alloc),
            pen,
        })
    }

    /// The number of jobs in flight.
    pub fn len(&self) -> usize
        ensures { result ≡ length self.now.loans }
    {
        self.flying.len()
    }

    /// The capacity.
    pub fn room(&self) -> usize
        ensures { result ≡ self.now.room }
    {
        self.flying.capacity()
    }

    /// How many of the oldest jobs must retire before `later` passes the conflict tests with each
    /// one in flight; 0 if it does so now.
    pub fn blockers(&self, pairs: &mut PairTable<'_>, later: &JobStart) -> usize
        requires window { AllByRecursion (HasSummary pairs.old) (starts_of self.now.loans) }
        requires later { HasSummary pairs.old later.now }
        ensures passes { result ≡ 0
            → FollowsAll pairs.old (starts_of self.now.loans) later.now }
        ensures kept { pairs.new ≡ pairs.old }
    {
        blockers_among(pairs, &self.flying, later)
    }

    /// An estimate of the number of tests that `blockers` makes for a job of this entry.
    pub fn asking(&self, pairs: &mut PairTable<'_>, entry: u32) -> u64
        ensures { pairs.new ≡ pairs.old }
    {
        let mut tests: u64 = 0;
        for job in self.flying.iter() {
            tests = tests.saturating_add(pairs.asking(job.start().job.entry, entry));
        }
        tests
    }

    /// Whether a job is in flight and the oldest one has ended.
    pub fn oldest_has_ended(&self, queue: &WorkQueue<B>) -> bool {
        match self.flying.front() {
            Some(oldest) => oldest.flight.has_ended(queue),
            None => false,
        }
    }

    /// Whether the oldest job in flight is in the dispatcher's hand.
    pub fn oldest_is_in_hand(&self) -> bool {
        match self.flying.front() {
            Some(oldest) => oldest.flight.is_in_hand(),
            None => false,
        }
    }

    /// The entry of the oldest job in flight.
    pub fn oldest_entry(&self) -> Option<u32> {
        let oldest = self.flying.front()?;
        Some(oldest.start().job.entry)
    }

    /// A run for a new job: a finished one, or a new one.
    pub fn idle_run(&mut self, alloc: Global) -> Result<Box<JobRun>, Memory>
        ensures { self.new ≡ self.old }
    {
        match self.idle.pop() {
            Some(run) => Ok(run),
            None => match Box::new(alloc, JobRun::idle()) {
                Ok(run) => Ok(run),
                Err(_) => Err(Memory),
            },
        }
    }

    /// Keeps a finished run for reuse; drops it if there is no memory for that.
    pub fn keep_run(&mut self, run: Box<JobRun>)
        ensures { self.new ≡ self.old }
    {
        let _ = self.idle.push(run);
    }

    /// Makes a flight of a seat and a run that are ready; the gate knows it by this number. The
    /// caller puts it into the window.
    pub fn launch(
        &mut self,
        book: &TicketBook,
        seat: JobSeat,
        run: Box<JobRun>,
        job: u64,
    ) -> Flight<B>
        requires book { book.now ≡ B.book }
        requires flown { self.old.flown + 1 < 2 ^ 64 }
        requires faithful { Faithful B.exchange B.code }
        requires ready { IsReady B.exchange B.code B.store seat run.value }
        ensures flight { result ≡ seat.1.lent }
        ensures window { self.new ≡ record self.old { flown = self.old.flown + 1 } }
    {
        launch::<B>(book, &mut self.pen, seat, run, job)
    }

    /// Adds a job in flight, with this start, as the youngest.
    pub fn push(&mut self, flight: Flight<B>, start: Box<JobStart>)
        requires room { length self.old.loans < self.old.room }
        requires start { start.value ≡ flight.start }
        ensures { self.new ≡ record self.old { loans = self.old.loans ++ flight ∷ [] } }
    {
        self.flying.push_back_reserved(InFlight { flight, start });
    }

    /// Removes the oldest job, if there is one.
    pub fn pop(&mut self) -> Option<Oldest<B>>
        ensures { MatchOption result
            ((self.old.loans ≡ []) × (self.new ≡ self.old))
            (λ oldest. (self.old ≡ record self.new { loans = oldest.flight ∷ self.new.loans })
            × (oldest.start.value ≡ oldest.flight.start)) }
    {
        let oldest = self.flying.pop_front()?;
        Some(oldest.into_oldest())
    }

    /// Closes the window, which must be empty.
    pub fn close(self)
        requires { self.loans ≡ [] }
    {
        let Window {
            flying,
            idle: _,
            pen: _,
        } = self;
        flying.destroy_empty();
    }
}

/// The length of the shortest prefix of `older` after whose retirement `later` passes the conflict
/// tests with all that remain; 0 if it passes with all now.
#[tactic(auto, using(crate::proofs::Passing::passes_begin, crate::proofs::Passing::passes_more, crate::proofs::Passing::passes_end, crate::proofs::Passing::summary_there))]
fn blockers_among<B: Naming>(
    pairs: &mut PairTable<'_>,
    older: &VecDeque<InFlight<B>>,
    later: &JobStart,
) -> usize
    requires older { AllByRecursion (HasSummary pairs.old) (starts_of older.now.items) }
    requires later { HasSummary pairs.old later.now }
    ensures passes { result ≡ 0 → FollowsAll pairs.old (starts_of older.now.items) later.now }
    ensures kept { pairs.new ≡ pairs.old }
{
    for behind in 0..older.len() {
        let place = older.len() - 1 - behind;
        if !passes_with(pairs, &older[place], later) {
            return place + 1;
        }
    }
    0
}

/// Whether a job passes the conflict tests with an older one.
fn passes_with<B: Naming>(pairs: &mut PairTable<'_>, older: &InFlight<B>, later: &JobStart) -> bool
    requires older { HasSummary pairs.old older.now.start }
    requires later { HasSummary pairs.old later.now }
    ensures passes { IsTrue result → MayFollow pairs.old older.now.start later.now }
    ensures kept { pairs.new ≡ pairs.old }
{
    pairs.may_follow(older.start(), later)
}
