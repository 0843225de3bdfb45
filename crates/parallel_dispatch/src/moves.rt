// The dispatcher's moves: the next job runs alone, or it is issued, or the oldest one in flight
// retires.
ghost use Rattle.std.specs.Prelude.{◌≡◌, ◌+◌, ◌<◌, [], length, Some, None, IsTrue, OnOk, OnErr};
ghost use Rattle.std.specs.Prelude.{IfOk, IfErr};
ghost use Rattle.std.specs.List.{AllByRecursion};
ghost use Rattle.job_types.specs.declared.job.JobStart.{JobStart as StartType};
ghost use Rattle.order_laws.specs.Keeps.{NoLineBefore};
ghost use Rattle.run_books.specs.Accounts.{upcoming};
ghost use Rattle.source_meaning.specs.SingleRun.{ending_at};
ghost use Rattle.worker_pool.specs.Ways.{AreMeans};
ghost use Rattle.parallel_dispatch.specs.Flying.{starts_of};
ghost use Rattle.parallel_dispatch.specs.Events.{whole_turn};
ghost use Rattle.parallel_dispatch.specs.Turning.{turn_of};
ghost use Rattle.parallel_dispatch.specs.Moves.{CountsOne, HasIssued, HasSummary, HasTurned};
ghost use Rattle.parallel_dispatch.specs.Moves.{IsBare, IsLeft, MayIssue, MayMove, MayRunAlone};
ghost use Rattle.parallel_dispatch.specs.Moves.{StandBeside, Suits};

use crate::course::Course;
use crate::thread_setup::ThreadSetup;
use crate::window::{Oldest, Window};
use interference_check::PairTable;
use job_pace::{Pace, Way};
use job_run::JobRun;
use job_types::JobStart;
use lone_job::{number_of_next, retire_on_root, turn_alone};
use plex_io::Gate;
use plex_num::Memory;
use run_books::Books;
use run_engines::length_of;
use shared_store::RootSeat;
use std::alloc::Global;
use std::marker::Brand;
use std::sync::Wait;
use worker_pool::{Flight, Naming, WorkQueue};

/// What the dispatcher does next.
#[derive(Clone, Copy)]
pub(crate) enum Move {
    /// The next job runs to its end on the root's own words, and retires.
    RunAlone,
    /// The next job, of this entry, borrows its words and is in flight.
    Issue { entry: u32 },
    /// The oldest job in flight retires.
    Retire,
}

/// The result of a retirement: the root of the store, and the number of instructions of the job's
/// run, modulo 2^64.
#[derive(Drop)]
pub(crate) struct Retired {
    pub root: RootSeat,
    pub steps: u64,
}

/// Chooses the next move. If no job is in flight, the next one runs alone, or is issued if a loan
/// pays off. Beside others it is issued if it may be, once the ended jobs before it have retired;
/// else the oldest retires.
#[tactic(auto, using(crate::proofs::Choosing::may_run_alone, crate::proofs::Choosing::some_fly, crate::proofs::Choosing::some_wait, crate::proofs::Choosing::none_comes))]
pub(crate) fn next_move<B: Naming>(
    books: &Books,
    window: &Window<B>,
    pairs: &mut PairTable<'_>,
    queue: &WorkQueue<B>,
    pace: &mut Pace,
) -> Move
    requires room { 0 < window.now.room }
    requires line { window.now.loans ≡ []
        → NoLineBefore (books.now.state.ended + 1) books.now.state.lines }
    requires next { (start : StartType)
        → Some start ≡ upcoming books.now → HasSummary pairs.old start }
    requires window { AllByRecursion (HasSummary pairs.old) (starts_of window.now.loans) }
    ensures may { MayMove pairs.old books.now window.now result }
    ensures kept { pairs.new ≡ pairs.old }
{
    if waits_for_oldest(window, queue, pace) {
        return Move::Retire;
    }
    let flying = window.len();
    if flying == 0 && !pace.may_any_fly() {
        return Move::RunAlone;
    }
    let next = books.peek();
    let start = match &next {
        Some(start) => start,
        None => return Move::Retire,
    };
    let entry = start.job.entry;
    if flying == 0 {
        if pace.may_fly_first(pairs, entry) {
            return Move::Issue { entry };
        }
        return Move::RunAlone;
    }
    if flying >= window.room() || !retire_before_line(books, flying) {
        return Move::Retire;
    }
    let tests = window.asking(pairs, entry);
    if !pace.may_ask(entry, tests, flying) {
        pace.waits_for(1);
        return Move::Retire;
    }
    let behind = window.blockers(pairs, start);
    pace.waits_for(behind);
    if behind == 0 {
        return Move::Issue { entry };
    }
    Move::Retire
}

/// Whether to retire the oldest before looking at the next job: the oldest has ended and no thread
/// is short of work; or the next job is known to wait for it; or the window is full; or enough
/// others are queued and the oldest is in hand.
fn waits_for_oldest<B: Naming>(window: &Window<B>, queue: &WorkQueue<B>, pace: &Pace) -> bool
    ensures { IsTrue result → 0 < length window.now.loans }
{
    window.len() > 0
        && (pace.must_wait()
            || window.len() >= window.room()
            || (window.oldest_has_ended(queue) && pace.are_fed(queue.waiting(), window.len()))
            || (pace.are_enough(queue.waiting()) && window.oldest_is_in_hand()))
}

/// Whether the jobs in flight and one more retire before the next line is due.
#[tactic(auto, using(crate::proofs::Choosing::line_before, crate::proofs::Choosing::no_line))]
fn retire_before_line(books: &Books, flying: usize) -> bool
    ensures { IsTrue result
        → NoLineBefore (books.now.state.ended + flying + 1) books.now.state.lines }
{
    match books.lines_wait() {
        Some(count) => is_sum_below(books.ended(), flying as u64, u64::from(count)),
        None => true,
    }
}

/// Whether `a + b < most`, without overflow.
fn is_sum_below(a: u64, b: u64, most: u64) -> bool
    ensures { IsTrue result → a + b < most }
{
    a <= most && b < most - a
}

/// Issues the next job, which must be allowed, in this way.
#[tactic(auto, using(crate::proofs::Choosing::some_next))]
pub(crate) fn issue<B: Course, R: Wait, G: Gate>(
    setup: &ThreadSetup<'_, B, R, G>,
    way: Way,
    books: &mut Books,
    root: &mut RootSeat,
    window: &mut Window<B>,
) -> Result<(), Memory>
    requires suits { Suits B.exchange B.code B.store B.book B.kept B.workers
        setup.now.context setup.now.means setup.now.book.now }
    requires next { MayIssue B.kept books.old window.old }
    requires beside { StandBeside B.exchange B.kept B.store
        books.old root.old window.old }
    ensures issued { OnOk result (HasIssued B.exchange B.kept B.code
        books.old root.old.1 window.old books.new root.new.1 window.new) }
    ensures counted { OnOk result (CountsOne books.old books.new window.new) }
    ensures left { OnErr result (IsLeft B.store root.new window.new.loans) }
    ensures root { root.new.0 ≡ B.store }
    ensures room { window.new.room ≡ window.old.room }
{
    let job = number_of_next(books);
    let Some(next) = books.next_job() else {
        unreachable!()
    };
    let made = with_run(setup.alloc, window, next)?;
    let (place, mut run) = made;
    let start: &JobStart = &place;
    run.begin(setup.means.code, start);
    let seat = setup.means.store.lend_as::<Brand>(root, start);
    let flight = window.launch(setup.book, seat, run, job);
    let flight = set_out(setup, way, flight);
    window.push(flight, place);
    Ok(())
}

/// A start in a box, so that it does not move as the job passes between threads, and a run for its
/// job. The only error is out of memory.
fn with_run<B: Naming>(
    alloc: Global,
    window: &mut Window<B>,
    start: JobStart,
) -> Result<(Box<JobStart>, Box<JobRun>), Memory>
    ensures place { IfOk result (λ made. made.0.value ≡ start) }
    ensures window { window.new ≡ window.old }
{
    let Ok(place) = Box::new(alloc, start) else {
        return Err(Memory);
    };
    let run = window.idle_run(alloc)?;
    Ok((place, run))
}

/// Sends a job that is in hand this way.
fn set_out<B: Naming, R: Wait, G: Gate>(
    setup: &ThreadSetup<'_, B, R, G>,
    way: Way,
    flight: Flight<B>,
) -> Flight<B>
    requires means { AreMeans B.exchange B.code B.store setup.now.means }
    ensures { result ≡ flight }
{
    match way {
        Way::InHand => flight,
        Way::Brought => flight.bring(setup.rt, setup.queue),
        Way::Here => flight.run_here(&setup.means, setup.gate),
    }
}

/// Runs the next job to its end on the root's own words, with no job in flight. It retires at once,
/// and the lines that are due arrive.
#[tactic(auto, using(crate::proofs::Leaving::left_nothing))]
pub(crate) fn run_alone<B: Course, R, G: Gate>(
    setup: &ThreadSetup<'_, B, R, G>,
    pace: &mut Pace,
    books: &mut Books,
    root: RootSeat,
    window: &mut Window<B>,
) -> Result<Retired, RootSeat>
    requires suits { Suits B.exchange B.code B.store B.book B.kept B.workers
        setup.now.context setup.now.means setup.now.book.now }
    requires next { MayRunAlone books.old window.old }
    requires goes_on { ending_at books.old.limit books.old.state ≡ None }
    requires beside { StandBeside B.exchange B.kept B.store
        books.old root window.old }
    ensures turned { IfOk result (λ left.
        HasTurned B.exchange B.kept B.code B.store whole_turn
        books.old root.1 window.old books.new left window.new) }
    ensures left { IfErr result (λ back. IsLeft B.store back window.new.loans) }
{
    let Ok(run) = window.idle_run(setup.alloc) else {
        return Err(root);
    };
    let mut run = run;
    let store = setup.means.store;
    let turn = turn_alone(&setup.context, store, setup.gate, books, root, &mut run);
    window.keep_run(run);
    match turn {
        Ok(alone) => {
            pace.has_ended(alone.entry, alone.length);
            pace.has_made(alone.steps, true);
            Ok(Retired {
                root: alone.root,
                steps: alone.steps,
            })
        }
        Err(root) => Err(root),
    }
}

/// Retires the oldest job, once it has ended. If no job is left, the lines that are due arrive.
/// There must be a job in flight.
pub(crate) fn retire<B: Course, R: Wait, G: Gate>(
    setup: &ThreadSetup<'_, B, R, G>,
    pace: &mut Pace,
    books: &mut Books,
    root: RootSeat,
    window: &mut Window<B>,
) -> Result<Retired, RootSeat>
    requires suits { Suits B.exchange B.code B.store B.book B.kept B.workers
        setup.now.context setup.now.means setup.now.book.now }
    requires some { 0 < length window.old.loans }
    requires beside { StandBeside B.exchange B.kept B.store
        books.old root window.old }
    ensures turned { IfOk result (λ left.
        HasTurned B.exchange B.kept B.code B.store turn_of
        books.old root.1 window.old books.new left window.new) }
    ensures left { IfErr result (λ back. IsLeft B.store back window.new.loans) }
{
    let Some(oldest) = window.pop() else {
        unreachable!()
    };
    let Oldest {
        flight,
        start: place,
    } = oldest;
    let start: &JobStart = &place;
    let entry = start.job.entry;
    let alone = (window.len() == 0) & flight.is_in_hand();
    pace.sets_down(entry, alone);
    let (seat, run) = flight.finish(setup.rt, setup.queue, &setup.means, setup.book, setup.gate);
    let ended: &JobRun = &run;
    let steps = ended.steps();
    pace.has_ended(entry, length_of(ended));
    pace.has_made(steps, alone);
    pace.has_retired();
    let mut root = root;
    let store = setup.means.store;
    store.take_back(&mut root, seat);
    let done = ended.done();
    let retired = retire_on_root(&setup.context, store, books, root, start, done);
    window.keep_run(run);
    match retired {
        Ok(root) => Ok(Retired { root, steps }),
        Err(root) => Err(root),
    }
}

/// What is left when out of memory: the root of the store, and the jobs in flight.
pub(crate) struct Left<B: Naming> {
    pub root: RootSeat,
    pub window: Window<B>,
}

/// Waits until all jobs in flight have ended and takes back their words. Returns the root, without
/// loans.
pub(crate) fn drain<B: Course, R: Wait, G: Gate>(
    setup: &ThreadSetup<'_, B, R, G>,
    left: Left<B>,
) -> RootSeat
    requires suits { Suits B.exchange B.code B.store B.book B.kept B.workers
        setup.now.context setup.now.means setup.now.book.now }
    requires left { IsLeft B.store left.root left.window.loans }
    ensures { IsBare B.store result }
{
    let Left { root, window } = left;
    let mut root = root;
    let mut window = window;
    'jobs: loop {
        let Some(oldest) = window.pop() else {
            window.close();
            return root;
        };
        let Oldest { flight, start: _ } = oldest;
        let (seat, _run) = flight.finish(
            setup.rt,
            setup.queue,
            &setup.means,
            setup.book,
            setup.gate,
        );
        setup.means.store.take_back(&mut root, seat);
    }
}
