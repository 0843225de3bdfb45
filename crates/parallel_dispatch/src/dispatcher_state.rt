// The dispatcher's state: the books, the root of the store and the jobs in flight, which show a
// state of the core of events (docs/THREADS.md, The steps).
ghost use Rattle.std.specs.Prelude.{◌≡◌, ◌<◌, [], length, Some, IsTrue, IfOk, IfErr};
ghost use Rattle.shared_store.specs.Loans.{unlent};
ghost use Rattle.run_books.specs.Events.{ending_of};
ghost use Rattle.source_meaning.specs.SingleRun.{ending_at};
ghost use Rattle.source_meaning.specs.Valid.{IsValid};
ghost use Rattle.parallel_dispatch.specs.DispatcherStates.{GoesOn, TellsEnd};
ghost use Rattle.parallel_dispatch.specs.Ends.{IsEndWhereOver, IsRunEnd, IsRunRest};
ghost use Rattle.parallel_dispatch.specs.Moves.{IsBare, IsLeft, MayBegin, Suits, to_do};

use crate::course::Course;
use crate::dispatcher::{Ended, Rested, StoredRun};
use crate::driving::{hire_meanwhile, relieve, way_for};
use crate::moves::{Left, Move, issue, next_move, retire, run_alone};
use crate::thread_setup::ThreadSetup;
use crate::window::Window;
use exchange_run::Standing;
use interference_check::PairTable;
use job_pace::Pace;
use plex_io::Gate;
use plex_num::{Memory, Seq};
use run_books::{Books, Ending, let_arrive};
use shared_store::{RootSeat, SharedStore};
use std::alloc::Global;
use std::marker::Model;
use std::sync::Wait;
use std::thread::{Scope, Threads};
use ticket_book::Pen;

/// The books, the root of the store, and the jobs in flight. They show a state of the core of
/// events, with each job in flight at its start, that events reach from the state in which the run
/// began. It cannot be dropped, since a job in flight must be finished.
pub(crate) struct DispatcherState<B: Course> {
    books: Box<Books>,
    root: RootSeat,
    window: Window<B>,
    steps: u64,
}

impl<B: Course> Model for DispatcherState<B> {
    ghost use Rattle.parallel_dispatch.specs.DispatcherStates.{DispatcherView, IsDispatcherState};
    ghost use Rattle.std.specs.Coded.{codes};
    ghost use Rattle.forlopp_chain.specs.Codes.{chains_code, dead_code};

    ghost Value = { DispatcherView };

    ghost coded = { Prim.hlevel (codes, chains_code, dead_code) };

    ghost view = { λ d. record {
      books = d.books.value;
      root = d.root;
      window = d.window;
      steps = d.steps;
    } };

    ghost invariant = { λ d. IsDispatcherState B.exchange B.kept B.code B.store B.workers B.first
        B.limit d.books.value d.root d.window d.steps };
}

impl<B: Course + Send + Sync> DispatcherState<B> {
    /// The state before the first job; arrivals that are due take place. Out of memory is an error
    /// that returns the root.
    pub fn open<R, G>(
        setup: &ThreadSetup<'_, B, R, G>,
        pen: Pen,
        run: StoredRun,
    ) -> Result<DispatcherState<B>, RootSeat>
        requires suits { Suits B.exchange B.code B.store B.book B.kept B.workers
            setup.now.context setup.now.means setup.now.book.now }
        requires begin { MayBegin B.exchange B.store B.book B.first B.limit pen run }
        ensures bare { IfErr result (λ root. IsBare B.store root) }
    {
        let StoredRun {
            mut books,
            root,
            may_rest: _,
        } = run;
        let Ok(()) = let_arrive(setup.context.exchange, &mut books) else {
            return Err(root);
        };
        let Ok(books) = Box::new(setup.alloc, books) else {
            return Err(root);
        };
        let Ok(window) = Window::<B>::new(setup.alloc, pen, setup.context.workers) else {
            return Err(root);
        };
        Ok(DispatcherState {
            books,
            root,
            window,
            steps: 0,
        })
    }

    /// How the run ends, if no job is in flight and it is over.
    pub fn ending(&self) -> Option<Ending>
        ensures { TellsEnd self.now.books self.now.window result }
    {
        if self.window.len() == 0 {
            return self.books.finished();
        }
        None
    }

    /// Whether no job is in flight.
    pub fn is_idle(&self) -> bool
        ensures { IsTrue result → self.now.window.loans ≡ [] }
    {
        self.window.len() == 0
    }

    /// Makes the next move of a run that is not over, after starting the workers wanted for it: the
    /// next job runs alone and retires, or it is issued, or the oldest one in flight retires. Out
    /// of memory is an error that returns root and window.
    pub fn make_move<'s, 'e: 's, R: Threads + Wait + Sync, G: Gate + Sync>(
        self,
        scope: &'s Scope<'s, &'e ()>,
        setup: &ThreadSetup<'e, B, R, G>,
        pairs: &mut PairTable<'_>,
        pace: &mut Pace,
    ) -> Result<DispatcherState<B>, Left<B>>
        requires suits { Suits B.exchange B.code B.store B.book B.kept B.workers
            setup.now.context setup.now.means setup.now.book.now }
        requires pairs { pairs.old ≡ B.kept }
        requires goes_on { GoesOn self.books self.window }
        ensures kept { pairs.new ≡ B.kept }
        ensures fewer { IfOk result (λ dispatcher. to_do dispatcher.books < to_do self.books) }
        ensures left { IfErr result (λ left. IsLeft B.store left.root left.window.loans) }
    {
        let DispatcherState {
            mut books,
            mut root,
            mut window,
            steps,
        } = self;
        relieve(setup, pace, &window);
        let held: &mut Books = &mut books;
        match next_move(held, &window, pairs, setup.queue, pace) {
            Move::RunAlone => {
                match run_alone(setup, pace, held, root, &mut window) {
                    Ok(alone) => Ok(DispatcherState {
                        books,
                        root: alone.root,
                        window,
                        steps: steps.wrapping_add(alone.steps),
                    }),
                    Err(root) => Err(Left { root, window }),
                }
            }
            Move::Issue { entry } => {
                let way = way_for(scope, setup, entry, pairs, pace, &window);
                match issue(setup, way, held, &mut root, &mut window) {
                    Ok(()) => Ok(DispatcherState {
                        books,
                        root,
                        window,
                        steps,
                    }),
                    Err(_) => Err(Left { root, window }),
                }
            }
            Move::Retire => {
                hire_meanwhile(scope, setup, pace, &window);
                match retire(setup, pace, held, root, &mut window) {
                    Ok(oldest) => Ok(DispatcherState {
                        books,
                        root: oldest.root,
                        window,
                        steps: steps.wrapping_add(oldest.steps),
                    }),
                    Err(root) => Err(Left { root, window }),
                }
            }
        }
    }

    /// The end of a run that is over, with no job in flight. Out of memory is an error that returns
    /// the root.
    pub fn finish<R, G>(
        self,
        setup: &ThreadSetup<'_, B, R, G>,
        ending: Ending,
    ) -> Result<Ended, RootSeat>
        requires suits { Suits B.exchange B.code B.store B.book B.kept B.workers
            setup.now.context setup.now.means setup.now.book.now }
        requires valid { IsValid B.exchange B.first }
        requires none { self.window.loans ≡ [] }
        requires over { Some (ending_of ending) ≡ ending_at self.books.limit self.books.state }
        ensures end { IfOk result
            (λ end. IsRunEnd B.exchange B.code B.kept B.workers B.first B.limit end) }
        ensures bare { IfErr result (λ root. IsBare B.store root) }
    {
        match self.rest(setup) {
            Ok(Rested { there, steps }) => {
                let Standing { books, words } = there;
                Ok(Ended {
                    books,
                    words,
                    ending,
                    steps,
                })
            }
            Err(root) => Err(root),
        }
    }

    /// Hands back a run with no job in flight. Out of memory is an error that returns the root.
    pub fn rest<R, G>(self, setup: &ThreadSetup<'_, B, R, G>) -> Result<Rested, RootSeat>
        requires suits { Suits B.exchange B.code B.store B.book B.kept B.workers
            setup.now.context setup.now.means setup.now.book.now }
        requires valid { IsValid B.exchange B.first }
        requires none { self.window.loans ≡ [] }
        ensures rest { IfOk result
            (λ run. IsRunRest B.exchange B.code B.kept B.workers B.first B.limit run) }
        ensures ends { IfOk result
            (λ run. IsEndWhereOver B.exchange B.code B.first B.limit self.books run) }
        ensures bare { IfErr result (λ root. IsBare B.store root) }
    {
        let DispatcherState {
            books,
            mut root,
            window,
            steps,
        } = self;
        window.close();
        let cells = setup.context.layout.words();
        match words_of(setup.alloc, setup.means.store, &mut root, cells) {
            Ok(words) => {
                let books = Box::into_inner(books);
                Ok(Rested {
                    there: Standing { books, words },
                    steps,
                })
            }
            Err(_) => Err(root),
        }
    }
}

/// The words of the store, read through its root, which has no loans.
fn words_of(
    alloc: Global,
    store: &SharedStore,
    root: &mut RootSeat,
    cells: u32,
) -> Result<Seq<u32>, Memory>
    requires store { root.old.0 ≡ store.now }
    requires bare { root.old.1 ≡ unlent root.old.1.values }
    requires cells { length root.old.1.values ≡ cells }
    ensures words { IfOk result (λ words. words ≡ root.old.1.values) }
    ensures root { root.new ≡ root.old }
{
    let mut words = Seq::new(alloc);
    for word in 0..cells {
        words.push(store.root_load(root, word))?;
    }
    Ok(words)
}
