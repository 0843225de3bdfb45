// What the core has at one time.
ghost use Rattle.std.specs.Prelude.{◌≡◌, ℕ, ◌+◌, ◌<◌, [], length, MatchOption};
ghost use Rattle.interleave_core.specs.Cores.{core_of, opened_core, running_core};

use job_run::JobRun;
use job_types::JobStart;
use plex_num::Seq;
use run_books::Books;
use std::alloc::Global;

/// A job that was issued and has not retired: what it started with, and how far it has come.
#[derive(Drop)]
pub struct WindowJob {
    pub start: JobStart,
    pub run: JobRun,
}

/// What stands after some events: the books, the stored words, and the jobs of the window, in the
/// order in which they were issued.
pub struct CoreState {
    pub books: Books,
    pub words: Seq<u32>,
    pub window: Seq<WindowJob>,
}

impl Drop for CoreState {
    fn drop(self) {
        let CoreState {
            books: _,
            words: _,
            window: _,
        } = self;
    }
}

/// The same while events happen, and how many jobs have retired since they began.
#[derive(Drop)]
pub(crate) struct RunningCore {
    pub books: Books,
    pub words: Seq<u32>,
    pub window: Vec<WindowJob>,
    pub retired: u64,
}

impl RunningCore {
    /// Before the first event: the window is empty.
    pub fn new(alloc: Global, books: Books, words: Seq<u32>) -> RunningCore
        ensures core { running_core result ≡ opened_core books words }
        ensures books { result.books ≡ books }
        ensures window { result.window.items ≡ [] }
    {
        RunningCore {
            books,
            words,
            window: Vec::new(alloc),
            retired: 0,
        }
    }

    /// The place in the window of the job of this number; `None` exactly where it is not there.
    pub fn place_of(&self, job: u64) -> Option<usize>
        ensures { MatchOption result
            ((place : ℕ) → place < length self.now.window.items
            → self.now.retired + place + 1 ≡ job → ⊥)
            (λ place. (place < length self.now.window.items)
            × (self.now.retired + place + 1 ≡ job)) }
    {
        if job <= self.retired {
            return None;
        }
        let place = job - self.retired - 1;
        if place < self.window.len() as u64 {
            Some(place as usize)
        } else {
            None
        }
    }

    /// What stands at the end.
    pub fn into_state(self) -> CoreState
        ensures core { core_of result.books result.words result.window self.retired
            ≡ running_core self }
        ensures books { result.books ≡ self.books }
        ensures window { result.window ≡ self.window.items }
    {
        CoreState {
            books: self.books,
            words: self.words,
            window: Seq::from_vec(self.window),
        }
    }
}
