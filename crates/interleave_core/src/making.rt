// Events are made.
ghost use Rattle.std.specs.Prelude.{◌≡◌, ◌+◌, ◌<◌, ◌^◌, ◌∷◌, ◌++◌, [], ℕ, List, length, slice_get};
ghost use Rattle.std.specs.Prelude.{Some, IfOk, OnOk};
ghost use Rattle.job_types.specs.declared.job.JobStart.{JobStart as StartType};
ghost use Rattle.run_books.specs.Accounts.{upcoming};
ghost use Rattle.store_layout.specs.Laid.{IsLayout};
ghost use Rattle.checked.specs.Kept.{KeptSummaries};
ghost use Rattle.interleave_core.specs.declared.window.WindowJob.{WindowJob as JobType};
ghost use Rattle.interleave_core.specs.Allowed.{IsAllowed, after_event};
ghost use Rattle.interleave_core.specs.Cores.{issues, lets_go, running_core, settles, steps};
ghost use Rattle.interleave_core.specs.Making.{Becomes, CanBegin, CanGo, CanGoOn, CanMake};
ghost use Rattle.interleave_core.specs.Making.{Happened, HasLeft, HasStepped, Steppable};
ghost use Rattle.interleave_core.specs.Runs.{setting};
ghost use Rattle.interleave_core.specs.Safe.{IsSafe};

use crate::enabled::enabled;
use crate::event::CoreEvent;
use crate::window::{RunningCore, WindowJob};
use checked::Checked;
use exchange_model::Exchange;
use job_run::JobRun;
use machine_code::Code;
use machine_step::step;
use plex_num::{Memory, Seq};
use run_books::{Books, let_arrive};
use store_layout::Layout;

/// Makes an event where it is allowed, and tells whether it was.
pub(crate) fn happen(
    core: &mut RunningCore,
    exchange: &Exchange,
    layout: &Layout,
    code: &Code,
    checked: &Checked,
    workers: u32,
    event: CoreEvent,
) -> Result<bool, Memory>
    requires running { core.old.books.running ≡ length core.old.window.items }
    requires few { core.old.retired < 2 ^ 63 }
    requires layout { IsLayout exchange.now.blocks layout.now }
    requires safe { IsSafe exchange.now code.now checked.now (running_core core.old) }
    ensures { IfOk result (λ made. Happened (setting exchange.now code.now checked.now workers)
        (running_core core.old) event made core.new) }
{
    if !enabled(core, checked, workers, event) {
        return Ok(false);
    }
    core.make(exchange, layout, code, event)?;
    Ok(true)
}

impl RunningCore {
    /// Makes an event that is allowed.
    fn make(
        &mut self,
        exchange: &Exchange,
        layout: &Layout,
        code: &Code,
        event: CoreEvent,
    ) -> Result<(), Memory>
        requires running { self.old.books.running ≡ length self.old.window.items }
        requires few { self.old.retired < 2 ^ 63 }
        requires layout { IsLayout exchange.now.blocks layout.now }
        requires may { CanMake exchange.now code.now self.old event }
        ensures { OnOk result ((kept : KeptSummaries) (workers : ℕ)
            (can : IsAllowed kept workers (running_core self.old) event)
            → Becomes (after_event exchange.now code.now kept workers (running_core self.old)
            event can) self.new) }
    {
        match event {
            CoreEvent::Issue => self.issue(code),
            CoreEvent::Step { job } => {
                self.step(code, job);
                Ok(())
            }
            CoreEvent::Retire => self.retire(exchange, layout),
        }
    }

    /// The next job is issued, if there is one.
    fn issue(&mut self, code: &Code) -> Result<(), Memory>
        requires running { self.old.books.running ≡ length self.old.window.items }
        requires may { CanBegin code.now self.old }
        ensures { OnOk result ((start : StartType) → upcoming self.old.books ≡ Some start
            → Becomes (issues code.now start (running_core self.old)) self.new) }
    {
        let Some(start) = self.books.next_job() else {
            return Ok(());
        };
        let run = JobRun::new(code, &start);
        push(&mut self.window, WindowJob { start, run })?;
        Ok(())
    }

    /// A job of the window makes one instruction, if it is there.
    fn step(&mut self, code: &Code, job: u64)
        requires running { self.old.books.running ≡ length self.old.window.items }
        requires may { CanGoOn code.now self.old job }
        ensures { (place : ℕ) (own : JobType) → self.old.retired + place + 1 ≡ job
            → slice_get self.old.window.items place ≡ Some own
            → Becomes (steps code.now place own (running_core self.old)) self.new }
    {
        match self.place_of(job) {
            Some(place) => step_at(&mut self.window, place, code, &mut self.words),
            None => {}
        }
    }

    /// The oldest job of the window retires, if there is one, and what is due arrives where no job
    /// runs any more.
    fn retire(&mut self, exchange: &Exchange, layout: &Layout) -> Result<(), Memory>
        requires running { self.old.books.running ≡ length self.old.window.items }
        requires few { self.old.retired < 2 ^ 63 }
        requires layout { IsLayout exchange.now.blocks layout.now }
        requires may { CanGo exchange.now self.old }
        ensures { OnOk result ((oldest : JobType) (younger : List JobType)
            → self.old.window.items ≡ oldest ∷ younger
            → Becomes (lets_go exchange.now oldest younger (running_core self.old)) self.new) }
    {
        if self.window.len() == 0 {
            return Ok(());
        }
        self.retire_oldest(exchange, layout)?;
        arrive_after(&mut self.books, exchange, &self.window)?;
        Ok(())
    }

    /// The oldest job of the window retires. There must be one.
    fn retire_oldest(&mut self, exchange: &Exchange, layout: &Layout) -> Result<(), Memory>
        requires running { self.old.books.running ≡ length self.old.window.items }
        requires few { self.old.retired < 2 ^ 63 }
        requires some { 0 < length self.old.window.items }
        requires layout { IsLayout exchange.now.blocks layout.now }
        requires may { CanGo exchange.now self.old }
        ensures { OnOk result ((oldest : JobType) (younger : List JobType)
            → self.old.window.items ≡ oldest ∷ younger
            → HasLeft exchange.now oldest younger self.old self.new) }
    {
        let oldest = &self.window[0];
        let done = oldest.run.done();
        self.books
            .retire(exchange, layout, &oldest.start, done, &mut self.words)?;
        let _ = self.window.remove(0);
        self.retired += 1;
        Ok(())
    }
}

/// A job stands last in the window.
fn push(window: &mut Vec<WindowJob>, job: WindowJob) -> Result<(), Memory>
    ensures { OnOk result (window.new.items ≡ window.old.items ++ job ∷ []) }
{
    match window.push(job) {
        Ok(()) => Ok(()),
        Err(_) => Err(Memory),
    }
}

/// The job at a place of the window makes one instruction on the words.
fn step_at(window: &mut [WindowJob], place: usize, code: &Code, words: &mut Seq<u32>)
    requires within { place < length window.old }
    requires may { (own : JobType) → slice_get window.old place ≡ Some own
        → Steppable code.now.ops words.old own }
    ensures { (own : JobType) → slice_get window.old place ≡ Some own
        → HasStepped code.now.ops place own window.old window.new words.old words.new }
{
    let job = &mut window[place];
    step(&mut job.run, code, words);
}

/// What is due arrives, where no job is left in the window.
fn arrive_after(books: &mut Books, exchange: &Exchange, window: &[WindowJob]) -> Result<(), Memory>
    requires { books.old.running ≡ length window.now }
    ensures { OnOk result (books.new
        ≡ record books.old { state = settles exchange.now window.now books.old.state }) }
{
    if window.is_empty() {
        let_arrive(exchange, books)?;
    }
    Ok(())
}
