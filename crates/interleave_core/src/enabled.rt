// Which events are allowed.
ghost use Rattle.std.specs.Prelude.{◌≡◌, ◌↔◌, ◌+◌, ◌<◌, IsTrue, Some, length};
ghost use Rattle.std.specs.List.{AllByRecursion};
ghost use Rattle.job_types.specs.declared.job.JobStart.{JobStart as StartType};
ghost use Rattle.source_meaning.specs.SingleRun.{next_start};
ghost use Rattle.interleave_core.specs.declared.window.WindowJob.{WindowJob as JobType};
ghost use Rattle.interleave_core.specs.Allowed.{CanIssue, CanRetire, CanStep, IsAllowed, IsBefore};
ghost use Rattle.interleave_core.specs.Allowed.{MayFollow};
ghost use Rattle.interleave_core.specs.Cores.{running_core};
ghost use Rattle.interleave_core.specs.Safe.{HasSummary};

use crate::event::CoreEvent;
use crate::window::{RunningCore, WindowJob};
use checked::Checked;
use interference_check::may_follow;
use job_types::JobStart;

/// Whether an event is allowed. The next job, and each one of the window, must be of an entry that
/// has a summary.
pub(crate) fn enabled(core: &RunningCore, checked: &Checked, workers: u32, event: CoreEvent) -> bool
    requires running { core.now.books.running ≡ length core.now.window.items }
    requires pick { (start : StartType)
        → next_start core.now.books.state ≡ Some start → HasSummary checked.now start }
    requires window { AllByRecursion (λ (job : JobType). HasSummary checked.now job.start)
        core.now.window.items }
    ensures { IsTrue result ↔ IsAllowed checked.now workers (running_core core.now) event }
{
    match event {
        CoreEvent::Issue => may_issue(core, checked, workers),
        CoreEvent::Step { job } => may_step(core, job),
        CoreEvent::Retire => may_retire(core),
    }
}

/// Whether the next job may be issued.
#[tactic(auto, using(crate::proofs::Enabling::no_worker, crate::proofs::Enabling::no_job, crate::proofs::Enabling::line_first))]
fn may_issue(core: &RunningCore, checked: &Checked, workers: u32) -> bool
    requires running { core.now.books.running ≡ length core.now.window.items }
    requires pick { (start : StartType)
        → next_start core.now.books.state ≡ Some start → HasSummary checked.now start }
    requires window { AllByRecursion (λ (job : JobType). HasSummary checked.now job.start)
        core.now.window.items }
    ensures { IsTrue result ↔ CanIssue checked.now workers (running_core core.now) }
{
    let running = core.window.len();
    if workers as usize <= running {
        return false;
    }
    let Some(start) = core.books.peek() else {
        return false;
    };
    if !is_before(core.books.lines_wait(), core.books.ended(), running) {
        return false;
    }
    may_follow_all(checked, &core.window, &start)
}

/// Whether so many jobs that have ended or run are fewer than a line waits for, if there is one.
fn is_before(line: Option<u32>, ended: u64, running: usize) -> bool
    ensures { IsTrue result ↔ IsBefore line (ended + running) }
{
    match line {
        Some(count) => is_sum_below(ended, running as u64, u64::from(count)),
        None => true,
    }
}

/// Whether two numbers together are below a third.
fn is_sum_below(a: u64, b: u64, most: u64) -> bool
    ensures { IsTrue result ↔ (a + b < most) }
{
    a <= most && b < most - a
}

/// Whether a job passes all tests with each job of a window, which come before it.
#[tactic(auto, using(crate::proofs::Enabling::follows_more, crate::proofs::Enabling::follows_not, crate::proofs::Enabling::follows_end))]
fn may_follow_all(checked: &Checked, window: &[WindowJob], later: &JobStart) -> bool
    requires later { HasSummary checked.now later.now }
    requires window { AllByRecursion (λ (job : JobType). HasSummary checked.now job.start)
        window.now }
    ensures { IsTrue result ↔ AllByRecursion
        (λ (older : JobType). MayFollow checked.now older.start later.now) window.now }
{
    for older in window {
        if !passes_with(checked, &older.start, later) {
            return false;
        }
    }
    true
}

/// Whether a job passes all tests with one that comes before it.
fn passes_with(checked: &Checked, first: &JobStart, later: &JobStart) -> bool
    requires first { HasSummary checked.now first.now }
    requires later { HasSummary checked.now later.now }
    ensures { IsTrue result ↔ MayFollow checked.now first.now later.now }
{
    may_follow(checked, first, later)
}

/// Whether a job of the window may make an instruction.
fn may_step(core: &RunningCore, job: u64) -> bool
    ensures { IsTrue result ↔ CanStep (running_core core.now) job }
{
    match core.place_of(job) {
        Some(place) => !core.window[place].run.ended(),
        None => false,
    }
}

/// Whether the oldest job of the window may retire.
fn may_retire(core: &RunningCore) -> bool
    ensures { IsTrue result ↔ CanRetire (running_core core.now) }
{
    match core.window.first() {
        Some(oldest) => oldest.run.ended(),
        None => false,
    }
}
