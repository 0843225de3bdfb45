// The answers of runs whose jobs may run in parallel.
ghost use Rattle.std.specs.Prelude.{◌≡◌, IfOk, IfSome};
ghost use Rattle.checked.specs.Kept.{IsChecked};
ghost use Rattle.answer_meaning.specs.RunAnswer.{run_answer};
ghost use Rattle.answer_meaning.specs.LoadAnswer.{load_answer};
ghost use Rattle.answer_meaning.specs.Program.{IsEnding};
ghost use Rattle.answer_meaning.specs.Lines.{AreRead};
ghost use Rattle.command_words.specs.Bounded.{AreWithin};

use crate::going::{Way, go_on};
use answer_meaning::Answer;
use checked::Checked;
use command_words::{Bounds, USUAL_JOBS, USUAL_WORKERS};
use exchange_model::Exchange;
use exchange_run::before_lines;
use parallel_dispatch::Host;
use plex_io::Gate;
use plex_num::{Memory, Seq};
use run_answers::{end_answer, summed_answer};
use signal_file::Line;
use std::sync::Wait;
use std::thread::Threads;
use store_layout::layout_of;

/// The answer of the single run of these lines, executed in this way and within these bounds. Jobs
/// run in parallel as far as the given certificate permits, or, if none is given, the exchange's
/// own. They run sequentially with one worker, and where the exchange's own certificate would have
/// so many facts that it takes long to make.
#[tactic(auto, using(run_answers::proofs::Opened::limit_few))]
pub fn run_answer<R: Threads + Wait + Sync, G: Gate + Sync>(
    host: &Host<'_, R, G>,
    exchange: &Exchange,
    way: Way,
    given: Option<Checked>,
    lines: Seq<Line>,
    bounds: Bounds,
) -> Result<Answer, Memory>
    requires given { IfSome given (IsChecked exchange.now) }
    requires lines { AreRead exchange.now lines }
    requires bounds { AreWithin bounds }
    ensures answer { IfOk result (λ a. a ≡ run_answer exchange.now lines bounds.jobs) }
    ensures ending { IfOk result (λ a. IsEnding a.status) }
{
    let Bounds { workers, jobs } = bounds;
    let layout = layout_of(host.alloc, exchange)?;
    let run = before_lines(host.alloc, exchange, &layout, lines, u64::from(jobs))?;
    let end = go_on(host, exchange, &layout, way, given, workers, run)?;
    let answer = end_answer(host.alloc, exchange, end)?;
    Ok(answer)
}

/// The answer of the single run of a load's lines. Jobs run in parallel as far as the exchange's
/// own certificate permits.
#[tactic(auto, using(run_answers::proofs::Opened::limit_few))]
pub fn load_answer<R: Threads + Wait + Sync, G: Gate + Sync>(
    host: &Host<'_, R, G>,
    calls: u32,
    exchange: &Exchange,
    lines: Seq<Line>,
) -> Result<Answer, Memory>
    requires lines { AreRead exchange.now lines }
    ensures answer { IfOk result (λ a. a ≡ load_answer calls exchange.now lines) }
    ensures ending { IfOk result (λ a. IsEnding a.status) }
{
    let layout = layout_of(host.alloc, exchange)?;
    let run = before_lines(host.alloc, exchange, &layout, lines, u64::from(USUAL_JOBS))?;
    let end = go_on(host, exchange, &layout, Way::Code, None, USUAL_WORKERS, run)?;
    let answer = summed_answer(host.alloc, calls, end)?;
    Ok(answer)
}
