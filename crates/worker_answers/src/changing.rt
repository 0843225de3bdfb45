// A run that continues with another exchange after some jobs.
ghost use Rattle.std.specs.Prelude.{◌≡◌, ◌≤◌, IfOk, None};
ghost use Rattle.store_layout.specs.Laid.{IsLayout};
ghost use Rattle.block_change.specs.Carried.{AreStanding, state_with};
ghost use Rattle.block_change.specs.Misfits.{misfit};
ghost use Rattle.answer_meaning.specs.Stages.{Performs, TellsOutcome};
ghost use Rattle.answer_meaning.specs.ChangeAnswer.{ChangeAnswers, ChangeComes, ChangesOrNot};
ghost use Rattle.answer_meaning.specs.ChangeAnswer.{IsChanged, is_changed};
ghost use Rattle.answer_meaning.specs.Program.{IsEnding};
ghost use Rattle.answer_meaning.specs.Lines.{AreRead};
ghost use Rattle.command_words.specs.Bounded.{AreWithin, HasBounds};

use crate::going::{Way, go_on};
use crate::running::run_answer;
use answer_meaning::{Answer, Stop, Which};
use block_change::{Named, misfit_of};
use command_words::{Bounds, ChangeWords};
use exchange_model::Exchange;
use exchange_run::before_lines;
use known_exchange::{exchange_as, known_in, lines_in};
use parallel_dispatch::Host;
use plex_io::{Gate, Shelf};
use plex_num::{Memory, Seq};
use run_answers::{
    Change, carried_run, end_answer, ends_before, headed_answer, misfit_stop, text_before,
};
use run_books::BookParts;
use signal_file::Line;
use std::sync::Wait;
use std::thread::Threads;
use store_layout::{Layout, layout_of};

/// Performs `change`.
#[tactic(auto, using(answer_meaning::proofs::Stages::performs_rules))]
pub fn perform_change<R: Threads + Wait + Sync, S: Shelf, G: Gate + Sync>(
    host: &Host<'_, R, G>,
    shelf: &mut S,
    words: &ChangeWords,
) -> Result<Answer, Stop>
    requires { HasBounds words.now.run }
    ensures comes { Performs (S.held shelf.old) (ChangeComes words.now)
        (S.faults shelf.old) (S.faults shelf.new) result }
    ensures ending { IfOk result (λ a. IsEnding a.status) }
{
    let old = known_in(host.alloc, shelf, &words.run.exchange)?;
    let lines = lines_in(host.alloc, shelf, &old, &words.run.signals)?;
    let new = exchange_as(host.alloc, shelf, &words.new, Which::New)?;
    answer_between(host, &old.exchange, &new, words.at, lines, words.run.bounds)
}

/// The answer to a change from one exchange to another after job `at`. Stops where the new exchange
/// does not fit, or out of memory. The directory of the new exchange's names is built once, here.
#[tactic(auto, using(answer_meaning::proofs::Stages::told_memory))]
fn answer_between<R: Threads + Wait + Sync, G: Gate + Sync>(
    host: &Host<'_, R, G>,
    old: &Exchange,
    new: &Exchange,
    at: u32,
    lines: Seq<Line>,
    bounds: Bounds,
) -> Result<Answer, Stop>
    requires lines { AreRead old.now lines }
    requires bounds { AreWithin bounds }
    ensures told { TellsOutcome (ChangeAnswers old.now new.now lines bounds.jobs at) result }
    ensures ending { IfOk result (λ a. IsEnding a.status) }
{
    let named = Named::of(host.alloc, new)?;
    let change = Change {
        old,
        new: &named,
        at,
    };
    change_answer(host, &change, lines, bounds)
}

/// The answer to a change: the refusal that names what the new exchange lacks, or else the answer
/// of the run.
#[tactic(auto, using(crate::proofs::Changed::change_rules))]
fn change_answer<R: Threads + Wait + Sync, G: Gate + Sync>(
    host: &Host<'_, R, G>,
    change: &Change<'_>,
    lines: Seq<Line>,
    bounds: Bounds,
) -> Result<Answer, Stop>
    requires lines { AreRead change.now.old.now lines }
    requires bounds { AreWithin bounds }
    ensures told { TellsOutcome (ChangeAnswers change.now.old.now
        change.now.new.now.exchange.now lines bounds.jobs change.now.at) result }
    ensures ending { IfOk result (λ a. IsEnding a.status) }
{
    match misfit_of(change.old, change.new) {
        Some(misfit) => Err(misfit_stop(host.alloc, change.old, misfit)),
        None => {
            let answer = fitting_answer(host, change, lines, bounds)?;
            Ok(answer)
        }
    }
}

/// The answer of the run where the new exchange fits. The change takes place only if the limit of
/// jobs allows it.
#[tactic(auto, using(crate::proofs::Changed::never_reached))]
fn fitting_answer<R: Threads + Wait + Sync, G: Gate + Sync>(
    host: &Host<'_, R, G>,
    change: &Change<'_>,
    lines: Seq<Line>,
    bounds: Bounds,
) -> Result<Answer, Memory>
    requires fits { misfit change.now.old.now change.now.new.now.exchange.now ≡ None }
    requires lines { AreRead change.now.old.now lines }
    requires bounds { AreWithin bounds }
    ensures answer { IfOk result
        (ChangesOrNot change.now.old.now change.now.new.now.exchange.now lines bounds.jobs
        change.now.at (is_changed change.now.old.now lines bounds.jobs change.now.at)) }
    ensures ending { IfOk result (λ a. IsEnding a.status) }
{
    if change.at > bounds.jobs {
        return run_answer(host, change.old, Way::Code, None, lines, bounds);
    }
    reached_answer(host, change, lines, bounds)
}

/// The answer of a run whose limit allows the change: it continues with the new exchange after job
/// `at`, unless it ended before or stopped with that job.
#[tactic(auto, using(crate::proofs::Changed::reached_rules))]
fn reached_answer<R: Threads + Wait + Sync, G: Gate + Sync>(
    host: &Host<'_, R, G>,
    change: &Change<'_>,
    lines: Seq<Line>,
    bounds: Bounds,
) -> Result<Answer, Memory>
    requires fits { misfit change.now.old.now change.now.new.now.exchange.now ≡ None }
    requires reached { change.now.at ≤ bounds.jobs }
    requires lines { AreRead change.now.old.now lines }
    requires bounds { AreWithin bounds }
    ensures answer { IfOk result
        (ChangesOrNot change.now.old.now change.now.new.now.exchange.now lines bounds.jobs
        change.now.at (is_changed change.now.old.now lines bounds.jobs change.now.at)) }
    ensures ending { IfOk result (λ a. IsEnding a.status) }
{
    let old = change.old;
    old.kept();
    let layout = layout_of(host.alloc, old)?;
    let run = before_lines(host.alloc, old, &layout, lines, u64::from(change.at))?;
    let end = go_on(host, old, &layout, Way::Code, None, bounds.workers, run)?;
    if ends_before(&end, change.at) {
        return end_answer(host.alloc, old, end);
    }
    let parts = end.books.into_parts();
    changed_answer(host, change, &layout, parts, &end.words, bounds)
}

/// The answer of a run with the change: the events before it, the change itself, and the report of
/// the run on the new exchange.
#[tactic(auto, using(run_answers::proofs::Carrying::carries_few))]
fn changed_answer<R: Threads + Wait + Sync, G: Gate + Sync>(
    host: &Host<'_, R, G>,
    change: &Change<'_>,
    layout: &Layout,
    parts: BookParts,
    words: &Seq<u32>,
    bounds: Bounds,
) -> Result<Answer, Memory>
    requires fits { misfit change.now.old.now change.now.new.now.exchange.now ≡ None }
    requires layout { IsLayout change.now.old.now.blocks layout.now }
    requires standing { AreStanding change.now.old.now parts words.now }
    requires few { parts.ended ≤ bounds.jobs }
    requires bounds { AreWithin bounds }
    ensures answer { IfOk result (IsChanged change.now.old.now change.now.new.now.exchange.now
        (state_with parts words.now) bounds.jobs change.now.at) }
    ensures ending { IfOk result (λ a. IsEnding a.status) }
{
    let old = change.old;
    let new = change.new;
    let text = text_before(host.alloc, old, &parts, change.at)?;
    let to = layout_of(host.alloc, new.exchange)?;
    let run = carried_run(host.alloc, change, layout, &to, parts, words, bounds.jobs)?;
    let end = go_on(
        host,
        new.exchange,
        &to,
        Way::Code,
        None,
        bounds.workers,
        run,
    )?;
    let answer = headed_answer(text, new.exchange, end)?;
    Ok(answer)
}
