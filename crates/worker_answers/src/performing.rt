// Performs `single`, `run` and `load`, up to the answer.
ghost use Rattle.std.specs.Prelude.{◌≡◌, ◌≤◌, IfOk, IfSome, length};
ghost use Rattle.plex_limits.specs.declared.limits.TheConstants.{MOST_BYTES};
ghost use Rattle.answer_meaning.specs.Program.{IsEnding};
ghost use Rattle.answer_meaning.specs.Stages.{Comes, Performs, ReadAs, TellsOutcome};
ghost use Rattle.answer_meaning.specs.RunAnswer.{IsCertifiedRun, RunsWith, run_answer};
ghost use Rattle.answer_meaning.specs.RunAnswer.{run_of};
ghost use Rattle.answer_meaning.specs.LoadAnswer.{load_of};
ghost use Rattle.answer_meaning.specs.Lines.{AreRead};
ghost use Rattle.command_words.specs.Bounded.{AreWithin, HasBounds};

use crate::going::Way;
use crate::running::{load_answer, run_answer};
use answer_meaning::{Answer, Stop};
use command_words::{Bounds, RunWords};
use exchange_model::Exchange;
use known_exchange::{fitting, known_in, known_of_file, lines_in, lines_of_file, text_in};
use load_maker::{load_exchange, load_signals};
use parallel_dispatch::Host;
use plex_io::{Gate, Shelf, Word};
use plex_limits::MOST_BYTES;
use plex_num::Seq;
use refusal_lines::certificate_stop;
use run_certificates::kept_of_text;
use signal_file::Line;
use std::sync::Wait;
use std::thread::Threads;

/// Performs `single`, or `run` without a certificate.
#[tactic(auto, using(answer_meaning::proofs::Stages::comes_rules))]
pub fn perform_run<R: Threads + Wait + Sync, S: Shelf, G: Gate + Sync>(
    host: &Host<'_, R, G>,
    shelf: &mut S,
    words: &RunWords,
    way: Way,
) -> Result<Answer, Stop>
    requires { HasBounds words.now }
    ensures comes { Comes (S.held shelf.old) (run_of words.now) (S.faults shelf.old)
        (S.faults shelf.new) result }
    ensures ending { IfOk result (λ a. IsEnding a.status) }
{
    let known = known_in(host.alloc, shelf, &words.exchange)?;
    let lines = lines_in(host.alloc, shelf, &known, &words.signals)?;
    let answer = run_answer(host, &known.exchange, way, None, lines, words.bounds)?;
    Ok(answer)
}

/// Performs `run` with a certificate.
#[tactic(auto, using(answer_meaning::proofs::Stages::performs_rules))]
pub fn perform_certified<R: Threads + Wait + Sync, S: Shelf, G: Gate + Sync>(
    host: &Host<'_, R, G>,
    shelf: &mut S,
    words: &RunWords,
    name: &Word,
) -> Result<Answer, Stop>
    requires { HasBounds words.now }
    ensures comes { Performs (S.held shelf.old) (RunsWith words.now name.now)
        (S.faults shelf.old) (S.faults shelf.new) result }
    ensures ending { IfOk result (λ a. IsEnding a.status) }
{
    let known = known_in(host.alloc, shelf, &words.exchange)?;
    let lines = lines_in(host.alloc, shelf, &known, &words.signals)?;
    let text = text_in(host.alloc, shelf, name)?;
    certified_answer(host, &known.exchange, &text, lines, words.bounds)
}

/// The answer of a run with a certificate of this text, which may be too large.
#[tactic(auto, using(answer_meaning::proofs::Stages::certified_rules))]
fn certified_answer<R: Threads + Wait + Sync, G: Gate + Sync>(
    host: &Host<'_, R, G>,
    exchange: &Exchange,
    text: &Option<Seq<u8>>,
    lines: Seq<Line>,
    bounds: Bounds,
) -> Result<Answer, Stop>
    requires text { IfSome text.now (λ t. length t ≤ MOST_BYTES) }
    requires lines { AreRead exchange.now lines }
    requires bounds { AreWithin bounds }
    ensures told { TellsOutcome
        (IsCertifiedRun exchange.now text.now (run_answer exchange.now lines bounds.jobs)) result }
    ensures ending { IfOk result (λ a. IsEnding a.status) }
{
    match kept_of_text(host.alloc, exchange, text)? {
        Ok(checked) => {
            let given = Some(checked);
            let answer = run_answer(host, exchange, Way::Code, given, lines, bounds)?;
            Ok(answer)
        }
        Err(fault) => Err(certificate_stop(host.alloc, fault)),
    }
}

/// Performs `load`.
#[tactic(auto, using(answer_meaning::proofs::Stages::reads_rules))]
pub fn perform_load<R: Threads + Wait + Sync, G: Gate + Sync>(
    host: &Host<'_, R, G>,
    calls: u32,
) -> Result<Answer, Stop>
    ensures reads { ReadAs (load_of calls) result }
    ensures ending { IfOk result (λ a. IsEnding a.status) }
{
    let text = load_exchange(host.alloc, calls)?;
    let known = known_of_file(host.alloc, &fitting(text))?;
    let text = load_signals(host.alloc, calls)?;
    let lines = lines_of_file(host.alloc, &known, &fitting(text))?;
    let answer = load_answer(host, calls, &known.exchange, lines)?;
    Ok(answer)
}
