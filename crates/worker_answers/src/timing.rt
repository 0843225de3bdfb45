// A run with a table of periodic signals.
ghost use Rattle.std.specs.Prelude.{IfOk};
ghost use Rattle.answer_meaning.specs.Stages.{Comes};
ghost use Rattle.answer_meaning.specs.TimedAnswer.{timed_of};
ghost use Rattle.answer_meaning.specs.Program.{IsEnding};
ghost use Rattle.command_words.specs.Bounded.{HasBounds};

use crate::going::Way;
use crate::running::run_answer;
use answer_meaning::{Answer, Stop};
use command_words::TimedWords;
use known_exchange::{known_in, lines_in, merged_in};
use parallel_dispatch::Host;
use plex_io::{Gate, Shelf};
use std::sync::Wait;
use std::thread::Threads;

/// Performs `timed`.
#[tactic(auto, using(answer_meaning::proofs::Stages::comes_rules))]
pub fn perform_timed<R: Threads + Wait + Sync, S: Shelf, G: Gate + Sync>(
    host: &Host<'_, R, G>,
    shelf: &mut S,
    words: &TimedWords,
) -> Result<Answer, Stop>
    requires { HasBounds words.now.run }
    ensures comes { Comes (S.held shelf.old) (timed_of words.now) (S.faults shelf.old)
        (S.faults shelf.new) result }
    ensures ending { IfOk result (λ a. IsEnding a.status) }
{
    let known = known_in(host.alloc, shelf, &words.run.exchange)?;
    let lines = lines_in(host.alloc, shelf, &known, &words.run.signals)?;
    let all = merged_in(host.alloc, shelf, &known, &lines, &words.table)?;
    let bounds = words.run.bounds;
    let answer = run_answer(host, &known.exchange, Way::Code, None, all, bounds)?;
    Ok(answer)
}
