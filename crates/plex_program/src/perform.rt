// Performs each command, up to its answer.
ghost use Rattle.std.specs.Prelude.{IfOk};
ghost use Rattle.answer_meaning.specs.Answer.{performed};
ghost use Rattle.answer_meaning.specs.Program.{IsEnding};
ghost use Rattle.answer_meaning.specs.Stages.{Performs};
ghost use Rattle.command_words.specs.Bounded.{IsBounded};

use answer_meaning::{Answer, Stop};
use command_answers::{perform_analysis, perform_certificate};
use command_words::Command;
use parallel_dispatch::Host;
use plex_io::{Gate, Shelf};
use std::sync::Wait;
use std::thread::Threads;
use view_answers::{perform_list, perform_trace};
use worker_answers::{
    Way, perform_certified, perform_change, perform_load, perform_run, perform_timed,
};

/// Performs a command and returns its answer. Jobs may run in parallel on the threads of the host;
/// each such thread calls the gate.
#[tactic(auto, using(answer_meaning::proofs::Stages::performs_told))]
pub fn perform<R: Threads + Wait + Sync, S: Shelf, G: Gate + Sync>(
    host: &Host<'_, R, G>,
    shelf: &mut S,
    command: &Command,
) -> Result<Answer, Stop>
    requires { IsBounded command.now }
    ensures comes { Performs (S.held shelf.old) (performed command.now) (S.faults shelf.old)
        (S.faults shelf.new) result }
    ensures ending { IfOk result (λ a. IsEnding a.status) }
{
    match command {
        Command::Run(words) => match &words.certificate {
            Some(name) => perform_certified(host, shelf, words, name),
            None => perform_run(host, shelf, words, Way::Code),
        },
        Command::Single(words) => perform_run(host, shelf, words, Way::Source),
        Command::Analyse(name) => perform_analysis(host.alloc, shelf, name),
        Command::Certify(name) => perform_certificate(host.alloc, shelf, name),
        Command::List(name) => perform_list(host.alloc, shelf, name),
        Command::Load(calls) => perform_load(host, *calls),
        Command::Timed(words) => perform_timed(host, shelf, words),
        Command::Change(words) => perform_change(host, shelf, words),
        Command::Trace(words) => perform_trace(host.alloc, shelf, words),
    }
}
