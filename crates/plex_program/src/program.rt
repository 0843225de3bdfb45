// The whole program as one call.
ghost use Rattle.std.specs.Prelude.{◌≡◌, IfSome, None, Ok};
ghost use Rattle.answer_meaning.specs.Answer.{IsAnswer, usage_answer};
ghost use Rattle.answer_meaning.specs.Program.{Answers, ProcessEnds, ProcessEndsAs, IsComplete};
ghost use Rattle.answer_meaning.specs.Program.{Makes};
ghost use Rattle.answer_meaning.specs.Program.{ReadCause, TellsFault, WriteCause};
ghost use Rattle.answer_meaning.specs.Stages.{ReadAs};
ghost use Rattle.command_words.specs.Words.{shape};

use crate::perform::perform;
use answer_meaning::{Answer, ProgramEnd, Stop};
use command_answers::{end_with, usage_line};
use command_words::{Status, read_command};
use parallel_dispatch::Host;
use plex_io::{Gate, Shelf, Sink, Word};
use plex_num::Seq;
use std::alloc::Global;
use std::sync::Wait;
use std::thread::Threads;
use text_parts::Text;

/// Runs the program: reads the files that the arguments name, and writes the answer to the sink.
///
/// `words` are the command's arguments without the program's name. Where the shelf's contents are
/// known (`held`), status and text are those of the answer (`IsAnswer`). The only other outcomes
/// are `Read` where a file is missing or a read failed, `Write` where the sink failed or is full (a
/// proper prefix of the text has then been written), and `Memory` (out of memory). After `Read` and
/// `Memory` nothing was written. `fault` is the reported fault exactly where the status is that of
/// a refusal.
///
/// With more than one worker, jobs may run in parallel on threads of `rt`, each of which calls
/// `gate` before and after its job. The answer equals that of the single run.
#[tactic(auto, using(answer_meaning::proofs::Promises::made_may_end))]
pub fn plex<R: Threads + Wait + Sync, S: Shelf, K: Sink, G: Gate + Sync>(
    rt: &R,
    alloc: Global,
    words: &[Word],
    shelf: &mut S,
    sink: &mut K,
    gate: &G,
) -> ProgramEnd
    ensures answers { IfSome (S.held shelf.old)
        (λ files. ProcessEndsAs (IsAnswer words.now files)
        (K.written sink.old) (K.written sink.new) result.status) }
    ensures unshaped { shape words.now ≡ None →
        ProcessEnds usage_answer (K.written sink.old) (K.written sink.new) result.status }
    ensures usage { result.status ≡ Status.Usage → shape words.now ≡ None }
    ensures read { result.status ≡ Status.Read → ReadCause (IsAnswer words.now) (S.held shelf.old)
        (S.faults shelf.old) (S.faults shelf.new) (K.written sink.old) (K.written sink.new) }
    ensures write { result.status ≡ Status.Write →
        WriteCause (K.size sink.old) (K.written sink.new) (K.faults sink.old) (K.faults sink.new) }
    ensures memory { result.status ≡ Status.Memory → K.written sink.new ≡ K.written sink.old }
    ensures complete { IfSome (S.held shelf.old) (λ files. IsComplete (IsAnswer words.now files)
        (S.faults shelf.old) (S.faults shelf.new) (K.faults sink.old) (K.faults sink.new)
        result.status) }
    ensures fault { TellsFault (K.written sink.old) (K.written sink.new) result.status
        result.fault }
{
    let host = Host { rt, alloc, gate };
    end_with(sink, answered(&host, words, shelf))
}

/// The answer to the arguments.
#[tactic(auto, using(answer_meaning::proofs::Endings::answering))]
fn answered<R: Threads + Wait + Sync, S: Shelf, G: Gate + Sync>(
    host: &Host<'_, R, G>,
    words: &[Word],
    shelf: &mut S,
) -> Result<Answer, Stop>
    ensures answers { Answers (IsAnswer words.now) (S.held shelf.old) (S.faults shelf.old)
        (S.faults shelf.new) result }
    ensures made { Makes (shape words.now ≡ None) usage_answer result }
{
    match read_command(host.alloc, words) {
        Ok(Ok(command)) => perform(host, shelf, &command),
        Ok(Err(_)) => usage_answer(host.alloc),
        Err(_) => Err(Stop::Memory),
    }
}

/// The usage line.
fn usage_answer(alloc: Global) -> Result<Answer, Stop>
    ensures { ReadAs (Ok usage_answer) result }
{
    match Seq::copied(alloc, usage_line()) {
        Ok(text) => Ok(Answer {
            status: Status::Usage,
            text: Text::whole(alloc, text),
        }),
        Err(_) => Err(Stop::Memory),
    }
}
