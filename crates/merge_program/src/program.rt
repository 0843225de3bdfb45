// The whole program as one call.
ghost use Rattle.std.specs.Prelude.{◌≡◌, Ok, IfOk, IfSome};
ghost use Rattle.answer_meaning.specs.Stages.{Comes, ReadAs};
ghost use Rattle.answer_meaning.specs.Program.{Answers, ProcessEnds, ProcessEndsAs, IsComplete};
ghost use Rattle.answer_meaning.specs.Program.{IsEnding};
ghost use Rattle.answer_meaning.specs.Program.{Makes, ReadCause, TellsFault, WriteCause};
ghost use Rattle.merge_program.specs.Merge.{AreOthers, IsMergeAnswer, lines_answer, merge_of};
ghost use Rattle.merge_program.specs.Merge.{usage_answer, usage_text};

use answer_meaning::{Answer, ProgramEnd, Stop};
use command_answers::end_with;
use command_words::Status;
use exchange_model::Exchange;
use job_table::write_out;
use known_exchange::{known_in, lines_in, merged_in};
use plex_io::{Shelf, Sink, Word};
use plex_num::Seq;
use signal_file::Line;
use std::alloc::Global;
use text_parts::Text;

/// Runs the program: reads the three files that the arguments name, and writes the answer to the
/// sink.
///
/// `words` are the command's arguments without the program's name. Where the shelf's contents are
/// known (`held`), status and text are those of the answer (`IsMergeAnswer`). The only other
/// outcomes are `Read` where a file is missing or a read failed, `Write` where the sink failed or
/// is full (a proper prefix of the text has then been written), and `Memory` (out of memory). After
/// `Read` and `Memory` nothing was written. `fault` is the reported fault exactly where the status
/// is that of a refusal.
#[tactic(auto, using(answer_meaning::proofs::Promises::made_may_end))]
pub fn plex_merge<S: Shelf, K: Sink>(
    alloc: Global,
    words: &[Word],
    shelf: &mut S,
    sink: &mut K,
) -> ProgramEnd
    ensures answers { IfSome (S.held shelf.old)
        (λ files. ProcessEndsAs (IsMergeAnswer words.now files)
        (K.written sink.old) (K.written sink.new) result.status) }
    ensures unshaped { AreOthers words.now →
        ProcessEnds usage_answer (K.written sink.old) (K.written sink.new) result.status }
    ensures usage { result.status ≡ Status.Usage → AreOthers words.now }
    ensures read { result.status ≡ Status.Read →
        ReadCause (IsMergeAnswer words.now) (S.held shelf.old)
        (S.faults shelf.old) (S.faults shelf.new) (K.written sink.old) (K.written sink.new) }
    ensures write { result.status ≡ Status.Write →
        WriteCause (K.size sink.old) (K.written sink.new) (K.faults sink.old) (K.faults sink.new) }
    ensures memory { result.status ≡ Status.Memory → K.written sink.new ≡ K.written sink.old }
    ensures complete { IfSome (S.held shelf.old)
        (λ files. IsComplete (IsMergeAnswer words.now files)
        (S.faults shelf.old) (S.faults shelf.new) (K.faults sink.old) (K.faults sink.new)
        result.status) }
    ensures fault { TellsFault (K.written sink.old) (K.written sink.new) result.status
        result.fault }
{
    end_with(sink, answered(alloc, words, shelf))
}

/// The answer to the arguments.
#[tactic(auto, using(crate::proofs::Merging::usage_rules))]
fn answered<S: Shelf>(alloc: Global, words: &[Word], shelf: &mut S) -> Result<Answer, Stop>
    ensures answers { Answers (IsMergeAnswer words.now) (S.held shelf.old) (S.faults shelf.old)
        (S.faults shelf.new) result }
    ensures made { Makes (AreOthers words.now) usage_answer result }
{
    match words {
        [exchange, signals, table] => merge_files(alloc, shelf, exchange, signals, table),
        _ => usage_answer(alloc),
    }
}

/// The outcome for the files with these names.
#[tactic(auto, using(answer_meaning::proofs::Stages::comes_rules))]
fn merge_files<S: Shelf>(
    alloc: Global,
    shelf: &mut S,
    exchange: &Word,
    signals: &Word,
    table: &Word,
) -> Result<Answer, Stop>
    ensures comes { Comes (S.held shelf.old) (merge_of exchange.now signals.now table.now)
        (S.faults shelf.old) (S.faults shelf.new) result }
    ensures ending { IfOk result (λ a. IsEnding a.status) }
{
    let known = known_in(alloc, shelf, exchange)?;
    let lines = lines_in(alloc, shelf, &known, signals)?;
    let all = merged_in(alloc, shelf, &known, &lines, table)?;
    lines_answer(alloc, &known.exchange, &all)
}

/// The text of a signal file with these lines, as an answer.
fn lines_answer(alloc: Global, exchange: &Exchange, lines: &Seq<Line>) -> Result<Answer, Stop>
    ensures reads { ReadAs (Ok (lines_answer exchange.now lines.now)) result }
    ensures ending { IfOk result (λ a. IsEnding a.status) }
{
    match write_out(alloc, exchange, lines) {
        Ok(text) => Ok(Answer {
            status: Status::Done,
            text: Text::whole(alloc, text),
        }),
        Err(_) => Err(Stop::Memory),
    }
}

/// The usage line.
#[tactic(auto, unfolding(crate::specs::Merge::usage_text))]
fn usage_answer(alloc: Global) -> Result<Answer, Stop>
    ensures { ReadAs (Ok usage_answer) result }
{
    match Seq::copied(alloc, b"usage: plex-merge E S T\n") {
        Ok(text) => Ok(Answer {
            status: Status::Usage,
            text: Text::whole(alloc, text),
        }),
        Err(_) => Err(Stop::Memory),
    }
}
