// The whole program as one call.
ghost use Rattle.std.specs.Prelude.{◌≡◌, ◌∷◌, [], Ok, IfOk, IfSome};
ghost use Rattle.std.specs.Str.{bytes_eq};
ghost use Rattle.answer_meaning.specs.ExchangeAnswer.{FromExchange};
ghost use Rattle.answer_meaning.specs.Stages.{Performs, ReadAs};
ghost use Rattle.answer_meaning.specs.Program.{Answers, ProcessEnds, ProcessEndsAs, IsComplete};
ghost use Rattle.answer_meaning.specs.Program.{IsEnding};
ghost use Rattle.answer_meaning.specs.Program.{Makes, ReadCause, TellsFault, WriteCause};
ghost use Rattle.conflicts_program.specs.Words.{AnswersConflicts, AreOthers, IsConflictsAnswer};
ghost use Rattle.conflicts_program.specs.Words.{asked_by, is_own, usage_answer, usage_text};

use access_summary::summaries_of;
use additions_text::add_additions;
use answer_meaning::{Answer, ProgramEnd, Stop};
use command_answers::end_with;
use command_words::Status;
use conflicts_meaning::EntryPair;
use conflicts_text::conflicts;
use exchange_model::Exchange;
use known_exchange::exchange_in;
use plex_io::{Shelf, Sink, Word};
use plex_num::{Memory, Seq, read_number};
use std::alloc::Global;
use text_parts::Text;

/// Runs the program: reads the exchange text that the arguments name, and writes the answer to the
/// sink.
///
/// `words` are the command's arguments without the program's name. Where the shelf's contents are
/// known (`held`), status and text are those of the answer (`IsConflictsAnswer`). The only other
/// outcomes are `Read` where the file is missing or a read failed, `Write` where the sink failed or
/// is full (a proper prefix of the text has then been written), and `Memory` (out of memory). After
/// `Read` and `Memory` nothing was written. `fault` is the reported fault exactly where the status
/// is that of a refusal.
#[tactic(auto, using(answer_meaning::proofs::Promises::made_may_end))]
pub fn plex_conflicts<S: Shelf, K: Sink>(
    alloc: Global,
    words: &[Word],
    shelf: &mut S,
    sink: &mut K,
) -> ProgramEnd
    ensures answers { IfSome (S.held shelf.old)
        (λ files. ProcessEndsAs (IsConflictsAnswer words.now files)
        (K.written sink.old) (K.written sink.new) result.status) }
    ensures unshaped { AreOthers words.now →
        ProcessEnds usage_answer (K.written sink.old) (K.written sink.new) result.status }
    ensures usage { result.status ≡ Status.Usage → AreOthers words.now }
    ensures read { result.status ≡ Status.Read →
        ReadCause (IsConflictsAnswer words.now) (S.held shelf.old)
        (S.faults shelf.old) (S.faults shelf.new) (K.written sink.old) (K.written sink.new) }
    ensures write { result.status ≡ Status.Write →
        WriteCause (K.size sink.old) (K.written sink.new) (K.faults sink.old) (K.faults sink.new) }
    ensures memory { result.status ≡ Status.Memory → K.written sink.new ≡ K.written sink.old }
    ensures complete { IfSome (S.held shelf.old)
        (λ files. IsComplete (IsConflictsAnswer words.now files)
        (S.faults shelf.old) (S.faults shelf.new) (K.faults sink.old) (K.faults sink.new)
        result.status) }
    ensures fault { TellsFault (K.written sink.old) (K.written sink.new) result.status
        result.fault }
{
    end_with(sink, answered(alloc, words, shelf))
}

/// The answer to the arguments.
fn answered<S: Shelf>(alloc: Global, words: &[Word], shelf: &mut S) -> Result<Answer, Stop>
    ensures answers { Answers (IsConflictsAnswer words.now) (S.held shelf.old) (S.faults shelf.old)
        (S.faults shelf.new) result }
    ensures made { Makes (AreOthers words.now) usage_answer result }
{
    match words {
        [name] => tell_all(alloc, shelf, name),
        [exchange, first, later] => tell_pair(alloc, shelf, exchange, first, later),
        _ => usage_answer(alloc),
    }
}

/// The report on all entries, if the argument is a file name; else the usage line.
#[tactic(auto, using(crate::proofs::Answering::all_rules))]
fn tell_all<S: Shelf>(alloc: Global, shelf: &mut S, exchange: &Word) -> Result<Answer, Stop>
    ensures answers { Answers (IsConflictsAnswer (exchange.now ∷ [])) (S.held shelf.old)
        (S.faults shelf.old) (S.faults shelf.new) result }
    ensures made { Makes (AreOthers (exchange.now ∷ [])) usage_answer result }
{
    if is_own(exchange.as_slice()) {
        return usage_answer(alloc);
    }
    tell(alloc, shelf, exchange, None)
}

/// Whether a single argument requests help or the version.
fn is_own(word: &[u8]) -> bool
    ensures { result ≡ is_own word.now }
{
    is(word, b"--help") | is(word, b"-h") | is(word, b"--version")
}

fn is(word: &[u8], text: &[u8]) -> bool
    ensures { result ≡ bytes_eq word.now text.now }
{
    word == text
}

/// The report on the pair of entries with these numbers; the usage line if one is no number.
#[tactic(auto, using(crate::proofs::Answering::pair_rules))]
fn tell_pair<S: Shelf>(
    alloc: Global,
    shelf: &mut S,
    exchange: &Word,
    first: &Word,
    later: &Word,
) -> Result<Answer, Stop>
    ensures answers { Answers (IsConflictsAnswer (exchange.now ∷ first.now ∷ later.now ∷ []))
        (S.held shelf.old) (S.faults shelf.old) (S.faults shelf.new) result }
    ensures made { Makes (AreOthers (exchange.now ∷ first.now ∷ later.now ∷ [])) usage_answer
        result }
{
    match pair_of(first, later) {
        Some(pair) => tell(alloc, shelf, exchange, Some(pair)),
        None => usage_answer(alloc),
    }
}

/// The pair of entries with these numbers; `None` if one is no number.
fn pair_of(first: &Word, later: &Word) -> Option<EntryPair>
    ensures { result ≡ asked_by first.now later.now }
{
    let Some(first) = read_number(first.as_slice()) else {
        return None;
    };
    let Some(later) = read_number(later.as_slice()) else {
        return None;
    };
    Some(EntryPair {
        first: first as usize,
        later: later as usize,
    })
}

/// The report on the exchange of a file.
#[tactic(auto, using(answer_meaning::proofs::Stages::performs_rules))]
fn tell<S: Shelf>(
    alloc: Global,
    shelf: &mut S,
    name: &Word,
    asked: Option<EntryPair>,
) -> Result<Answer, Stop>
    ensures comes { Performs (S.held shelf.old) (FromExchange name.now (AnswersConflicts asked))
        (S.faults shelf.old) (S.faults shelf.new) result }
    ensures ending { IfOk result (λ a. IsEnding a.status) }
{
    let exchange = exchange_in(alloc, shelf, name)?;
    let answer = conflicts_answer(alloc, &exchange, asked)?;
    Ok(answer)
}

/// The answer with the conflicts of an exchange, then its additions.
fn conflicts_answer(
    alloc: Global,
    exchange: &Exchange,
    asked: Option<EntryPair>,
) -> Result<Answer, Memory>
    ensures answer { IfOk result (AnswersConflicts asked exchange.now) }
    ensures ending { IfOk result (λ a. IsEnding a.status) }
{
    let summaries = summaries_of(alloc, exchange)?;
    let mut text = conflicts(alloc, exchange, &summaries, asked)?;
    add_additions(&mut text, alloc, exchange, &summaries, asked)?;
    Ok(Answer {
        status: Status::Done,
        text,
    })
}

/// The usage line.
#[tactic(auto, unfolding(crate::specs::Words::usage_text))]
fn usage_answer(alloc: Global) -> Result<Answer, Stop>
    ensures { ReadAs (Ok usage_answer) result }
{
    match Seq::copied(alloc, b"usage: plex-conflicts E [i j]\n") {
        Ok(text) => Ok(Answer {
            status: Status::Usage,
            text: Text::whole(alloc, text),
        }),
        Err(_) => Err(Stop::Memory),
    }
}
