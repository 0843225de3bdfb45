// The command that words are, or what is wrong with them.
ghost use Rattle.std.specs.Prelude.{◌≡◌, IfOk};
ghost use Rattle.command_words.specs.Bounded.{HasBounds, IsBounded};
ghost use Rattle.command_words.specs.Shapes.{AreReadAs};
ghost use Rattle.command_words.specs.Words.{change_words, command_behind, command_of};
ghost use Rattle.command_words.specs.Words.{load_words, no_more, only_word, run_by, run_words};
ghost use Rattle.command_words.specs.Words.{timed_words, trace_words};

use crate::command::{ChangeWords, Command, MOST_CALLS, RunWords, TimedWords, TraceWords};
use crate::fault::{CommandName, WordsFault};
use crate::options::{number_within, read_options};
use plex_io::Word;
use plex_limits::MOST_JOBS;
use plex_num::{Memory, Seq};
use std::alloc::Global;

/// The command that these words are, or what is wrong with the first of them that is no part of
/// one.
#[tactic(auto, using(crate::proofs::Shaped::read_as))]
pub fn read_command(alloc: Global, words: &[Word]) -> Result<Result<Command, WordsFault>, Memory>
    ensures read { IfOk result (λ read. read ≡ command_of words.now) }
    ensures shaped { IfOk result (λ read. AreReadAs words.now read) }
    ensures bounds { IfOk result (λ read. IfOk read IsBounded) }
{
    let Some((name, rest)) = words.split_first() else {
        return Ok(Err(WordsFault::NoWords));
    };
    match CommandName::named(name.as_slice()) {
        Some(command) => read_behind(alloc, command, rest),
        None => {
            let name = Seq::copied(alloc, name.as_slice())?;
            Ok(Err(WordsFault::UnknownCommand(name)))
        }
    }
}

/// The command of this name that these words behind it make, or what is wrong with them.
fn read_behind(
    alloc: Global,
    command: CommandName,
    rest: &[Word],
) -> Result<Result<Command, WordsFault>, Memory>
    ensures read { IfOk result (λ read. read ≡ command_behind command rest.now) }
    ensures bounds { IfOk result (λ read. IfOk read IsBounded) }
{
    match command {
        CommandName::Run => match read_run(alloc, command, rest)? {
            Ok(words) => Ok(Ok(Command::Run(words))),
            Err(fault) => Ok(Err(fault)),
        },
        CommandName::Single => match read_run(alloc, command, rest)? {
            Ok(words) => Ok(Ok(Command::Single(words))),
            Err(fault) => Ok(Err(fault)),
        },
        CommandName::Analyse => match read_only(alloc, command, rest)? {
            Ok(name) => Ok(Ok(Command::Analyse(name))),
            Err(fault) => Ok(Err(fault)),
        },
        CommandName::Certify => match read_only(alloc, command, rest)? {
            Ok(name) => Ok(Ok(Command::Certify(name))),
            Err(fault) => Ok(Err(fault)),
        },
        CommandName::List => match read_only(alloc, command, rest)? {
            Ok(name) => Ok(Ok(Command::List(name))),
            Err(fault) => Ok(Err(fault)),
        },
        CommandName::Load => match read_load(alloc, rest)? {
            Ok(calls) => Ok(Ok(Command::Load(calls))),
            Err(fault) => Ok(Err(fault)),
        },
        CommandName::Timed => match read_timed(alloc, rest)? {
            Ok(words) => Ok(Ok(Command::Timed(words))),
            Err(fault) => Ok(Err(fault)),
        },
        CommandName::Change => match read_change(alloc, rest)? {
            Ok(words) => Ok(Ok(Command::Change(words))),
            Err(fault) => Ok(Err(fault)),
        },
        CommandName::Trace => match read_trace(alloc, rest)? {
            Ok(words) => Ok(Ok(Command::Trace(words))),
            Err(fault) => Ok(Err(fault)),
        },
    }
}

/// The words behind the name of a command that has an exchange file, a signal file and options.
fn read_run(
    alloc: Global,
    command: CommandName,
    rest: &[Word],
) -> Result<Result<RunWords, WordsFault>, Memory>
    ensures words { IfOk result (λ words. words ≡ run_words command rest.now) }
    ensures bounds { IfOk result (λ words. IfOk words HasBounds) }
{
    let Some((exchange, after)) = rest.split_first() else {
        return Ok(Err(WordsFault::MissingWords(command)));
    };
    let Some((signals, options)) = after.split_first() else {
        return Ok(Err(WordsFault::MissingWords(command)));
    };
    run_by(alloc, command, exchange, signals, options)
}

/// The words behind the name of a run with a table.
fn read_timed(alloc: Global, rest: &[Word]) -> Result<Result<TimedWords, WordsFault>, Memory>
    ensures words { IfOk result (λ words. words ≡ timed_words rest.now) }
    ensures bounds { IfOk result (λ words. IfOk words (λ w. HasBounds w.run)) }
{
    let command = CommandName::Timed;
    let Some((exchange, after)) = rest.split_first() else {
        return Ok(Err(WordsFault::MissingWords(command)));
    };
    let Some((signals, after)) = after.split_first() else {
        return Ok(Err(WordsFault::MissingWords(command)));
    };
    let Some((table, options)) = after.split_first() else {
        return Ok(Err(WordsFault::MissingWords(command)));
    };
    match run_by(alloc, command, exchange, signals, options)? {
        Ok(run) => {
            let table = Seq::copied(alloc, table.as_slice())?;
            Ok(Ok(TimedWords { run, table }))
        }
        Err(fault) => Ok(Err(fault)),
    }
}

/// The words behind the name of a change of blocks.
fn read_change(alloc: Global, rest: &[Word]) -> Result<Result<ChangeWords, WordsFault>, Memory>
    ensures words { IfOk result (λ words. words ≡ change_words rest.now) }
    ensures bounds { IfOk result (λ words. IfOk words (λ w. HasBounds w.run)) }
{
    let command = CommandName::Change;
    let Some((exchange, after)) = rest.split_first() else {
        return Ok(Err(WordsFault::MissingWords(command)));
    };
    let Some((signals, after)) = after.split_first() else {
        return Ok(Err(WordsFault::MissingWords(command)));
    };
    let Some((new, after)) = after.split_first() else {
        return Ok(Err(WordsFault::MissingWords(command)));
    };
    let Some((count, options)) = after.split_first() else {
        return Ok(Err(WordsFault::MissingWords(command)));
    };
    let Some(at) = number_within(count, MOST_JOBS as u32) else {
        let count = Seq::copied(alloc, count.as_slice())?;
        return Ok(Err(WordsFault::BadNumber(command, count)));
    };
    match run_by(alloc, command, exchange, signals, options)? {
        Ok(run) => {
            let new = Seq::copied(alloc, new.as_slice())?;
            Ok(Ok(ChangeWords { run, new, at }))
        }
        Err(fault) => Ok(Err(fault)),
    }
}

/// The words behind the name of a trace.
fn read_trace(alloc: Global, rest: &[Word]) -> Result<Result<TraceWords, WordsFault>, Memory>
    ensures words { IfOk result (λ words. words ≡ trace_words rest.now) }
    ensures bounds { IfOk result (λ words. IfOk words (λ w. HasBounds w.run)) }
{
    let command = CommandName::Trace;
    let Some((exchange, after)) = rest.split_first() else {
        return Ok(Err(WordsFault::MissingWords(command)));
    };
    let Some((signals, after)) = after.split_first() else {
        return Ok(Err(WordsFault::MissingWords(command)));
    };
    let Some((filter, options)) = after.split_first() else {
        return Ok(Err(WordsFault::MissingWords(command)));
    };
    match run_by(alloc, command, exchange, signals, options)? {
        Ok(run) => {
            let filter = Seq::copied(alloc, filter.as_slice())?;
            Ok(Ok(TraceWords { run, filter }))
        }
        Err(fault) => Ok(Err(fault)),
    }
}

/// A run of these files, as these options of the command tell; or what is wrong with them.
fn run_by(
    alloc: Global,
    command: CommandName,
    exchange: &Word,
    signals: &Word,
    options: &[Word],
) -> Result<Result<RunWords, WordsFault>, Memory>
    ensures words { IfOk result (λ words.
        words ≡ run_by command exchange.now signals.now options.now) }
    ensures bounds { IfOk result (λ words. IfOk words HasBounds) }
{
    match read_options(alloc, command, options)? {
        Ok(told) => {
            let bounds = told.bounds(command);
            Ok(Ok(RunWords {
                exchange: Seq::copied(alloc, exchange.as_slice())?,
                signals: Seq::copied(alloc, signals.as_slice())?,
                bounds,
                certificate: told.certificate,
            }))
        }
        Err(fault) => Ok(Err(fault)),
    }
}

/// The one word behind the name of a command that has a file and nothing else.
fn read_only(
    alloc: Global,
    command: CommandName,
    rest: &[Word],
) -> Result<Result<Word, WordsFault>, Memory>
    ensures { IfOk result (λ word. word ≡ only_word command rest.now) }
{
    let Some((name, more)) = rest.split_first() else {
        return Ok(Err(WordsFault::MissingWords(command)));
    };
    match no_more(alloc, command, more)? {
        Some(fault) => Ok(Err(fault)),
        None => Ok(Ok(Seq::copied(alloc, name.as_slice())?)),
    }
}

/// The number of calls behind the name of a load.
fn read_load(alloc: Global, rest: &[Word]) -> Result<Result<u32, WordsFault>, Memory>
    ensures { IfOk result (λ calls. calls ≡ load_words rest.now) }
{
    let command = CommandName::Load;
    let Some((value, more)) = rest.split_first() else {
        return Ok(Err(WordsFault::MissingWords(command)));
    };
    let Some(calls) = number_within(value, MOST_CALLS) else {
        let value = Seq::copied(alloc, value.as_slice())?;
        return Ok(Err(WordsFault::BadNumber(command, value)));
    };
    match no_more(alloc, command, more)? {
        Some(fault) => Ok(Err(fault)),
        None => Ok(Ok(calls)),
    }
}

/// What is wrong with the first of these words, which stand where a command has none.
fn no_more(alloc: Global, command: CommandName, more: &[Word]) -> Result<Option<WordsFault>, Memory>
    ensures { IfOk result (λ fault. fault ≡ no_more command more.now) }
{
    match more.first() {
        Some(word) => {
            let word = Seq::copied(alloc, word.as_slice())?;
            Ok(Some(WordsFault::UnknownOption(command, word)))
        }
        None => Ok(None),
    }
}
