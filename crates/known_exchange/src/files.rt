// The contents of files: a text, an exchange, signal lines, or the answer at the first fault.
ghost use Rattle.std.specs.Prelude.{◌≡◌, ◌≤◌, IfOk, IfSome, length};
ghost use Rattle.plex_limits.specs.declared.limits.TheConstants.{MOST_BYTES};
ghost use Rattle.answer_meaning.specs.Stages.{Comes, ReadAs};
ghost use Rattle.answer_meaning.specs.Given.{exchange_as, exchange_at, exchange_of_file, fitting};
ghost use Rattle.answer_meaning.specs.Given.{exchange_from, lines_at, lines_of_file, text_at};
ghost use Rattle.answer_meaning.specs.Lines.{AreOfText, AreRead};

use crate::reading::exchange_of_text;
use answer_meaning::{KnownExchange, Stop, Which};
use exchange_model::Exchange;
use plex_io::{Shelf, ShelfFault, Word};
use plex_limits::MOST_BYTES;
use plex_num::Seq;
use refusal_lines::{signals_stop, source_stop};
use signal_file::{Known, Line, SignalsFault, SignalsRule, directory_of, read_signals};
use std::alloc::Global;

/// The text of a file; `None` if it is above the size limit. Stops where the file is missing or
/// cannot be read, or out of memory.
#[tactic(auto, using(answer_meaning::proofs::Stages::text_comes, answer_meaning::proofs::Stages::text_absent))]
pub fn text_in<S: Shelf>(alloc: Global, shelf: &mut S, name: &Word) -> Result<Option<Seq<u8>>, Stop>
    ensures comes { Comes (S.held shelf.old) (text_at name.now) (S.faults shelf.old)
        (S.faults shelf.new) result }
    ensures kept { S.held shelf.new ≡ S.held shelf.old }
    ensures size { IfOk result (λ t. IfSome t (λ text. length text ≤ MOST_BYTES)) }
{
    match shelf.read_file(alloc, name, MOST_BYTES as u64) {
        Ok(text) => Ok(fitting(text)),
        Err(ShelfFault::Absent) => Err(Stop::NotHeld),
        Err(ShelfFault::Failed) => Err(Stop::Failed),
        Err(ShelfFault::Memory) => Err(Stop::Memory),
    }
}

/// The exchange of a file. Stops where the file is missing or cannot be read, at the first fault of
/// its text, or out of memory.
pub fn exchange_in<S: Shelf>(alloc: Global, shelf: &mut S, name: &Word) -> Result<Exchange, Stop>
    ensures comes { Comes (S.held shelf.old) (exchange_at name.now) (S.faults shelf.old)
        (S.faults shelf.new) result }
    ensures kept { S.held shelf.new ≡ S.held shelf.old }
{
    exchange_as(alloc, shelf, name, Which::First)
}

/// The same; `which` says which of the command's exchange texts the file is.
#[tactic(auto, using(answer_meaning::proofs::Stages::comes_rules))]
pub fn exchange_as<S: Shelf>(
    alloc: Global,
    shelf: &mut S,
    name: &Word,
    which: Which,
) -> Result<Exchange, Stop>
    ensures comes { Comes (S.held shelf.old) (exchange_as which name.now) (S.faults shelf.old)
        (S.faults shelf.new) result }
    ensures kept { S.held shelf.new ≡ S.held shelf.old }
{
    let text = text_in(alloc, shelf, name)?;
    exchange_of_file(alloc, which, &text)
}

/// The exchange of a file's text; `None` is a text above the size limit. Stops at the first fault
/// of the text, or out of memory.
#[tactic(auto, using(answer_meaning::proofs::Stages::refused_rules))]
pub fn exchange_of_file(
    alloc: Global,
    which: Which,
    text: &Option<Seq<u8>>,
) -> Result<Exchange, Stop>
    requires { IfSome text.now (λ t. length t ≤ MOST_BYTES) }
    ensures { ReadAs (exchange_of_file which text.now) result }
{
    match exchange_of_text(alloc, text)? {
        Ok(exchange) => Ok(exchange),
        Err(fault) => Err(source_stop(alloc, which, fault)),
    }
}

/// The exchange of a file, with its directory of names. Stops as `exchange_in` does.
#[tactic(auto, using(answer_meaning::proofs::Stages::comes_rules))]
pub fn known_in<S: Shelf>(alloc: Global, shelf: &mut S, name: &Word) -> Result<KnownExchange, Stop>
    ensures comes { Comes (S.held shelf.old) (exchange_at name.now) (S.faults shelf.old)
        (S.faults shelf.new) (exchange_from result) }
    ensures kept { S.held shelf.new ≡ S.held shelf.old }
{
    let text = text_in(alloc, shelf, name)?;
    known_of_file(alloc, &text)
}

/// The same for a file's text; `None` is a text above the size limit.
#[tactic(auto, using(answer_meaning::proofs::Stages::reads_memory))]
pub fn known_of_file(alloc: Global, text: &Option<Seq<u8>>) -> Result<KnownExchange, Stop>
    requires { IfSome text.now (λ t. length t ≤ MOST_BYTES) }
    ensures { ReadAs (exchange_of_file Which.First text.now) (exchange_from result) }
{
    let exchange = exchange_of_file(alloc, Which::First, text)?;
    let names = directory_of(alloc, &exchange)?;
    Ok(KnownExchange { exchange, names })
}

/// The signal lines of a file. Stops where the file is missing or cannot be read, at its first
/// faulty line, or out of memory.
#[tactic(auto, using(answer_meaning::proofs::Stages::comes_rules))]
pub fn lines_in<S: Shelf>(
    alloc: Global,
    shelf: &mut S,
    known: &KnownExchange,
    name: &Word,
) -> Result<Seq<Line>, Stop>
    ensures comes { Comes (S.held shelf.old) (lines_at known.now.exchange name.now)
        (S.faults shelf.old) (S.faults shelf.new) result }
    ensures kept { S.held shelf.new ≡ S.held shelf.old }
    ensures read { IfOk result (AreRead known.now.exchange) }
    ensures of_text { IfOk result (AreOfText known.now.exchange) }
{
    let text = text_in(alloc, shelf, name)?;
    lines_of_file(alloc, known, &text)
}

/// The signal lines of a file's text; `None` is a text above the size limit. Stops at its first
/// faulty line, or out of memory.
#[tactic(auto, using(answer_meaning::proofs::Stages::refused_rules, crate::proofs::Tables::are_of_text))]
pub fn lines_of_file(
    alloc: Global,
    known: &KnownExchange,
    text: &Option<Seq<u8>>,
) -> Result<Seq<Line>, Stop>
    requires { IfSome text.now (λ t. length t ≤ MOST_BYTES) }
    ensures reads { ReadAs (lines_of_file known.now.exchange text.now) result }
    ensures read { IfOk result (AreRead known.now.exchange) }
    ensures of_text { IfOk result (AreOfText known.now.exchange) }
{
    let Some(text) = text else {
        let rule = SignalsRule::TooLarge;
        return Err(signals_stop(alloc, SignalsFault { line: 0, rule }));
    };
    let reader = Known {
        exchange: &known.exchange,
        names: &known.names,
    };
    match read_signals(alloc, &reader, text.as_slice())? {
        Ok(lines) => Ok(lines),
        Err(fault) => Err(signals_stop(alloc, fault)),
    }
}

/// The text, if it is within the size limit of files.
#[tactic(auto, using(answer_meaning::proofs::Stages::is_fitting, answer_meaning::proofs::Stages::none_fitting))]
pub fn fitting(text: Seq<u8>) -> Option<Seq<u8>>
    ensures is { result ≡ fitting MOST_BYTES text }
    ensures size { IfSome result (λ t. length t ≤ MOST_BYTES) }
{
    if text.len() > MOST_BYTES {
        None
    } else {
        Some(text)
    }
}
