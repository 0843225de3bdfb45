// What is asked of the values at a point, to tell whether a statement there may fault.
ghost use Rattle.std.specs.Prelude.{◌≡◌, ◌↔◌, ◌+◌, ◌^◌, nat_eq, nat_lt, true, IfOk};
ghost use Rattle.std.specs.List.{list_any};
ghost use Rattle.source_meaning.specs.Config.{receiver_of as receiver_named};
ghost use Rattle.flow_points.specs.Places.{receives as receives_signal};
ghost use Rattle.entry_faults.specs.Asking.{MayAnswer, lacks_receiver as lacks};
ghost use Rattle.entry_faults.specs.Asking.{number_meets as number_is, some_meets as some_is};
ghost use Rattle.entry_faults.specs.Asking.{value_meets as value_is};

use exchange_model::Exchange;
use flow_points::{Source, Value};
use flow_table::{KnownFacts, values_from};
use plex_num::{Memory, fits};
use std::alloc::Global;

/// What a number is asked to be: this one or a greater one, one that does not fit so many bits,
/// this one, any but 1 plus the number of an answer, or no reference to a block that receives a
/// signal.
#[derive(Clone, Copy)]
pub enum Asked {
    AtLeast(u32),
    TooWide(u8),
    Equal(u32),
    OtherAnswer(u32),
    NoReceiver(u32),
}

/// Whether a value that comes from the source may be such a number.
#[derive(Clone, Copy)]
pub struct Question {
    pub source: Source,
    pub asked: Asked,
}

/// Whether a block receives a signal.
#[tactic(auto, using(source_meaning::proofs::Entering::receives_is))]
fn receives(exchange: &Exchange, block: u32, signal: u32) -> bool
    ensures { result ≡ receives_signal exchange.now signal block }
{
    exchange.enter_of(block, signal).is_some()
}

/// The block that a reference names, where it receives the signal.
fn receiver_of(exchange: &Exchange, signal: u32, reference: u32) -> Option<u32>
    ensures { result ≡ receiver_named exchange.now signal reference }
{
    let block = reference.checked_sub(1)?;
    if receives(exchange, block, signal) {
        Some(block)
    } else {
        None
    }
}

/// Whether a reference names no block that receives the signal.
fn lacks_receiver(exchange: &Exchange, signal: u32, reference: u32) -> bool
    ensures { result ≡ lacks (receiver_named exchange.now signal reference) }
{
    receiver_of(exchange, signal, reference).is_none()
}

/// Whether a number is as asked.
#[tactic(auto, using(crate::proofs::Asking::wide_is, crate::proofs::Asking::other_is))]
fn number_meets(exchange: &Exchange, asked: Asked, number: u32) -> bool
    ensures { result ≡ number_is exchange.now asked number }
{
    match asked {
        Asked::AtLeast(least) => number >= least,
        Asked::TooWide(width) => !fits(number, width),
        Asked::Equal(wanted) => number == wanted,
        Asked::OtherAnswer(answer) => !is_answer(number, answer),
        Asked::NoReceiver(signal) => lacks_receiver(exchange, signal, number),
    }
}

/// Whether a number is 1 plus the number of an answer.
fn is_answer(number: u32, answer: u32) -> bool
    ensures { result ≡ nat_eq number (answer + 1) }
{
    u64::from(number) == u64::from(answer) + 1
}

/// Whether some number of 32 bits is as asked.
fn some_meets(asked: Asked) -> bool
    ensures { result ≡ some_is asked }
{
    match asked {
        Asked::AtLeast(least) => is_word(least),
        Asked::TooWide(width) => width < 32,
        Asked::Equal(wanted) => is_word(wanted),
        Asked::OtherAnswer(_) => true,
        Asked::NoReceiver(_) => true,
    }
}

/// Each number of this type has 32 bits.
#[tactic(auto, using(crate::proofs::Asking::word_is))]
fn is_word(number: u32) -> bool
    ensures { result ≡ nat_lt number (2 ^ 32) }
{
    let _ = number;
    true
}

/// Whether a value may be a number as asked.
fn value_meets(exchange: &Exchange, asked: Asked, value: Value) -> bool
    ensures { result ≡ value_is exchange.now asked value }
{
    match value {
        Value::Arg(_) => some_meets(asked),
        Value::Const(number) => number_meets(exchange, asked, number),
        Value::Any => some_meets(asked),
    }
}

/// Whether one of these values may be.
fn any_meets(exchange: &Exchange, asked: Asked, values: &[Value]) -> bool
    ensures { result ≡ list_any (value_is exchange.now asked) values.now }
{
    values
        .iter()
        .any(|value| value_meets(exchange, asked, *value))
}

/// Whether a value from the source of a question, if there is one, may be a number as it asks for,
/// before a point in a job of the entry.
pub fn may_answer<K: KnownFacts>(
    alloc: Global,
    exchange: &Exchange,
    known: &K,
    entry: u32,
    point: u32,
    question: Option<Question>,
) -> Result<bool, Memory>
    ensures { IfOk result (λ may. (may ≡ true)
        ↔ MayAnswer exchange.now (K.knows known.now) entry point question) }
{
    let _ = &exchange.cells;
    match question {
        None => Ok(false),
        Some(asks) => {
            let values = values_from(alloc, known, entry, point, asks.source)?;
            Ok(any_meets(exchange, asks.asked, values.as_slice()))
        }
    }
}
