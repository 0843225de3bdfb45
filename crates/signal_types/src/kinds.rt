// The signals that come out.
ghost use Rattle.std.specs.Prelude.{◌≡◌, ◌+◌, ◌++◌, ◌∷◌, [], length, IfOk, OnOk};
ghost use Rattle.exchange_model.specs.declared.signal.SignalKind.TheVariants as signal;
ghost use Rattle.signal_types.specs.Signals.{shape_kinds, signals_from};

use exchange_model::SignalKind;
use plex_ast::{Named, Numbered, ShapeKind, Signal};
use plex_num::{Memory, Seq};
use std::alloc::Global;
use token_grammar::KeptName;

/// How many values a signal carries, which the rules keep to eight. Memory where 8 bits have no
/// such number.
fn count_of(values: &Numbered) -> Result<u8, Memory>
    ensures { IfOk result (λ count. count ≡ values.now.value) }
{
    u8::try_from(values.value).map_err(|_| Memory)
}

/// The number of the next signal.
fn next_number(list: &Seq<SignalKind>) -> Result<u32, Memory>
    ensures { IfOk result (λ number. number ≡ length list.now) }
{
    match u32::try_from(list.len()) {
        Ok(number) => Ok(number),
        Err(_) => Err(Memory),
    }
}

/// A combined signal of this number.
fn combined(name: &KeptName, values: &Numbered, number: u32) -> Result<SignalKind, Memory>
    ensures { IfOk result (λ kind. kind ≡ signal.Combined name.now values.now.value (number + 1)) }
{
    let count = count_of(values)?;
    let Some(answer) = number.checked_add(1) else {
        return Err(Memory);
    };
    Ok(SignalKind::Combined {
        name: name.copy(),
        count,
        answer,
    })
}

/// The answer of the combined signal of this number.
fn answer_of(name: &Named, values: &Numbered, number: u32) -> Result<SignalKind, Memory>
    ensures { IfOk result (λ kind. kind ≡ signal.Answer name.now.name values.now.value number) }
{
    let count = count_of(values)?;
    Ok(SignalKind::Answer {
        name: name.name.copy(),
        count,
        of: number,
    })
}

/// Appends a signal of this name, and its answer.
#[tactic(auto, using(crate::proofs::Numbering::combined_more))]
fn add_kinds(list: &mut Seq<SignalKind>, name: &KeptName, kind: &ShapeKind) -> Result<(), Memory>
    ensures { OnOk result (list.new ≡ list.old ++ shape_kinds (length list.old) name.now kind.now) }
{
    match kind {
        ShapeKind::Buffered { level, data } => {
            let count = count_of(data)?;
            list.push(SignalKind::Buffered {
                name: name.copy(),
                level: level.level,
                count,
            })?;
            Ok(())
        }
        ShapeKind::Direct { data } => {
            let count = count_of(data)?;
            list.push(SignalKind::Direct {
                name: name.copy(),
                count,
            })?;
            Ok(())
        }
        ShapeKind::Combined {
            data,
            answer,
            answer_data,
        } => {
            let number = next_number(list)?;
            list.push(combined(name, data, number)?)?;
            list.push(answer_of(answer, answer_data, number)?)?;
            Ok(())
        }
        ShapeKind::Outside { data } => {
            let count = count_of(data)?;
            list.push(SignalKind::Outside {
                name: name.copy(),
                count,
            })?;
            Ok(())
        }
    }
}

/// The signals with their answers, in order. Memory is refused also where there are 2^32 of them or
/// more, and where one carries more than 255 values.
#[tactic(auto, using(crate::proofs::Numbering::kinds_begin, crate::proofs::Numbering::kinds_step, crate::proofs::Numbering::kinds_end))]
pub fn kinds_of_signals(alloc: Global, signals: &[Signal]) -> Result<Seq<SignalKind>, Memory>
    ensures { IfOk result (λ list. list ≡ signals_from 0 signals.now) }
{
    let mut list = Seq::new(alloc);
    for signal in signals {
        add_kinds(&mut list, &signal.name.name, &signal.shape.kind)?;
    }
    Ok(list)
}
