// How much of the code of an exchange stands again for each field of a file, or for each receiver
// of a signal.
ghost use Rattle.std.specs.Prelude.{◌≡◌, ◌+◌, ◌≤◌, ℕ, length, map, slice_get, IfOk};
ghost use Rattle.exchange_model.specs.Cells.{marks};
ghost use Rattle.exchange_model.specs.Inside.{total};
ghost use Rattle.source_meaning.specs.Config.{files_of};
ghost use Rattle.stmt_code.specs.StmtCode.{each_receiver, look_first};
ghost use Rattle.stmt_code.specs.RecordCode.{free_code};
ghost use Rattle.stmt_code.specs.Whole.{receivers_from};
ghost use Rattle.code_gen.specs.Receivers.{arm_code};
ghost use Rattle.code_gen.specs.Unrolled.{choice_length, kind_unrolled, some_places, text_unrolled};
ghost use Rattle.code_gen.specs.Unrolled.{unrolled_length, when_unrolled};

use crate::receivers::{Arm, Delivery, receivers_of};
use exchange_model::{Exchange, Receiver, SignalKind, Stmt, StmtKind, When};
use plex_num::{Memory, Seq};
use std::alloc::Global;

/// How many instructions of the code of an exchange stand there again for each field of a file, or
/// for each receiver of a signal: those of FREE, and those that choose a receiver whose reference
/// is held. `Memory` comes where memory is refused, and where there would be 2^64 of them or more.
#[tactic(auto, using(crate::proofs::UnrolledSteps::sum_begin, crate::proofs::UnrolledSteps::sum_end))]
pub fn unrolled_length(alloc: Global, exchange: &Exchange) -> Result<u64, Memory>
    ensures { IfOk result (λ n. n ≡ unrolled_length exchange.now) }
{
    let mut sum = 0;
    for block in exchange.blocks.as_slice() {
        let more = text_length(alloc, &block.body, exchange)?;
        sum = plus(sum, more)?;
    }
    Ok(sum)
}

/// Those of these statements.
#[cycle(unrolled)]
#[tactic(auto, using(crate::proofs::UnrolledSteps::sum_begin, crate::proofs::UnrolledSteps::sum_end))]
fn text_length(alloc: Global, text: &Seq<Stmt>, exchange: &Exchange) -> Result<u64, Memory>
    ensures { IfOk result (λ n. n ≡ text_unrolled (some_places exchange.now) text.now) }
{
    let mut sum = 0;
    for statement in text.as_slice() {
        let more = kind_length(alloc, &statement.kind, exchange)?;
        sum = plus(sum, more)?;
    }
    Ok(sum)
}

/// Those of the lists of these choices.
#[cycle(unrolled)]
#[tactic(auto, using(crate::proofs::UnrolledSteps::sum_begin, crate::proofs::UnrolledSteps::sum_end))]
fn whens_length(alloc: Global, whens: &Seq<When>, exchange: &Exchange) -> Result<u64, Memory>
    ensures { IfOk result
        (λ n. n ≡ total (map (when_unrolled (some_places exchange.now)) whens.now)) }
{
    let mut sum = 0;
    for when in whens.as_slice() {
        let more = text_length(alloc, &when.body, exchange)?;
        sum = plus(sum, more)?;
    }
    Ok(sum)
}

/// Those of a statement.
#[cycle(unrolled)]
fn kind_length(alloc: Global, kind: &StmtKind, exchange: &Exchange) -> Result<u64, Memory>
    ensures { IfOk result (λ n. n ≡ kind_unrolled (some_places exchange.now) kind.now) }
{
    match kind {
        StmtKind::If { yes, no, .. } => {
            let first = text_length(alloc, yes, exchange)?;
            let other = text_length(alloc, no, exchange)?;
            plus(first, other)
        }
        StmtKind::Case {
            whens,
            otherwise,
            ..
        } => {
            let first = whens_length(alloc, whens, exchange)?;
            let other = text_length(alloc, otherwise, exchange)?;
            plus(first, other)
        }
        StmtKind::On { body, .. } => text_length(alloc, body, exchange),
        StmtKind::Send {
            signal,
            to,
            values,
            fresh,
        } => {
            let delivery = Delivery {
                signal: *signal,
                values,
                arm: Arm::Send {
                    signal: *signal,
                    fresh: *fresh,
                },
            };
            choice_length(alloc, *to, &delivery, exchange)
        }
        StmtKind::Transfer { signal, to } => {
            let none = Seq::new(alloc);
            let delivery = Delivery {
                signal: *signal,
                values: &none,
                arm: Arm::Transfer { signal: *signal },
            };
            choice_length(alloc, *to, &delivery, exchange)
        }
        StmtKind::Free { temp, file } => free_length(*temp, *file, exchange),
        _ => Ok(0),
    }
}

/// How long the code is by which a record of a file becomes free.
fn free_length(temp: u8, file: u32, exchange: &Exchange) -> Result<u64, Memory>
    ensures { IfOk result
        (λ n. n ≡ length (free_code (slice_get (files_of exchange.now) file) file temp)) }
{
    let Some(place) = exchange.file(file) else {
        return Ok(0);
    };
    let fields = number_of(place.file.fields.len())?;
    Ok(5 + own_length(place.file.forlopp) + 2 * u64::from(fields))
}

/// How long the code is that asks whether the chain has a record: 1 for one of a forlopp file, else
/// 0.
fn own_length(forlopp: bool) -> u64
    ensures { result ≡ marks forlopp }
{
    if forlopp { 1 } else { 0 }
}

/// How long the code is that chooses a receiver; 0 where it is named.
fn choice_length(
    alloc: Global,
    to: Option<Receiver>,
    delivery: &Delivery<'_>,
    exchange: &Exchange,
) -> Result<u64, Memory>
    ensures { IfOk result (λ n. n ≡ choice_length to
        (receivers_from 0 delivery.now.signal exchange.now.blocks)
        delivery.now.values.now (arm_code delivery.now.arm (some_places exchange.now))) }
{
    match to {
        Some(Receiver::Held(_)) => held_length(alloc, delivery, exchange),
        _ => Ok(0),
    }
}

/// How long the code is that chooses a receiver whose reference is held.
fn held_length(alloc: Global, delivery: &Delivery<'_>, exchange: &Exchange) -> Result<u64, Memory>
    ensures { IfOk result (λ n. n ≡ length (look_first
        (receivers_from 0 delivery.now.signal exchange.now.blocks) delivery.now.values.now 0)
        + length (each_receiver (receivers_from 0 delivery.now.signal exchange.now.blocks)
        (arm_code delivery.now.arm (some_places exchange.now)) 0)) }
{
    let receivers = receivers_of(alloc, exchange, delivery.signal)?;
    let count = u64::from(number_of(receivers.len())?);
    let chosen = count * (4 + arm_length(delivery.arm, exchange)) + 1;
    match delivery.values.get(0) {
        Some(_) => Ok(count * 4 + 1 + chosen),
        None => Ok(chosen),
    }
}

/// How long the code of one receiver is.
fn arm_length(arm: Arm, exchange: &Exchange) -> u64
    ensures length { (b : ℕ) → length (arm_code arm (some_places exchange.now) b) ≡ result }
    ensures least { result ≤ 1 }
{
    match arm {
        Arm::Look => 0,
        Arm::Transfer { .. } => 1,
        Arm::Send { signal, .. } => match exchange.signals.get(signal as usize) {
            Some(SignalKind::Answer { .. }) | None => 0,
            Some(_) => 1,
        },
    }
}

/// A length as a number of 32 bits, which it must be.
fn number_of(length: usize) -> Result<u32, Memory>
    ensures { IfOk result (λ n. n ≡ length) }
{
    u32::try_from(length).map_err(|_| Memory)
}

/// Two numbers together, which must be a number of 64 bits.
fn plus(one: u64, other: u64) -> Result<u64, Memory>
    ensures { IfOk result (λ n. n ≡ one + other) }
{
    one.checked_add(other).ok_or(Memory)
}
