// Sends, answers and transfers.
ghost use Rattle.std.specs.Prelude.{◌≡◌, ◌≤◌, ◌∷◌, [], ◌++◌, length, slice_get, OnOk};
ghost use Rattle.plex_limits.specs.declared.limits.TheConstants.{MOST_VALUES};
ghost use Rattle.exchange_model.specs.declared.stmt.StmtKind.TheOpen as layer;
ghost use Rattle.machine_code.specs.declared.op.Op.TheVariants as op;
ghost use Rattle.stmt_code.specs.StmtCode.{count_in, level_number as number_of_level};
ghost use Rattle.stmt_code.specs.StmtCode.{queue_number as number_of_queue, retrieve_code};
ghost use Rattle.stmt_code.specs.StmtCode.{send_code};
ghost use Rattle.code_gen.specs.Settings.{IsIn, code_in, places_in};

use crate::addresses::address_plus;
use crate::receivers::{Arm, Delivery, push_to};
use crate::setting::{Setting, Spot};
use crate::value::push_values;
use exchange_model::{Expr, Receiver, SignalKind};
use expr_code::push_all;
use machine_code::Op;
use plex_num::{Level, Memory, Seq};
use std::alloc::Global;

/// A signal is sent with values: to an entry, to a block in which the job goes on, or out of the
/// exchange.
#[tactic(auto, using(crate::proofs::Inside::send_values, crate::proofs::Inside::send_reached, crate::proofs::SignalSteps::send_is))]
pub fn send(
    alloc: Global,
    signal: u32,
    to: Option<Receiver>,
    values: &Seq<Expr>,
    fresh: bool,
    at: &Setting<'_>,
    spot: Spot,
    ops: &mut Seq<Op>,
) -> Result<(), Memory>
    requires { IsIn at.now spot.loops (layer.Send signal to values.now fresh) }
    ensures { OnOk result (ops.new ≡ ops.old ++ code_in
        (layer.Send signal to values.now fresh) at.now spot) }
{
    let start = address_plus(spot.start, 1)?;
    push_all(ops, &[Op::Stmt { p: spot.point }])?;
    let delivery = Delivery {
        signal,
        values,
        arm: Arm::Send { signal, fresh },
    };
    push_to(alloc, to, &delivery, start, at, ops)
}

/// Appends the instruction by which the outgoing values go.
#[tactic(auto, using(crate::proofs::SignalSteps::sending))]
pub fn push_send(
    signal: u32,
    block: u32,
    fresh: bool,
    at: &Setting<'_>,
    ops: &mut Seq<Op>,
) -> Result<(), Memory>
    ensures { OnOk result (ops.new ≡ ops.old ++ send_code (slice_get
        (places_in at.now).signals signal) signal block fresh (places_in at.now)) }
{
    let Some(kind) = at.signal(signal) else {
        return Ok(());
    };
    match kind {
        SignalKind::Buffered { level, .. } => push_all(
            ops,
            &[Op::Snd {
                q: queue_number(fresh),
                x: at.entry(block, signal),
                l: level_number(*level),
            }],
        ),
        SignalKind::Direct { .. } => {
            let there = at.enter(block, signal)?;
            push_all(ops, &[Op::Dir { a: there }])
        }
        SignalKind::Combined { answer, .. } => {
            let there = at.enter(block, signal)?;
            push_all(
                ops,
                &[Op::Call {
                    a: there,
                    m: *answer,
                }],
            )
        }
        SignalKind::Outside { .. } => push_all(
            ops,
            &[Op::Snd {
                q: 2,
                x: signal,
                l: 0,
            }],
        ),
        SignalKind::Answer { .. } => Ok(()),
    }
}

/// How a send goes to an entry: in the job's forlopp or in a new one.
fn queue_number(fresh: bool) -> u8
    ensures { result ≡ number_of_queue fresh }
{
    if fresh { 1 } else { 0 }
}

/// The number of a level, from 0 for A.
fn level_number(level: Level) -> u8
    ensures { result ≡ number_of_level level }
{
    match level {
        Level::A => 0,
        Level::B => 1,
        Level::C => 2,
        Level::D => 3,
    }
}

/// The temporaries get the values of the answer.
#[tactic(auto, using(crate::proofs::Inside::retrieve_temps_few, crate::proofs::SignalSteps::retrieve_is))]
pub fn retrieve(
    answer: u32,
    temps: &Seq<u8>,
    at: &Setting<'_>,
    spot: Spot,
    ops: &mut Seq<Op>,
) -> Result<(), Memory>
    requires { IsIn at.now spot.loops (layer.Retrieve answer temps.now) }
    ensures { OnOk result (ops.new ≡ ops.old ++ code_in
        (layer.Retrieve answer temps.now) at.now spot) }
{
    push_all(ops, &[Op::Stmt { p: spot.point }])?;
    push_retrieves(temps.as_slice(), ops)
}

/// Appends the code by which temporaries get the answer values.
#[tactic(auto, using(crate::proofs::SignalSteps::retrieves_more, crate::proofs::SignalSteps::retrieves_end))]
fn push_retrieves(temps: &[u8], ops: &mut Seq<Op>) -> Result<(), Memory>
    requires { length temps.now ≤ MOST_VALUES }
    ensures { OnOk result (ops.new ≡ ops.old ++ retrieve_code 0 temps.now) }
{
    for (k, temp) in temps.iter().enumerate() {
        push_all(
            ops,
            &[Op::Lda { r: 0, k: k as u8 }, Op::Stt { i: *temp, r: 0 }],
        )?;
    }
    Ok(())
}

/// The sender that waits gets an answer with values.
#[tactic(auto, using(crate::proofs::Inside::return_values, crate::proofs::SignalSteps::answer_sent_is))]
pub fn answer(
    answer: u32,
    values: &Seq<Expr>,
    at: &Setting<'_>,
    spot: Spot,
    ops: &mut Seq<Op>,
) -> Result<(), Memory>
    requires { IsIn at.now spot.loops (layer.Return answer values.now) }
    ensures { OnOk result (ops.new ≡ ops.old ++ code_in
        (layer.Return answer values.now) at.now spot) }
{
    push_all(ops, &[Op::Stmt { p: spot.point }])?;
    push_values(values, at, 0, ops)?;
    push_all(ops, &[Op::Ret { m: answer }])
}

/// The entry values go on to another block.
#[tactic(auto, using(crate::proofs::Inside::transfer_reached, crate::proofs::Inside::no_values, crate::proofs::SignalSteps::transfer_is))]
pub fn transfer(
    alloc: Global,
    signal: u32,
    to: Option<Receiver>,
    at: &Setting<'_>,
    spot: Spot,
    ops: &mut Seq<Op>,
) -> Result<(), Memory>
    requires { IsIn at.now spot.loops (layer.Transfer signal to) }
    ensures { OnOk result (ops.new ≡ ops.old ++ code_in (layer.Transfer signal to) at.now spot) }
{
    let none = Seq::new(alloc);
    let start = address_plus(spot.start, 1)?;
    push_all(ops, &[Op::Stmt { p: spot.point }])?;
    let delivery = Delivery {
        signal,
        values: &none,
        arm: Arm::Transfer { signal },
    };
    push_to(alloc, to, &delivery, start, at, ops)
}

/// Appends the instruction by which the entry values go on to a block.
#[tactic(auto, using(crate::proofs::SignalSteps::transfers))]
pub fn push_transfer(
    signal: u32,
    block: u32,
    at: &Setting<'_>,
    ops: &mut Seq<Op>,
) -> Result<(), Memory>
    ensures { OnOk result (ops.new ≡ ops.old
        ++ op.Trf ((places_in at.now).enter block signal)
        (count_in (places_in at.now) signal) ∷ []) }
{
    let there = at.enter(block, signal)?;
    let count = value_count(signal, at);
    push_all(ops, &[Op::Trf { a: there, n: count }])
}

/// How many values a signal carries; 0 where there is no such signal.
#[tactic(auto, using(crate::proofs::SignalSteps::count_none, crate::proofs::SignalSteps::count_some))]
fn value_count(signal: u32, at: &Setting<'_>) -> u32
    ensures { result ≡ count_in (places_in at.now) signal }
{
    match at.signal(signal) {
        Some(kind) => u32::from(kind.count()),
        None => 0,
    }
}
