// The receiver of a signal, which is named, or whose reference is held.
ghost use Rattle.std.specs.Prelude.{◌≡◌, ◌+◌, ◌∷◌, [], ◌++◌, Some, IfOk, OnOk};
ghost use Rattle.std.specs.List.{AllByRecursion};
ghost use Rattle.machine_code.specs.declared.op.Op.TheVariants as op;
ghost use Rattle.exchange_model.specs.declared.stmt.Receiver.TheVariants as receiver;
ghost use Rattle.stmt_code.specs.StmtCode.{each_receiver, holder_code, look_first, receiver_code};
ghost use Rattle.stmt_code.specs.StmtCode.{values_code};
ghost use Rattle.stmt_code.specs.Whole.{receivers_from};
ghost use Rattle.code_gen.specs.Choices.{choice_codes};
ghost use Rattle.code_gen.specs.Receivers.{arm_code, arms, behind_arms, receiver_at};
ghost use Rattle.code_gen.specs.Settings.{IsHolderIn, IsReachedIn, IsReceiverIn, IsValueIn};
ghost use Rattle.code_gen.specs.Settings.{places_in};

use crate::addresses::{address_after, address_between, address_plus};
use crate::control::{Choice, Choices, push_choices};
use crate::lookup::receives;
use crate::setting::Setting;
use crate::signals::{push_send, push_transfer};
use crate::value::push_values;
use exchange_model::{Exchange, Expr, Holder, Receiver};
use expr_code::push_all;
use machine_code::Op;
use plex_num::{Memory, Seq};
use std::alloc::Global;
use stmt_code::COMPARE_LENGTH;

/// What is done with a receiver.
#[derive(Clone, Copy)]
pub enum Arm {
    /// It is looked at alone.
    Look,
    /// The outgoing values are sent to it.
    Send { signal: u32, fresh: bool },
    /// The entry values go on to it.
    Transfer { signal: u32 },
}

/// Values that go to a receiver of a signal, and what is done with it.
#[derive(Clone, Copy)]
pub struct Delivery<'a> {
    pub signal: u32,
    pub values: &'a Seq<Expr>,
    pub arm: Arm,
}

/// Values go to a receiver of a signal by its code, which begins at `start`.
pub fn push_to(
    alloc: Global,
    to: Option<Receiver>,
    delivery: &Delivery<'_>,
    start: u32,
    at: &Setting<'_>,
    ops: &mut Seq<Op>,
) -> Result<(), Memory>
    requires values { AllByRecursion (IsValueIn at.now) delivery.now.values.now }
    requires reached { IsReachedIn at.now to }
    ensures { OnOk result (ops.new ≡ ops.old
        ++ receiver_code to ((places_in at.now).receivers delivery.now.signal)
        (places_in at.now).site delivery.now.values.now
        (arm_code delivery.now.arm (places_in at.now)) start) }
{
    match to {
        None => push_direct(0, delivery, at, ops),
        Some(receiver) => push_receiver(alloc, receiver, delivery, start, at, ops),
    }
}

/// The same for a receiver that there is.
fn push_receiver(
    alloc: Global,
    to: Receiver,
    delivery: &Delivery<'_>,
    start: u32,
    at: &Setting<'_>,
    ops: &mut Seq<Op>,
) -> Result<(), Memory>
    requires values { AllByRecursion (IsValueIn at.now) delivery.now.values.now }
    requires receiver { IsReceiverIn at.now to }
    ensures { OnOk result (ops.new ≡ ops.old
        ++ receiver_code (Some to) ((places_in at.now).receivers delivery.now.signal)
        (places_in at.now).site delivery.now.values.now
        (arm_code delivery.now.arm (places_in at.now)) start) }
{
    match to {
        Receiver::Block(block) => push_direct(block, delivery, at, ops),
        Receiver::Held(holder) => push_held(alloc, holder, delivery, start, at, ops),
    }
}

/// Values go to a block.
#[tactic(auto, using(crate::proofs::ReceiverSteps::direct_is))]
fn push_direct(
    block: u32,
    delivery: &Delivery<'_>,
    at: &Setting<'_>,
    ops: &mut Seq<Op>,
) -> Result<(), Memory>
    requires { AllByRecursion (IsValueIn at.now) delivery.now.values.now }
    ensures { OnOk result (ops.new ≡ ops.old
        ++ (values_code delivery.now.values.now (places_in at.now).site 0
        ++ arm_code delivery.now.arm (places_in at.now) block)) }
{
    push_values(delivery.values, at, 0, ops)?;
    push_arm(block, delivery.arm, at, ops)
}

/// Values go to the block whose reference is held: that is looked at before the first of them is
/// computed.
#[tactic(auto, using(crate::proofs::ReceiverSteps::held_is))]
fn push_held(
    alloc: Global,
    holder: Holder,
    delivery: &Delivery<'_>,
    start: u32,
    at: &Setting<'_>,
    ops: &mut Seq<Op>,
) -> Result<(), Memory>
    requires values { AllByRecursion (IsValueIn at.now) delivery.now.values.now }
    requires holder { IsHolderIn at.now holder }
    ensures { OnOk result (ops.new ≡ ops.old
        ++ receiver_code (Some (receiver.Held holder))
        ((places_in at.now).receivers delivery.now.signal) (places_in at.now).site
        delivery.now.values.now (arm_code delivery.now.arm (places_in at.now)) start) }
{
    let receivers = at.receivers(alloc, delivery.signal)?;
    let look_at = address_plus(start, 1)?;
    push_holder(holder, at, ops)?;
    let before = ops.len();
    push_look(alloc, &receivers, delivery.values, look_at, at, ops)?;
    push_values(delivery.values, at, 1, ops)?;
    let arms_at = address_between(look_at, before, ops.len())?;
    push_each(alloc, &receivers, delivery.arm, arms_at, at, ops)
}

/// The reference in register 0 is looked at before the first of these values, by code that begins
/// at `start`.
#[tactic(auto, using(crate::proofs::ReceiverSteps::first_none, crate::proofs::ReceiverSteps::first_some))]
fn push_look(
    alloc: Global,
    receivers: &Seq<u32>,
    values: &Seq<Expr>,
    start: u32,
    at: &Setting<'_>,
    ops: &mut Seq<Op>,
) -> Result<(), Memory>
    ensures { OnOk result (ops.new ≡ ops.old ++ look_first receivers.now values.now start) }
{
    match values.get(0) {
        Some(_) => push_each(alloc, receivers, Arm::Look, start, at, ops),
        None => Ok(()),
    }
}

/// The reference that is held goes into register 0.
#[tactic(auto, using(crate::proofs::ReceiverSteps::variable_held, crate::proofs::ReceiverSteps::variable_is, crate::proofs::ReceiverSteps::temporary_is))]
fn push_holder(holder: Holder, at: &Setting<'_>, ops: &mut Seq<Op>) -> Result<(), Memory>
    requires { IsHolderIn at.now holder }
    ensures { OnOk result (ops.new ≡ ops.old ++ holder_code holder (places_in at.now).site) }
{
    match holder {
        Holder::Temporary(temp) => push_all(ops, &[Op::Ldt { r: 0, i: temp }]),
        Holder::Variable(variable) => {
            let word = at.word(variable);
            push_all(ops, &[Op::Ldw { r: 0, w: word }])
        }
    }
}

/// The reference in register 0 is compared with that of each receiver, by code that begins at
/// `start`.
#[tactic(auto, using(crate::proofs::ReceiverSteps::each_is))]
fn push_each(
    alloc: Global,
    receivers: &Seq<u32>,
    arm: Arm,
    start: u32,
    at: &Setting<'_>,
    ops: &mut Seq<Op>,
) -> Result<(), Memory>
    ensures { OnOk result (ops.new ≡ ops.old
        ++ each_receiver receivers.now (arm_code arm (places_in at.now)) start) }
{
    let choices = arms_of(alloc, receivers, arm, start, at)?;
    push_arms(&choices, ops)
}

/// Appends receivers with their code; a reference of none of them faults.
#[tactic(auto, using(crate::proofs::ReceiverSteps::arms_end))]
fn push_arms(choices: &Choices, ops: &mut Seq<Op>) -> Result<(), Memory>
    ensures { OnOk result (ops.new ≡ ops.old
        ++ (choice_codes choices.now.list (choices.now.next + 1) ++ op.Ckp 0 0 ∷ [])) }
{
    let end = address_plus(choices.next, 1)?;
    push_choices(choices.list.as_slice(), end, ops)?;
    push_all(ops, &[Op::Ckp { r: 0, n: 0 }])
}

/// Receivers with their code, which begins at an address.
#[tactic(auto, using(crate::proofs::ReceiverSteps::each_arm))]
fn arms_of(
    alloc: Global,
    receivers: &Seq<u32>,
    arm: Arm,
    start: u32,
    at: &Setting<'_>,
) -> Result<Choices, Memory>
    ensures list { IfOk result
        (λ c. c.list ≡ arms receivers.now (arm_code arm (places_in at.now)) start) }
    ensures next { IfOk result
        (λ c. c.next ≡ behind_arms receivers.now (arm_code arm (places_in at.now)) start) }
{
    let mut list = Seq::new(alloc);
    let mut next = start;
    for block in receivers.as_slice() {
        let number = address_plus(*block, 1)?;
        let body = one_arm(alloc, *block, arm, at)?;
        next = address_after(next, body.len(), COMPARE_LENGTH + 1)?;
        list.push(Choice { number, next, body })?;
    }
    Ok(Choices { list, next })
}

/// The code of one receiver.
fn one_arm(alloc: Global, block: u32, arm: Arm, at: &Setting<'_>) -> Result<Seq<Op>, Memory>
    ensures { IfOk result (λ ops. ops ≡ arm_code arm (places_in at.now) block) }
{
    let mut ops = Seq::new(alloc);
    push_arm(block, arm, at, &mut ops)?;
    Ok(ops)
}

/// Appends the code of one receiver.
#[tactic(auto, using(crate::proofs::ReceiverSteps::look_is))]
fn push_arm(block: u32, arm: Arm, at: &Setting<'_>, ops: &mut Seq<Op>) -> Result<(), Memory>
    ensures { OnOk result (ops.new ≡ ops.old ++ arm_code arm (places_in at.now) block) }
{
    match arm {
        Arm::Look => Ok(()),
        Arm::Send { signal, fresh } => push_send(signal, block, fresh, at, ops),
        Arm::Transfer { signal } => push_transfer(signal, block, at, ops),
    }
}

/// The blocks of an exchange that receive a signal, in their order.
#[tactic(auto, using(crate::proofs::ReceiverSteps::receivers_begin, crate::proofs::ReceiverSteps::receivers_end))]
pub fn receivers_of(alloc: Global, exchange: &Exchange, signal: u32) -> Result<Seq<u32>, Memory>
    ensures { IfOk result (λ list. list ≡ receivers_from 0 signal exchange.now.blocks) }
{
    exchange.kept();
    let mut list = Seq::new(alloc);
    for (number, _block) in exchange.blocks.as_slice().iter().enumerate() {
        note_receiver(number as u32, exchange, signal, &mut list)?;
    }
    Ok(list)
}

/// Appends the number of a block that receives the signal.
#[tactic(auto, using(crate::proofs::ReceiverSteps::one_receiver, crate::proofs::ReceiverSteps::no_receiver))]
fn note_receiver(
    number: u32,
    exchange: &Exchange,
    signal: u32,
    list: &mut Seq<u32>,
) -> Result<(), Memory>
    ensures { OnOk result (list.new ≡ list.old ++ receiver_at exchange.now signal number) }
{
    if receives(exchange, number, signal) {
        return list.push(number);
    }
    Ok(())
}
