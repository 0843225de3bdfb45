// Jumps, choices, loops and ends.
ghost use Rattle.std.specs.Prelude.{◌≡◌, ◌+◌, ◌*◌, ◌≤◌, ◌∷◌, [], ◌++◌, length, OnOk};
ghost use Rattle.plex_limits.specs.declared.limits.TheConstants.{MOST_NESTED, MOST_VALUES};
ghost use Rattle.exchange_model.specs.declared.stmt.StmtKind.TheOpen as layer;
ghost use Rattle.machine_code.specs.declared.op.Op.TheVariants as op;
ghost use Rattle.stmt_code.specs.StmtCode.{bounds_code, past_code, takes_code, turns_code};
ghost use Rattle.code_gen.specs.Choices.{choice_codes};
ghost use Rattle.code_gen.specs.Settings.{IsIn, code_in};

use crate::addresses::address_after;
use crate::setting::{Setting, Spot};
use crate::value::{push_code, test_code};
use exchange_model::Cond;
use expr_code::push_all;
use machine_code::Op;
use plex_num::{Memory, Seq};
use std::alloc::Global;
use stmt_code::{FIRST_LOOP_LOCAL, NEXT_LENGTH, TURN_LENGTH};

/// An ENTER: it is jumped over from above, and a signal enters behind the jump.
#[tactic(auto, using(crate::proofs::Inside::enter_temps_few, crate::proofs::ControlSteps::enter_is))]
pub fn enter(
    alloc: Global,
    signal: u32,
    temps: &Seq<u8>,
    at: &Setting<'_>,
    spot: Spot,
    ops: &mut Seq<Op>,
) -> Result<(), Memory>
    requires { IsIn at.now spot.loops (layer.Enter signal temps.now) }
    ensures { OnOk result (ops.new ≡ ops.old ++ code_in
        (layer.Enter signal temps.now) at.now spot) }
{
    let mut takes = Seq::new(alloc);
    push_takes(temps.as_slice(), &mut takes)?;
    let past = address_after(spot.start, takes.len(), 2)?;
    push_all(ops, &[Op::Jmp { a: past }, Op::Stmt { p: spot.point }])?;
    push_code(&takes, ops)
}

/// Appends the code by which temporaries get the entry values.
#[tactic(auto, using(crate::proofs::ControlSteps::takes_more, crate::proofs::ControlSteps::takes_end))]
fn push_takes(temps: &[u8], ops: &mut Seq<Op>) -> Result<(), Memory>
    requires { length temps.now ≤ MOST_VALUES }
    ensures { OnOk result (ops.new ≡ ops.old ++ takes_code 0 temps.now) }
{
    for (k, temp) in temps.iter().enumerate() {
        push_all(
            ops,
            &[Op::Lde { r: 0, k: k as u8 }, Op::Stt { i: *temp, r: 0 }],
        )?;
    }
    Ok(())
}

/// A jump to a label.
pub fn goto(label: u32, at: &Setting<'_>, spot: Spot, ops: &mut Seq<Op>) -> Result<(), Memory>
    ensures { OnOk result (ops.new ≡ ops.old ++ code_in (layer.Goto label) at.now spot) }
{
    push_all(
        ops,
        &[Op::Stmt { p: spot.point }, Op::Jmp { a: at.label(label) }],
    )
}

/// A jump to a label where a condition holds.
#[tactic(auto, using(crate::proofs::Inside::if_goto_test, crate::proofs::ControlSteps::if_goto_is))]
pub fn if_goto(
    alloc: Global,
    cond: &Cond,
    label: u32,
    at: &Setting<'_>,
    spot: Spot,
    ops: &mut Seq<Op>,
) -> Result<(), Memory>
    requires { IsIn at.now spot.loops (layer.IfGoto cond.now label) }
    ensures { OnOk result (ops.new ≡ ops.old ++ code_in (layer.IfGoto cond.now label) at.now spot) }
{
    let test = test_code(alloc, cond, at)?;
    let next = address_after(spot.start, test.len(), 3)?;
    let there = at.label(label);
    push_all(ops, &[Op::Stmt { p: spot.point }])?;
    push_code(&test, ops)?;
    push_all(ops, &[Op::Jz { r: 0, a: next }, Op::Jmp { a: there }])
}

/// The end of an activation.
pub fn exit(spot: Spot, ops: &mut Seq<Op>) -> Result<(), Memory>
    ensures { OnOk result (ops.new ≡ ops.old ++ (op.Stmt spot.point ∷ op.End ∷ [])) }
{
    push_all(ops, &[Op::Stmt { p: spot.point }, Op::End])
}

/// One of two lists, by whether register 0 is 0 after the test: the code of the other one stands at
/// `no_at`, and `both` tells whether that one has a statement.
#[tactic(auto, using(crate::proofs::ControlSteps::branches_are))]
pub fn push_branches(
    point: u32,
    test: &Seq<Op>,
    yes: &Seq<Op>,
    both: bool,
    no_at: u32,
    no: &Seq<Op>,
    ops: &mut Seq<Op>,
) -> Result<(), Memory>
    ensures { OnOk result (ops.new ≡ ops.old ++ (op.Stmt point ∷ (test.now ++ (op.Jz 0 no_at ∷
        (yes.now ++ (past_code both (no_at + length no.now) ++ no.now)))))) }
{
    let end = address_after(no_at, no.len(), 0)?;
    push_all(ops, &[Op::Stmt { p: point }])?;
    push_code(test, ops)?;
    push_all(ops, &[Op::Jz { r: 0, a: no_at }])?;
    push_code(yes, ops)?;
    push_past(both, end, ops)?;
    push_code(no, ops)
}

/// Appends the jump from the end of the first list of an IF past the other one, where that has a
/// statement.
#[tactic(auto, using(crate::proofs::ControlSteps::pasts))]
fn push_past(both: bool, end: u32, ops: &mut Seq<Op>) -> Result<(), Memory>
    ensures { OnOk result (ops.new ≡ ops.old ++ past_code both end) }
{
    if both {
        push_all(ops, &[Op::Jmp { a: end }])
    } else {
        Ok(())
    }
}

/// How many instructions that jump is.
pub fn past_length(both: bool) -> u32
    ensures { result ≡ length (past_code both 0) }
{
    if both { 1 } else { 0 }
}

/// A choice of a CASE with its code: the number, the address behind it, and the code of its list.
#[derive(Drop)]
pub struct Choice {
    pub number: u32,
    pub next: u32,
    pub body: Seq<Op>,
}

/// The choices of a CASE in their order, and the address behind them.
#[derive(Drop)]
pub struct Choices {
    pub list: Seq<Choice>,
    pub next: u32,
}

/// A CASE: the value goes into register 0, and the choices and at last the other list follow.
#[tactic(auto, using(crate::proofs::ControlSteps::case_parts))]
pub fn push_case(
    point: u32,
    value: &Seq<Op>,
    choices: &Choices,
    other: &Seq<Op>,
    ops: &mut Seq<Op>,
) -> Result<(), Memory>
    ensures { OnOk result (ops.new ≡ ops.old ++ (op.Stmt point ∷ (value.now ++
        (choice_codes choices.now.list (choices.now.next + length other.now) ++ other.now)))) }
{
    let end = address_after(choices.next, other.len(), 0)?;
    push_all(ops, &[Op::Stmt { p: point }])?;
    push_code(value, ops)?;
    push_choices(choices.list.as_slice(), end, ops)?;
    push_code(other, ops)
}

/// Appends the code of choices, behind each of which is a jump to the end.
#[tactic(auto, using(crate::proofs::ControlSteps::choices_more, crate::proofs::ControlSteps::choices_end))]
pub fn push_choices(choices: &[Choice], end: u32, ops: &mut Seq<Op>) -> Result<(), Memory>
    ensures { OnOk result (ops.new ≡ ops.old ++ choice_codes choices.now end) }
{
    for choice in choices {
        push_choice(choice, end, ops)?;
    }
    Ok(())
}

/// Appends the code of one choice.
#[tactic(auto, using(crate::proofs::ControlSteps::choice_is))]
fn push_choice(choice: &Choice, end: u32, ops: &mut Seq<Op>) -> Result<(), Memory>
    ensures { OnOk result (ops.new ≡ ops.old ++ choice_codes (choice.now ∷ []) end) }
{
    push_all(
        ops,
        &[
            Op::Ldi {
                r: 1,
                n: choice.number,
            },
            Op::Eq { r: 1, s: 0 },
            Op::Jz {
                r: 1,
                a: choice.next,
            },
        ],
    )?;
    push_code(&choice.body, ops)?;
    push_all(ops, &[Op::Jmp { a: end }])
}

/// Appends the turns of a loop, the code of which begins at `head`, where register 0 has its
/// number: the number is compared before one is added to it, so that it never passes 2^32.
#[tactic(auto, using(crate::proofs::ControlSteps::turns_are))]
pub fn push_turns(
    point: u32,
    temp: u8,
    loops: u8,
    head: u32,
    body: &Seq<Op>,
    ops: &mut Seq<Op>,
) -> Result<(), Memory>
    requires { loops ≤ MOST_NESTED }
    ensures { OnOk result (ops.new ≡ ops.old ++ turns_code point temp loops head body.now) }
{
    let turn = FIRST_LOOP_LOCAL + 2 * loops;
    let last = turn + 1;
    let exit = address_after(head, body.len(), TURN_LENGTH + NEXT_LENGTH)?;
    push_all(ops, &[Op::Stmt { p: point }, Op::Stt { i: temp, r: 0 }])?;
    push_code(body, ops)?;
    push_all(
        ops,
        &[
            Op::Ldt { r: 0, i: turn },
            Op::Ldt { r: 1, i: last },
            Op::Gt { r: 1, s: 0 },
            Op::Jz { r: 1, a: exit },
            Op::Add { r: 0, s: 1 },
            Op::Stt { i: turn, r: 0 },
            Op::Jmp { a: head },
        ],
    )
}

/// Appends what comes before the turns of a loop: the bounds go into its two locals, and where
/// there is no turn it is left. The first bound stays in register 0.
#[tactic(auto, using(crate::proofs::ControlSteps::bounds_are))]
pub fn push_bounds(
    point: u32,
    loops: u8,
    from: &Seq<Op>,
    upto: &Seq<Op>,
    exit: u32,
    ops: &mut Seq<Op>,
) -> Result<(), Memory>
    requires { loops ≤ MOST_NESTED }
    ensures { OnOk result (ops.new ≡ ops.old ++ (op.Stmt point ∷ (from.now ++
        (upto.now ++ bounds_code loops exit)))) }
{
    let turn = FIRST_LOOP_LOCAL + 2 * loops;
    push_all(ops, &[Op::Stmt { p: point }])?;
    push_code(from, ops)?;
    push_code(upto, ops)?;
    push_all(
        ops,
        &[
            Op::Stt { i: turn, r: 0 },
            Op::Stt { i: turn + 1, r: 1 },
            Op::Ge { r: 1, s: 0 },
            Op::Jz { r: 1, a: exit },
        ],
    )
}
