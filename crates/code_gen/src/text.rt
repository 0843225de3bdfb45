// The code of statements, and of the lists in them.
ghost use Rattle.std.specs.Prelude.{◌≡◌, ◌++◌, map, IfOk, OnOk};
ghost use Rattle.exchange_model.specs.declared.stmt.StmtKind.{out-StmtKind};
ghost use Rattle.stmt_code.specs.StmtCode.{codes, has_any, kind_code, stmt_code, when_code};
ghost use Rattle.code_gen.specs.Choices.{chosen, behind_choices};
ghost use Rattle.code_gen.specs.Settings.{AreIn, AreChoicesIn, IsIn, places_in};

use crate::addresses::{address_after, address_between, address_plus};
use crate::control::{
    Choice, Choices, enter, exit, goto, if_goto, past_length, push_bounds, push_branches,
    push_case, push_turns,
};
use crate::data::{set_field, set_temp, set_variable};
use crate::records::{for_first, free, seize};
use crate::setting::{Setting, Spot};
use crate::signals::{answer, retrieve, send, transfer};
use crate::value::{test_code, value_code};
use exchange_model::{Stmt, StmtKind, When};
use machine_code::Op;
use plex_num::{Memory, Seq};
use std::alloc::Global;
use stmt_code::{BOUNDS_LENGTH, COMPARE_LENGTH, NEXT_LENGTH, TURN_LENGTH};

/// The code of statements, with so many loops around them, which begins at an address.
#[cycle(emit)]
#[tactic(auto, using(crate::proofs::TextSteps::list_begin, crate::proofs::TextSteps::list_end))]
pub fn list_code(
    alloc: Global,
    list: &Seq<Stmt>,
    at: &Setting<'_>,
    loops: u8,
    start: u32,
) -> Result<Seq<Op>, Memory>
    requires { AreIn at.now loops list.now }
    ensures { IfOk result
        (λ ops. ops ≡ codes (map stmt_code list.now) (places_in at.now) loops start) }
{
    let mut ops = Seq::new(alloc);
    let mut next = start;
    for statement in list.as_slice() {
        let before = ops.len();
        let spot = Spot {
            point: statement.point,
            loops,
            start: next,
        };
        emit_kind(alloc, &statement.kind, at, spot, &mut ops)?;
        next = address_between(next, before, ops.len())?;
    }
    Ok(ops)
}

/// Appends the code of a statement.
#[cycle(emit)]
pub fn emit_kind(
    alloc: Global,
    kind: &StmtKind,
    at: &Setting<'_>,
    spot: Spot,
    ops: &mut Seq<Op>,
) -> Result<(), Memory>
    requires { IsIn at.now spot.loops (out-StmtKind kind.now) }
    ensures { OnOk result (ops.new ≡ ops.old ++ kind_code kind.now
        (places_in at.now) spot.point spot.loops spot.start) }
{
    match kind {
        StmtKind::Enter { signal, temps } => enter(alloc, *signal, temps, at, spot, ops),
        StmtKind::SetTemp { temp, value } => set_temp(*temp, value, at, spot, ops),
        StmtKind::SetVariable { variable, value } => set_variable(*variable, value, at, spot, ops),
        StmtKind::SetField {
            file,
            field,
            pointer,
            value,
        } => set_field(*file, *field, *pointer, value, at, spot, ops),
        StmtKind::Goto { label } => goto(*label, at, spot, ops),
        StmtKind::IfGoto { cond, label } => if_goto(alloc, cond, *label, at, spot, ops),
        StmtKind::If { cond, yes, no } => {
            let test = test_code(alloc, cond, at)?;
            let yes_at = address_after(spot.start, test.len(), 2)?;
            let first = list_code(alloc, yes, at, spot.loops, yes_at)?;
            let both = has_statement(no);
            let no_at = address_after(yes_at, first.len(), past_length(both))?;
            let other = list_code(alloc, no, at, spot.loops, no_at)?;
            push_branches(spot.point, &test, &first, both, no_at, &other, ops)
        }
        StmtKind::Case {
            value,
            whens,
            otherwise,
        } => {
            let test = value_code(alloc, value, at, 0)?;
            let first_at = address_after(spot.start, test.len(), 1)?;
            let choices = choices_of(alloc, whens, at, spot.loops, first_at)?;
            let last = list_code(alloc, otherwise, at, spot.loops, choices.next)?;
            push_case(spot.point, &test, &choices, &last, ops)
        }
        StmtKind::On {
            temp,
            from,
            upto,
            body,
        } => {
            let low = value_code(alloc, from, at, 0)?;
            let high = value_code(alloc, upto, at, 1)?;
            let between = address_after(spot.start, low.len(), 1)?;
            let head = address_after(between, high.len(), BOUNDS_LENGTH)?;
            let inner = address_plus(head, TURN_LENGTH)?;
            let turn = list_code(alloc, body, at, spot.loops + 1, inner)?;
            let exit = address_after(head, turn.len(), TURN_LENGTH + NEXT_LENGTH)?;
            push_bounds(spot.point, spot.loops, &low, &high, exit, ops)?;
            push_turns(spot.point, *temp, spot.loops, head, &turn, ops)
        }
        StmtKind::ForFirst {
            temp,
            file,
            field,
            rel,
            value,
            label,
        } => for_first(
            alloc, *temp, *file, *field, *rel, value, *label, at, spot, ops,
        ),
        StmtKind::Send {
            signal,
            to,
            values,
            fresh,
        } => send(alloc, *signal, *to, values, *fresh, at, spot, ops),
        StmtKind::Retrieve {
            answer: signal,
            temps,
        } => retrieve(*signal, temps, at, spot, ops),
        StmtKind::Return {
            answer: signal,
            values,
        } => answer(*signal, values, at, spot, ops),
        StmtKind::Transfer { signal, to } => transfer(alloc, *signal, *to, at, spot, ops),
        StmtKind::Seize { temp, file, label } => seize(*temp, *file, *label, at, spot, ops),
        StmtKind::Free { temp, file } => free(*temp, *file, at, spot, ops),
        StmtKind::Exit => exit(spot, ops),
        StmtKind::Finish => exit(spot, ops),
    }
}

/// Whether a list has a statement.
#[tactic(auto, using(crate::proofs::TextSteps::any_is))]
fn has_statement(list: &Seq<Stmt>) -> bool
    ensures { result ≡ has_any (map stmt_code list.now) }
{
    !list.as_slice().is_empty()
}

/// The choices of a CASE with their code, which begins at an address.
#[cycle(emit)]
#[tactic(auto, using(crate::proofs::TextSteps::choices_begin, crate::proofs::TextSteps::choices_end, crate::proofs::TextSteps::choices_behind))]
fn choices_of(
    alloc: Global,
    whens: &Seq<When>,
    at: &Setting<'_>,
    loops: u8,
    start: u32,
) -> Result<Choices, Memory>
    requires { AreChoicesIn at.now loops whens.now }
    ensures list { IfOk result
        (λ c. c.list ≡ chosen (map when_code whens.now) (places_in at.now) loops start) }
    ensures next { IfOk result
        (λ c. c.next ≡ behind_choices (map when_code whens.now) (places_in at.now) loops start) }
{
    let mut list = Seq::new(alloc);
    let mut next = start;
    for when in whens.as_slice() {
        let body_at = address_plus(next, COMPARE_LENGTH)?;
        let body = list_code(alloc, &when.body, at, loops, body_at)?;
        next = address_after(body_at, body.len(), 1)?;
        list.push(Choice {
            number: when.number,
            next,
            body,
        })?;
    }
    Ok(Choices { list, next })
}
