// The code of the expressions of a statement.
ghost use Rattle.std.specs.Prelude.{◌≡◌, ◌≤◌, ◌++◌, IfOk, OnOk};
ghost use Rattle.std.specs.List.{AllByRecursion};
ghost use Rattle.expr_code.specs.Code.{expr_code as code_of_expr, cond_code as code_of_cond};
ghost use Rattle.stmt_code.specs.StmtCode.{values_code};
ghost use Rattle.code_gen.specs.Settings.{IsTestIn, IsValueIn, places_in};

use crate::setting::Setting;
use exchange_model::{Cond, Expr};
use expr_code::{cond_code, expr_code, push_all};
use machine_code::Op;
use plex_num::{Memory, Seq};
use std::alloc::Global;

/// Appends the code that leaves the value of an expression in register 0 or 1.
#[tactic(auto, using(crate::proofs::Inside::expr_of, crate::proofs::Inside::value_grows, crate::proofs::Inside::value_registers))]
pub fn push_value(
    value: &Expr,
    at: &Setting<'_>,
    first: u8,
    ops: &mut Seq<Op>,
) -> Result<(), Memory>
    requires inside { IsValueIn at.now value.now }
    requires register { first ≤ 1 }
    ensures { OnOk result (ops.new ≡ ops.old ++ code_of_expr value.now
        (places_in at.now).site first) }
{
    expr_code(value, at.layout, at.block, first, ops)
}

/// Appends code.
pub fn push_code(code: &Seq<Op>, ops: &mut Seq<Op>) -> Result<(), Memory>
    ensures { OnOk result (ops.new ≡ ops.old ++ code.now) }
{
    push_all(ops, code.as_slice())
}

/// The code that leaves the value of an expression in register 0 or 1.
pub fn value_code(
    alloc: Global,
    value: &Expr,
    at: &Setting<'_>,
    first: u8,
) -> Result<Seq<Op>, Memory>
    requires inside { IsValueIn at.now value.now }
    requires register { first ≤ 1 }
    ensures { IfOk result (λ ops. ops ≡ code_of_expr value.now (places_in at.now).site first) }
{
    let mut ops = Seq::new(alloc);
    push_value(value, at, first, &mut ops)?;
    Ok(ops)
}

/// The code that leaves 1 in register 0 where a condition holds, else 0.
#[tactic(auto, using(crate::proofs::Inside::cond_of, crate::proofs::Inside::test_grows))]
pub fn test_code(alloc: Global, test: &Cond, at: &Setting<'_>) -> Result<Seq<Op>, Memory>
    requires { IsTestIn at.now test.now }
    ensures { IfOk result (λ ops. ops ≡ code_of_cond test.now (places_in at.now).site) }
{
    let mut ops = Seq::new(alloc);
    cond_code(test, at.layout, at.block, &mut ops)?;
    Ok(ops)
}

/// Appends the code by which values join the outgoing ones, by way of register 0 or 1.
#[tactic(auto, using(crate::proofs::Parts::values_begin, crate::proofs::Parts::values_more, crate::proofs::Parts::values_end, crate::proofs::Inside::value_in))]
pub fn push_values(
    values: &Seq<Expr>,
    at: &Setting<'_>,
    first: u8,
    ops: &mut Seq<Op>,
) -> Result<(), Memory>
    requires inside { AllByRecursion (IsValueIn at.now) values.now }
    requires register { first ≤ 1 }
    ensures { OnOk result (ops.new ≡ ops.old ++ values_code values.now
        (places_in at.now).site first) }
{
    for value in values.as_slice() {
        push_value(value, at, first, ops)?;
        push_all(ops, &[Op::Arg { r: first }])?;
    }
    Ok(())
}
