// The code of an expression.
ghost use Rattle.std.specs.Prelude.{◌≡◌, ◌+◌, ◌*◌, ◌<◌, ◌++◌, OnOk, OnErr};
ghost use Rattle.exchange_model.specs.Inside.{bracket_depth};
ghost use Rattle.exchange_model.specs.PartCounts.{term_depth, factor_own_depth};
ghost use Rattle.expr_code.specs.Code.{expr_code, term_code, factor_code, term_op as op_of_term};
ghost use Rattle.expr_code.specs.Code.{factor_op as op_of_factor};
ghost use Rattle.expr_code.specs.Sites.{IsExprOfBlock, IsTermOf, IsFactorOf, Begins, GrowsByCode};

use crate::field::push_field;
use crate::push::push_all;
use exchange_model::{Cell, Expr, Factor, FactorOp, Term};
use machine_code::Op;
use plex_num::{Memory, Seq};
use store_layout::{Layout, word_of};

/// Appends the code that leaves the value of an expression of the block in the register `first`,
/// and uses none below it. After `Memory` the list begins as before.
#[cycle(code)]
#[tactic(auto, using(crate::proofs::EmitSteps::each_term, crate::proofs::Emits::growing))]
pub fn expr_code(
    e: &Expr,
    layout: &Layout,
    block: u32,
    first: u8,
    ops: &mut Seq<Op>,
) -> Result<(), Memory>
    requires of_block { IsExprOfBlock layout.now block e.now }
    requires registers { first + (2 * bracket_depth e.now + 2) < 16 }
    ensures code { OnOk result (GrowsByCode layout.now block ops.old ops.new
        (λ site. expr_code e.now site first)) }
    ensures begins { OnErr result (Begins ops.old ops.new) }
{
    let Some((term, rest)) = e.terms.as_slice().split_first() else {
        return Ok(());
    };
    push_term(term, layout, block, first, ops)?;
    for term in rest {
        push_term(term, layout, block, first + 1, ops)?;
        push_all(ops, &[term_op(term.minus, first)])?;
    }
    Ok(())
}

/// Appends the code of a term.
#[cycle(code)]
#[tactic(auto, using(crate::proofs::EmitSteps::each_factor, crate::proofs::Emits::growing))]
fn push_term(
    term: &Term,
    layout: &Layout,
    block: u32,
    r: u8,
    ops: &mut Seq<Op>,
) -> Result<(), Memory>
    requires of_block { IsTermOf layout.now block term.now }
    requires registers { r + (2 * term_depth term.now + 1) < 16 }
    ensures code { OnOk result (GrowsByCode layout.now block ops.old ops.new
        (λ site. term_code term.now site r)) }
    ensures begins { OnErr result (Begins ops.old ops.new) }
{
    let Some((joined, rest)) = term.factors.as_slice().split_first() else {
        return Ok(());
    };
    push_factor(&joined.factor, layout, block, r, ops)?;
    for joined in rest {
        push_factor(&joined.factor, layout, block, r + 1, ops)?;
        push_all(ops, &[factor_op(joined.by, r)])?;
    }
    Ok(())
}

/// Appends the code of a factor.
#[cycle(code)]
fn push_factor(
    factor: &Factor,
    layout: &Layout,
    block: u32,
    r: u8,
    ops: &mut Seq<Op>,
) -> Result<(), Memory>
    requires of_block { IsFactorOf layout.now block factor.now }
    requires registers { r + 2 * factor_own_depth factor.now < 16 }
    ensures code { OnOk result (GrowsByCode layout.now block ops.old ops.new
        (λ site. factor_code factor.now site r)) }
    ensures begins { OnErr result (Begins ops.old ops.new) }
{
    match factor {
        Factor::Number(number) => push_all(ops, &[Op::Ldi { r, n: *number }]),
        Factor::Variable(variable) => {
            let cell = Cell::Variable {
                block,
                index: *variable,
            };
            let word = word_of(layout, cell);
            push_all(ops, &[Op::Ldw { r, w: word }])
        }
        Factor::Temporary(temp) => push_all(ops, &[Op::Ldt { r, i: *temp }]),
        Factor::Field {
            file,
            field,
            pointer,
        } => push_field(*file, *field, *pointer, layout, block, r, ops),
        Factor::Bracket(e) => expr_code(e, layout, block, r, ops),
        Factor::Reference(b) => push_all(ops, &[Op::Ldi { r, n: *b + 1 }]),
    }
}

/// What adds the term in the register after `r` to the sum in `r`, or takes it from it.
fn term_op(minus: bool, r: u8) -> Op
    requires { r < 16 }
    ensures { result ≡ op_of_term minus r (r + 1) }
{
    if minus {
        Op::Sub { r, s: r + 1 }
    } else {
        Op::Add { r, s: r + 1 }
    }
}

/// What joins the factor in the register after `r` to the product in `r`.
fn factor_op(by: FactorOp, r: u8) -> Op
    requires { r < 16 }
    ensures { result ≡ op_of_factor by r (r + 1) }
{
    match by {
        FactorOp::Times => Op::Mul { r, s: r + 1 },
        FactorOp::Divide => Op::Div { r, s: r + 1 },
        FactorOp::Modulo => Op::Rem { r, s: r + 1 },
    }
}
