// The code of a condition.
ghost use Rattle.std.specs.Prelude.{◌≡◌, ◌≤◌, ◌++◌, OnOk, OnErr};
ghost use Rattle.expr_code.specs.Code.{cond_code, all_code, relation_code, rel_op as op_of_rel};
ghost use Rattle.expr_code.specs.Sites.{IsCondOf, AreRelationsOf, IsRelationOf, Begins};
ghost use Rattle.expr_code.specs.Sites.{GrowsByCode};

use crate::expr::expr_code;
use crate::push::push_all;
use exchange_model::{Cond, Rel, Relation};
use machine_code::Op;
use plex_num::{Memory, Seq};
use store_layout::Layout;

/// The local of the result of OR so far, while further relations are evaluated.
const OR_LOCAL: u8 = 48;
/// The local of the result of AND so far, while a further relation is evaluated.
const AND_LOCAL: u8 = 49;

/// Appends the code that leaves 1 in register 0 where a condition of the block holds, else 0. It
/// may use all registers, and keeps the results of OR and AND so far in the locals 48 and 49. After
/// `Memory` the list begins as before.
#[tactic(auto, using(crate::proofs::CondSteps::each_list, crate::proofs::Emits::growing))]
pub fn cond_code(cond: &Cond, layout: &Layout, block: u32, ops: &mut Seq<Op>) -> Result<(), Memory>
    requires of_block { IsCondOf layout.now block cond.now }
    ensures code { OnOk result (GrowsByCode layout.now block ops.old ops.new
        (λ site. cond_code cond.now site)) }
    ensures begins { OnErr result (Begins ops.old ops.new) }
{
    let Some((relations, rest)) = cond.any.as_slice().split_first() else {
        return push_all(ops, &[Op::Ldi { r: 0, n: 0 }]);
    };
    push_relations(relations.as_slice(), layout, block, ops)?;
    for relations in rest {
        push_all(ops, &[Op::Stt { i: OR_LOCAL, r: 0 }])?;
        push_relations(relations.as_slice(), layout, block, ops)?;
        push_all(ops, &[Op::Ldt { r: 1, i: OR_LOCAL }, Op::Or { r: 0, s: 1 }])?;
    }
    Ok(())
}

/// Appends the code that leaves 1 in register 0 where all these relations hold, else 0.
#[tactic(auto, using(crate::proofs::CondSteps::each_relation, crate::proofs::Emits::growing))]
fn push_relations(
    relations: &[Relation],
    layout: &Layout,
    block: u32,
    ops: &mut Seq<Op>,
) -> Result<(), Memory>
    requires of_block { AreRelationsOf layout.now block relations.now }
    ensures code { OnOk result (GrowsByCode layout.now block ops.old ops.new
        (λ site. all_code relations.now site)) }
    ensures begins { OnErr result (Begins ops.old ops.new) }
{
    let Some((relation, rest)) = relations.split_first() else {
        return push_all(ops, &[Op::Ldi { r: 0, n: 1 }]);
    };
    push_relation(relation, layout, block, ops)?;
    for relation in rest {
        push_all(ops, &[Op::Stt { i: AND_LOCAL, r: 0 }])?;
        push_relation(relation, layout, block, ops)?;
        push_all(
            ops,
            &[Op::Ldt { r: 1, i: AND_LOCAL }, Op::And { r: 0, s: 1 }],
        )?;
    }
    Ok(())
}

/// Appends the code that leaves 1 in register 0 where the relation holds, else 0.
#[tactic(auto, using(crate::proofs::CondSteps::relation_is, crate::proofs::Emits::growing))]
fn push_relation(
    relation: &Relation,
    layout: &Layout,
    block: u32,
    ops: &mut Seq<Op>,
) -> Result<(), Memory>
    requires of_block { IsRelationOf layout.now block relation.now }
    ensures code { OnOk result (GrowsByCode layout.now block ops.old ops.new
        (λ site. relation_code relation.now site)) }
    ensures begins { OnErr result (Begins ops.old ops.new) }
{
    expr_code(&relation.left, layout, block, 0, ops)?;
    expr_code(&relation.right, layout, block, 1, ops)?;
    push_all(ops, &[rel_op(relation.rel, 0, 1)])
}

/// What compares the register `r` with `s`, and leaves 1 or 0 in `r`.
pub fn rel_op(rel: Rel, r: u8, s: u8) -> Op
    ensures { result ≡ op_of_rel rel r s }
{
    match rel {
        Rel::Equal => Op::Eq { r, s },
        Rel::Unequal => Op::Ne { r, s },
        Rel::Below => Op::Lt { r, s },
        Rel::AtMost => Op::Le { r, s },
        Rel::Above => Op::Gt { r, s },
        Rel::AtLeast => Op::Ge { r, s },
    }
}
