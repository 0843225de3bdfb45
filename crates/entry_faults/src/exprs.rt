// The expressions of a statement itself, one by one.
ghost use Rattle.std.specs.Prelude.{◌≡◌, ◌∷◌, ◌++◌, [], map, IfOk, OnOk};
ghost use Rattle.exchange_model.specs.declared.stmt.StmtKind.{out-StmtKind};
ghost use Rattle.exchange_model.specs.Inside.{cond_exprs, own_exprs, relation_exprs};
ghost use Rattle.entry_faults.specs.Exprs.{AddsExprs, expr_seen, exprs_seen};

use exchange_model::{Cond, Expr, Relation, StmtKind};
use plex_num::{Memory, Seq};
use std::alloc::Global;

/// The expressions of a statement, as it has them.
#[derive(Clone, Copy)]
pub enum Exprs<'a> {
    None,
    One(&'a Expr),
    Two(&'a Expr, &'a Expr),
    Condition(&'a Cond),
    Values(&'a [Expr]),
}

/// One expression.
#[derive(Clone, Copy)]
pub struct ExprAt<'a> {
    pub expr: &'a Expr,
}

fn exprs_in(kind: &StmtKind) -> Exprs<'_>
    ensures { exprs_seen result ≡ own_exprs (out-StmtKind kind.now) }
{
    match kind {
        StmtKind::SetTemp { value, .. } => Exprs::One(value),
        StmtKind::SetVariable { value, .. } => Exprs::One(value),
        StmtKind::SetField { value, .. } => Exprs::One(value),
        StmtKind::IfGoto { cond, .. } => Exprs::Condition(cond),
        StmtKind::If { cond, .. } => Exprs::Condition(cond),
        StmtKind::Case { value, .. } => Exprs::One(value),
        StmtKind::On { from, upto, .. } => Exprs::Two(from, upto),
        StmtKind::ForFirst { value, .. } => Exprs::One(value),
        StmtKind::Send { values, .. } => Exprs::Values(values.as_slice()),
        StmtKind::Return { values, .. } => Exprs::Values(values.as_slice()),
        StmtKind::Enter { .. } => Exprs::None,
        StmtKind::Goto { .. } => Exprs::None,
        StmtKind::Retrieve { .. } => Exprs::None,
        StmtKind::Transfer { .. } => Exprs::None,
        StmtKind::Seize { .. } => Exprs::None,
        StmtKind::Free { .. } => Exprs::None,
        StmtKind::Exit => Exprs::None,
        StmtKind::Finish => Exprs::None,
    }
}

/// The expressions of a statement itself.
pub fn exprs_of(alloc: Global, kind: &StmtKind) -> Result<Seq<ExprAt<'_>>, Memory>
    ensures { IfOk result (λ exprs. map expr_seen exprs ≡ own_exprs (out-StmtKind kind.now)) }
{
    let mut exprs = Seq::new(alloc);
    push_exprs(&exprs_in(kind), &mut exprs)?;
    Ok(exprs)
}

fn push_exprs<'a>(found: &Exprs<'a>, exprs: &mut Seq<ExprAt<'a>>) -> Result<(), Memory>
    ensures { OnOk result (AddsExprs exprs.old exprs.new (exprs_seen found.now)) }
{
    match found {
        Exprs::None => Ok(()),
        Exprs::One(expr) => push_expr(expr, exprs),
        Exprs::Two(first, second) => {
            push_expr(first, exprs)?;
            push_expr(second, exprs)?;
            Ok(())
        }
        Exprs::Condition(cond) => push_condition(cond, exprs),
        Exprs::Values(values) => push_values(values, exprs),
    }
}

#[tactic(auto, using(crate::proofs::Listing::adds_one))]
fn push_expr<'a>(expr: &'a Expr, exprs: &mut Seq<ExprAt<'a>>) -> Result<(), Memory>
    ensures { OnOk result (AddsExprs exprs.old exprs.new (expr.now ∷ [])) }
{
    exprs.push(ExprAt { expr })?;
    Ok(())
}

fn push_values<'a>(values: &'a [Expr], exprs: &mut Seq<ExprAt<'a>>) -> Result<(), Memory>
    ensures { OnOk result (AddsExprs exprs.old exprs.new values.now) }
{
    for value in values {
        push_expr(value, exprs)?;
    }
    Ok(())
}

fn push_condition<'a>(cond: &'a Cond, exprs: &mut Seq<ExprAt<'a>>) -> Result<(), Memory>
    ensures { OnOk result (AddsExprs exprs.old exprs.new (cond_exprs cond.now)) }
{
    for relations in cond.any.as_slice() {
        push_relations(relations.as_slice(), exprs)?;
    }
    Ok(())
}

fn push_relations<'a>(relations: &'a [Relation], exprs: &mut Seq<ExprAt<'a>>) -> Result<(), Memory>
    ensures { OnOk result (AddsExprs exprs.old exprs.new (relation_exprs relations.now)) }
{
    for relation in relations {
        push_expr(&relation.left, exprs)?;
        push_expr(&relation.right, exprs)?;
    }
    Ok(())
}
