// Conditions, and lists of values and of temporaries, with numbers for names.
ghost use Rattle.std.specs.Prelude.{◌≡◌, ◌∷◌, IfOk, map};
ghost use Rattle.block_resolver.specs.Tables.{env_in};
ghost use Rattle.resolved_block.specs.Meant.{temporary_of};
ghost use Rattle.resolved_block.specs.Expressions.{typed_cond, typed_conj, typed_expr, typed_rel};
ghost use Rattle.resolved_block.specs.Expressions.{typed_relation, typed_temps, typed_values};

use crate::expressions::make_expr;
use crate::names::Names;
use exchange_model::{Cond, Expr, Rel, Relation};
use plex_ast as tree;
use plex_num::{Memory, Seq};
use std::alloc::Global;

pub(crate) fn make_cond(alloc: Global, names: &Names<'_>, cond: &tree::Cond) -> Result<Cond, Memory>
    ensures { IfOk result (λ m. m ≡ typed_cond (env_in names.now) cond.now) }
{
    let first = make_conj(alloc, names, &cond.first)?;
    let any = make_conj_list(alloc, names, first, cond.rest.as_slice())?;
    Ok(Cond { any })
}

#[tactic(auto, using(crate::proofs::Lists::list_made))]
fn make_conj_list(
    alloc: Global,
    names: &Names<'_>,
    first: Seq<Relation>,
    rest: &[tree::Conj],
) -> Result<Seq<Seq<Relation>>, Memory>
    ensures { IfOk result (λ m. m ≡ first ∷ map (typed_conj (env_in names.now)) rest.now) }
{
    let mut any = Seq::new(alloc);
    tree::push_few(alloc, &mut any, first)?;
    for conj in rest {
        let next = make_conj(alloc, names, conj)?;
        any.push(next)?;
    }
    Ok(any)
}

fn make_conj(alloc: Global, names: &Names<'_>, conj: &tree::Conj) -> Result<Seq<Relation>, Memory>
    ensures { IfOk result (λ m. m ≡ typed_conj (env_in names.now) conj.now) }
{
    let first = make_relation(alloc, names, &conj.first)?;
    let all = make_relation_list(alloc, names, first, conj.rest.as_slice())?;
    Ok(all)
}

#[tactic(auto, using(crate::proofs::Lists::list_made))]
fn make_relation_list(
    alloc: Global,
    names: &Names<'_>,
    first: Relation,
    rest: &[tree::Relation],
) -> Result<Seq<Relation>, Memory>
    ensures { IfOk result (λ m. m ≡ first ∷ map (typed_relation (env_in names.now)) rest.now) }
{
    let mut all = Seq::new(alloc);
    tree::push_few(alloc, &mut all, first)?;
    for relation in rest {
        let next = make_relation(alloc, names, relation)?;
        all.push(next)?;
    }
    Ok(all)
}

fn make_relation(
    alloc: Global,
    names: &Names<'_>,
    relation: &tree::Relation,
) -> Result<Relation, Memory>
    ensures { IfOk result (λ m. m ≡ typed_relation (env_in names.now) relation.now) }
{
    let left = make_expr(alloc, names, &relation.left)?;
    let right = make_expr(alloc, names, &relation.right)?;
    Ok(Relation {
        left,
        rel: make_rel(relation.rel.kind),
        right,
    })
}

pub(crate) fn make_rel(kind: tree::RelKind) -> Rel
    ensures { result ≡ typed_rel kind }
{
    match kind {
        tree::RelKind::Equal => Rel::Equal,
        tree::RelKind::Unequal => Rel::Unequal,
        tree::RelKind::Below => Rel::Below,
        tree::RelKind::AtMost => Rel::AtMost,
        tree::RelKind::Above => Rel::Above,
        tree::RelKind::AtLeast => Rel::AtLeast,
    }
}

/// The values after WITH, where it stands there.
pub(crate) fn make_values(
    alloc: Global,
    names: &Names<'_>,
    values: &Option<tree::Boxed<tree::Exprs>>,
) -> Result<Seq<Expr>, Memory>
    ensures { IfOk result (λ m. m ≡ typed_values (env_in names.now) values.now) }
{
    match values {
        None => Ok(Seq::new(alloc)),
        Some(values) => {
            let values = values.get();
            let first = make_expr(alloc, names, &values.first)?;
            let made = make_value_list(alloc, names, first, values.rest.as_slice())?;
            Ok(made)
        }
    }
}

#[tactic(auto, using(crate::proofs::Lists::list_made))]
fn make_value_list(
    alloc: Global,
    names: &Names<'_>,
    first: Expr,
    rest: &[tree::Expr],
) -> Result<Seq<Expr>, Memory>
    ensures { IfOk result (λ m. m ≡ first ∷ map (typed_expr (env_in names.now)) rest.now) }
{
    let mut values = Seq::new(alloc);
    tree::push_few(alloc, &mut values, first)?;
    for e in rest {
        let value = make_expr(alloc, names, e)?;
        values.push(value)?;
    }
    Ok(values)
}

/// The temporaries after WITH, where it stands there.
pub(crate) fn make_temps(
    alloc: Global,
    names: &Names<'_>,
    list: &Option<tree::Boxed<tree::Names>>,
) -> Result<Seq<u8>, Memory>
    ensures { IfOk result (λ m. m ≡ typed_temps (env_in names.now) list.now) }
{
    match list {
        None => Ok(Seq::new(alloc)),
        Some(list) => {
            let list = list.get();
            let first = names.temporary(&list.first);
            let made = make_temp_list(alloc, names, first, list.rest.as_slice())?;
            Ok(made)
        }
    }
}

#[tactic(auto, using(crate::proofs::Lists::list_made))]
fn make_temp_list(
    alloc: Global,
    names: &Names<'_>,
    first: u8,
    rest: &[tree::Named],
) -> Result<Seq<u8>, Memory>
    ensures { IfOk result (λ m. m ≡ first ∷ map (temporary_of (env_in names.now)) rest.now) }
{
    let mut temps = Seq::new(alloc);
    temps.push(first)?;
    for name in rest {
        let temp = names.temporary(name);
        temps.push(temp)?;
    }
    Ok(temps)
}
