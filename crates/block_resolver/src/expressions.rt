// Expressions with numbers for names.
ghost use Rattle.std.specs.Prelude.{◌≡◌, ◌∷◌, IfOk, map};
ghost use Rattle.block_resolver.specs.Tables.{env_in};
ghost use Rattle.resolved_block.specs.Expressions.{typed_added, typed_expr, typed_factor};
ghost use Rattle.resolved_block.specs.Expressions.{typed_factor_kind, typed_multiplied, typed_term};

use crate::names::Names;
use exchange_model::{Expr, Factor, FactorOp, Joined, Term};
use plex_ast as tree;
use plex_num::{Memory, Seq};
use std::alloc::Global;

#[cycle(expressions)]
#[tactic(auto, using(resolved_block::proofs::Layers::expr_made))]
pub(crate) fn make_expr(alloc: Global, names: &Names<'_>, e: &tree::Expr) -> Result<Expr, Memory>
    ensures { IfOk result (λ m. m ≡ typed_expr (env_in names.now) e.now) }
{
    let factors = make_term(alloc, names, &e.first)?;
    let first = Term {
        minus: false,
        factors,
    };
    let terms = make_terms(alloc, names, e.rest.as_slice(), first)?;
    Ok(Expr { terms })
}

#[cycle(expressions)]
#[tactic(auto, using(crate::proofs::Lists::list_made))]
fn make_terms(
    alloc: Global,
    names: &Names<'_>,
    rest: &[tree::Added],
    first: Term,
) -> Result<Seq<Term>, Memory>
    ensures { IfOk result (λ m. m ≡ first ∷ map (typed_added (env_in names.now)) rest.now) }
{
    let mut terms = Seq::new(alloc);
    tree::push_few(alloc, &mut terms, first)?;
    for added in rest {
        let term = make_added(alloc, names, added)?;
        terms.push(term)?;
    }
    Ok(terms)
}

#[cycle(expressions)]
fn make_added(alloc: Global, names: &Names<'_>, added: &tree::Added) -> Result<Term, Memory>
    ensures { IfOk result (λ m. m ≡ typed_added (env_in names.now) added.now) }
{
    match added {
        tree::Added::Plus(term) => {
            let factors = make_term(alloc, names, term)?;
            Ok(Term {
                minus: false,
                factors,
            })
        }
        tree::Added::Minus(term) => {
            let factors = make_term(alloc, names, term)?;
            Ok(Term {
                minus: true,
                factors,
            })
        }
    }
}

#[cycle(expressions)]
#[tactic(auto, using(resolved_block::proofs::Layers::term_made))]
fn make_term(alloc: Global, names: &Names<'_>, t: &tree::Term) -> Result<Seq<Joined>, Memory>
    ensures { IfOk result (λ m. m ≡ typed_term (env_in names.now) t.now) }
{
    let factor = make_factor(alloc, names, &t.first)?;
    let first = Joined {
        by: FactorOp::Times,
        factor,
    };
    let factors = make_factors(alloc, names, t.rest.as_slice(), first)?;
    Ok(factors)
}

#[cycle(expressions)]
#[tactic(auto, using(crate::proofs::Lists::list_made))]
fn make_factors(
    alloc: Global,
    names: &Names<'_>,
    rest: &[tree::Multiplied],
    first: Joined,
) -> Result<Seq<Joined>, Memory>
    ensures { IfOk result (λ m. m ≡ first ∷ map (typed_multiplied (env_in names.now)) rest.now) }
{
    let mut factors = Seq::new(alloc);
    tree::push_few(alloc, &mut factors, first)?;
    for multiplied in rest {
        let joined = make_multiplied(alloc, names, multiplied)?;
        factors.push(joined)?;
    }
    Ok(factors)
}

#[cycle(expressions)]
fn make_multiplied(
    alloc: Global,
    names: &Names<'_>,
    multiplied: &tree::Multiplied,
) -> Result<Joined, Memory>
    ensures { IfOk result (λ m. m ≡ typed_multiplied (env_in names.now) multiplied.now) }
{
    match multiplied {
        tree::Multiplied::Times(f) => {
            let factor = make_factor(alloc, names, f)?;
            Ok(Joined {
                by: FactorOp::Times,
                factor,
            })
        }
        tree::Multiplied::Over(f) => {
            let factor = make_factor(alloc, names, f)?;
            Ok(Joined {
                by: FactorOp::Divide,
                factor,
            })
        }
        tree::Multiplied::Mod(f) => {
            let factor = make_factor(alloc, names, f)?;
            Ok(Joined {
                by: FactorOp::Modulo,
                factor,
            })
        }
    }
}

#[cycle(expressions)]
#[tactic(auto, using(resolved_block::proofs::Layers::factor_made))]
fn make_factor(alloc: Global, names: &Names<'_>, f: &tree::Factor) -> Result<Factor, Memory>
    ensures { IfOk result (λ m. m ≡ typed_factor (env_in names.now) f.now) }
{
    let factor = make_factor_kind(alloc, names, &f.kind)?;
    Ok(factor)
}

#[cycle(expressions)]
fn make_factor_kind(
    alloc: Global,
    names: &Names<'_>,
    kind: &tree::FactorKind,
) -> Result<Factor, Memory>
    ensures { IfOk result (λ m. m ≡ typed_factor_kind (env_in names.now) kind.now) }
{
    match kind {
        tree::FactorKind::Number(number) => Ok(Factor::Number(number.value)),
        tree::FactorKind::Name(name) => Ok(names.value(name)),
        tree::FactorKind::Field { name, pointer } => Ok(Factor::Field {
            file: names.field_file(name.get()),
            field: names.field_place(name.get()),
            pointer: names.temporary(pointer.get()),
        }),
        tree::FactorKind::Bracket(held) => {
            let inner = make_expr(alloc, names, held.get())?;
            Ok(Factor::Bracket(inner))
        }
        tree::FactorKind::Reference { block } => Ok(Factor::Reference(names.block(block))),
    }
}
