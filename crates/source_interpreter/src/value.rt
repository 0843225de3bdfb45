// The value of an expression, and whether a condition holds.
ghost use Rattle.std.specs.Prelude.{◌≡◌, ◌+◌, ◌<◌};
ghost use Rattle.source_meaning.specs.Value.{expr_value, term_value, factor_value, summed, joined};
ghost use Rattle.source_meaning.specs.Value.{answer_of, cond_value, all_value, relation_value};
ghost use Rattle.source_interpreter.specs.Checks.{bit_of};
ghost use Rattle.plex_limits.specs.declared.limits.TheConstants.{MOST_BLOCKS};
ghost use Rattle.exchange_model.specs.PartFits.{TermFits};
ghost use Rattle.source_interpreter.specs.Kept.{IsOf, IsExprOfText, IsFactorOfText};
ghost use Rattle.source_interpreter.specs.Kept.{IsRelationOfText, AreRelationsOfText, IsCondOfText};

use crate::view::View;
use exchange_model::{Cond, Expr, Factor, FactorOp, Relation, Term};
use job_types::Fault;

/// The value, or the fault that comes in its place.
#[cycle(value)]
#[tactic(auto, using(crate::proofs::Rounds::terms, crate::proofs::Texts::terms_of))]
pub fn value_of(e: &Expr, view: &View) -> Result<u32, Fault>
    requires { IsExprOfText e.now }
    ensures { result ≡ answer_of (expr_value e.now view.now) }
{
    let mut sum: u32 = 0;
    for term in e.terms.as_slice() {
        let value = value_of_term(term, view)?;
        sum = summed(term.minus, sum, value);
    }
    Ok(sum)
}

#[cycle(value)]
#[tactic(auto, using(crate::proofs::Rounds::factors_begin, crate::proofs::Rounds::factors_gives, crate::proofs::Texts::factors_of))]
fn value_of_term(term: &Term, view: &View) -> Result<u32, Fault>
    requires { IsOf TermFits term.now }
    ensures { result ≡ answer_of (term_value term.now view.now) }
{
    let mut product: u32 = 1;
    for joined in term.factors.as_slice() {
        let value = value_of_factor(&joined.factor, view)?;
        product = join(joined.by, product, value)?;
    }
    Ok(product)
}

#[cycle(value)]
#[tactic(auto, using(crate::proofs::Rounds::factors, crate::proofs::Texts::bracket_of, crate::proofs::Texts::reference_below))]
fn value_of_factor(factor: &Factor, view: &View) -> Result<u32, Fault>
    requires { IsFactorOfText factor.now }
    ensures { result ≡ answer_of (factor_value factor.now view.now) }
{
    match factor {
        Factor::Number(number) => Ok(*number),
        Factor::Variable(variable) => Ok(view.variable(*variable)),
        Factor::Temporary(temp) => Ok(view.temporary(*temp)),
        Factor::Field {
            file,
            field,
            pointer,
        } => view.field(*file, *field, *pointer),
        Factor::Bracket(e) => value_of(e, view),
        Factor::Reference(block) => Ok(reference(*block)),
    }
}

// A sum so far, with a term added to it or taken from it.
fn summed(minus: bool, sum: u32, value: u32) -> u32
    ensures { result ≡ summed minus sum value }
{
    if minus {
        sum.wrapping_sub(value)
    } else {
        sum.wrapping_add(value)
    }
}

// The value of a reference.
fn reference(block: u32) -> u32
    requires { block < MOST_BLOCKS }
    ensures { result ≡ block + 1 }
{
    block + 1
}

// A product so far, joined with a factor.
fn join(by: FactorOp, product: u32, value: u32) -> Result<u32, Fault>
    ensures { result ≡ answer_of (joined by product value) }
{
    match by {
        FactorOp::Times => Ok(product.wrapping_mul(value)),
        FactorOp::Divide => product.checked_div(value).ok_or(Fault::Divide),
        FactorOp::Modulo => product.checked_rem(value).ok_or(Fault::Divide),
    }
}

/// Whether the condition holds, or the fault that comes in its place. Each of its relations is
/// evaluated.
#[tactic(auto, using(crate::proofs::Rounds::any_gives, crate::proofs::Rounds::any_fails))]
pub fn cond_of(cond: &Cond, view: &View) -> Result<bool, Fault>
    requires { IsCondOfText cond.now }
    ensures { bit_of result ≡ answer_of (cond_value cond.now view.now) }
{
    let mut any = false;
    for relations in cond.any.as_slice() {
        any |= all_hold(relations.as_slice(), view)?;
    }
    Ok(any)
}

// Whether all these relations hold.
#[tactic(auto, using(crate::proofs::Rounds::all_gives, crate::proofs::Rounds::all_fails))]
fn all_hold(relations: &[Relation], view: &View) -> Result<bool, Fault>
    requires { AreRelationsOfText relations.now }
    ensures { bit_of result ≡ answer_of (all_value relations.now 1 view.now) }
{
    let mut all = true;
    for relation in relations {
        all &= relation_holds(relation, view)?;
    }
    Ok(all)
}

// Whether a relation holds: the left side is evaluated first.
#[tactic(auto, using(crate::proofs::Rounds::relation_gives, crate::proofs::Rounds::left_fails, crate::proofs::Rounds::right_fails))]
fn relation_holds(relation: &Relation, view: &View) -> Result<bool, Fault>
    requires { IsRelationOfText relation.now }
    ensures { bit_of result ≡ answer_of (relation_value relation.now view.now) }
{
    let left = value_of(&relation.left, view)?;
    let right = value_of(&relation.right, view)?;
    Ok(relation.rel.holds(left, right))
}
