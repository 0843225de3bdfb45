// What expressions name.
ghost use Rattle.std.specs.Prelude.{◌∷◌, [], map, OnOk};
ghost use Rattle.exchange_model.specs.declared.stmt.StmtKind.{out-StmtKind};
ghost use Rattle.exchange_model.specs.Inside.{joined, relation_exprs};
ghost use Rattle.source_meaning.specs.Named.{named_in, named_in_factor, named_in_joined};
ghost use Rattle.source_meaning.specs.Named.{named_in_term};
ghost use Rattle.entry_accesses.specs.Operands.{HasNames, cond_names, layer_names, names_in};
ghost use Rattle.entry_accesses.specs.Operands.{relation_names};

use exchange_model::{Cond, Expr, Factor, Joined, Relation, StmtKind, Term};
use plex_num::{Memory, Seq};

/// What an expression names: a variable of its block, or a field of the record whose number a
/// temporary has.
#[derive(Clone, Copy)]
pub enum Operand {
    Variable(u32),
    Field { file: u32, field: u32, pointer: u8 },
}

/// Appends what the expressions of a statement itself name.
pub fn push_layer(kind: &StmtKind, names: &mut Seq<Operand>) -> Result<(), Memory>
    ensures { OnOk result (HasNames names.old names.new (layer_names (out-StmtKind kind.now))) }
{
    match kind {
        StmtKind::SetTemp { value, .. } => push_alone(value, names)?,
        StmtKind::SetVariable { value, .. } => push_alone(value, names)?,
        StmtKind::SetField { value, .. } => push_alone(value, names)?,
        StmtKind::IfGoto { cond, .. } => push_cond(cond, names)?,
        StmtKind::If { cond, .. } => push_cond(cond, names)?,
        StmtKind::Case { value, .. } => push_alone(value, names)?,
        StmtKind::On { from, upto, .. } => push_both(from, upto, names)?,
        StmtKind::ForFirst { value, .. } => push_alone(value, names)?,
        StmtKind::Send { values, .. } => push_exprs(values.as_slice(), names)?,
        StmtKind::Return { values, .. } => push_exprs(values.as_slice(), names)?,
        _ => {}
    }
    Ok(())
}

#[tactic(auto, using(crate::proofs::Naming::alone_named))]
fn push_alone(e: &Expr, names: &mut Seq<Operand>) -> Result<(), Memory>
    ensures { OnOk result (HasNames names.old names.new (names_in (e.now ∷ []))) }
{
    push_expr(e, names)?;
    Ok(())
}

#[tactic(auto, using(crate::proofs::Naming::both_named))]
fn push_both(first: &Expr, other: &Expr, names: &mut Seq<Operand>) -> Result<(), Memory>
    ensures { OnOk result
        (HasNames names.old names.new (names_in (first.now ∷ other.now ∷ []))) }
{
    push_expr(first, names)?;
    push_expr(other, names)?;
    Ok(())
}

fn push_exprs(values: &[Expr], names: &mut Seq<Operand>) -> Result<(), Memory>
    ensures { OnOk result (HasNames names.old names.new (names_in values.now)) }
{
    for value in values {
        push_expr(value, names)?;
    }
    Ok(())
}

fn push_cond(cond: &Cond, names: &mut Seq<Operand>) -> Result<(), Memory>
    ensures { OnOk result (HasNames names.old names.new (cond_names cond.now)) }
{
    push_choices(cond.any.as_slice(), names)?;
    Ok(())
}

fn push_choices(any: &[Seq<Relation>], names: &mut Seq<Operand>) -> Result<(), Memory>
    ensures { OnOk result (HasNames names.old names.new
        (names_in (joined (map relation_exprs any.now)))) }
{
    for relations in any {
        push_relations(relations.as_slice(), names)?;
    }
    Ok(())
}

fn push_relations(relations: &[Relation], names: &mut Seq<Operand>) -> Result<(), Memory>
    ensures { OnOk result (HasNames names.old names.new (relation_names relations.now)) }
{
    for relation in relations {
        push_both(&relation.left, &relation.right, names)?;
    }
    Ok(())
}

/// Appends what an expression names, from left to right.
#[cycle(names)]
#[tactic(auto, using(crate::proofs::Naming::expr_named))]
fn push_expr(e: &Expr, names: &mut Seq<Operand>) -> Result<(), Memory>
    ensures { OnOk result (HasNames names.old names.new (named_in e.now)) }
{
    push_terms(e.terms.as_slice(), names)?;
    Ok(())
}

#[cycle(names)]
#[tactic(auto, using(crate::proofs::Naming::names_begin))]
fn push_terms(terms: &[Term], names: &mut Seq<Operand>) -> Result<(), Memory>
    ensures { OnOk result (HasNames names.old names.new (joined (map named_in_term terms.now))) }
{
    for term in terms {
        push_term(term, names)?;
    }
    Ok(())
}

#[cycle(names)]
#[tactic(auto, using(crate::proofs::Naming::term_named))]
fn push_term(term: &Term, names: &mut Seq<Operand>) -> Result<(), Memory>
    ensures { OnOk result (HasNames names.old names.new (named_in_term term.now)) }
{
    push_factors(term.factors.as_slice(), names)?;
    Ok(())
}

#[cycle(names)]
#[tactic(auto, using(crate::proofs::Naming::names_begin))]
fn push_factors(factors: &[Joined], names: &mut Seq<Operand>) -> Result<(), Memory>
    ensures { OnOk result
        (HasNames names.old names.new (joined (map named_in_joined factors.now))) }
{
    for joined in factors {
        push_factor(&joined.factor, names)?;
    }
    Ok(())
}

#[cycle(names)]
fn push_factor(factor: &Factor, names: &mut Seq<Operand>) -> Result<(), Memory>
    ensures { OnOk result (HasNames names.old names.new (named_in_factor factor.now)) }
{
    match factor {
        Factor::Variable(variable) => names.push(Operand::Variable(*variable))?,
        Factor::Field {
            file,
            field,
            pointer,
        } => names.push(Operand::Field {
            file: *file,
            field: *field,
            pointer: *pointer,
        })?,
        Factor::Bracket(inside) => push_expr(inside, names)?,
        Factor::Number(_) => {}
        Factor::Temporary(_) => {}
        Factor::Reference(_) => {}
    }
    Ok(())
}
