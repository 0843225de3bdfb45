// Expressions, whose brackets nest at most `room` deep: what nests deeper is left out.
ghost use Rattle.std.specs.Prelude.{◌≡◌, IfOk};
ghost use Rattle.plex_print.specs.PrintedExpressions.{added_text, expr_text, factor_text};
ghost use Rattle.plex_print.specs.PrintedExpressions.{inside_text, multiplied_text, term_text};
ghost use Rattle.plex_print.specs.Writing.{each_of};

use crate::word::{name, number, word};
use plex_ast::{Added, Expr, Factor, FactorKind, Multiplied, Term};
use plex_num::{Memory, Seq};

/// Appends an expression.
#[cycle(expressions)]
#[tactic(auto, unfolding(crate::specs::PrintedExpressions::expr_text))]
pub fn expr(text: &mut Seq<u8>, expr: &Expr, room: usize) -> Result<(), Memory>
    ensures { IfOk result (λ _. text.new ≡ expr_text room expr.now text.old) }
{
    term(text, &expr.first, room)?;
    added_list(text, expr.rest.as_slice(), room)
}

#[cycle(expressions)]
fn added_list(text: &mut Seq<u8>, list: &[Added], room: usize) -> Result<(), Memory>
    ensures { IfOk result (λ _. text.new ≡ each_of (added_text room) list.now text.old) }
{
    let mut rest = list;
    'terms: while let Some((next, left)) = rest.split_first() {
        added(text, next, room)?;
        rest = left;
    }
    Ok(())
}

#[cycle(expressions)]
#[tactic(auto, unfolding(crate::specs::PrintedExpressions::added_text))]
fn added(text: &mut Seq<u8>, added: &Added, room: usize) -> Result<(), Memory>
    ensures { IfOk result (λ _. text.new ≡ added_text room added.now text.old) }
{
    match added {
        Added::Plus(next) => {
            word(text, b"+")?;
            term(text, next, room)
        }
        Added::Minus(next) => {
            word(text, b"-")?;
            term(text, next, room)
        }
    }
}

#[cycle(expressions)]
#[tactic(auto, unfolding(crate::specs::PrintedExpressions::term_text))]
fn term(text: &mut Seq<u8>, term: &Term, room: usize) -> Result<(), Memory>
    ensures { IfOk result (λ _. text.new ≡ term_text room term.now text.old) }
{
    factor(text, &term.first, room)?;
    multiplied_list(text, term.rest.as_slice(), room)
}

#[cycle(expressions)]
fn multiplied_list(text: &mut Seq<u8>, list: &[Multiplied], room: usize) -> Result<(), Memory>
    ensures { IfOk result (λ _. text.new ≡ each_of (multiplied_text room) list.now text.old) }
{
    let mut rest = list;
    'factors: while let Some((next, left)) = rest.split_first() {
        multiplied(text, next, room)?;
        rest = left;
    }
    Ok(())
}

#[cycle(expressions)]
#[tactic(auto, unfolding(crate::specs::PrintedExpressions::multiplied_text))]
fn multiplied(text: &mut Seq<u8>, multiplied: &Multiplied, room: usize) -> Result<(), Memory>
    ensures { IfOk result (λ _. text.new ≡ multiplied_text room multiplied.now text.old) }
{
    match multiplied {
        Multiplied::Times(next) => {
            word(text, b"*")?;
            factor(text, next, room)
        }
        Multiplied::Over(next) => {
            word(text, b"/")?;
            factor(text, next, room)
        }
        Multiplied::Mod(next) => {
            word(text, b"MOD")?;
            factor(text, next, room)
        }
    }
}

#[cycle(expressions)]
#[tactic(auto, unfolding(crate::specs::PrintedExpressions::factor_text))]
fn factor(text: &mut Seq<u8>, factor: &Factor, room: usize) -> Result<(), Memory>
    ensures { IfOk result (λ _. text.new ≡ factor_text room factor.now text.old) }
{
    match &factor.kind {
        FactorKind::Number(value) => number(text, value),
        FactorKind::Name(variable) => name(text, variable),
        FactorKind::Field {
            name: field,
            pointer,
        } => {
            name(text, field.get())?;
            word(text, b"(")?;
            name(text, pointer.get())?;
            word(text, b")")
        }
        FactorKind::Bracket(held) => {
            word(text, b"(")?;
            inside(text, held.get(), room)?;
            word(text, b")")
        }
        FactorKind::Reference { block } => {
            word(text, b"REFERENCE")?;
            name(text, block)
        }
    }
}

/// What a bracket holds.
#[cycle(expressions)]
#[tactic(auto, using(crate::proofs::Words::inside_none, crate::proofs::Words::inside_some))]
fn inside(text: &mut Seq<u8>, held: &Expr, room: usize) -> Result<(), Memory>
    ensures { IfOk result (λ _. text.new ≡ inside_text room held.now text.old) }
{
    if room == 0 {
        return Ok(());
    }
    expr(text, held, room - 1)
}
