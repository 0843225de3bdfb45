// Conditions, whose brackets nest at most `room` deep: what nests deeper is left out.
ghost use Rattle.std.specs.Prelude.{◌≡◌, IfOk};
ghost use Rattle.plex_print.specs.PrintedExpressions.{and_text, cond_text, conj_text, or_text};
ghost use Rattle.plex_print.specs.PrintedExpressions.{rel_text, relation_text};
ghost use Rattle.plex_print.specs.Writing.{each_of};

use crate::expression::expr;
use crate::word::word;
use plex_ast::{Cond, Conj, Rel, RelKind, Relation};
use plex_num::{Memory, Seq};

/// Appends a condition.
#[tactic(auto, unfolding(crate::specs::PrintedExpressions::cond_text))]
pub fn cond(text: &mut Seq<u8>, cond: &Cond, room: usize) -> Result<(), Memory>
    ensures { IfOk result (λ _. text.new ≡ cond_text room cond.now text.old) }
{
    conj(text, &cond.first, room)?;
    or_list(text, cond.rest.as_slice(), room)
}

fn or_list(text: &mut Seq<u8>, list: &[Conj], room: usize) -> Result<(), Memory>
    ensures { IfOk result (λ _. text.new ≡ each_of (or_text room) list.now text.old) }
{
    let mut rest = list;
    'conjs: while let Some((next, left)) = rest.split_first() {
        or(text, next, room)?;
        rest = left;
    }
    Ok(())
}

#[tactic(auto, unfolding(crate::specs::PrintedExpressions::or_text))]
fn or(text: &mut Seq<u8>, next: &Conj, room: usize) -> Result<(), Memory>
    ensures { IfOk result (λ _. text.new ≡ or_text room next.now text.old) }
{
    word(text, b"OR")?;
    conj(text, next, room)
}

#[tactic(auto, unfolding(crate::specs::PrintedExpressions::conj_text))]
fn conj(text: &mut Seq<u8>, conj: &Conj, room: usize) -> Result<(), Memory>
    ensures { IfOk result (λ _. text.new ≡ conj_text room conj.now text.old) }
{
    relation(text, &conj.first, room)?;
    and_list(text, conj.rest.as_slice(), room)
}

fn and_list(text: &mut Seq<u8>, list: &[Relation], room: usize) -> Result<(), Memory>
    ensures { IfOk result (λ _. text.new ≡ each_of (and_text room) list.now text.old) }
{
    let mut rest = list;
    'relations: while let Some((next, left)) = rest.split_first() {
        and(text, next, room)?;
        rest = left;
    }
    Ok(())
}

#[tactic(auto, unfolding(crate::specs::PrintedExpressions::and_text))]
fn and(text: &mut Seq<u8>, next: &Relation, room: usize) -> Result<(), Memory>
    ensures { IfOk result (λ _. text.new ≡ and_text room next.now text.old) }
{
    word(text, b"AND")?;
    relation(text, next, room)
}

#[tactic(auto, unfolding(crate::specs::PrintedExpressions::relation_text))]
fn relation(text: &mut Seq<u8>, relation: &Relation, room: usize) -> Result<(), Memory>
    ensures { IfOk result (λ _. text.new ≡ relation_text room relation.now text.old) }
{
    expr(text, &relation.left, room)?;
    rel(text, &relation.rel)?;
    expr(text, &relation.right, room)
}

/// Appends a comparison.
#[tactic(auto, unfolding(crate::specs::PrintedExpressions::rel_text))]
pub fn rel(text: &mut Seq<u8>, rel: &Rel) -> Result<(), Memory>
    ensures { IfOk result (λ _. text.new ≡ rel_text rel.now text.old) }
{
    match rel.kind {
        RelKind::Equal => word(text, b"="),
        RelKind::Unequal => word(text, b"<>"),
        RelKind::Below => word(text, b"<"),
        RelKind::AtMost => word(text, b"<="),
        RelKind::Above => word(text, b">"),
        RelKind::AtLeast => word(text, b">="),
    }
}
