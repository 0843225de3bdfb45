// Expressions, whose brackets nest at most `room` deep.
ghost use Rattle.std.specs.Prelude.{◌≡◌, ◌++◌, ◌∷◌, []};
ghost use Rattle.token_grammar.specs.Gives.{Reads};
ghost use Rattle.token_grammar.specs.Reading.{after, many};
ghost use Rattle.plex_expr_parser.specs.Readers.{added_by, bracket_at, bracket_read, expr_read};
ghost use Rattle.plex_expr_parser.specs.Readers.{factor_read, inside_read, kind_with};
ghost use Rattle.plex_expr_parser.specs.Readers.{multiplied_by, term_read, ADD, MULTIPLY};

use crate::boxes::{boxed, few};
use crate::factor::plain;
use plex_ast::{Added, Expr, Factor, FactorKind, Few, Multiplied, Term, push_few, words};
use plex_lexer::Cursor;
use plex_num::Seq;
use std::alloc::Global;
use token_grammar::{Fault, line_of, starts, starts_in, word};

/// What begins a factor that is no bracket: a number, REFERENCE or any name.
const PLAIN: [u64; 7] = [
    words::NUMBER,
    words::REFERENCE,
    words::NAME,
    words::NAME_A,
    words::NAME_B,
    words::NAME_C,
    words::NAME_D,
];

/// An expression and the tokens after it, or where the reading stopped; brackets nest at most
/// `room` deep.
#[cycle(reading)]
#[tactic(auto, unfolding(crate::specs::Readers::expr_read, crate::specs::Readers::expr_by))]
pub fn expr(alloc: Global, tokens: Cursor<'_>, room: usize) -> Result<(Expr, Cursor<'_>), Fault>
    ensures { Reads result (expr_read room) tokens.entry }
{
    let line = line_of(tokens);
    let (first, left) = term(alloc, tokens, room)?;
    let (rest, left) = added_list(alloc, left, room)?;
    Ok((Expr { line, first, rest }, left))
}

#[cycle(reading)]
#[tactic(auto, using(crate::proofs::Loops::added_less, crate::proofs::Loops::added_on, crate::proofs::Loops::added_end, crate::proofs::Loops::added_bad))]
fn added_list(
    alloc: Global,
    tokens: Cursor<'_>,
    room: usize,
) -> Result<(Few<Added>, Cursor<'_>), Fault>
    ensures { Reads result (many ADD (added_by (term_read room))) tokens.entry }
{
    let mut left = tokens;
    let mut list = Seq::new(alloc);
    'terms: while starts_in(left, &[words::PLUS, words::MINUS]) {
        let (added, after) = added(alloc, left, room)?;
        if let Err(_) = push_few(alloc, &mut list, added) {
            return Err(Fault::Memory);
        }
        left = after;
    }
    Ok((few(alloc, list)?, left))
}

#[cycle(reading)]
#[tactic(auto, unfolding(crate::specs::Readers::added_by))]
fn added(alloc: Global, tokens: Cursor<'_>, room: usize) -> Result<(Added, Cursor<'_>), Fault>
    ensures { Reads result (added_by (term_read room)) tokens.entry }
{
    if starts(tokens, words::PLUS) {
        let (term, left) = term_after(alloc, tokens, words::PLUS, room)?;
        Ok((Added::Plus(term), left))
    } else {
        let (term, left) = term_after(alloc, tokens, words::MINUS, room)?;
        Ok((Added::Minus(term), left))
    }
}

/// A term behind this mark.
#[cycle(reading)]
fn term_after(
    alloc: Global,
    tokens: Cursor<'_>,
    mark: u64,
    room: usize,
) -> Result<(Term, Cursor<'_>), Fault>
    ensures { Reads result (after (mark ∷ []) (term_read room)) tokens.entry }
{
    let (_, left) = word(tokens, mark)?;
    term(alloc, left, room)
}

#[cycle(reading)]
#[tactic(auto, unfolding(crate::specs::Readers::term_read, crate::specs::Readers::term_by))]
fn term(alloc: Global, tokens: Cursor<'_>, room: usize) -> Result<(Term, Cursor<'_>), Fault>
    ensures { Reads result (term_read room) tokens.entry }
{
    let line = line_of(tokens);
    let (first, left) = factor(alloc, tokens, room)?;
    let (rest, left) = multiplied_list(alloc, left, room)?;
    Ok((Term { line, first, rest }, left))
}

#[cycle(reading)]
#[tactic(auto, using(crate::proofs::Loops::multiplied_less, crate::proofs::Loops::multiplied_on, crate::proofs::Loops::multiplied_end, crate::proofs::Loops::multiplied_bad))]
fn multiplied_list(
    alloc: Global,
    tokens: Cursor<'_>,
    room: usize,
) -> Result<(Few<Multiplied>, Cursor<'_>), Fault>
    ensures { Reads result (many MULTIPLY (multiplied_by (factor_read room))) tokens.entry }
{
    let mut left = tokens;
    let mut list = Seq::new(alloc);
    'factors: while starts_in(left, &[words::TIMES, words::OVER, words::MOD]) {
        let (multiplied, after) = multiplied(alloc, left, room)?;
        if let Err(_) = push_few(alloc, &mut list, multiplied) {
            return Err(Fault::Memory);
        }
        left = after;
    }
    Ok((few(alloc, list)?, left))
}

#[cycle(reading)]
#[tactic(auto, unfolding(crate::specs::Readers::multiplied_by))]
fn multiplied(
    alloc: Global,
    tokens: Cursor<'_>,
    room: usize,
) -> Result<(Multiplied, Cursor<'_>), Fault>
    ensures { Reads result (multiplied_by (factor_read room)) tokens.entry }
{
    if starts(tokens, words::TIMES) {
        let (factor, left) = factor_after(alloc, tokens, words::TIMES, room)?;
        Ok((Multiplied::Times(factor), left))
    } else if starts(tokens, words::OVER) {
        let (factor, left) = factor_after(alloc, tokens, words::OVER, room)?;
        Ok((Multiplied::Over(factor), left))
    } else {
        let (factor, left) = factor_after(alloc, tokens, words::MOD, room)?;
        Ok((Multiplied::Mod(factor), left))
    }
}

/// A factor behind this word.
#[cycle(reading)]
fn factor_after(
    alloc: Global,
    tokens: Cursor<'_>,
    mark: u64,
    room: usize,
) -> Result<(Factor, Cursor<'_>), Fault>
    ensures { Reads result (after (mark ∷ []) (factor_read room)) tokens.entry }
{
    let (_, left) = word(tokens, mark)?;
    factor(alloc, left, room)
}

#[cycle(reading)]
#[tactic(auto, unfolding(crate::specs::Readers::factor_read, crate::specs::Readers::factor_by))]
fn factor(alloc: Global, tokens: Cursor<'_>, room: usize) -> Result<(Factor, Cursor<'_>), Fault>
    ensures { Reads result (factor_read room) tokens.entry }
{
    let line = line_of(tokens);
    let (kind, left) = factor_kind(alloc, tokens, room)?;
    Ok((Factor { line, kind }, left))
}

#[cycle(reading)]
fn factor_kind(
    alloc: Global,
    tokens: Cursor<'_>,
    room: usize,
) -> Result<(FactorKind, Cursor<'_>), Fault>
    ensures { Reads result (kind_with (bracket_at room (inside_read room))) tokens.entry }
{
    if starts_in(tokens, &PLAIN) {
        return plain(alloc, tokens);
    }
    if room == 0 {
        return Err(Fault::Stuck {
            left: tokens.len(),
            deep: starts(tokens, words::OPEN),
        });
    }
    bracket(alloc, tokens, room - 1)
}

/// `( expr )`, where the brackets in it nest at most `room` deep.
#[cycle(reading)]
#[tactic(auto, unfolding(crate::specs::Readers::bracket_read))]
fn bracket(
    alloc: Global,
    tokens: Cursor<'_>,
    room: usize,
) -> Result<(FactorKind, Cursor<'_>), Fault>
    ensures { Reads result (bracket_read (expr_read room)) tokens.entry }
{
    let (_, left) = word(tokens, words::OPEN)?;
    let (inner, left) = expr(alloc, left, room)?;
    let (_, left) = word(left, words::CLOSE)?;
    Ok((FactorKind::Bracket(boxed(alloc, inner)?), left))
}
