// Conditions. The brackets of their expressions nest at most `room` deep.
ghost use Rattle.std.specs.Prelude.{◌≡◌};
ghost use Rattle.token_grammar.specs.Gives.{Reads};
ghost use Rattle.token_grammar.specs.Reading.{many};
ghost use Rattle.plex_expr_parser.specs.Readers.{and_read, compared_read, cond_read, conj_read};
ghost use Rattle.plex_expr_parser.specs.Readers.{or_read, rel_kind_read, rel_read, relation_read};
ghost use Rattle.plex_expr_parser.specs.Readers.{sign_read};
ghost use Rattle.plex_ast.specs.Words as classes;

use crate::expression::expr;
use plex_ast::{Cond, Conj, Expr, Rel, RelKind, Relation, words};
use plex_lexer::Cursor;
use plex_num::Seq;
use std::alloc::Global;
use token_grammar::{Fault, line_of, starts, word};

/// A condition and the tokens after it, or where the reading stopped.
#[tactic(auto, unfolding(crate::specs::Readers::cond_read))]
pub fn cond(alloc: Global, tokens: Cursor<'_>, room: usize) -> Result<(Cond, Cursor<'_>), Fault>
    ensures { Reads result (cond_read room) tokens.entry }
{
    let line = line_of(tokens);
    let (first, left) = conj(alloc, tokens, room)?;
    let (rest, left) = or_list(alloc, left, room)?;
    Ok((Cond { line, first, rest }, left))
}

#[tactic(auto, using(crate::proofs::Loops::or_less, crate::proofs::Loops::or_on, crate::proofs::Loops::or_end, crate::proofs::Loops::or_bad))]
fn or_list(alloc: Global, tokens: Cursor<'_>, room: usize) -> Result<(Seq<Conj>, Cursor<'_>), Fault>
    ensures { Reads result (many classes.OR (or_read room)) tokens.entry }
{
    let mut left = tokens;
    let mut list = Seq::new(alloc);
    'conjs: while starts(left, words::OR) {
        let (conj, after) = or_conj(alloc, left, room)?;
        if let Err(_) = list.push(conj) {
            return Err(Fault::Memory);
        }
        left = after;
    }
    Ok((list, left))
}

#[tactic(auto, unfolding(crate::specs::Readers::or_read))]
fn or_conj(alloc: Global, tokens: Cursor<'_>, room: usize) -> Result<(Conj, Cursor<'_>), Fault>
    ensures { Reads result (or_read room) tokens.entry }
{
    let (_, left) = word(tokens, words::OR)?;
    conj(alloc, left, room)
}

#[tactic(auto, unfolding(crate::specs::Readers::conj_read))]
fn conj(alloc: Global, tokens: Cursor<'_>, room: usize) -> Result<(Conj, Cursor<'_>), Fault>
    ensures { Reads result (conj_read room) tokens.entry }
{
    let line = line_of(tokens);
    let (first, left) = relation(alloc, tokens, room)?;
    let (rest, left) = and_list(alloc, left, room)?;
    Ok((Conj { line, first, rest }, left))
}

#[tactic(auto, using(crate::proofs::Loops::and_less, crate::proofs::Loops::and_on, crate::proofs::Loops::and_end, crate::proofs::Loops::and_bad))]
fn and_list(
    alloc: Global,
    tokens: Cursor<'_>,
    room: usize,
) -> Result<(Seq<Relation>, Cursor<'_>), Fault>
    ensures { Reads result (many classes.AND (and_read room)) tokens.entry }
{
    let mut left = tokens;
    let mut list = Seq::new(alloc);
    'relations: while starts(left, words::AND) {
        let (relation, after) = and_relation(alloc, left, room)?;
        if let Err(_) = list.push(relation) {
            return Err(Fault::Memory);
        }
        left = after;
    }
    Ok((list, left))
}

#[tactic(auto, unfolding(crate::specs::Readers::and_read))]
fn and_relation(
    alloc: Global,
    tokens: Cursor<'_>,
    room: usize,
) -> Result<(Relation, Cursor<'_>), Fault>
    ensures { Reads result (and_read room) tokens.entry }
{
    let (_, left) = word(tokens, words::AND)?;
    relation(alloc, left, room)
}

#[tactic(auto, unfolding(crate::specs::Readers::relation_read))]
fn relation(alloc: Global, tokens: Cursor<'_>, room: usize) -> Result<(Relation, Cursor<'_>), Fault>
    ensures { Reads result (relation_read room) tokens.entry }
{
    let line = line_of(tokens);
    let (left, rest) = expr(alloc, tokens, room)?;
    let (compared, rest) = compared(alloc, rest, room)?;
    let (rel, right) = compared;
    Ok((
        Relation {
            line,
            left,
            rel,
            right,
        },
        rest,
    ))
}

/// `rel expr`
fn compared(
    alloc: Global,
    tokens: Cursor<'_>,
    room: usize,
) -> Result<((Rel, Expr), Cursor<'_>), Fault>
    ensures { Reads result (compared_read room) tokens.entry }
{
    let (rel, left) = rel(tokens)?;
    let (right, left) = expr(alloc, left, room)?;
    Ok(((rel, right), left))
}

/// A comparison and the tokens after it, or where the reading stopped.
#[tactic(auto, unfolding(crate::specs::Readers::rel_read))]
pub fn rel(tokens: Cursor<'_>) -> Result<(Rel, Cursor<'_>), Fault>
    ensures { Reads result rel_read tokens.entry }
{
    let line = line_of(tokens);
    let (kind, left) = rel_kind(tokens)?;
    Ok((Rel { line, kind }, left))
}

#[tactic(auto, unfolding(crate::specs::Readers::rel_kind_read))]
fn rel_kind(tokens: Cursor<'_>) -> Result<(RelKind, Cursor<'_>), Fault>
    ensures { Reads result rel_kind_read tokens.entry }
{
    if starts(tokens, words::EQUAL) {
        sign(tokens, words::EQUAL, RelKind::Equal)
    } else if starts(tokens, words::UNEQUAL) {
        sign(tokens, words::UNEQUAL, RelKind::Unequal)
    } else if starts(tokens, words::BELOW) {
        sign(tokens, words::BELOW, RelKind::Below)
    } else if starts(tokens, words::AT_MOST) {
        sign(tokens, words::AT_MOST, RelKind::AtMost)
    } else if starts(tokens, words::ABOVE) {
        sign(tokens, words::ABOVE, RelKind::Above)
    } else {
        sign(tokens, words::AT_LEAST, RelKind::AtLeast)
    }
}

/// This mark, which stands for this comparison.
fn sign(tokens: Cursor<'_>, mark: u64, kind: RelKind) -> Result<(RelKind, Cursor<'_>), Fault>
    ensures { Reads result (sign_read mark kind) tokens.entry }
{
    let (_, left) = word(tokens, mark)?;
    Ok((kind, left))
}
