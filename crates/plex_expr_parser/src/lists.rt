// Lists of names and of values, and the receiver of a signal.
ghost use Rattle.std.specs.Prelude.{◌≡◌};
ghost use Rattle.token_grammar.specs.Gives.{Reads};
ghost use Rattle.token_grammar.specs.Reading.{many};
ghost use Rattle.plex_expr_parser.specs.Readers.{comma_expr_read, comma_name_read, exprs_read};
ghost use Rattle.plex_expr_parser.specs.Readers.{held_read, names_read, receiver_kind_read};
ghost use Rattle.plex_expr_parser.specs.Readers.{reference_read};
ghost use Rattle.plex_ast.specs.Words as classes;

use crate::expression::expr;
use crate::factor::in_brackets;
use plex_ast::{Expr, Exprs, Named, Names, Reference, ReferenceKind, words};
use plex_lexer::Cursor;
use plex_num::Seq;
use std::alloc::Global;
use token_grammar::{Fault, line_of, name, starts, word};

/// `WITH name { , name }` and the tokens after it, or where the reading stopped.
#[tactic(auto, unfolding(crate::specs::Readers::names_read))]
pub fn names(alloc: Global, tokens: Cursor<'_>) -> Result<(Names, Cursor<'_>), Fault>
    ensures { Reads result names_read tokens.entry }
{
    let line = line_of(tokens);
    let (_, left) = word(tokens, words::WITH)?;
    let (first, left) = name(alloc, left)?;
    let (rest, left) = name_list(alloc, left)?;
    Ok((Names { line, first, rest }, left))
}

#[tactic(auto, using(crate::proofs::Loops::name_less, crate::proofs::Loops::name_on, crate::proofs::Loops::name_end, crate::proofs::Loops::name_bad))]
fn name_list(alloc: Global, tokens: Cursor<'_>) -> Result<(Seq<Named>, Cursor<'_>), Fault>
    ensures { Reads result (many classes.COMMA comma_name_read) tokens.entry }
{
    let mut left = tokens;
    let mut list = Seq::new(alloc);
    'names: while starts(left, words::COMMA) {
        let (named, after) = comma_name(alloc, left)?;
        if let Err(_) = list.push(named) {
            return Err(Fault::Memory);
        }
        left = after;
    }
    Ok((list, left))
}

#[tactic(auto, unfolding(crate::specs::Readers::comma_name_read))]
fn comma_name(alloc: Global, tokens: Cursor<'_>) -> Result<(Named, Cursor<'_>), Fault>
    ensures { Reads result comma_name_read tokens.entry }
{
    let (_, left) = word(tokens, words::COMMA)?;
    name(alloc, left)
}

/// `WITH expr { , expr }` and the tokens after it, or where the reading stopped.
#[tactic(auto, unfolding(crate::specs::Readers::exprs_read))]
pub fn exprs(alloc: Global, tokens: Cursor<'_>, room: usize) -> Result<(Exprs, Cursor<'_>), Fault>
    ensures { Reads result (exprs_read room) tokens.entry }
{
    let line = line_of(tokens);
    let (_, left) = word(tokens, words::WITH)?;
    let (first, left) = expr(alloc, left, room)?;
    let (rest, left) = expr_list(alloc, left, room)?;
    Ok((Exprs { line, first, rest }, left))
}

#[tactic(auto, using(crate::proofs::Loops::expr_less, crate::proofs::Loops::expr_on, crate::proofs::Loops::expr_end, crate::proofs::Loops::expr_bad))]
fn expr_list(
    alloc: Global,
    tokens: Cursor<'_>,
    room: usize,
) -> Result<(Seq<Expr>, Cursor<'_>), Fault>
    ensures { Reads result (many classes.COMMA (comma_expr_read room)) tokens.entry }
{
    let mut left = tokens;
    let mut list = Seq::new(alloc);
    'exprs: while starts(left, words::COMMA) {
        let (expr, after) = comma_expr(alloc, left, room)?;
        if let Err(_) = list.push(expr) {
            return Err(Fault::Memory);
        }
        left = after;
    }
    Ok((list, left))
}

#[tactic(auto, unfolding(crate::specs::Readers::comma_expr_read))]
fn comma_expr(alloc: Global, tokens: Cursor<'_>, room: usize) -> Result<(Expr, Cursor<'_>), Fault>
    ensures { Reads result (comma_expr_read room) tokens.entry }
{
    let (_, left) = word(tokens, words::COMMA)?;
    expr(alloc, left, room)
}

/// `REFERENCE name | REFERENCE ( name )` and the tokens after it, or where the reading stopped.
#[tactic(auto, unfolding(crate::specs::Readers::reference_read))]
pub fn reference(alloc: Global, tokens: Cursor<'_>) -> Result<(Reference, Cursor<'_>), Fault>
    ensures { Reads result reference_read tokens.entry }
{
    let line = line_of(tokens);
    let (_, left) = word(tokens, words::REFERENCE)?;
    let (kind, left) = receiver_kind(alloc, left)?;
    Ok((Reference { line, kind }, left))
}

/// `name | ( name )`
#[tactic(auto, unfolding(crate::specs::Readers::receiver_kind_read))]
fn receiver_kind(alloc: Global, tokens: Cursor<'_>) -> Result<(ReferenceKind, Cursor<'_>), Fault>
    ensures { Reads result receiver_kind_read tokens.entry }
{
    if starts(tokens, words::OPEN) {
        held(alloc, tokens)
    } else {
        let (block, left) = name(alloc, tokens)?;
        Ok((ReferenceKind::Block { name: block }, left))
    }
}

/// `( name )`
#[tactic(auto, unfolding(crate::specs::Readers::held_read))]
fn held(alloc: Global, tokens: Cursor<'_>) -> Result<(ReferenceKind, Cursor<'_>), Fault>
    ensures { Reads result held_read tokens.entry }
{
    let (holder, left) = in_brackets(alloc, tokens)?;
    Ok((ReferenceKind::Held { name: holder }, left))
}
