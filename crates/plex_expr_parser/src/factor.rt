// Factors that hold no expression.
ghost use Rattle.std.specs.Prelude.{◌≡◌, ◌++◌};
ghost use Rattle.token_grammar.specs.Gives.{Reads};
ghost use Rattle.plex_expr_parser.specs.Readers.{block_read, in_brackets_read, named_read};
ghost use Rattle.plex_expr_parser.specs.Readers.{plain_read, pointer_read};

use crate::boxes::boxed;
use plex_ast::{Boxed, FactorKind, Named, words};
use plex_lexer::Cursor;
use std::alloc::Global;
use token_grammar::{Fault, name, number, starts, word};

/// `[ ( name ) ]`: the pointer to a record, if one stands there, and the tokens after it.
#[tactic(auto, unfolding(crate::specs::Readers::pointer_read))]
pub fn pointer(
    alloc: Global,
    tokens: Cursor<'_>,
) -> Result<(Option<Boxed<Named>>, Cursor<'_>), Fault>
    ensures { Reads result pointer_read tokens.entry }
{
    if starts(tokens, words::OPEN) {
        let (pointer, rest) = in_brackets(alloc, tokens)?;
        Ok((Some(boxed(alloc, pointer)?), rest))
    } else {
        Ok((None, tokens))
    }
}

/// `( name )` and the tokens after it.
pub fn in_brackets(alloc: Global, tokens: Cursor<'_>) -> Result<(Named, Cursor<'_>), Fault>
    ensures { Reads result in_brackets_read tokens.entry }
{
    let (_, rest) = word(tokens, words::OPEN)?;
    let (name, rest) = name(alloc, rest)?;
    let (_, rest) = word(rest, words::CLOSE)?;
    Ok((name, rest))
}

/// `REFERENCE name` and the tokens after it.
#[tactic(auto, unfolding(crate::specs::Readers::block_read))]
fn block(alloc: Global, tokens: Cursor<'_>) -> Result<(FactorKind, Cursor<'_>), Fault>
    ensures { Reads result block_read tokens.entry }
{
    let (_, rest) = word(tokens, words::REFERENCE)?;
    let (block, rest) = name(alloc, rest)?;
    Ok((FactorKind::Reference { block }, rest))
}

/// `number | name | name ( name ) | REFERENCE name` and the tokens after it.
#[tactic(auto, unfolding(crate::specs::Readers::plain_read))]
pub fn plain(alloc: Global, tokens: Cursor<'_>) -> Result<(FactorKind, Cursor<'_>), Fault>
    ensures { Reads result plain_read tokens.entry }
{
    if starts(tokens, words::NUMBER) {
        let (value, rest) = number(tokens)?;
        Ok((FactorKind::Number(value), rest))
    } else if starts(tokens, words::REFERENCE) {
        block(alloc, tokens)
    } else {
        named(alloc, tokens)
    }
}

/// `name | name ( name )`
fn named(alloc: Global, tokens: Cursor<'_>) -> Result<(FactorKind, Cursor<'_>), Fault>
    ensures { Reads result named_read tokens.entry }
{
    let (first, rest) = name(alloc, tokens)?;
    let (second, rest) = pointer(alloc, rest)?;
    match second {
        None => Ok((FactorKind::Name(first), rest)),
        Some(pointer) => Ok((
            FactorKind::Field {
                name: boxed(alloc, first)?,
                pointer,
            },
            rest,
        )),
    }
}
