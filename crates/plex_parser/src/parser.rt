// A whole exchange.
ghost use Rattle.std.specs.Prelude.{◌≡◌, ◌≤◌, ℕ, true, length};
ghost use Rattle.token_grammar.specs.Gives.{GivesOrStops, Reads};
ghost use Rattle.plex_ast.specs.Grammar.{Sentence};
ghost use Rattle.plex_ast.specs.declared.tree.Tree.{Tree};
ghost use Rattle.plex_parser.specs.Blocks.{tree_read};
ghost use Rattle.plex_parser.specs.Parses.{fault_of, parsed, tree_of, Answers, Parses, Yields};

use crate::block::blocks;
use declaration_parser::signals;
use plex_ast::Tree;
use plex_lexer::{Cursor, Tokens};
use plex_limits::{MOST_BRACKETS, MOST_NESTED, MOST_TOKENS};
use std::alloc::Global;
use thiserror::Error;
use token_grammar::{Fault, line_of};

/// Why a list of tokens is no sentence: the place, from 0, of the first token after the longest
/// front that begins some sentence; or that memory was refused.
#[derive(Debug, Drop, Error)]
pub enum ParseFault {
    /// The token may not stand there.
    #[error("token {token} may not stand there")]
    Unexpected { token: u32 },
    /// All the tokens begin a sentence, and are none.
    #[error("the tokens end too soon")]
    Ended,
    /// The token would be allowed if brackets and statements could nest deeper.
    #[error("token {token} nests too deep")]
    TooDeep { token: u32 },
    #[error("memory was refused")]
    Memory,
}

/// The tree that the tokens spell, or the first token that does not fit. Takes time in proportion
/// to their number.
pub fn parse(alloc: Global, tokens: &Tokens<'_>) -> Result<Tree, ParseFault>
    requires { length tokens.now ≤ MOST_TOKENS }
    // What comes is spelled so, and a fault is that of the tokens.
    ensures told { Parses result tokens.now }
    // What is spelled so comes, unless memory runs out.
    ensures all { (t : Tree) → Sentence t tokens.now → Yields result t }
    // The answer is a function of the tokens, unless memory runs out.
    ensures same { Answers result (parsed tokens.now) }
{
    match whole(alloc, tokens) {
        Ok(tree) => Ok(tree),
        Err(Fault::Memory) => Err(ParseFault::Memory),
        Err(Fault::Stuck { left, deep }) => Err(fault_at(tokens.len(), left, deep)),
    }
}

#[tactic(auto, unfolding(crate::specs::Parses::tree_of))]
fn whole(alloc: Global, tokens: &Tokens<'_>) -> Result<Tree, Fault>
    ensures { GivesOrStops (λ x. x) result (tree_of tokens.now) }
{
    let (tree, left) = exchange(alloc, tokens.cursor(), MOST_BRACKETS, MOST_NESTED)?;
    match left.split_first() {
        None => Ok(tree),
        Some(_) => Err(Fault::Stuck {
            left: left.len(),
            deep: false,
        }),
    }
}

/// `{ signal } { block }`
#[tactic(auto, unfolding(crate::specs::Blocks::tree_read, crate::specs::Blocks::lists_read))]
fn exchange(
    alloc: Global,
    tokens: Cursor<'_>,
    room: usize,
    deep: usize,
) -> Result<(Tree, Cursor<'_>), Fault>
    ensures { Reads result (tree_read room deep) tokens.entry }
{
    let line = line_of(tokens);
    let (signals, left) = signals(alloc, tokens)?;
    let (blocks, left) = blocks(alloc, left, room, deep)?;
    Ok((
        Tree {
            line,
            signals,
            blocks,
        },
        left,
    ))
}

/// The fault of a reading of so many tokens that stopped with so many left.
fn fault_at(many: usize, left: usize, deep: bool) -> ParseFault
    requires { many ≤ MOST_TOKENS }
    ensures { result ≡ fault_of many left deep }
{
    if left == 0 {
        return ParseFault::Ended;
    }
    let token = many.saturating_sub(left) as u32;
    if deep {
        ParseFault::TooDeep { token }
    } else {
        ParseFault::Unexpected { token }
    }
}
