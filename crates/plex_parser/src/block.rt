// Blocks.
ghost use Rattle.std.specs.Prelude.{◌≡◌};
ghost use Rattle.token_grammar.specs.Gives.{Reads};
ghost use Rattle.token_grammar.specs.Reading.{many};
ghost use Rattle.plex_parser.specs.Blocks.{block_read, end_read, parts_read, program_read};
ghost use Rattle.plex_ast.specs.Words as classes;

use crate::item::items;
use declaration_parser::{declarations, surveys};
use plex_ast::{Block, Decl, Item, Survey, words};
use plex_lexer::Cursor;
use plex_num::Seq;
use std::alloc::Global;
use token_grammar::{Fault, line_of, name, starts, word};

/// As many blocks as stand there, and the tokens after them.
#[tactic(auto, using(crate::proofs::BlockLoops::block_less, crate::proofs::BlockLoops::block_on, crate::proofs::BlockLoops::block_end, crate::proofs::BlockLoops::block_bad))]
pub fn blocks(
    alloc: Global,
    tokens: Cursor<'_>,
    room: usize,
    deep: usize,
) -> Result<(Seq<Block>, Cursor<'_>), Fault>
    ensures { Reads result (many classes.BLOCK (block_read room deep)) tokens.entry }
{
    let mut left = tokens;
    let mut list = Seq::new(alloc);
    'list: while starts(left, words::BLOCK) {
        let (block, after) = one_block(alloc, left, room, deep)?;
        if let Err(_) = list.push(block) {
            return Err(Fault::Memory);
        }
        left = after;
    }
    Ok((list, left))
}

#[tactic(auto, unfolding(crate::specs::Blocks::block_read))]
fn one_block(
    alloc: Global,
    tokens: Cursor<'_>,
    room: usize,
    deep: usize,
) -> Result<(Block, Cursor<'_>), Fault>
    ensures { Reads result (block_read room deep) tokens.entry }
{
    let line = line_of(tokens);
    let (_, left) = word(tokens, words::BLOCK)?;
    let (block, left) = name(alloc, left)?;
    let (_, left) = word(left, words::SEMI)?;
    let (parts, left) = parts(alloc, left, room, deep)?;
    let (decls, (surveys, (items, end_line))) = parts;
    Ok((
        Block {
            line,
            name: block,
            decls,
            surveys,
            items,
            end_line,
        },
        left,
    ))
}

/// What stands in a block behind its name: declarations, surveys, and the items with the line of
/// END.
type Parts = (Seq<Decl>, (Seq<Survey>, (Seq<Item>, u32)));

fn parts(
    alloc: Global,
    tokens: Cursor<'_>,
    room: usize,
    deep: usize,
) -> Result<(Parts, Cursor<'_>), Fault>
    ensures { Reads result (parts_read room deep) tokens.entry }
{
    let (decls, left) = declarations(alloc, tokens)?;
    let (surveys, left) = surveys(alloc, left)?;
    let (program, left) = program(alloc, left, room, deep)?;
    Ok(((decls, (surveys, program)), left))
}

/// `PROGRAM ; { item } END BLOCK ;`: the items and the line of END.
#[tactic(auto, unfolding(crate::specs::Blocks::program_read))]
fn program(
    alloc: Global,
    tokens: Cursor<'_>,
    room: usize,
    deep: usize,
) -> Result<((Seq<Item>, u32), Cursor<'_>), Fault>
    ensures { Reads result (program_read room deep) tokens.entry }
{
    let (_, left) = word(tokens, words::PROGRAM)?;
    let (_, left) = word(left, words::SEMI)?;
    let (items, left) = items(alloc, left, room, deep)?;
    let (end_line, left) = end(left)?;
    Ok(((items, end_line), left))
}

/// `END BLOCK ;`: the line of END.
#[tactic(auto, unfolding(crate::specs::Blocks::end_read))]
fn end(tokens: Cursor<'_>) -> Result<(u32, Cursor<'_>), Fault>
    ensures { Reads result end_read tokens.entry }
{
    let line = line_of(tokens);
    let (_, left) = word(tokens, words::END)?;
    let (_, left) = word(left, words::BLOCK)?;
    let (_, left) = word(left, words::SEMI)?;
    Ok((line, left))
}
