// Items of a program.
ghost use Rattle.std.specs.Prelude.{◌≡◌, ◌++◌};
ghost use Rattle.plex_lexer.specs.Cursors.{ahead};
ghost use Rattle.token_grammar.specs.Gives.{Reads};
ghost use Rattle.token_grammar.specs.Reading.{at, many};
ghost use Rattle.plex_parser.specs.Blocks.{enter_read, item_kind_read, item_read, name_item_read};
ghost use Rattle.plex_parser.specs.Blocks.{name_tail_read, named_item, stmt_item_read, ITEM};

use crate::assignment::{assign, assigned};
use crate::nested::{other, starts_stmt};
use crate::signalling::taken;
use plex_ast::{Item, ItemKind, Named, Stmt, words};
use plex_lexer::Cursor;
use plex_num::Seq;
use std::alloc::Global;
use token_grammar::{Fault, line_of, name, starts, starts_name, word};

/// As many items as stand there, and the tokens after them.
#[tactic(auto, using(crate::proofs::BlockLoops::item_less, crate::proofs::BlockLoops::item_on, crate::proofs::BlockLoops::item_end, crate::proofs::BlockLoops::item_bad))]
pub fn items(
    alloc: Global,
    tokens: Cursor<'_>,
    room: usize,
    deep: usize,
) -> Result<(Seq<Item>, Cursor<'_>), Fault>
    ensures { Reads result (many ITEM (item_read room deep)) tokens.entry }
{
    let mut left = tokens;
    let mut list = Seq::new(alloc);
    'items: while starts_item(left) {
        let (item, after) = item(alloc, left, room, deep)?;
        if let Err(_) = list.push(item) {
            return Err(Fault::Memory);
        }
        left = after;
    }
    Ok((list, left))
}

/// Whether the first token begins an item: a statement, or an ENTER.
#[tactic(auto, using(crate::proofs::Starts::item_starts))]
fn starts_item(tokens: Cursor<'_>) -> bool
    ensures { result ≡ at ITEM (ahead tokens.entry) }
{
    starts_stmt(tokens) || starts(tokens, words::ENTER)
}

#[tactic(auto, unfolding(crate::specs::Blocks::item_read))]
fn item(
    alloc: Global,
    tokens: Cursor<'_>,
    room: usize,
    deep: usize,
) -> Result<(Item, Cursor<'_>), Fault>
    ensures { Reads result (item_read room deep) tokens.entry }
{
    let line = line_of(tokens);
    let (kind, left) = item_kind(alloc, tokens, room, deep)?;
    Ok((Item { line, kind }, left))
}

#[tactic(auto, unfolding(crate::specs::Blocks::item_kind_read))]
fn item_kind(
    alloc: Global,
    tokens: Cursor<'_>,
    room: usize,
    deep: usize,
) -> Result<(ItemKind, Cursor<'_>), Fault>
    ensures { Reads result (item_kind_read room deep) tokens.entry }
{
    if starts_name(tokens) {
        from_name(alloc, tokens, room)
    } else if starts(tokens, words::ENTER) {
        enter(alloc, tokens)
    } else {
        stmt(alloc, tokens, room, deep)
    }
}

/// A label or an assignment.
#[tactic(auto, unfolding(crate::specs::Blocks::name_item_read))]
fn from_name(
    alloc: Global,
    tokens: Cursor<'_>,
    room: usize,
) -> Result<(ItemKind, Cursor<'_>), Fault>
    ensures { Reads result (name_item_read room) tokens.entry }
{
    let line = line_of(tokens);
    let (first, left) = name(alloc, tokens)?;
    after_name(alloc, left, line, first, room)
}

/// What follows this name, which stands on this line: `)` or the rest of an assignment.
#[tactic(auto, unfolding(crate::specs::Blocks::name_tail_read))]
fn after_name(
    alloc: Global,
    tokens: Cursor<'_>,
    line: u32,
    first: Named,
    room: usize,
) -> Result<(ItemKind, Cursor<'_>), Fault>
    ensures { Reads result (named_item line first (name_tail_read room)) tokens.entry }
{
    if starts(tokens, words::CLOSE) {
        let (_, left) = word(tokens, words::CLOSE)?;
        Ok((ItemKind::Label { name: first }, left))
    } else {
        let (target, left) = assigned(alloc, tokens, room)?;
        let (pointer, value) = target;
        let kind = assign(first, pointer, value);
        Ok((ItemKind::Stmt(Stmt { line, kind }), left))
    }
}

/// `ENTER name [ names ] ;`
#[tactic(auto, unfolding(crate::specs::Blocks::enter_read))]
fn enter(alloc: Global, tokens: Cursor<'_>) -> Result<(ItemKind, Cursor<'_>), Fault>
    ensures { Reads result enter_read tokens.entry }
{
    let (_, left) = word(tokens, words::ENTER)?;
    let (signal, left) = name(alloc, left)?;
    let (names, left) = taken(alloc, left)?;
    let (_, left) = word(left, words::SEMI)?;
    Ok((ItemKind::Enter { signal, names }, left))
}

/// A statement that begins with a word.
#[tactic(auto, unfolding(crate::specs::Blocks::stmt_item_read))]
fn stmt(
    alloc: Global,
    tokens: Cursor<'_>,
    room: usize,
    deep: usize,
) -> Result<(ItemKind, Cursor<'_>), Fault>
    ensures { Reads result (stmt_item_read room deep) tokens.entry }
{
    let line = line_of(tokens);
    let (kind, left) = other(alloc, tokens, room, deep)?;
    Ok((ItemKind::Stmt(Stmt { line, kind }), left))
}
