// Statements that begin with a word and hold no statement.
ghost use Rattle.std.specs.Prelude.{◌≡◌};
ghost use Rattle.token_grammar.specs.Gives.{Reads};
ghost use Rattle.plex_parser.specs.Statements.{exit_read, first_read, free_read, freed_read};
ghost use Rattle.plex_parser.specs.Statements.{goto_read, plain_read, seize_read, seized_read};
ghost use Rattle.plex_parser.specs.Statements.{sought_read, to_label_read};
ghost use Rattle.token_grammar.specs.Reading.{name_read};
ghost use Rattle.plex_expr_parser.specs.Readers.{expr_read};

use crate::signalling::signalling;
use plex_ast::{Boxed, Expr, Named, Rel, StmtKind, words};
use plex_expr_parser::{boxed, expr, rel};
use plex_lexer::Cursor;
use std::alloc::Global;
use token_grammar::{Fault, name, starts, starts_in, word};

const SIGNALLING: [u64; 4] = [words::SEND, words::RETRIEVE, words::RETURN, words::TRANSFER];

/// One of them, and the tokens after it.
#[tactic(auto, unfolding(crate::specs::Statements::plain_read))]
pub fn plain(
    alloc: Global,
    tokens: Cursor<'_>,
    room: usize,
) -> Result<(StmtKind, Cursor<'_>), Fault>
    ensures { Reads result (plain_read room) tokens.entry }
{
    if starts_in(tokens, &SIGNALLING) {
        signalling(alloc, tokens, room)
    } else if starts(tokens, words::GOTO) {
        goto(alloc, tokens)
    } else if starts(tokens, words::FOR) {
        for_first(alloc, tokens, room)
    } else if starts(tokens, words::SEIZE) {
        seize(alloc, tokens)
    } else if starts(tokens, words::FREE) {
        free(alloc, tokens)
    } else {
        exit(tokens)
    }
}

/// `GOTO name ;`: the label, and the tokens after it.
#[tactic(auto, unfolding(crate::specs::Statements::to_label_read))]
pub fn to_label(alloc: Global, tokens: Cursor<'_>) -> Result<(Named, Cursor<'_>), Fault>
    ensures { Reads result to_label_read tokens.entry }
{
    let (_, left) = word(tokens, words::GOTO)?;
    let (label, left) = name(alloc, left)?;
    let (_, left) = word(left, words::SEMI)?;
    Ok((label, left))
}

#[tactic(auto, unfolding(crate::specs::Statements::goto_read))]
fn goto(alloc: Global, tokens: Cursor<'_>) -> Result<(StmtKind, Cursor<'_>), Fault>
    ensures { Reads result goto_read tokens.entry }
{
    let (label, left) = to_label(alloc, tokens)?;
    Ok((StmtKind::Goto { label }, left))
}

/// What the record is that a FOR FIRST seeks: the field, the relation, the value, and the label
/// where there is none.
type Sought = (Boxed<Named>, (Rel, (Boxed<Expr>, Boxed<Named>)));

/// `FOR FIRST name IN name WHERE name rel expr GOTO name ;`
#[tactic(auto, unfolding(crate::specs::Statements::first_read))]
fn for_first(
    alloc: Global,
    tokens: Cursor<'_>,
    room: usize,
) -> Result<(StmtKind, Cursor<'_>), Fault>
    ensures { Reads result (first_read room) tokens.entry }
{
    let (_, left) = word(tokens, words::FOR)?;
    let (_, left) = word(left, words::FIRST)?;
    let (pointer, left) = boxed_name(alloc, left)?;
    let (_, left) = word(left, words::IN)?;
    let (file, left) = boxed_name(alloc, left)?;
    let (sought, left) = sought(alloc, left, room)?;
    let (field, (rel, (value, label))) = sought;
    Ok((
        StmtKind::ForFirst {
            name: pointer,
            file,
            field,
            rel,
            value,
            label,
        },
        left,
    ))
}

/// `WHERE name rel expr GOTO name ;`
#[tactic(auto)]
fn sought(alloc: Global, tokens: Cursor<'_>, room: usize) -> Result<(Sought, Cursor<'_>), Fault>
    ensures { Reads result (sought_read room) tokens.entry }
{
    let (_, left) = word(tokens, words::WHERE)?;
    let (field, left) = boxed_name(alloc, left)?;
    let (rel, left) = rel(left)?;
    let (value, left) = boxed_expr(alloc, left, room)?;
    let (label, left) = boxed_label(alloc, left)?;
    Ok(((field, (rel, (value, label))), left))
}

/// A name, in a box.
pub fn boxed_name(alloc: Global, tokens: Cursor<'_>) -> Result<(Boxed<Named>, Cursor<'_>), Fault>
    ensures { Reads result name_read tokens.entry }
{
    let (name, left) = name(alloc, tokens)?;
    Ok((boxed(alloc, name)?, left))
}

/// An expression, in a box.
pub fn boxed_expr(
    alloc: Global,
    tokens: Cursor<'_>,
    room: usize,
) -> Result<(Boxed<Expr>, Cursor<'_>), Fault>
    ensures { Reads result (expr_read room) tokens.entry }
{
    let (value, left) = expr(alloc, tokens, room)?;
    Ok((boxed(alloc, value)?, left))
}

/// A label to jump to, in a box.
fn boxed_label(alloc: Global, tokens: Cursor<'_>) -> Result<(Boxed<Named>, Cursor<'_>), Fault>
    ensures { Reads result to_label_read tokens.entry }
{
    let (label, left) = to_label(alloc, tokens)?;
    Ok((boxed(alloc, label)?, left))
}

/// `SEIZE name IN name ELSE GOTO name ;`
#[tactic(auto, unfolding(crate::specs::Statements::seize_read))]
fn seize(alloc: Global, tokens: Cursor<'_>) -> Result<(StmtKind, Cursor<'_>), Fault>
    ensures { Reads result seize_read tokens.entry }
{
    let (_, left) = word(tokens, words::SEIZE)?;
    let (name, left) = boxed_name(alloc, left)?;
    let (place, left) = seized(alloc, left)?;
    let (file, label) = place;
    Ok((StmtKind::Seize { name, file, label }, left))
}

/// `IN name ELSE GOTO name ;`: the file and the label.
fn seized(
    alloc: Global,
    tokens: Cursor<'_>,
) -> Result<((Boxed<Named>, Boxed<Named>), Cursor<'_>), Fault>
    ensures { Reads result seized_read tokens.entry }
{
    let (_, left) = word(tokens, words::IN)?;
    let (file, left) = boxed_name(alloc, left)?;
    let (_, left) = word(left, words::ELSE)?;
    let (label, left) = boxed_label(alloc, left)?;
    Ok(((file, label), left))
}

/// `FREE name IN name ;`
#[tactic(auto, unfolding(crate::specs::Statements::free_read))]
fn free(alloc: Global, tokens: Cursor<'_>) -> Result<(StmtKind, Cursor<'_>), Fault>
    ensures { Reads result free_read tokens.entry }
{
    let (_, left) = word(tokens, words::FREE)?;
    let (name, left) = boxed_name(alloc, left)?;
    let (file, left) = freed(alloc, left)?;
    Ok((StmtKind::Free { name, file }, left))
}

/// `IN name ;`: the file.
fn freed(alloc: Global, tokens: Cursor<'_>) -> Result<(Boxed<Named>, Cursor<'_>), Fault>
    ensures { Reads result freed_read tokens.entry }
{
    let (_, left) = word(tokens, words::IN)?;
    let (file, left) = boxed_name(alloc, left)?;
    let (_, left) = word(left, words::SEMI)?;
    Ok((file, left))
}

/// `EXIT ;`
#[tactic(auto, unfolding(crate::specs::Statements::exit_read))]
fn exit(tokens: Cursor<'_>) -> Result<(StmtKind, Cursor<'_>), Fault>
    ensures { Reads result exit_read tokens.entry }
{
    let (_, left) = word(tokens, words::EXIT)?;
    let (_, left) = word(left, words::SEMI)?;
    Ok((StmtKind::Exit, left))
}
