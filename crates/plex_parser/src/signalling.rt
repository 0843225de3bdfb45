// Statements that send, take and answer signals.
ghost use Rattle.std.specs.Prelude.{◌≡◌};
ghost use Rattle.token_grammar.specs.Gives.{Reads};
ghost use Rattle.plex_parser.specs.Statements.{fresh_read, load_read, receiver_read, retrieve_read};
ghost use Rattle.plex_parser.specs.Statements.{return_read, send_read, sent_read, signal_read};
ghost use Rattle.plex_parser.specs.Statements.{taken_read, transfer_read, values_read};

use crate::plain::boxed_name;
use plex_ast::{Boxed, Exprs, Names, Reference, StmtKind, words};
use plex_expr_parser::{boxed, exprs, names, reference};
use plex_lexer::Cursor;
use std::alloc::Global;
use token_grammar::{Fault, name, starts, word};

/// One of the four, and the tokens after it.
#[tactic(auto, unfolding(crate::specs::Statements::signal_read))]
pub fn signalling(
    alloc: Global,
    tokens: Cursor<'_>,
    room: usize,
) -> Result<(StmtKind, Cursor<'_>), Fault>
    ensures { Reads result (signal_read room) tokens.entry }
{
    if starts(tokens, words::SEND) {
        send(alloc, tokens, room)
    } else if starts(tokens, words::RETRIEVE) {
        retrieve(alloc, tokens)
    } else if starts(tokens, words::RETURN) {
        return_of(alloc, tokens, room)
    } else {
        transfer(alloc, tokens)
    }
}

/// `SEND name [ ref ] [ exprs ] [ NEW FORLOPP ] ;`
#[tactic(auto, unfolding(crate::specs::Statements::send_read))]
fn send(alloc: Global, tokens: Cursor<'_>, room: usize) -> Result<(StmtKind, Cursor<'_>), Fault>
    ensures { Reads result (send_read room) tokens.entry }
{
    let (_, left) = word(tokens, words::SEND)?;
    let (signal, left) = boxed_name(alloc, left)?;
    let (sent, left) = sent(alloc, left, room)?;
    let (reference, (values, fresh)) = sent;
    Ok((
        StmtKind::Send {
            signal,
            reference,
            values,
            fresh,
        },
        left,
    ))
}

/// What a signal takes along, and whether it begins a forlopp.
type Load = (Option<Boxed<Exprs>>, bool);

/// `[ ref ] [ exprs ] [ NEW FORLOPP ] ;`
fn sent(
    alloc: Global,
    tokens: Cursor<'_>,
    room: usize,
) -> Result<((Option<Boxed<Reference>>, Load), Cursor<'_>), Fault>
    ensures { Reads result (sent_read room) tokens.entry }
{
    let (reference, left) = receiver(alloc, tokens)?;
    let (load, left) = load(alloc, left, room)?;
    Ok(((reference, load), left))
}

/// `[ exprs ] [ NEW FORLOPP ] ;`
fn load(alloc: Global, tokens: Cursor<'_>, room: usize) -> Result<(Load, Cursor<'_>), Fault>
    ensures { Reads result (load_read room) tokens.entry }
{
    let (values, left) = values(alloc, tokens, room)?;
    let (fresh, left) = fresh(left)?;
    let (_, left) = word(left, words::SEMI)?;
    Ok(((values, fresh), left))
}

/// `RETRIEVE name [ names ] ;`
#[tactic(auto, unfolding(crate::specs::Statements::retrieve_read))]
fn retrieve(alloc: Global, tokens: Cursor<'_>) -> Result<(StmtKind, Cursor<'_>), Fault>
    ensures { Reads result retrieve_read tokens.entry }
{
    let (_, left) = word(tokens, words::RETRIEVE)?;
    let (signal, left) = name(alloc, left)?;
    let (names, left) = taken(alloc, left)?;
    let (_, left) = word(left, words::SEMI)?;
    Ok((StmtKind::Retrieve { signal, names }, left))
}

/// `RETURN name [ exprs ] ;`
#[tactic(auto, unfolding(crate::specs::Statements::return_read))]
fn return_of(
    alloc: Global,
    tokens: Cursor<'_>,
    room: usize,
) -> Result<(StmtKind, Cursor<'_>), Fault>
    ensures { Reads result (return_read room) tokens.entry }
{
    let (_, left) = word(tokens, words::RETURN)?;
    let (signal, left) = name(alloc, left)?;
    let (values, left) = values(alloc, left, room)?;
    let (_, left) = word(left, words::SEMI)?;
    Ok((StmtKind::Return { signal, values }, left))
}

/// `TRANSFER name [ ref ] ;`
#[tactic(auto, unfolding(crate::specs::Statements::transfer_read))]
fn transfer(alloc: Global, tokens: Cursor<'_>) -> Result<(StmtKind, Cursor<'_>), Fault>
    ensures { Reads result transfer_read tokens.entry }
{
    let (_, left) = word(tokens, words::TRANSFER)?;
    let (signal, left) = name(alloc, left)?;
    let (reference, left) = receiver(alloc, left)?;
    let (_, left) = word(left, words::SEMI)?;
    Ok((StmtKind::Transfer { signal, reference }, left))
}

/// `[ ref ]`
#[tactic(auto, unfolding(crate::specs::Statements::receiver_read))]
fn receiver(
    alloc: Global,
    tokens: Cursor<'_>,
) -> Result<(Option<Boxed<Reference>>, Cursor<'_>), Fault>
    ensures { Reads result receiver_read tokens.entry }
{
    if starts(tokens, words::REFERENCE) {
        let (reference, left) = reference(alloc, tokens)?;
        Ok((Some(boxed(alloc, reference)?), left))
    } else {
        Ok((None, tokens))
    }
}

/// `[ exprs ]`
#[tactic(auto, unfolding(crate::specs::Statements::values_read))]
fn values(
    alloc: Global,
    tokens: Cursor<'_>,
    room: usize,
) -> Result<(Option<Boxed<Exprs>>, Cursor<'_>), Fault>
    ensures { Reads result (values_read room) tokens.entry }
{
    if starts(tokens, words::WITH) {
        let (exprs, left) = exprs(alloc, tokens, room)?;
        Ok((Some(boxed(alloc, exprs)?), left))
    } else {
        Ok((None, tokens))
    }
}

/// `[ names ]` and the tokens after it.
#[tactic(auto, unfolding(crate::specs::Statements::taken_read))]
pub fn taken(alloc: Global, tokens: Cursor<'_>) -> Result<(Option<Boxed<Names>>, Cursor<'_>), Fault>
    ensures { Reads result taken_read tokens.entry }
{
    if starts(tokens, words::WITH) {
        let (names, left) = names(alloc, tokens)?;
        Ok((Some(boxed(alloc, names)?), left))
    } else {
        Ok((None, tokens))
    }
}

/// Whether `NEW FORLOPP` stands there.
#[tactic(auto, unfolding(crate::specs::Statements::fresh_read))]
fn fresh(tokens: Cursor<'_>) -> Result<(bool, Cursor<'_>), Fault>
    ensures { Reads result fresh_read tokens.entry }
{
    if starts(tokens, words::NEW) {
        let (_, left) = word(tokens, words::NEW)?;
        let (_, left) = word(left, words::FORLOPP)?;
        Ok((true, left))
    } else {
        Ok((false, tokens))
    }
}
