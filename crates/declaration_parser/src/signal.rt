// Signals.
ghost use Rattle.std.specs.Prelude.{◌≡◌};
ghost use Rattle.token_grammar.specs.Gives.{Reads};
ghost use Rattle.token_grammar.specs.Reading.{many};
ghost use Rattle.declaration_parser.specs.Signals.{buffered_read, combined_read, data_read};
ghost use Rattle.declaration_parser.specs.Signals.{direct_read, outside_read, shape_kind_read};
ghost use Rattle.declaration_parser.specs.Signals.{shape_read, signal_read, single_read};
ghost use Rattle.plex_ast.specs.Words as classes;

use plex_ast::{Numbered, Shape, ShapeKind, Signal, words};
use plex_lexer::Cursor;
use plex_num::Seq;
use std::alloc::Global;
use token_grammar::{Fault, level, line_of, name, number, starts, word};

/// As many signals as stand there, and the tokens after them.
#[tactic(auto, using(crate::proofs::Loops::signal_less, crate::proofs::Loops::signal_on, crate::proofs::Loops::signal_end, crate::proofs::Loops::signal_bad))]
pub fn signals(alloc: Global, tokens: Cursor<'_>) -> Result<(Seq<Signal>, Cursor<'_>), Fault>
    ensures { Reads result (many classes.SIGNAL signal_read) tokens.entry }
{
    let mut left = tokens;
    let mut list = Seq::new(alloc);
    'signals: while starts(left, words::SIGNAL) {
        let (signal, after) = one_signal(alloc, left)?;
        if let Err(_) = list.push(signal) {
            return Err(Fault::Memory);
        }
        left = after;
    }
    Ok((list, left))
}

/// `SIGNAL name shape ;`
#[tactic(auto, unfolding(crate::specs::Signals::signal_read))]
fn one_signal(alloc: Global, tokens: Cursor<'_>) -> Result<(Signal, Cursor<'_>), Fault>
    ensures { Reads result signal_read tokens.entry }
{
    let line = line_of(tokens);
    let (_, left) = word(tokens, words::SIGNAL)?;
    let (signal, left) = name(alloc, left)?;
    let (shape, left) = shape(alloc, left)?;
    let (_, left) = word(left, words::SEMI)?;
    Ok((
        Signal {
            line,
            name: signal,
            shape,
        },
        left,
    ))
}

#[tactic(auto, unfolding(crate::specs::Signals::shape_read))]
fn shape(alloc: Global, tokens: Cursor<'_>) -> Result<(Shape, Cursor<'_>), Fault>
    ensures { Reads result shape_read tokens.entry }
{
    let line = line_of(tokens);
    let (kind, left) = shape_kind(alloc, tokens)?;
    Ok((Shape { line, kind }, left))
}

#[tactic(auto, unfolding(crate::specs::Signals::shape_kind_read))]
fn shape_kind(alloc: Global, tokens: Cursor<'_>) -> Result<(ShapeKind, Cursor<'_>), Fault>
    ensures { Reads result shape_kind_read tokens.entry }
{
    if starts(tokens, words::SINGLE) {
        single(tokens)
    } else if starts(tokens, words::COMBINED) {
        combined(alloc, tokens)
    } else {
        outside(tokens)
    }
}

/// `SINGLE BUFFERED level DATA number | SINGLE DIRECT DATA number`
#[tactic(auto, unfolding(crate::specs::Signals::single_read))]
fn single(tokens: Cursor<'_>) -> Result<(ShapeKind, Cursor<'_>), Fault>
    ensures { Reads result single_read tokens.entry }
{
    let (_, left) = word(tokens, words::SINGLE)?;
    if starts(left, words::BUFFERED) {
        buffered(left)
    } else {
        direct(left)
    }
}

/// `BUFFERED level DATA number`
#[tactic(auto, unfolding(crate::specs::Signals::buffered_read))]
fn buffered(tokens: Cursor<'_>) -> Result<(ShapeKind, Cursor<'_>), Fault>
    ensures { Reads result buffered_read tokens.entry }
{
    let (_, left) = word(tokens, words::BUFFERED)?;
    let (level, left) = level(left)?;
    let (data, left) = data(left)?;
    Ok((ShapeKind::Buffered { level, data }, left))
}

/// `DIRECT DATA number`
#[tactic(auto, unfolding(crate::specs::Signals::direct_read))]
fn direct(tokens: Cursor<'_>) -> Result<(ShapeKind, Cursor<'_>), Fault>
    ensures { Reads result direct_read tokens.entry }
{
    let (_, left) = word(tokens, words::DIRECT)?;
    let (data, left) = data(left)?;
    Ok((ShapeKind::Direct { data }, left))
}

/// `COMBINED DATA number ANSWER name DATA number`
#[tactic(auto, unfolding(crate::specs::Signals::combined_read))]
fn combined(alloc: Global, tokens: Cursor<'_>) -> Result<(ShapeKind, Cursor<'_>), Fault>
    ensures { Reads result combined_read tokens.entry }
{
    let (_, left) = word(tokens, words::COMBINED)?;
    let (sent, left) = data(left)?;
    let (_, left) = word(left, words::ANSWER)?;
    let (answer, left) = name(alloc, left)?;
    let (answered, left) = data(left)?;
    Ok((
        ShapeKind::Combined {
            data: sent,
            answer,
            answer_data: answered,
        },
        left,
    ))
}

/// `OUTSIDE DATA number`
#[tactic(auto, unfolding(crate::specs::Signals::outside_read))]
fn outside(tokens: Cursor<'_>) -> Result<(ShapeKind, Cursor<'_>), Fault>
    ensures { Reads result outside_read tokens.entry }
{
    let (_, left) = word(tokens, words::OUTSIDE)?;
    let (data, left) = data(left)?;
    Ok((ShapeKind::Outside { data }, left))
}

/// `DATA number`
#[tactic(auto, unfolding(crate::specs::Signals::data_read))]
fn data(tokens: Cursor<'_>) -> Result<(Numbered, Cursor<'_>), Fault>
    ensures { Reads result data_read tokens.entry }
{
    let (_, left) = word(tokens, words::DATA)?;
    number(left)
}
