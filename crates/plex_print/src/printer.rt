// Exchanges.
ghost use Rattle.std.specs.Prelude.{◌≡◌, [], IfOk};
ghost use Rattle.plex_print.specs.Printed.{block_text, data_text, shape_text, signal_text};
ghost use Rattle.plex_print.specs.Printed.{tree_text};
ghost use Rattle.kept_trees.specs.Keeps.{IsKept};
ghost use Rattle.plex_print.specs.Spelled.{Spells};
ghost use Rattle.plex_print.specs.Writing.{each_of};

use crate::block::block;
use crate::word::{end, level, name, number, word};
use plex_ast::{Block, Numbered, Shape, ShapeKind, Signal, Tree};
use plex_limits::{MOST_BRACKETS, MOST_NESTED};
use plex_num::{Memory, Seq};
use std::alloc::Global;

/// A text whose tokens spell the tree, lines aside: each word is followed by a blank, and each
/// semicolon by an LF. It fails only where memory is refused.
#[tactic(auto, using(crate::proofs::Productions::all_spelled))]
pub fn print_tree(alloc: Global, tree: &Tree) -> Result<Seq<u8>, Memory>
    ensures { IfOk result (λ text. IsKept tree.now → Spells text tree.now) }
{
    written(alloc, tree)
}

fn written(alloc: Global, tree: &Tree) -> Result<Seq<u8>, Memory>
    ensures { IfOk result (λ text. text ≡ tree_text MOST_BRACKETS MOST_NESTED tree.now []) }
{
    let mut text = Seq::new(alloc);
    exchange(&mut text, tree, MOST_BRACKETS, MOST_NESTED)?;
    Ok(text)
}

#[tactic(auto, unfolding(crate::specs::Printed::tree_text))]
fn exchange(text: &mut Seq<u8>, tree: &Tree, room: usize, deep: usize) -> Result<(), Memory>
    ensures { IfOk result (λ _. text.new ≡ tree_text room deep tree.now text.old) }
{
    signals(text, tree.signals.as_slice())?;
    blocks(text, tree.blocks.as_slice(), room, deep)
}

fn signals(text: &mut Seq<u8>, list: &[Signal]) -> Result<(), Memory>
    ensures { IfOk result (λ _. text.new ≡ each_of signal_text list.now text.old) }
{
    let mut rest = list;
    'signals: while let Some((next, left)) = rest.split_first() {
        signal(text, next)?;
        rest = left;
    }
    Ok(())
}

/// `SIGNAL name shape ;`
#[tactic(auto, unfolding(crate::specs::Printed::signal_text))]
fn signal(text: &mut Seq<u8>, signal: &Signal) -> Result<(), Memory>
    ensures { IfOk result (λ _. text.new ≡ signal_text signal.now text.old) }
{
    word(text, b"SIGNAL")?;
    name(text, &signal.name)?;
    shape(text, &signal.shape)?;
    end(text)
}

#[tactic(auto, unfolding(crate::specs::Printed::shape_text))]
fn shape(text: &mut Seq<u8>, shape: &Shape) -> Result<(), Memory>
    ensures { IfOk result (λ _. text.new ≡ shape_text shape.now text.old) }
{
    match &shape.kind {
        ShapeKind::Buffered {
            level: buffer,
            data: count,
        } => {
            word(text, b"SINGLE")?;
            word(text, b"BUFFERED")?;
            level(text, buffer)?;
            data(text, count)
        }
        ShapeKind::Direct { data: count } => {
            word(text, b"SINGLE")?;
            word(text, b"DIRECT")?;
            data(text, count)
        }
        ShapeKind::Combined {
            data: count,
            answer,
            answer_data,
        } => {
            word(text, b"COMBINED")?;
            data(text, count)?;
            word(text, b"ANSWER")?;
            name(text, answer)?;
            data(text, answer_data)
        }
        ShapeKind::Outside { data: count } => {
            word(text, b"OUTSIDE")?;
            data(text, count)
        }
    }
}

/// `DATA number`
#[tactic(auto, unfolding(crate::specs::Printed::data_text))]
fn data(text: &mut Seq<u8>, count: &Numbered) -> Result<(), Memory>
    ensures { IfOk result (λ _. text.new ≡ data_text count.now text.old) }
{
    word(text, b"DATA")?;
    number(text, count)
}

fn blocks(text: &mut Seq<u8>, list: &[Block], room: usize, deep: usize) -> Result<(), Memory>
    ensures { IfOk result (λ _. text.new ≡ each_of (block_text room deep) list.now text.old) }
{
    let mut rest = list;
    'rest: while let Some((next, left)) = rest.split_first() {
        block(text, next, room, deep)?;
        rest = left;
    }
    Ok(())
}
