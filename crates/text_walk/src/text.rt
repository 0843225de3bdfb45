// What stands in a text.
ghost use Rattle.std.specs.Prelude.{◌≡◌, ◌++◌, [], OnOk, IfOk, map};
ghost use Rattle.text_events.specs.Walk.{in_turn};
ghost use Rattle.text_events.specs.Blocks.{block_events};
ghost use Rattle.text_events.specs.Texts.{name_said, values_said, signals_made, shape_walk};
ghost use Rattle.text_events.specs.Texts.{signal_walk, text_events};

use crate::block::walk_block;
use crate::pushes::push;
use plex_ast::{Block, Named, Numbered, ShapeKind, Signal, Tree};
use plex_num::{Memory, Seq};
use std::alloc::Global;
use text_events::{Event, PackedEvent};

fn walk_name<'a>(n: &'a Named, out: &mut Seq<Event<'a>>) -> Result<(), Memory>
    ensures { OnOk result (out.new ≡ name_said n.now out.old) }
{
    let kept = PackedEvent::Signal {
        line: n.line,
        name: &n.name,
    };
    push(out, kept)?;
    Ok(())
}

fn walk_values(n: &Numbered, out: &mut Seq<Event<'_>>) -> Result<(), Memory>
    ensures { OnOk result (out.new ≡ values_said n.now out.old) }
{
    let kept = PackedEvent::Carries {
        line: n.line,
        count: n.value,
    };
    push(out, kept)?;
    Ok(())
}

fn walk_shape<'a>(shape: &'a ShapeKind, out: &mut Seq<Event<'a>>) -> Result<(), Memory>
    ensures { OnOk result (out.new ≡ shape_walk shape.now out.old) }
{
    match shape {
        ShapeKind::Buffered { level: _, data } => {
            walk_values(data, out)?;
            Ok(())
        }
        ShapeKind::Direct { data } => {
            walk_values(data, out)?;
            Ok(())
        }
        ShapeKind::Combined {
            data,
            answer,
            answer_data,
        } => {
            walk_values(data, out)?;
            walk_name(answer, out)?;
            walk_values(answer_data, out)?;
            Ok(())
        }
        ShapeKind::Outside { data } => {
            walk_values(data, out)?;
            Ok(())
        }
    }
}

fn count_signals(shape: &ShapeKind) -> u32
    ensures { result ≡ signals_made shape.now }
{
    match shape {
        ShapeKind::Combined { .. } => 2,
        _ => 1,
    }
}

fn walk_signal<'a>(s: &'a Signal, out: &mut Seq<Event<'a>>) -> Result<(), Memory>
    ensures { OnOk result (out.new ≡ signal_walk s.now out.old) }
{
    let count = count_signals(&s.shape.kind);
    let line = s.line;
    push(out, PackedEvent::Signals { line, count })?;
    walk_name(&s.name, out)?;
    walk_shape(&s.shape.kind, out)?;
    Ok(())
}

#[tactic(auto, using(text_events::proofs::Steps::turns_begin, text_events::proofs::Steps::turns_step, text_events::proofs::Steps::turns_end))]
fn walk_signals<'a>(alloc: Global, signals: &'a [Signal]) -> Result<Seq<Event<'a>>, Memory>
    ensures { IfOk result (λ events. events ≡ in_turn (map signal_walk signals.now) []) }
{
    let mut out = Seq::new(alloc);
    for s in signals {
        walk_signal(s, &mut out)?;
    }
    Ok(out)
}

#[tactic(auto, using(crate::proofs::BlockSteps::parts_begin, crate::proofs::BlockSteps::parts_step, crate::proofs::BlockSteps::parts_end))]
fn walk_blocks<'a>(
    alloc: Global,
    blocks: &'a [Block],
    parts: &mut Seq<Seq<Event<'a>>>,
) -> Result<(), Memory>
    ensures { OnOk result (parts.new ≡ parts.old ++ map block_events blocks.now) }
{
    for b in blocks {
        parts.push(walk_block(alloc, b)?)?;
    }
    Ok(())
}

/// What stands in a text, part by part: its signals, and each of its blocks. Refuses with `Memory`
/// where memory is refused, or where 32 bits have no next number for a name or an event of a block.
#[tactic(auto, using(crate::proofs::BlockSteps::text_is))]
pub fn walk_text<'a>(alloc: Global, tree: &'a Tree) -> Result<Seq<Seq<Event<'a>>>, Memory>
    ensures { IfOk result (λ parts. parts ≡ text_events tree.now) }
{
    let mut parts = Seq::new(alloc);
    parts.push(walk_signals(alloc, tree.signals.as_slice())?)?;
    walk_blocks(alloc, tree.blocks.as_slice(), &mut parts)?;
    Ok(parts)
}
