// The blocks of a text.
ghost use Rattle.std.specs.Prelude.{◌≡◌, ◌+◌, ◌<◌, IfOk, length, get_or};
ghost use Rattle.signal_types.specs.Signals.{signals_of};
ghost use Rattle.text_events.specs.Texts.{text_events};
ghost use Rattle.resolved_block.specs.Texts.{typed_blocks};

use crate::whole::typed_block;
use exchange_model::Block;
use plex_ast::Tree;
use plex_num::{Memory, Seq};
use resolved_block::{First, Typed};
use signal_types::SignalTable;
use std::alloc::Global;
use text_events::Event;
use text_rules::BlockTable;

/// What stands in the block of a number: the first part is that of the signals.
fn events_of<'a, 'b>(parts: &'b [Seq<Event<'a>>], number: usize) -> &'b [Event<'a>]
    requires { number + 1 < length parts.now }
    ensures { result.now ≡ get_or parts.now (number + 1) result.now }
{
    parts[number + 1].as_slice()
}

/// The blocks of an exchange that the blocks of a text mean, in order. Numbers stand for names;
/// statements and files are numbered through the exchange, from 0. `parts` is what stands in the
/// text, and `signals` and `blocks` are those that it declares. A name that stands for nothing
/// gives 0, so that no rule of the language is needed.
///
/// Memory comes where memory is refused, and where a statement, a file, a label or an ENTER would
/// have a number of more than 32 bits.
#[tactic(auto, using(crate::proofs::BlockSteps::blocks_resolved))]
pub fn resolve_blocks(
    alloc: Global,
    tree: &Tree,
    signals: &SignalTable<'_>,
    blocks: &BlockTable<'_>,
    parts: &[Seq<Event<'_>>],
) -> Result<Seq<Block>, Memory>
    requires parts { parts.now ≡ text_events tree.now }
    requires signals { signals.now.kinds.now ≡ signals_of tree.now }
    requires blocks { blocks.now.blocks.now ≡ tree.now.blocks }
    ensures { IfOk result (λ list. list ≡ typed_blocks tree.now) }
{
    let mut list = Seq::new(alloc);
    let mut first = First { point: 0, file: 0 };
    for (number, block) in tree.blocks.as_slice().iter().enumerate() {
        let events = events_of(parts, number);
        let Typed { block, next } = typed_block(alloc, signals, blocks, first, block, events)?;
        list.push(block)?;
        first = next;
    }
    Ok(list)
}
