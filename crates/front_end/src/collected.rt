// The exchange of signals and blocks.
ghost use Rattle.std.specs.Prelude.{◌≡◌, ◌≤◌, IfOk, length};
ghost use Rattle.exchange_model.specs.Cells.{cell_count};
ghost use Rattle.exchange_model.specs.Kept.{IsExchange, entries_from, points_from};
ghost use Rattle.plex_limits.specs.declared.limits.TheConstants.{MOST_BLOCKS, MOST_CELLS};
ghost use Rattle.resolved_block.specs.Texts.{exchange_of};

use crate::entries::add_entries;
use crate::points::add_points;
use exchange_model::{Block, Entry, Exchange, PointInfo, SignalKind};
use plex_num::{Memory, Seq};
use std::alloc::Global;

/// What an exchange has of its blocks: where jobs start, a point for each statement, and how many
/// cells there are.
#[derive(Drop)]
struct Collected {
    entries: Seq<Entry>,
    points: Seq<PointInfo>,
    cells: u32,
}

/// What all blocks have, in the order of the text.
#[tactic(auto, using(crate::proofs::CollectedSteps::collecting))]
fn collect(alloc: Global, signals: &[SignalKind], blocks: &[Block]) -> Result<Collected, Memory>
    requires blocks { length blocks.now ≤ MOST_BLOCKS }
    requires cells { cell_count blocks.now ≤ MOST_CELLS }
    ensures entries { IfOk result (λ all. all.entries ≡ entries_from signals.now 0 blocks.now) }
    ensures points { IfOk result (λ all. all.points ≡ points_from 0 blocks.now) }
    ensures cells { IfOk result (λ all. all.cells ≡ cell_count blocks.now) }
{
    let mut entries = Seq::new(alloc);
    let mut points = Seq::new(alloc);
    let mut cells = 0;
    for (number, block) in blocks.iter().enumerate() {
        let body = block.body.as_slice();
        add_entries(signals, number as u32, body, &mut entries)?;
        add_points(number as u32, body, &mut points)?;
        cells += block.cells();
    }
    Ok(Collected {
        entries,
        points,
        cells,
    })
}

/// The exchange of these signals and blocks, which must keep all that an exchange keeps.
#[tactic(auto, using(crate::proofs::CollectedSteps::exchanging))]
pub(crate) fn exchange_with(
    alloc: Global,
    signals: Seq<SignalKind>,
    blocks: Seq<Block>,
) -> Result<Exchange, Memory>
    requires kept { IsExchange (exchange_of signals blocks) }
    ensures { IfOk result (λ x. x ≡ exchange_of signals blocks) }
{
    let Collected {
        entries,
        points,
        cells,
    } = collect(alloc, signals.as_slice(), blocks.as_slice())?;
    Exchange::new(alloc, signals, blocks, entries, points, cells)
}
