// The survey of a block.
ghost use Rattle.std.specs.Prelude.{◌≡◌, [], IfOk, OnOk, filter_map};
ghost use Rattle.resolved_block.specs.Blocks.{first_mentions, joined_once, sent_in, sends_of};
ghost use Rattle.block_resolver.specs.Tables.{env_in};

use crate::names::Names;
use indexmap::IndexSet;
use plex_ast::{Block, Survey, SurveyKind};
use plex_num::{Memory, Seed, Seq};
use std::alloc::Global;

/// The signal that a line sends.
fn sent_in(names: &Names<'_>, survey: &Survey) -> Option<u32>
    ensures { result ≡ sent_in (env_in names.now) survey.now }
{
    match &survey.kind {
        SurveyKind::Receive { .. } => None,
        SurveyKind::Send { signal } => Some(names.signal(signal)),
    }
}

/// The signals of the SEND lines, in order.
#[tactic(auto, using(crate::proofs::Picked::list_picked))]
fn mentions_of(alloc: Global, names: &Names<'_>, surveys: &[Survey]) -> Result<Seq<u32>, Memory>
    ensures { IfOk result (λ list. list ≡ filter_map (sent_in (env_in names.now)) surveys.now) }
{
    let mut list = Seq::new(alloc);
    for survey in surveys {
        let Some(signal) = sent_in(names, survey) else {
            continue;
        };
        list.push(signal)?;
    }
    Ok(list)
}

/// Adds a number to the list of those that were seen, where it is new.
fn mention(seen: &mut IndexSet<u32, Seed>, list: &mut Seq<u32>, number: u32) -> Result<(), Memory>
    requires { seen.old.keys ≡ list.old }
    ensures list { OnOk result (list.new ≡ joined_once list.old number) }
    ensures seen { OnOk result (seen.new.keys ≡ list.new) }
{
    let Ok((_, added)) = seen.insert_full(number) else {
        return Err(Memory);
    };
    if added {
        list.push(number)?;
    }
    Ok(())
}

/// Each number once, in the order of their first mentions.
#[tactic(auto, using(crate::proofs::Mentioned::numbers_mentioned))]
fn first_mentions(alloc: Global, numbers: &[u32], seed: Seed) -> Result<Seq<u32>, Memory>
    ensures { IfOk result (λ list. list ≡ first_mentions numbers.now) }
{
    let mut seen = IndexSet::with_hasher(alloc, seed);
    let mut list = Seq::new(alloc);
    for number in numbers {
        mention(&mut seen, &mut list, *number)?;
    }
    Ok(list)
}

/// The signals that a block may send, in the order in which its survey first names them.
pub(crate) fn sends_of(alloc: Global, names: &Names<'_>, block: &Block) -> Result<Seq<u32>, Memory>
    ensures { IfOk result (λ list. list ≡ sends_of (env_in names.now) block.now) }
{
    let mentions = mentions_of(alloc, names, block.surveys.as_slice())?;
    let sends = first_mentions(alloc, mentions.as_slice(), names.signals.seed)?;
    Ok(sends)
}
