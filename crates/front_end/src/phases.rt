// The phases, one after the other.
ghost use Rattle.std.specs.Prelude.{◌≡◌, ◌≤◌, None, IfOk, IfErr, MatchResult};
ghost use Rattle.exchange_model.specs.Kept.{IsExchange};
ghost use Rattle.kept_trees.specs.Keeps.{IsKept};
ghost use Rattle.plex_limits.specs.declared.limits.TheConstants.{MOST_WHENS};
ghost use Rattle.signal_types.specs.Signals.{signals_of};
ghost use Rattle.text_events.specs.Texts.{text_events};
ghost use Rattle.text_rules.specs.Texts.{signals_told, text_told, BreaksNoRule};
ghost use Rattle.resolved_block.specs.Texts.{choices_in, exchange_of_tree, typed_blocks};
ghost use Rattle.text_soundness.specs.Resolved.{resolved, IsToldOf, Resolves};

use crate::collected::exchange_with;
use crate::seed::seed_of;
use block_resolver::resolve_blocks;
use exchange_model::{Block, Exchange, SignalKind};
use plex_ast::Tree;
use plex_num::{Memory, Seed, Seq};
use rule_checks::{check_blocks, check_links, check_signals};
use signal_types::{SignalTable, kinds_of_signals};
use std::alloc::Global;
use text_events::Event;
use text_rules::{BlockTable, Fault, Rule};
use text_soundness::TextFault;
use text_walk::walk_text;

/// Whether a text keeps the rules of signals and of names of blocks.
#[tactic(auto, using(crate::proofs::Told::signals_first))]
fn check_names(
    alloc: Global,
    tree: &Tree,
    parts: &[Seq<Event<'_>>],
    seed: Seed,
) -> Result<(), TextFault>
    requires events { parts.now ≡ text_events tree.now }
    ensures fine { IfOk result (λ _. signals_told (text_events tree.now) ≡ None) }
    ensures told { IfErr result (IsToldOf (text_told tree.now)) }
{
    let _ = tree;
    match check_signals(alloc, parts, seed) {
        Ok(()) => Ok(()),
        Err(Fault::Rule { rule, line }) => Err(TextFault::Rule {
            rule: Rule::Signals(rule),
            line,
        }),
        Err(Fault::Memory) => Err(TextFault::Memory),
    }
}

/// Whether the blocks of a text keep the rules of blocks, and then the link rules and the limits.
#[tactic(auto, using(crate::proofs::Told::blocks_first, crate::proofs::Told::links_first, crate::proofs::Told::nothing_told))]
fn check<'a>(
    alloc: Global,
    tree: &Tree,
    signals: &'a SignalTable<'a>,
    blocks: &'a BlockTable<'a>,
    parts: &[Seq<Event<'_>>],
) -> Result<(), TextFault>
    requires events { parts.now ≡ text_events tree.now }
    requires signals { signals.now.kinds.now ≡ signals_of tree.now }
    requires blocks { blocks.now.blocks.now ≡ tree.now.blocks }
    requires fine { signals_told (text_events tree.now) ≡ None }
    ensures { MatchResult result (λ _. BreaksNoRule tree.now) (IsToldOf (text_told tree.now)) }
{
    let _ = tree;
    match check_blocks(alloc, signals, blocks, parts) {
        Ok(()) => {}
        Err(Fault::Rule { rule, line }) => {
            return Err(TextFault::Rule {
                rule: Rule::Blocks(rule),
                line,
            });
        }
        Err(Fault::Memory) => return Err(TextFault::Memory),
    }
    match check_links(alloc, signals, blocks, parts) {
        Ok(()) => Ok(()),
        Err(Fault::Rule { rule, line }) => Err(TextFault::Rule {
            rule: Rule::Links(rule),
            line,
        }),
        Err(Fault::Memory) => Err(TextFault::Memory),
    }
}

/// The blocks of a text that breaks no rule, with numbers for names.
fn blocks_of(
    alloc: Global,
    tree: &Tree,
    kinds: &[SignalKind],
    parts: &[Seq<Event<'_>>],
    seed: Seed,
) -> Result<Seq<Block>, TextFault>
    requires events { parts.now ≡ text_events tree.now }
    requires signals { kinds.now ≡ signals_of tree.now }
    requires fine { signals_told (text_events tree.now) ≡ None }
    ensures fine { IfOk result (λ _. BreaksNoRule tree.now) }
    ensures blocks { IfOk result (λ list. list ≡ typed_blocks tree.now) }
    ensures told { IfErr result (IsToldOf (text_told tree.now)) }
{
    let signals = match SignalTable::of(alloc, kinds, seed) {
        Ok(signals) => signals,
        Err(Memory) => return Err(TextFault::Memory),
    };
    let blocks = match BlockTable::of(alloc, tree.blocks.as_slice(), seed) {
        Ok(blocks) => blocks,
        Err(Memory) => return Err(TextFault::Memory),
    };
    match check(alloc, tree, &signals, &blocks, parts) {
        Ok(()) => {}
        Err(fault) => return Err(fault),
    }
    match resolve_blocks(alloc, tree, &signals, &blocks, parts) {
        Ok(list) => Ok(list),
        Err(Memory) => Err(TextFault::Memory),
    }
}

/// The exchange that a tree means, or its first fault (docs/LANGUAGE.md, Rules). Memory comes where
/// memory is refused, and where a number of the exchange has more than 32 bits.
#[tactic(auto, using(crate::proofs::Told::resolves_told, crate::proofs::Told::resolves_fine, crate::proofs::Told::is_kept))]
pub fn resolve(alloc: Global, tree: &Tree) -> Result<Exchange, TextFault>
    requires kept { IsKept tree.now }
    requires few { choices_in (exchange_of_tree tree.now) ≤ MOST_WHENS }
    ensures { Resolves (resolved tree.now) result }
{
    let parts = match walk_text(alloc, tree) {
        Ok(parts) => parts,
        Err(Memory) => return Err(TextFault::Memory),
    };
    let seed = seed_of(parts.as_slice());
    match check_names(alloc, tree, parts.as_slice(), seed) {
        Ok(()) => {}
        Err(fault) => return Err(fault),
    }
    let kinds = match kinds_of_signals(alloc, tree.signals.as_slice()) {
        Ok(kinds) => kinds,
        Err(Memory) => return Err(TextFault::Memory),
    };
    let blocks = match blocks_of(alloc, tree, kinds.as_slice(), parts.as_slice(), seed) {
        Ok(blocks) => blocks,
        Err(fault) => return Err(fault),
    };
    drop(parts);
    match exchange_with(alloc, kinds, blocks) {
        Ok(exchange) => Ok(exchange),
        Err(Memory) => Err(TextFault::Memory),
    }
}
