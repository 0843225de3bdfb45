// A block whole.
ghost use Rattle.std.specs.Prelude.{◌≡◌, IfOk, OnOk};
ghost use Rattle.text_events.specs.Blocks.{block_events};
ghost use Rattle.resolved_block.specs.Blocks.{body_of, ended, items_made, typed_of, typed_with};
ghost use Rattle.block_resolver.specs.Tables.{env_in};

use crate::body::{enters_of, labels_of, make_items};
use crate::data::data_of;
use crate::names::Names;
use crate::numbers::{after_files, next};
use crate::survey::sends_of;
use exchange_model::{Block, Stmt, StmtKind};
use plex_num::{Memory, Seq};
use resolved_block::{First, Typed};
use signal_types::SignalTable;
use std::alloc::Global;
use text_events::Event;
use text_rules::BlockTable;

/// The statements of a block, the last of which is its end.
fn make_body(
    alloc: Global,
    names: &Names<'_>,
    block: &plex_ast::Block,
    point: &mut u32,
) -> Result<Seq<Stmt>, Memory>
    ensures made { IfOk result
        (λ body. body
        ≡ ended block.now.end_line (items_made (env_in names.now) block.now.items point.old)) }
    ensures next { OnOk result
        (point.new ≡ (items_made (env_in names.now) block.now.items point.old).1) }
{
    let mut body = make_items(alloc, names, block.items.as_slice(), point)?;
    body.push(Stmt {
        point: *point,
        line: block.end_line,
        kind: StmtKind::Finish,
    })?;
    Ok(body)
}

/// The block with these statements, whose names stand for these.
fn with_body(
    alloc: Global,
    names: &Names<'_>,
    first: First,
    block: &plex_ast::Block,
    body: Seq<Stmt>,
) -> Result<Block, Memory>
    requires { body ≡ body_of (env_in names.now) first block.now }
    ensures { IfOk result (λ b. b ≡ (typed_with (env_in names.now) first block.now).block) }
{
    let data = data_of(alloc, block.decls.as_slice(), first.file)?;
    let (variables, (temporaries, files)) = data;
    let sends = sends_of(alloc, names, block)?;
    let enters = enters_of(alloc, body.as_slice())?;
    let labels = labels_of(alloc, block.items.as_slice())?;
    Ok(Block {
        name: block.name.name.copy(),
        variables,
        temporaries,
        files,
        sends,
        enters,
        labels,
        body,
    })
}

/// The block whose names stand for these.
fn typed_with(
    alloc: Global,
    names: &Names<'_>,
    first: First,
    block: &plex_ast::Block,
) -> Result<Typed, Memory>
    ensures { IfOk result (λ t. t ≡ typed_with (env_in names.now) first block.now) }
{
    let mut point = first.point;
    let body = make_body(alloc, names, block, &mut point)?;
    let made = with_body(alloc, names, first, block, body)?;
    let after = First {
        point: next(point)?,
        file: after_files(first.file, &made.files)?,
    };
    Ok(Typed {
        block: made,
        next: after,
    })
}

/// The block of an exchange that a block of a text means, from the numbers of its first statement
/// and its first file on. `events` are those of the block.
#[tactic(auto, using(crate::proofs::Among::among_is))]
pub(crate) fn typed_block(
    alloc: Global,
    signals: &SignalTable<'_>,
    blocks: &BlockTable<'_>,
    first: First,
    block: &plex_ast::Block,
    events: &[Event<'_>],
) -> Result<Typed, Memory>
    requires { events.now ≡ block_events block.now }
    ensures { IfOk result
        (λ t. t ≡ typed_of signals.now.kinds.now blocks.now.blocks.now first block.now) }
{
    let names = Names::of(alloc, signals, blocks, events, first.file)?;
    let typed = typed_with(alloc, &names, first, block)?;
    Ok(typed)
}
