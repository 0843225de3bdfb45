// What stands in a block.
ghost use Rattle.std.specs.Prelude.{◌≡◌, ◌<◌, OnOk, IfOk, length, get_or, map};
ghost use Rattle.text_events.specs.Walk.{in_turn};
ghost use Rattle.text_events.specs.Note.{Nothing};
ghost use Rattle.text_events.specs.Blocks.{survey_walk, labels_of, items_walk, block_events};
ghost use Rattle.text_events.specs.Seen.{item_walk_in};

use crate::declarations::walk_decls;
use crate::pushes::{narrow, plus, push, push_signal};
use crate::statements::{walk_kind, walk_names};
use plex_ast::{Block, Item, ItemKind, Survey, SurveyKind};
use plex_num::{Memory, Seq};
use std::alloc::Global;
use text_events::{Event, PackedEvent, Role};

fn walk_survey<'a>(s: &'a Survey, out: &mut Seq<Event<'a>>) -> Result<(), Memory>
    ensures { OnOk result (out.new ≡ survey_walk s.now out.old) }
{
    match &s.kind {
        SurveyKind::Receive { signal } => {
            let kept = PackedEvent::Receives {
                line: s.line,
                signal: &signal.name,
            };
            push(out, kept)?;
            push_signal(out, signal, Role::Received)?;
            Ok(())
        }
        SurveyKind::Send { signal } => {
            push_signal(out, signal, Role::Sent { reference: false })?;
            Ok(())
        }
    }
}

#[tactic(auto, using(text_events::proofs::Steps::turns_begin, text_events::proofs::Steps::turns_step, text_events::proofs::Steps::turns_end))]
fn walk_surveys<'a>(surveys: &'a [Survey], out: &mut Seq<Event<'a>>) -> Result<(), Memory>
    ensures { OnOk result (out.new ≡ in_turn (map survey_walk surveys.now) out.old) }
{
    for s in surveys {
        walk_survey(s, out)?;
    }
    Ok(())
}

// The item at a place of a program, after so many labels.
#[tactic(auto, using(crate::proofs::BlockSteps::label_in, crate::proofs::BlockSteps::enter_in, crate::proofs::BlockSteps::stmt_item_in))]
fn walk_item<'a>(
    alloc: Global,
    item: &'a Item,
    items: &'a Seq<Item>,
    at: usize,
    label: u32,
    out: &mut Seq<Event<'a>>,
) -> Result<(), Memory>
    requires inside { at < length items.now }
    requires there { item.now ≡ get_or items.now at item.now }
    ensures { OnOk result (out.new ≡ item_walk_in item.now items.now at label out.old) }
{
    let number = narrow(at)?;
    match &item.kind {
        ItemKind::Label { name } => {
            let kept = PackedEvent::Label {
                number: label,
                name,
            };
            push(out, kept)?;
            Ok(())
        }
        ItemKind::Enter { signal, names } => {
            push(
                out,
                PackedEvent::BeginsItem {
                    at: number,
                    list: items,
                },
            )?;
            push_signal(out, signal, Role::Received)?;
            walk_names(names, out)?;
            Ok(())
        }
        ItemKind::Stmt(s) => {
            let owner = narrow(out.len())?;
            push(
                out,
                PackedEvent::BeginsItem {
                    at: number,
                    list: items,
                },
            )?;
            walk_kind(alloc, &s.kind, owner, out)?;
            Ok(())
        }
    }
}

fn count_labels(item: &ItemKind) -> u32
    ensures { result ≡ labels_of item.now }
{
    match item {
        ItemKind::Label { .. } => 1,
        _ => 0,
    }
}

#[tactic(auto, using(crate::proofs::BlockSteps::items_begin, crate::proofs::BlockSteps::items_step, crate::proofs::BlockSteps::items_end))]
fn walk_items<'a>(
    alloc: Global,
    items: &'a Seq<Item>,
    out: &mut Seq<Event<'a>>,
) -> Result<(), Memory>
    ensures { OnOk result (out.new ≡ items_walk items.now 0 Nothing out.old) }
{
    let mut labels: u32 = 0;
    let list = items.as_slice();
    for i in 0..list.len() {
        walk_item(alloc, &list[i], items, i, labels, out)?;
        labels = plus(labels, count_labels(&list[i].kind))?;
    }
    Ok(())
}

/// What stands in a block, in the order of its text; refuses with `Memory` where memory is refused,
/// or where 32 bits have no next number for a name or an event: in a block of 2^32 of one kind of
/// them.
pub(crate) fn walk_block<'a>(alloc: Global, block: &'a Block) -> Result<Seq<Event<'a>>, Memory>
    ensures { IfOk result (λ events. events ≡ block_events block.now) }
{
    let mut out = Seq::new(alloc);
    push(&mut out, PackedEvent::Block { line: block.line })?;
    let kept = PackedEvent::BlockName {
        line: block.name.line,
        name: &block.name.name,
    };
    push(&mut out, kept)?;
    walk_decls(alloc, block.decls.as_slice(), &mut out)?;
    walk_surveys(block.surveys.as_slice(), &mut out)?;
    walk_items(alloc, &block.items, &mut out)?;
    let line = block.end_line;
    push(&mut out, PackedEvent::Ends { line })?;
    Ok(out)
}
