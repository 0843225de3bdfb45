// The body of a block: its statements, and where its ENTERs and labels stand in it.
ghost use Rattle.std.specs.Prelude.{◌≡◌, IfOk, OnOk};
ghost use Rattle.exchange_model.specs.Kept.{enters_from};
ghost use Rattle.block_resolver.specs.Added.{AddsItem, AddsLabel, CountsItem};
ghost use Rattle.block_resolver.specs.Tables.{env_in};
ghost use Rattle.resolved_block.specs.Blocks.{items_made, labels_from};

use crate::conditions::make_temps;
use crate::names::Names;
use crate::numbers::next;
use crate::statements::make_stmt;
use exchange_model::{Enter, Label, Stmt, StmtKind};
use plex_ast::{Item, ItemKind};
use plex_num::{Memory, Seq};
use std::alloc::Global;

/// Adds the statement that an item is; a label is none.
fn add_item(
    alloc: Global,
    names: &Names<'_>,
    item: &Item,
    point: &mut u32,
    made: &mut Seq<Stmt>,
) -> Result<(), Memory>
    ensures items { OnOk result
        (AddsItem (env_in names.now) item.now made.old made.new point.old point.new) }
    ensures next { OnOk result (CountsItem (env_in names.now) item.now point.old point.new) }
{
    match &item.kind {
        ItemKind::Label { .. } => {}
        ItemKind::Enter {
            signal,
            names: list,
        } => {
            let number = *point;
            *point = next(number)?;
            let temps = make_temps(alloc, names, list)?;
            let enter = Stmt {
                point: number,
                line: item.line,
                kind: StmtKind::Enter {
                    signal: names.signal(signal),
                    temps,
                },
            };
            made.push(enter)?;
        }
        ItemKind::Stmt(stmt) => {
            let stmt = make_stmt(alloc, names, stmt, point)?;
            made.push(stmt)?;
        }
    }
    Ok(())
}

/// The statements of the items.
#[tactic(auto, using(crate::proofs::Items::items_added))]
pub(crate) fn make_items(
    alloc: Global,
    names: &Names<'_>,
    items: &[Item],
    point: &mut u32,
) -> Result<Seq<Stmt>, Memory>
    ensures made { IfOk result (λ m. m ≡ (items_made (env_in names.now) items.now point.old).0) }
    ensures next { OnOk result (point.new ≡ (items_made (env_in names.now) items.now point.old).1) }
{
    let mut made = Seq::new(alloc);
    for item in items {
        add_item(alloc, names, item, point, &mut made)?;
    }
    Ok(made)
}

/// Adds the label that an item is, or goes on to the place after its statement.
fn add_label(kind: &ItemKind, place: &mut u32, list: &mut Seq<Label>) -> Result<(), Memory>
    ensures { OnOk result (AddsLabel kind.now list.old list.new place.old place.new) }
{
    match kind {
        ItemKind::Label { name } => {
            let label = Label {
                name: name.name.copy(),
                place: *place,
            };
            list.push(label)?;
        }
        ItemKind::Enter { .. } => *place = next(*place)?,
        ItemKind::Stmt(_) => *place = next(*place)?,
    }
    Ok(())
}

/// The labels, each at the place of the statement that follows it.
#[tactic(auto, using(crate::proofs::Items::labels_placed))]
pub(crate) fn labels_of(alloc: Global, items: &[Item]) -> Result<Seq<Label>, Memory>
    ensures { IfOk result (λ list. list ≡ labels_from items.now 0) }
{
    let mut list = Seq::new(alloc);
    let mut place = 0;
    for item in items {
        add_label(&item.kind, &mut place, &mut list)?;
    }
    Ok(list)
}

/// A row for each ENTER of a body.
#[tactic(auto, using(crate::proofs::Rows::enters_rowed))]
pub(crate) fn enters_of(alloc: Global, body: &[Stmt]) -> Result<Seq<Enter>, Memory>
    ensures { IfOk result (λ list. list ≡ enters_from 0 body.now) }
{
    let mut list = Seq::new(alloc);
    let mut place = 0;
    for statement in body {
        if let Some(signal) = statement.kind.entered() {
            list.push(Enter { signal, place })?;
        }
        place = next(place)?;
    }
    Ok(list)
}
