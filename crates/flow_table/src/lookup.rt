// Where labels stand, at which ENTERs a signal begins an activation, and which points these are.
ghost use Rattle.std.specs.Prelude.{◌≡◌, ◌∷◌, ◌++◌, [], drop, OnOk, None, Some, if◌then◌else◌};
ghost use Rattle.exchange_model.specs.declared.stmt.StmtKind.{out-StmtKind};
ghost use Rattle.source_meaning.specs.Config.{body_of, enter_place, label_of};
ghost use Rattle.exchange_model.specs.Kept.{is_enter as is_enter_layer};
ghost use Rattle.source_meaning.specs.Rests.{first_point};
ghost use Rattle.flow_points.specs.Places.{enter_point as enter_point_of};
ghost use Rattle.flow_points.specs.Places.{label_point as label_point_of};
ghost use Rattle.flow_points.specs.Places.{receives as receives_signal};
ghost use Rattle.flow_table.specs.Ways.{all_receiving, enters_in, listed, receivers_of, receiving};

use crate::walk::{first_of, from};
use exchange_model::{Exchange, Receiver, Stmt};
use plex_num::{Memory, Seq};

/// The point of the first statement from a place of a block's text on that is no ENTER.
#[tactic(auto, using(crate::proofs::Lookups::first_no_block, crate::proofs::Lookups::first_past, crate::proofs::Lookups::first_is))]
fn first_at(exchange: &Exchange, block: u32, place: u32) -> Option<u32>
    ensures { result ≡ first_point (drop place (body_of exchange.now block)) None }
{
    let Some(found) = exchange.blocks.get(block as usize) else {
        return None;
    };
    let body = found.body.as_slice();
    if place as usize > body.len() {
        return None;
    }
    first_of(from(body, place as usize), None)
}

/// The place of a label of a block; 0 where there is none.
#[tactic(auto, using(source_meaning::proofs::Lookups::found_none, source_meaning::proofs::Lookups::label_none, source_meaning::proofs::Lookups::label_some))]
fn label_place(exchange: &Exchange, block: u32, label: u32) -> u32
    ensures { result ≡ label_of exchange.now block label }
{
    let Some(found) = exchange.blocks.get(block as usize) else {
        return 0;
    };
    match found.labels.get(label as usize) {
        Some(label) => label.place,
        None => 0,
    }
}

/// The point that a label of a block stands for.
pub fn label_point(exchange: &Exchange, block: u32, label: u32) -> Option<u32>
    ensures { result ≡ label_point_of exchange.now block label }
{
    let place = label_place(exchange, block, label);
    first_at(exchange, block, place)
}

/// The place of the ENTER of a signal in a block; 0 where there is none.
#[tactic(auto, using(source_meaning::proofs::Entering::enter_found))]
fn place_of_enter(exchange: &Exchange, block: u32, signal: u32) -> u32
    ensures { result ≡ enter_place exchange.now block signal }
{
    exchange.enter_of(block, signal).unwrap_or(0)
}

/// Whether a block receives a signal.
#[tactic(auto, using(source_meaning::proofs::Entering::receives_is))]
fn receives(exchange: &Exchange, block: u32, signal: u32) -> bool
    ensures { result ≡ receives_signal exchange.now signal block }
{
    exchange.enter_of(block, signal).is_some()
}

/// The point of a statement that is an ENTER.
fn entered_point(statement: &Stmt) -> Option<u32>
    ensures { result ≡ (if is_enter_layer (out-StmtKind statement.now.kind)
        then Some statement.now.point else None) }
{
    if statement.kind.is_enter() {
        Some(statement.point)
    } else {
        None
    }
}

/// The point of the ENTER of a signal in a block.
#[tactic(auto, using(crate::proofs::Lookups::enter_no_block, crate::proofs::Lookups::enter_no_place, crate::proofs::Lookups::enter_is))]
pub fn enter_point(exchange: &Exchange, block: u32, signal: u32) -> Option<u32>
    ensures { result ≡ enter_point_of exchange.now block signal }
{
    let place = place_of_enter(exchange, block, signal);
    let Some(found) = exchange.blocks.get(block as usize) else {
        return None;
    };
    match found.body.get(place as usize) {
        Some(statement) => entered_point(statement),
        None => None,
    }
}

/// Appends a point, if there is one.
#[tactic(auto, using(crate::proofs::Lookups::none_listed))]
pub fn push_point(point: Option<u32>, points: &mut Seq<u32>) -> Result<(), Memory>
    ensures { OnOk result (points.new ≡ points.old ++ listed point) }
{
    match point {
        Some(point) => points.push(point),
        None => Ok(()),
    }
}

/// Appends the ENTER of a signal in a block, if the block receives it.
#[tactic(auto, using(crate::proofs::Lookups::received, crate::proofs::Lookups::not_received))]
fn push_received(
    exchange: &Exchange,
    block: u32,
    signal: u32,
    points: &mut Seq<u32>,
) -> Result<(), Memory>
    ensures { OnOk result (points.new ≡ points.old
        ++ enters_in exchange.now signal (receiving exchange.now signal (block ∷ []))) }
{
    if receives(exchange, block, signal) {
        return push_point(enter_point(exchange, block, signal), points);
    }
    Ok(())
}

/// Appends the ENTERs of a signal in the blocks to which it may go.
#[tactic(auto, using(crate::proofs::Entering::no_enters, crate::proofs::Entering::named_enter))]
pub fn push_enters(
    exchange: &Exchange,
    signal: u32,
    to: Option<Receiver>,
    points: &mut Seq<u32>,
) -> Result<(), Memory>
    ensures { OnOk result (points.new ≡ points.old
        ++ enters_in exchange.now signal (receivers_of exchange.now signal to)) }
{
    match to {
        None => Ok(()),
        Some(Receiver::Block(block)) => push_point(enter_point(exchange, block, signal), points),
        Some(Receiver::Held(_)) => push_all_enters(exchange, signal, points),
    }
}

/// Appends the ENTERs of a signal in all blocks that receive it.
#[tactic(auto, using(crate::proofs::Entering::enters_begin))]
fn push_all_enters(exchange: &Exchange, signal: u32, points: &mut Seq<u32>) -> Result<(), Memory>
    ensures { OnOk result (points.new ≡ points.old
        ++ enters_in exchange.now signal (all_receiving exchange.now signal)) }
{
    exchange.kept();
    let count = exchange.blocks.len();
    for number in 0..count {
        push_received(exchange, number as u32, signal, points)?;
    }
    Ok(())
}
