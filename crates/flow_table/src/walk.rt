// The statements of an exchange, each where it stands.
ghost use Rattle.std.specs.Prelude.{◌≡◌, ◌≤◌, drop, length, map, IfOk, OnOk, None};
ghost use Rattle.plex_limits.specs.declared.limits.TheConstants.{MOST_BLOCKS};
ghost use Rattle.exchange_model.specs.declared.stmt.StmtKind.{out-StmtKind};
ghost use Rattle.source_meaning.specs.Rests.{first_point};
ghost use Rattle.flow_table.specs.Texts.{ArePlaces, Chosen, HasMore, Inside, Texts, Walked, seen};

use crate::place::PlaceAt;
use exchange_model::{Block, Exchange, Stmt, StmtKind, When};
use plex_num::{Memory, Seq};
use std::alloc::Global;

/// All statements of an exchange, those in others too, each at its point.
pub fn places_of<'a>(alloc: Global, exchange: &'a Exchange) -> Result<Seq<PlaceAt<'a>>, Memory>
    ensures { IfOk result (λ places. ArePlaces exchange.now (map seen places)) }
{
    exchange.kept();
    let mut places = Seq::with_capacity(alloc, exchange.points.len())?;
    add_blocks(exchange.blocks.as_slice(), &mut places)?;
    Ok(places)
}

#[tactic(auto, using(crate::proofs::Walking::blocks_begin))]
fn add_blocks<'a>(blocks: &'a [Block], places: &mut Seq<PlaceAt<'a>>) -> Result<(), Memory>
    requires { length blocks.now ≤ MOST_BLOCKS }
    ensures { OnOk result (HasMore places.old places.new (Texts 0 blocks.now)) }
{
    for (number, block) in blocks.iter().enumerate() {
        add_list(block.body.as_slice(), number as u32, None, places)?;
    }
    Ok(())
}

#[cycle(walk)]
#[tactic(auto, using(crate::proofs::Walking::list_begin))]
fn add_list<'a>(
    list: &'a [Stmt],
    block: u32,
    end: Option<u32>,
    places: &mut Seq<PlaceAt<'a>>,
) -> Result<(), Memory>
    ensures { OnOk result (HasMore places.old places.new (Walked block list.now end)) }
{
    for (i, statement) in list.iter().enumerate() {
        let next = first_of(from(list, i + 1), end);
        places.push(PlaceAt {
            block,
            point: statement.point,
            kind: &statement.kind,
            next,
        })?;
        add_inner(&statement.kind, block, statement.point, next, places)?;
    }
    Ok(())
}

#[cycle(walk)]
fn add_inner<'a>(
    kind: &'a StmtKind,
    block: u32,
    point: u32,
    next: Option<u32>,
    places: &mut Seq<PlaceAt<'a>>,
) -> Result<(), Memory>
    ensures { OnOk result
        (HasMore places.old places.new (Inside block point next (out-StmtKind kind.now))) }
{
    match kind {
        StmtKind::If { yes, no, .. } => {
            add_list(yes.as_slice(), block, next, places)?;
            add_list(no.as_slice(), block, next, places)?;
        }
        StmtKind::Case {
            whens,
            otherwise,
            ..
        } => {
            add_choices(whens.as_slice(), block, next, places)?;
            add_list(otherwise.as_slice(), block, next, places)?;
        }
        StmtKind::On { body, .. } => {
            add_list(body.as_slice(), block, Some(point), places)?;
        }
        _ => {}
    }
    Ok(())
}

#[cycle(walk)]
#[tactic(auto, using(crate::proofs::Walking::choices_begin))]
fn add_choices<'a>(
    whens: &'a [When],
    block: u32,
    next: Option<u32>,
    places: &mut Seq<PlaceAt<'a>>,
) -> Result<(), Memory>
    ensures { OnOk result (HasMore places.old places.new (Chosen block next whens.now)) }
{
    for when in whens {
        add_list(when.body.as_slice(), block, next, places)?;
    }
    Ok(())
}

/// The statements from a place on.
pub fn from(statements: &[Stmt], n: usize) -> &[Stmt]
    requires { n ≤ length statements.now }
    ensures { result.now ≡ drop n statements.now }
{
    &statements[n..]
}

/// The point of the first of these statements that is no ENTER, or else this one.
pub fn first_of(statements: &[Stmt], end: Option<u32>) -> Option<u32>
    ensures { result ≡ first_point statements.now end }
{
    for statement in statements {
        if !statement.kind.is_enter() {
            return Some(statement.point);
        }
    }
    end
}
