// The statements that a job of an entry may reach.
ghost use Rattle.std.specs.Prelude.{◌++◌, map, IfOk, OnOk};
ghost use Rattle.exchange_model.specs.declared.exchange.Exchange.{Exchange};
ghost use Rattle.flow_table.specs.Texts.{ArePlaces, AreReachedAmong, HasReached, seen};

use crate::known::KnownFacts;
use crate::place::PlaceAt;
use plex_num::{Memory, Seq};
use std::alloc::Global;

/// Those of an exchange's statements that a job of the entry may reach, in the order of the text.
pub fn reached_places<'a, K: KnownFacts>(
    alloc: Global,
    places: &[PlaceAt<'a>],
    known: &K,
    entry: u32,
) -> Result<Seq<PlaceAt<'a>>, Memory>
    ensures { IfOk result (λ there. (x : Exchange) → ArePlaces x (map seen places.now)
        → AreReachedAmong x (K.knows known.now) entry (map seen there)) }
{
    let mut there = Seq::new(alloc);
    for at in places {
        push_reached(known, entry, at, &mut there)?;
    }
    Ok(there)
}

/// Appends a statement, if it is reached.
fn push_reached<'a, K: KnownFacts>(
    known: &K,
    entry: u32,
    at: &PlaceAt<'a>,
    there: &mut Seq<PlaceAt<'a>>,
) -> Result<(), Memory>
    ensures { OnOk result (HasReached (K.knows known.now) entry at.now there.old there.new) }
{
    if known.is_reached(entry, at.point) {
        return there.push(*at);
    }
    Ok(())
}
