// The accesses of the statements that a job of an entry may reach.
ghost use Rattle.std.specs.Prelude.{◌≡◌, ◌↔◌, ◌++◌, map, IfOk, IsTrue, OnOk};
ghost use Rattle.std.specs.List.{Contains};
ghost use Rattle.flow_points.specs.Places.{IsPlace};
ghost use Rattle.flow_table.specs.Texts.{AreReachedAmong, seen};
ghost use Rattle.entry_summary.specs.declared.summary.Access.{Access as AccessType};
ghost use Rattle.entry_summary.specs.declared.summary.Access.TheVariants as access;
ghost use Rattle.entry_accesses.specs.Adding.{Adds, HasAccess, OneGives};
ghost use Rattle.entry_accesses.specs.Listed.{AreAccesses, IsPast, ListsWithin};
ghost use Rattle.entry_accesses.specs.Numbered.{AreNumbers};
ghost use Rattle.entry_accesses.specs.declared.uses.Use.{Use as UseType};
ghost use Rattle.entry_accesses.specs.Uses.{UseGives};

use crate::listed::Listed;
use crate::numbers::CellNumbers;
use crate::opening::with_opened;
use crate::order::{copied, in_order};
use crate::uses::{NumberedBlock, Use, push_uses};
use entry_summary::Access;
use exchange_model::Exchange;
use flow_points::Value;
use flow_table::{KnownFacts, PlaceAt, values_from};
use plex_num::{Memory, Seq};
use std::alloc::Global;

/// The accesses of the statements that a job of the entry may reach, in order, each once. The
/// numbers are those of the exchange; the places are of it too, and all that are reached are among
/// them. Where there is a bound, `most`, and more accesses than that were met, it is `Over`: each
/// of them takes time, and memory while it is kept.
pub fn accesses_within<K: KnownFacts>(
    alloc: Global,
    exchange: &Exchange,
    numbers: &CellNumbers,
    places: &[PlaceAt<'_>],
    known: &K,
    entry: u32,
    most: Option<usize>,
) -> Result<Listed, Memory>
    requires places { AreReachedAmong exchange.now (K.knows known.now) entry (map seen places.now) }
    requires numbers { AreNumbers exchange.now numbers.now }
    ensures { IfOk result
        (ListsWithin most (AreAccesses exchange.now (K.knows known.now) entry)) }
{
    let accesses = Seq::new(alloc);
    let mut found = Gathered {
        accesses,
        most: FEW,
        met: 0,
    };
    for at in places {
        found = gather(alloc, exchange, numbers, known, entry, at, found)?;
        if is_past(most, found.met) {
            return Ok(Listed::Over { met: found.met });
        }
    }
    let Gathered { accesses, met, .. } = found;
    let all = with_opened(alloc, exchange, numbers, accesses)?;
    let met = met.saturating_add(all.len());
    let copy = copied(alloc, all.as_slice())?;
    Ok(Listed::Whole {
        accesses: copy,
        met,
    })
}

/// Whether there is a bound, and more were met.
fn is_past(most: Option<usize>, met: usize) -> bool
    ensures { IsTrue result → IsPast most met }
{
    match most {
        Some(most) => met > most,
        None => false,
    }
}

/// Among so few accesses repeats do no harm.
const FEW: usize = 1_024;

/// Accesses that were found, some more than once; how many may stand there before repeats go; and
/// how many were met.
#[derive(Drop)]
struct Gathered {
    accesses: Seq<Access>,
    most: usize,
    met: usize,
}

/// The accesses that were found, and those of a statement, if it is reached.
fn gather<K: KnownFacts>(
    alloc: Global,
    exchange: &Exchange,
    numbers: &CellNumbers,
    known: &K,
    entry: u32,
    at: &PlaceAt<'_>,
    found: Gathered,
) -> Result<Gathered, Memory>
    requires place { IsPlace exchange.now (seen at.now) }
    requires numbers { AreNumbers exchange.now numbers.now }
    ensures { IfOk result (λ now. Adds found.accesses now.accesses
        (HasAccess exchange.now (K.knows known.now) entry (seen at.now))) }
{
    let Gathered {
        accesses,
        most,
        met,
    } = found;
    let mut accesses = accesses;
    let before = accesses.len();
    push_reached(alloc, exchange, numbers, known, entry, at, &mut accesses)?;
    let met = met.saturating_add(accesses.len().saturating_sub(before));
    Ok(thinned(Gathered {
        accesses,
        most,
        met,
    }))
}

/// The same without repeats, where there are too many: then as many again may come before they go
/// once more.
fn thinned(gathered: Gathered) -> Gathered
    ensures { (a : AccessType) → Contains result.accesses a ↔ Contains gathered.accesses a }
{
    let Gathered {
        accesses,
        most,
        met,
    } = gathered;
    if accesses.len() <= most {
        return Gathered {
            accesses,
            most,
            met,
        };
    }
    let accesses = in_order(accesses);
    let most = accesses.len().saturating_mul(2).max(FEW);
    Gathered {
        accesses,
        most,
        met,
    }
}

/// Appends the accesses of a statement, if it is reached.
fn push_reached<K: KnownFacts>(
    alloc: Global,
    exchange: &Exchange,
    numbers: &CellNumbers,
    known: &K,
    entry: u32,
    at: &PlaceAt<'_>,
    accesses: &mut Seq<Access>,
) -> Result<(), Memory>
    requires place { IsPlace exchange.now (seen at.now) }
    requires numbers { AreNumbers exchange.now numbers.now }
    ensures { OnOk result (Adds accesses.old accesses.new
        (HasAccess exchange.now (K.knows known.now) entry (seen at.now))) }
{
    exchange.kept();
    if !known.is_reached(entry, at.point) {
        return Ok(());
    }
    let here = NumberedBlock {
        exchange,
        numbers,
        block: at.block,
    };
    let mut uses = Seq::new(alloc);
    push_uses(alloc, &here, at.kind, &mut uses)?;
    let uses = each_once(uses);
    push_all(alloc, known, entry, at.point, uses.as_slice(), accesses)?;
    Ok(())
}

/// What a statement does, each once.
fn each_once(uses: Seq<Use>) -> Seq<Use>
    ensures { (u : UseType) → Contains result u ↔ Contains uses u }
{
    let mut each = uses.into_vec();
    each.sort_unstable();
    each.dedup();
    Seq::from_vec(each)
}

/// Appends the accesses that these are before a point in a job of the entry.
fn push_all<K: KnownFacts>(
    alloc: Global,
    known: &K,
    entry: u32,
    point: u32,
    uses: &[Use],
    accesses: &mut Seq<Access>,
) -> Result<(), Memory>
    ensures { OnOk result (Adds accesses.old accesses.new
        (OneGives (UseGives (K.knows known.now) entry point) uses.now)) }
{
    for used in uses {
        push_one(alloc, known, entry, point, *used, accesses)?;
    }
    Ok(())
}

fn push_one<K: KnownFacts>(
    alloc: Global,
    known: &K,
    entry: u32,
    point: u32,
    used: Use,
    accesses: &mut Seq<Access>,
) -> Result<(), Memory>
    ensures { OnOk result (Adds accesses.old accesses.new
        (UseGives (K.knows known.now) entry point used)) }
{
    match used {
        Use::Variable { write, number } => accesses.push(Access::Variable { write, number })?,
        Use::Field {
            write,
            number,
            selector,
        } => {
            let selectors = values_from(alloc, known, entry, point, selector)?;
            push_selected(write, number, selectors.as_slice(), accesses)?;
        }
        Use::Own { write, number } => accesses.push(Access::Own { write, number })?,
        Use::Seizes { file } => accesses.push(Access::Seizes { file })?,
        Use::Frees { file } => accesses.push(Access::Frees { file })?,
    }
    Ok(())
}

/// Appends an access for each of these selectors.
#[tactic(auto, using(crate::proofs::Selecting::selected_begin, crate::proofs::Selecting::selected_end))]
fn push_selected(
    write: bool,
    number: u32,
    selectors: &[Value],
    accesses: &mut Seq<Access>,
) -> Result<(), Memory>
    ensures { OnOk result (accesses.new ≡ accesses.old
        ++ map (access.Field write number) selectors.now) }
{
    for selector in selectors {
        let selector = *selector;
        accesses.push(Access::Field {
            write,
            number,
            selector,
        })?;
    }
    Ok(())
}
