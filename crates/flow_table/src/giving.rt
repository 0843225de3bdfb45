// What facts give.
ghost use Rattle.std.specs.Prelude.{◌≡◌, ◌∷◌, ◌++◌, ◌↔◌, [], map, IfOk, OnOk, IsTrue};
ghost use Rattle.flow_points.specs.declared.fact.Value.TheVariants as variants;
ghost use Rattle.flow_points.specs.Facts.{Guarded, SourceGives, fact};
ghost use Rattle.flow_table.specs.Giving.{AreValues, HasGiven, SlotGives, SlotsGive};
ghost use Rattle.flow_table.specs.Giving.{raised as raised_of, raised_one};
ghost use Rattle.flow_table.specs.Small.{IsSmall};

use crate::known::KnownFacts;
use crate::passing::source_over;
use flow_points::{Fact, Passing, Slot, Source, Value};
use plex_limits::MOST_CALLERS;
use plex_num::{Memory, Seq};
use std::alloc::Global;

/// The values that come from a source, before a point in a job of the entry.
pub fn values_from<K: KnownFacts>(
    alloc: Global,
    known: &K,
    entry: u32,
    point: u32,
    source: Source,
) -> Result<Seq<Value>, Memory>
    ensures { IfOk result (AreValues (SourceGives (K.knows known.now) entry point source)) }
{
    match source {
        Source::Of(slot) => known.values(alloc, entry, point, slot),
        Source::Is(value) => alone(alloc, value),
        Source::Deeper => {
            let depths = known.values(alloc, entry, point, Slot::Depth)?;
            raised(alloc, depths.as_slice())
        }
        Source::Nothing => Ok(Seq::new(alloc)),
    }
}

fn alone(alloc: Global, value: Value) -> Result<Seq<Value>, Memory>
    ensures { IfOk result (λ values. values ≡ value ∷ []) }
{
    let mut values = Seq::new(alloc);
    values.push(value)?;
    Ok(values)
}

/// One more than each number of callers that leaves room for it.
#[tactic(auto, using(crate::proofs::Raising::raised_begin, crate::proofs::Raising::raised_end))]
fn raised(alloc: Global, depths: &[Value]) -> Result<Seq<Value>, Memory>
    ensures { IfOk result (λ values. values ≡ raised_of depths.now) }
{
    let mut values = Seq::new(alloc);
    for depth in depths {
        push_raised(*depth, &mut values)?;
    }
    Ok(values)
}

#[tactic(auto, using(crate::proofs::Raising::number_raised, crate::proofs::Raising::number_full, crate::proofs::Raising::none_raised))]
fn push_raised(depth: Value, values: &mut Seq<Value>) -> Result<(), Memory>
    ensures { OnOk result (values.new ≡ values.old ++ raised_one depth) }
{
    match depth {
        Value::Const(number) => push_deeper(number, values),
        Value::Arg(_) => Ok(()),
        Value::Any => Ok(()),
    }
}

#[tactic(auto, using(crate::proofs::Raising::number_raised, crate::proofs::Raising::number_full))]
fn push_deeper(number: u32, values: &mut Seq<Value>) -> Result<(), Memory>
    ensures { OnOk result (values.new ≡ values.old ++ raised_one (variants.Const number)) }
{
    if (number as usize) < MOST_CALLERS {
        return values.push(Value::Const(number + 1));
    }
    Ok(())
}

/// Appends a fact of the entry and the point for each of these values of a slot.
pub fn push_facts(
    entry: u32,
    point: u32,
    slot: Slot,
    values: &[Value],
    facts: &mut Seq<Fact>,
) -> Result<(), Memory>
    ensures { OnOk result (facts.new ≡ facts.old ++ map (fact entry point slot) values.now) }
{
    for value in values {
        facts.push(Fact {
            entry,
            point,
            slot,
            value: *value,
        })?;
    }
    Ok(())
}

/// Appends what a source before a point gives to a slot before another one.
pub fn push_given<K: KnownFacts>(
    alloc: Global,
    known: &K,
    entry: u32,
    from: u32,
    source: Source,
    to: u32,
    slot: Slot,
    facts: &mut Seq<Fact>,
) -> Result<(), Memory>
    ensures { OnOk result (HasGiven facts.old facts.new
        (SlotGives (K.knows known.now) entry from source to slot)) }
{
    let values = values_from(alloc, known, entry, from, source)?;
    push_facts(entry, to, slot, values.as_slice(), facts)
}

/// Appends what a flow from a point gives to these slots before another one, where nothing else is
/// asked for.
pub fn push_flow<K: KnownFacts>(
    alloc: Global,
    known: &K,
    entry: u32,
    from: u32,
    how: &Passing,
    to: u32,
    slots: &[Slot],
    facts: &mut Seq<Fact>,
) -> Result<(), Memory>
    requires { IsSmall how.now }
    ensures { OnOk result (HasGiven facts.old facts.new
        (SlotsGive (K.knows known.now) entry from how.now to slots.now)) }
{
    for slot in slots {
        let slot = *slot;
        push_given(
            alloc,
            known,
            entry,
            from,
            source_over(how, slot),
            to,
            slot,
            facts,
        )?;
    }
    Ok(())
}

/// Whether what a flow asks for besides its own point being reached holds: room for one more
/// caller, or a RETRIEVE that is reached.
pub fn is_guarded<K: KnownFacts>(
    alloc: Global,
    known: &K,
    entry: u32,
    from: u32,
    to: u32,
    how: &Passing,
) -> Result<bool, Memory>
    ensures { IfOk result
        (λ holds. IsTrue holds ↔ Guarded (K.knows known.now) entry from to how.now) }
{
    match how {
        Passing::Calls { .. } => {
            let deeper = values_from(alloc, known, entry, from, Source::Deeper)?;
            Ok(!deeper.as_slice().is_empty())
        }
        Passing::Answers { .. } => Ok(known.is_reached(entry, to)),
        _ => Ok(true),
    }
}
