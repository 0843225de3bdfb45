// Where the values of a slot come from over a flow.
ghost use Rattle.std.specs.Prelude.{◌≡◌, ◌≤◌, length, nat_eq, if◌then◌else◌};
ghost use Rattle.plex_limits.specs.declared.limits.TheConstants.{MOST_VALUES};
ghost use Rattle.flow_points.specs.declared.fact.Slot.TheVariants as slots;
ghost use Rattle.flow_points.specs.declared.flow.Source.TheVariants as sources;
ghost use Rattle.flow_points.specs.Sources.{at_place, kept as kept_of, named, sets as sets_of};
ghost use Rattle.flow_points.specs.Sources.{source_of, start_source as start_source_of};
ghost use Rattle.flow_points.specs.Sources.{takes as takes_of};
ghost use Rattle.flow_table.specs.Small.{IsSmall, slot_at};

use flow_points::{Passing, Slot, Source, Value};
use plex_num::Seq;

/// Where the values that temporaries take come from: the entry values, or those of the answer.
#[derive(Clone, Copy, PartialEq, Eq)]
pub enum Origin {
    Given,
    Answered,
}

/// Where the values of a slot come from over a flow.
pub fn source_over(how: &Passing, slot: Slot) -> Source
    requires { IsSmall how.now }
    ensures { result ≡ source_of how.now slot }
{
    match how {
        Passing::Kept => kept(slot),
        Passing::Sets { temp, source } => sets(*temp, *source, slot),
        Passing::Takes { temps } => takes(temps.as_slice(), Origin::Given, slot),
        Passing::Retrieves { temps } => takes(temps.as_slice(), Origin::Answered, slot),
        Passing::Begins { values } => match slot {
            Slot::Temp(_) => Source::Is(Value::Const(0)),
            Slot::Given(k) => value_at(values, k, Source::Is(Value::Const(0))),
            Slot::Answered(_) => Source::Nothing,
            Slot::Depth => Source::Of(Slot::Depth),
            Slot::Awaits => Source::Of(Slot::Awaits),
        },
        Passing::Passes { count } => match slot {
            Slot::Temp(_) => Source::Is(Value::Const(0)),
            Slot::Given(k) => {
                if k < *count {
                    Source::Of(Slot::Given(k))
                } else {
                    Source::Is(Value::Const(0))
                }
            }
            Slot::Answered(_) => Source::Nothing,
            Slot::Depth => Source::Of(Slot::Depth),
            Slot::Awaits => Source::Of(Slot::Awaits),
        },
        Passing::Calls { values, answer } => match slot {
            Slot::Temp(_) => Source::Is(Value::Const(0)),
            Slot::Given(k) => value_at(values, k, Source::Is(Value::Const(0))),
            Slot::Answered(_) => Source::Nothing,
            Slot::Depth => Source::Deeper,
            Slot::Awaits => Source::Is(Value::Const(*answer + 1)),
        },
        Passing::Answers { values } => match slot {
            Slot::Answered(k) => value_at(values, k, Source::Nothing),
            _ => Source::Nothing,
        },
    }
}

/// Where the values of a slot come from at the start of a job, whose signal has so many values.
pub fn start_source(count: u8, slot: Slot) -> Source
    ensures { result ≡ start_source_of count slot }
{
    match slot {
        Slot::Given(k) => {
            if k < count {
                Source::Is(Value::Arg(k))
            } else {
                Source::Is(Value::Const(0))
            }
        }
        Slot::Answered(_) => Source::Nothing,
        _ => Source::Is(Value::Const(0)),
    }
}

fn kept(slot: Slot) -> Source
    ensures { result ≡ kept_of slot }
{
    match slot {
        Slot::Answered(_) => Source::Nothing,
        other => Source::Of(other),
    }
}

fn sets(temp: u8, source: Source, slot: Slot) -> Source
    ensures { result ≡ sets_of temp source slot }
{
    match slot {
        Slot::Temp(t) => {
            if t == temp {
                source
            } else {
                Source::Of(Slot::Temp(t))
            }
        }
        other => kept(other),
    }
}

fn takes(names: &[u8], origin: Origin, slot: Slot) -> Source
    requires { length names.now ≤ MOST_VALUES }
    ensures { result ≡ takes_of names.now (slot_at origin) slot }
{
    match slot {
        Slot::Temp(t) => named_source(names, origin, t),
        other => kept(other),
    }
}

/// The last of these names that is the temporary tells its slot.
#[tactic(auto, using(crate::proofs::Naming::names_begin, crate::proofs::Naming::names_end))]
fn named_source(names: &[u8], origin: Origin, temp: u8) -> Source
    requires { length names.now ≤ MOST_VALUES }
    ensures { result ≡ named names.now (slot_at origin) 0 temp (sources.Of (slots.Temp temp)) }
{
    let mut source = Source::Of(Slot::Temp(temp));
    for (k, name) in names.iter().enumerate() {
        source = renamed(temp, *name, slot_of(origin, k as u8), source);
    }
    source
}

fn renamed(temp: u8, name: u8, own: Slot, before: Source) -> Source
    ensures { result ≡ (if nat_eq temp name then sources.Of own else before) }
{
    if temp == name {
        Source::Of(own)
    } else {
        before
    }
}

fn slot_of(origin: Origin, k: u8) -> Slot
    ensures { result ≡ slot_at origin k }
{
    match origin {
        Origin::Given => Slot::Given(k),
        Origin::Answered => Slot::Answered(k),
    }
}

/// The source at a place, and another past the last one.
fn value_at(values: &Seq<Source>, k: u8, past: Source) -> Source
    ensures { result ≡ at_place values.now k past }
{
    values.get(k as usize).copied().unwrap_or(past)
}
