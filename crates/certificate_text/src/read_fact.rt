// The line of a fact.
ghost use Rattle.std.specs.Prelude.{List, MatchOption, ℕ};
ghost use Rattle.certificate_text.specs.Parts.{IsFactAt, IsSlotAt, IsValueAt};
ghost use Rattle.flow_points.specs.declared.fact.Fact.{Fact};
ghost use Rattle.flow_points.specs.declared.fact.Slot.{Slot};
ghost use Rattle.flow_points.specs.declared.fact.Value.{Value};

use crate::parts::{after, numbered, small};
use flow_points::{Fact, Slot, Value};
use plex_limits::{MOST_TEMPORARIES, MOST_VALUES};

/// The fact that the first line tells, and what follows the line; `None` where the line is no
/// fact's.
pub fn fact(text: &[u8]) -> Option<(Fact, &[u8])>
    ensures { MatchOption result
        ((f : Fact) (rest : List ℕ) → IsFactAt text.now f rest → ⊥)
        (λ r. IsFactAt text.now r.0 r.1.now) }
{
    let (entry, rest) = numbered(text, b"FACT ", b' ')?;
    let (point, rest) = numbered(rest, b"", b' ')?;
    let (slot, rest) = slot(rest)?;
    let (value, rest) = value(rest)?;
    let fact = Fact {
        entry,
        point,
        slot,
        value,
    };
    Some((fact, rest))
}

/// The slot with which the text begins, and what follows the space behind it.
fn slot(text: &[u8]) -> Option<(Slot, &[u8])>
    ensures { MatchOption result
        ((s : Slot) (rest : List ℕ) → IsSlotAt text.now s rest → ⊥)
        (λ r. IsSlotAt text.now r.0 r.1.now) }
{
    if let Some((temp, rest)) = small(text, b"T", MOST_TEMPORARIES as u8, b' ') {
        return Some((Slot::Temp(temp), rest));
    }
    if let Some((place, rest)) = small(text, b"E", MOST_VALUES as u8, b' ') {
        return Some((Slot::Given(place), rest));
    }
    if let Some((place, rest)) = small(text, b"A", MOST_VALUES as u8, b' ') {
        return Some((Slot::Answered(place), rest));
    }
    if let Some(rest) = after(text, b"DEPTH ") {
        return Some((Slot::Depth, rest));
    }
    match after(text, b"AWAITS ") {
        Some(rest) => Some((Slot::Awaits, rest)),
        None => None,
    }
}

/// The value with which the line ends, and what follows the line.
fn value(text: &[u8]) -> Option<(Value, &[u8])>
    ensures { MatchOption result
        ((v : Value) (rest : List ℕ) → IsValueAt text.now v rest → ⊥)
        (λ r. IsValueAt text.now r.0 r.1.now) }
{
    if let Some((place, rest)) = small(text, b"ARG ", MOST_VALUES as u8, b'\n') {
        return Some((Value::Arg(place), rest));
    }
    if let Some((number, rest)) = numbered(text, b"CONST ", b'\n') {
        return Some((Value::Const(number), rest));
    }
    match after(text, b"ANY\n") {
        Some(rest) => Some((Value::Any, rest)),
        None => None,
    }
}
