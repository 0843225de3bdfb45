// The order of conflicts.
ghost use Rattle.std.specs.Prelude.{◌≡◌, ◌↔◌, IsTrue};
ghost use Rattle.entry_summary.specs.Orders.{level_number};
ghost use Rattle.pair_tests.specs.declared.pair.Conflict.TheVariants as conflict;
ghost use Rattle.pair_tests.specs.Clashes.{IsSooner};
ghost use Rattle.pair_tests.specs.Orders.{Precedes, SelectorsPrecede};

use crate::pair::Conflict;
use flow_points::Value;
use plex_num::Level;
use std::cmp::Ordering;

/// Which level this is, from 0 for A.
pub fn number_of(level: Level) -> u8
    ensures { result ≡ level_number level }
{
    match level {
        Level::A => 0,
        Level::B => 1,
        Level::C => 2,
        Level::D => 3,
    }
}

/// Whether the selectors of one conflict come before those of another one on the same field.
fn selectors_precede(first: Value, later: Value, than_first: Value, than_later: Value) -> bool
    ensures { IsTrue result ↔ SelectorsPrecede first later than_first than_later }
{
    match first.cmp(&than_first) {
        Ordering::Less => true,
        Ordering::Equal => later < than_later,
        Ordering::Greater => false,
    }
}

/// Whether a conflict comes before another one.
fn precedes(one: Conflict, than: Conflict) -> bool
    ensures { IsTrue result ↔ Precedes one than }
{
    match one {
        Conflict::Variable { number } => match than {
            Conflict::Variable { number: other } => number < other,
            _ => true,
        },
        Conflict::Field {
            number,
            first,
            later,
        } => field_precedes(number, first, later, than),
        Conflict::Seizing { file } => match than {
            Conflict::Variable { .. } => false,
            Conflict::Field { .. } => false,
            Conflict::Seizing { file: other } => file < other,
            Conflict::Above { .. } => true,
        },
        Conflict::Above { level } => match than {
            Conflict::Above { level: other } => number_of(level) < number_of(other),
            _ => false,
        },
    }
}

/// Whether a conflict on this field, with these selectors, comes before another conflict.
fn field_precedes(number: u32, first: Value, later: Value, than: Conflict) -> bool
    ensures { IsTrue result ↔ Precedes (conflict.Field number first later) than }
{
    match than {
        Conflict::Variable { .. } => false,
        Conflict::Field {
            number: other,
            first: than_first,
            later: than_later,
        } => match number.cmp(&other) {
            Ordering::Less => true,
            Ordering::Equal => selectors_precede(first, later, than_first, than_later),
            Ordering::Greater => false,
        },
        Conflict::Seizing { .. } => true,
        Conflict::Above { .. } => true,
    }
}

/// The one of the two that comes first.
pub fn sooner(one: Option<Conflict>, other: Option<Conflict>) -> Option<Conflict>
    ensures { IsSooner one other result }
{
    match one {
        None => other,
        Some(first) => match other {
            None => one,
            Some(later) => { if precedes(later, first) { other } else { one } }
        },
    }
}
