// The conflicts of accesses and levels.
ghost use Rattle.std.specs.Prelude.{◌≡◌};
ghost use Rattle.entry_summary.specs.declared.summary.Access.TheVariants as access;
ghost use Rattle.std.specs.List.Sorted.{IsStrictlySortedBy};
ghost use Rattle.entry_summary.specs.Orders.{access_order};
ghost use Rattle.pair_tests.specs.Clashes.{above_of, clash_of, only_if as only_if_of};
ghost use Rattle.pair_tests.specs.Clashes.{meet as meet_of, share as share_of, Clashes};
ghost use Rattle.pair_tests.specs.Clashes.{ClashesAbove, ClashesWith, IsLeastConflict};

use crate::near::{Hints, at, near, passes_reads};
use crate::pair::Conflict;
use crate::skip::next_sooner;
use crate::sooner::{number_of, sooner};
use entry_summary::Access;
use flow_points::Value;
use plex_num::Level;

/// Whether two accesses are of one number, and one of them writes.
pub fn share(number: u32, other: u32, write: bool, also: bool) -> bool
    ensures { result ≡ share_of number other write also }
{
    number == other && (write || also)
}

/// Whether two selectors may name one record, whatever the jobs start with.
fn meet(first: Value, later: Value) -> bool
    ensures { result ≡ meet_of first later }
{
    match first {
        Value::Any => true,
        Value::Arg(_) => match later {
            Value::Any => true,
            Value::Arg(_) => false,
            Value::Const(_) => false,
        },
        Value::Const(number) => match later {
            Value::Any => true,
            Value::Arg(_) => false,
            Value::Const(other) => number == other,
        },
    }
}

fn only_if(holds: bool, conflict: Conflict) -> Option<Conflict>
    ensures { result ≡ only_if_of holds conflict }
{
    if holds { Some(conflict) } else { None }
}

fn on_variable(write: bool, number: u32, other: Access) -> Option<Conflict>
    ensures { result ≡ clash_of (access.Variable write number) other }
{
    match other {
        Access::Variable {
            write: also,
            number: same,
        } => only_if(
            share(number, same, write, also),
            Conflict::Variable { number },
        ),
        _ => None,
    }
}

fn on_field(write: bool, number: u32, first: Value, other: Access) -> Option<Conflict>
    ensures { result ≡ clash_of (access.Field write number first) other }
{
    match other {
        Access::Field {
            write: also,
            number: same,
            selector: later,
        } => only_if(
            share(number, same, write, also) & meet(first, later),
            Conflict::Field {
                number,
                first,
                later,
            },
        ),
        _ => None,
    }
}

fn on_seizing(file: u32, other: Access) -> Option<Conflict>
    ensures { result ≡ clash_of (access.Seizes file) other }
{
    match other {
        Access::Seizes { file: same } => only_if(file == same, Conflict::Seizing { file }),
        Access::Frees { file: same } => only_if(file == same, Conflict::Seizing { file }),
        _ => None,
    }
}

fn on_freeing(file: u32, other: Access) -> Option<Conflict>
    ensures { result ≡ clash_of (access.Frees file) other }
{
    match other {
        Access::Seizes { file: same } => only_if(file == same, Conflict::Seizing { file }),
        _ => None,
    }
}

/// The conflict of an access of the first with one of the later, if they conflict.
pub fn conflict_of(one: Access, other: Access) -> Option<Conflict>
    ensures { result ≡ clash_of one other }
{
    match one {
        Access::Variable { write, number } => on_variable(write, number, other),
        Access::Field {
            write,
            number,
            selector,
        } => on_field(write, number, selector, other),
        Access::Own { .. } => None,
        Access::Seizes { file } => on_seizing(file, other),
        Access::Frees { file } => on_freeing(file, other),
    }
}

/// The first conflict of an access of the first with one of these accesses of the later.
#[tactic(auto, using(crate::proofs::Leasts::with_none, crate::proofs::Leasts::with_more))]
fn first_among(one: Access, others: &[Access]) -> Option<Conflict>
    ensures { IsLeastConflict (ClashesWith one others.now) result }
{
    let mut least = None;
    for other in others {
        least = sooner(least, conflict_of(one, *other));
    }
    least
}

/// The first conflict of an access of the first with one of the later.
#[tactic(auto, using(crate::proofs::Nearing::least_writes, crate::proofs::Nearing::least_near))]
fn first_with(one: Access, others: &[Access], hints: &mut Hints) -> Option<Conflict>
    requires { IsStrictlySortedBy access_order others.now }
    ensures { IsLeastConflict (ClashesWith one others.now) result }
{
    let writes = first_among(one, near(others, one, true, &mut hints.writes));
    if passes_reads(one) {
        return writes;
    }
    let reads = first_among(one, near(others, one, false, &mut hints.reads));
    sooner(reads, writes)
}

/// The first conflict of accesses of the first with those of the later. Lists in order are gone
/// through once, and what can have no conflict, or none before one that was found, is passed.
#[tactic(auto, using(crate::proofs::Leasts::of_none, crate::proofs::Leasts::of_more))]
pub fn first_clash(ones: &[Access], others: &[Access]) -> Option<Conflict>
    requires ones { IsStrictlySortedBy access_order ones.now }
    requires others { IsStrictlySortedBy access_order others.now }
    ensures { IsLeastConflict (Clashes ones.now others.now) result }
{
    let mut least = None;
    let mut hints = Hints::new();
    let mut place: usize = 0;
    while place < ones.len() {
        least = sooner(least, first_with(at(ones, place), others, &mut hints));
        place = next_sooner(ones, others, place + 1, least, &mut hints);
    }
    least
}

/// The conflict of a level to which the first may send with the later's own level.
fn above(level: Level, later: Level) -> Option<Conflict>
    ensures { result ≡ above_of level later }
{
    only_if(
        number_of(level) < number_of(later),
        Conflict::Above { level },
    )
}

/// The first conflict of a level to which the first may send with the later's own level.
#[tactic(auto, using(crate::proofs::Leasts::above_none, crate::proofs::Leasts::above_more))]
pub fn first_above(levels: &[Level], later: Level) -> Option<Conflict>
    ensures { IsLeastConflict (ClashesAbove levels.now later) result }
{
    let mut least = None;
    for level in levels {
        least = sooner(least, above(*level, later));
    }
    least
}
