// Which accesses of the first need no look: those that nothing of the later is near, and those
// whose conflicts come too late. In a list in order those of one kind stand side by side, by their
// numbers, so that they are passed at once.
ghost use Rattle.std.specs.Prelude.{◌≡◌, ◌≤◌, List, Some, length, slice_get};
ghost use Rattle.std.specs.List.Sorted.{IsStrictlySortedBy};
ghost use Rattle.std.specs.declared.cmp.Ordering.TheVariants.{Less};
ghost use Rattle.entry_summary.specs.declared.summary.Access.{Access as AccessType};
ghost use Rattle.entry_summary.specs.declared.summary.Access.TheVariants as access;
ghost use Rattle.entry_summary.specs.Orders.{access_order};
ghost use Rattle.flow_points.specs.declared.fact.Value.TheVariants.{Arg};
ghost use Rattle.pair_tests.specs.Idle.{behind as behind_of, comes_late as comes_late_of};
ghost use Rattle.pair_tests.specs.Idle.{next_met as next_met_of, AreSo, IsIdle, IsLate, IsPassed};

use crate::near::{Bound, Hints, count_within, lowest, passes_reads};
use crate::pair::Conflict;
use entry_summary::Access;
use flow_points::Value;

/// The first access that there may be behind those of the kind of this one: it reads or writes
/// variables or fields, or is of own records. One that seizes or frees is told itself.
fn behind(one: Access) -> Access
    ensures { result ≡ behind_of one }
{
    match one {
        Access::Variable { write, .. } => behind_variables(write),
        Access::Field { write, .. } => behind_fields(write),
        Access::Own { .. } => Access::Seizes { file: 0 },
        _ => one,
    }
}

fn behind_variables(write: bool) -> Access
    ensures { result ≡ behind_of (access.Variable write 0) }
{
    if write {
        first_of_field(false, 0)
    } else {
        Access::Variable {
            write: true,
            number: 0,
        }
    }
}

fn behind_fields(write: bool) -> Access
    ensures { result ≡ behind_of (access.Field write 0 (Arg 0)) }
{
    if write {
        Access::Own {
            write: false,
            number: 0,
        }
    } else {
        first_of_field(true, 0)
    }
}

/// The access at a place, if there is one.
fn access_at(accesses: &[Access], place: usize) -> Option<Access>
    ensures { result ≡ slice_get accesses.now place }
{
    accesses.get(place).copied()
}

/// The first access of a field that there may be.
fn first_of_field(write: bool, number: u32) -> Access
    ensures { result ≡ access.Field write number (Arg 0) }
{
    Access::Field {
        write,
        number,
        selector: Value::Arg(0),
    }
}

/// The first access of the kind of this one that is near the next one of the later, if that writes,
/// or does not, as is asked; else the one behind them. One of own records or of a file is told
/// itself.
fn next_met(one: Access, writes: bool, next: Option<Access>) -> Access
    ensures { result ≡ next_met_of one writes next }
{
    match one {
        Access::Variable { write, .. } => match next {
            Some(
                Access::Variable {
                    write: also,
                    number,
                },
            ) if also == writes => Access::Variable { write, number },
            _ => behind(one),
        },
        Access::Field { write, .. } => match next {
            Some(
                Access::Field {
                    write: also,
                    number,
                    ..
                },
            ) if also == writes => first_of_field(write, number),
            _ => behind(one),
        },
        _ => one,
    }
}

/// The place behind those from this place on that come before a bound.
#[tactic(auto, using(crate::proofs::Skipping::none_passed, crate::proofs::Skipping::passed_below))]
fn passed(accesses: &[Access], bound: Access, place: usize) -> usize
    requires order { IsStrictlySortedBy access_order accesses.now }
    requires there { place ≤ length accesses.now }
    ensures { AreSo (λ (a : AccessType). access_order a bound ≡ Less) accesses.now place result }
{
    let count = count_within(accesses, Bound::Below(bound), place);
    if count <= place {
        return place;
    }
    count
}

/// The place behind those of the kind of this one, from its place on, that none of the later which
/// writes, or does not, is near. `hint` is where these were found last.
fn apart_from(
    ones: &[Access],
    one: Access,
    place: usize,
    others: &[Access],
    writes: bool,
    hint: &mut usize,
) -> usize
    requires ones { IsStrictlySortedBy access_order ones.now }
    requires others { IsStrictlySortedBy access_order others.now }
    requires at { slice_get ones.now place ≡ Some one }
    ensures { AreSo (IsPassed one writes others.now) ones.now place result }
{
    let from = count_within(others, Bound::Below(lowest(one, writes)), *hint);
    *hint = from;
    let next = access_at(others, from);
    passed(ones, next_met(one, writes, next), place)
}

/// The place behind those accesses of the first from this place on that nothing of the later is
/// near.
#[tactic(auto, using(crate::proofs::Skipping::none_passed))]
pub(crate) fn next_near(
    ones: &[Access],
    others: &[Access],
    place: usize,
    hints: &mut Hints,
) -> usize
    requires ones { IsStrictlySortedBy access_order ones.now }
    requires others { IsStrictlySortedBy access_order others.now }
    requires there { place ≤ length ones.now }
    ensures { AreSo (IsIdle others.now) ones.now place result }
{
    let Some(one) = access_at(ones, place) else {
        return place;
    };
    if let Access::Own { .. } = one {
        return passed(ones, behind(one), place);
    }
    let writes = apart_from(ones, one, place, others, true, &mut hints.writes);
    if passes_reads(one) {
        return writes;
    }
    let reads = apart_from(ones, one, place, others, false, &mut hints.reads);
    if reads < writes {
        return reads;
    }
    writes
}

/// Whether each conflict of an access comes after this one.
fn comes_late(one: Access, first: Option<Conflict>) -> bool
    ensures { result ≡ comes_late_of one first }
{
    match one {
        Access::Variable { number, .. } => match first {
            Some(Conflict::Variable { number: least }) => least < number,
            _ => false,
        },
        Access::Field { number, .. } => match first {
            Some(Conflict::Variable { .. }) => true,
            Some(Conflict::Field { number: least, .. }) => least < number,
            _ => false,
        },
        _ => false,
    }
}

/// The place behind those accesses of the first from this place on whose conflicts come after the
/// first one that is known.
#[tactic(auto, using(crate::proofs::Skipping::none_late))]
fn next_early(ones: &[Access], place: usize, first: Option<Conflict>) -> usize
    requires order { IsStrictlySortedBy access_order ones.now }
    requires there { place ≤ length ones.now }
    ensures { (others : List AccessType) → AreSo (IsLate first others) ones.now place result }
{
    let Some(one) = access_at(ones, place) else {
        return place;
    };
    if !comes_late(one, first) {
        return place;
    }
    passed(ones, behind(one), place)
}

/// The place behind those accesses of the first from this place on that have no conflict before the
/// first one that is known.
pub(crate) fn next_sooner(
    ones: &[Access],
    others: &[Access],
    place: usize,
    first: Option<Conflict>,
    hints: &mut Hints,
) -> usize
    requires ones { IsStrictlySortedBy access_order ones.now }
    requires others { IsStrictlySortedBy access_order others.now }
    requires there { place ≤ length ones.now }
    ensures { AreSo (IsLate first others.now) ones.now place result }
{
    let early = next_early(ones, place, first);
    next_near(ones, others, early, hints)
}
