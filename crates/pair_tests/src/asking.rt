// The tests of two summaries.
ghost use Rattle.std.specs.Prelude.{◌≡◌, ◌↔◌, OnOk, IfOk, Some};
ghost use Rattle.std.specs.List.{Contains};
ghost use Rattle.std.specs.List.Sorted.{IsStrictlySortedBy};
ghost use Rattle.entry_summary.specs.declared.summary.Access.TheVariants as access;
ghost use Rattle.entry_summary.specs.Orders.{access_order};
ghost use Rattle.pair_tests.specs.declared.pair.Test.{Test};
ghost use Rattle.pair_tests.specs.Asked.{asked_of, asks as asks_of};
ghost use Rattle.pair_tests.specs.Asked.{release_test as release_test_of};
ghost use Rattle.pair_tests.specs.Asked.{selector_test as selector_test_of, AddsTests, Asked};
ghost use Rattle.pair_tests.specs.Asked.{AskedRelease, AskedSeizing, AskedWith};
ghost use Rattle.pair_tests.specs.Orders.{test_order};
ghost use Rattle.pair_tests.specs.Pairs.{IsTest};

use crate::clash::share;
use crate::near::{Hints, at, near, passes_reads};
use crate::pair::Test;
use crate::skip::next_near;
use entry_summary::{Access, Summary};
use flow_points::Value;
use plex_num::{Memory, Seq};
use std::alloc::Global;

/// The test by which two selectors name two records.
fn selector_test(first: Value, later: Value) -> Option<Test>
    ensures { result ≡ selector_test_of first later }
{
    match first {
        Value::Arg(first) => match later {
            Value::Arg(later) => Some(Test::Differ { first, later }),
            Value::Const(value) => Some(Test::FirstNot { first, value }),
            Value::Any => None,
        },
        Value::Const(value) => match later {
            Value::Arg(later) => Some(Test::LaterNot { later, value }),
            Value::Const(_) => None,
            Value::Any => None,
        },
        Value::Any => None,
    }
}

/// The test that an access of the first and one of the later ask for.
pub fn asked(one: Access, other: Access) -> Option<Test>
    ensures { result ≡ asked_of one other }
{
    match one {
        Access::Field {
            write,
            number,
            selector,
        } => asked_of_field(write, number, selector, other),
        _ => None,
    }
}

fn asked_of_field(write: bool, number: u32, first: Value, other: Access) -> Option<Test>
    ensures { result ≡ asked_of (access.Field write number first) other }
{
    match other {
        Access::Field {
            write: also,
            number: same,
            selector: later,
        } => {
            if share(number, same, write, also) {
                selector_test(first, later)
            } else {
                None
            }
        }
        _ => None,
    }
}

/// The test that an access of the later asks for where the first may fault.
pub fn release_test(other: Access) -> Option<Test>
    ensures { result ≡ release_test_of other }
{
    match other {
        Access::Seizes { file } => Some(Test::HoldsNo { file }),
        _ => None,
    }
}

#[tactic(auto, using(crate::proofs::Tested::adds_none, crate::proofs::Tested::adds_one))]
fn push_test(test: Option<Test>, tests: &mut Seq<Test>) -> Result<(), Memory>
    ensures { OnOk result (AddsTests (λ (t : Test). test ≡ Some t) tests.old tests.new) }
{
    match test {
        None => Ok(()),
        Some(test) => tests.push(test),
    }
}

/// Appends the tests of an access of the first with these of the later.
#[tactic(auto, using(crate::proofs::Tested::with_begin, crate::proofs::Tested::with_end))]
fn push_among(one: Access, others: &[Access], tests: &mut Seq<Test>) -> Result<(), Memory>
    ensures { OnOk result (AddsTests (AskedWith one others.now) tests.old tests.new) }
{
    for other in others {
        push_test(asked(one, *other), tests)?;
    }
    Ok(())
}

/// Whether an access asks for tests: it is one of a field of a plain file.
pub fn asks(one: Access) -> bool
    ensures { result ≡ asks_of one }
{
    match one {
        Access::Field { .. } => true,
        _ => false,
    }
}

/// Appends the tests of an access of the first with one of the later.
#[tactic(auto, using(crate::proofs::Tested::with_none, crate::proofs::Tested::with_writes, crate::proofs::Tested::with_near))]
fn push_with(
    one: Access,
    others: &[Access],
    hints: &mut Hints,
    tests: &mut Seq<Test>,
) -> Result<(), Memory>
    requires { IsStrictlySortedBy access_order others.now }
    ensures { OnOk result (AddsTests (AskedWith one others.now) tests.old tests.new) }
{
    if !asks(one) {
        return Ok(());
    }
    push_among(one, near(others, one, true, &mut hints.writes), tests)?;
    if passes_reads(one) {
        return Ok(());
    }
    push_among(one, near(others, one, false, &mut hints.reads), tests)?;
    Ok(())
}

/// Appends the tests of accesses of the first with those of the later. Lists in order are gone
/// through once, and what can ask for none is passed.
#[tactic(auto, using(crate::proofs::Tested::all_begin, crate::proofs::Tested::all_more, crate::proofs::Tested::all_end))]
fn push_fields(ones: &[Access], others: &[Access], tests: &mut Seq<Test>) -> Result<(), Memory>
    requires ones { IsStrictlySortedBy access_order ones.now }
    requires others { IsStrictlySortedBy access_order others.now }
    ensures { OnOk result (AddsTests (Asked ones.now others.now) tests.old tests.new) }
{
    let mut hints = Hints::new();
    let mut place: usize = 0;
    while place < ones.len() {
        push_with(at(ones, place), others, &mut hints, tests)?;
        place = next_near(ones, others, place + 1, &mut hints);
    }
    Ok(())
}

/// Appends the tests of the files that the later seizes.
#[tactic(auto, using(crate::proofs::Tested::seizing_begin, crate::proofs::Tested::seizing_end))]
fn push_seizing(others: &[Access], tests: &mut Seq<Test>) -> Result<(), Memory>
    ensures { OnOk result (AddsTests (AskedSeizing others.now) tests.old tests.new) }
{
    for other in others {
        push_test(release_test(*other), tests)?;
    }
    Ok(())
}

/// Appends the tests of a first job that may fault.
#[tactic(auto, using(crate::proofs::Tested::no_release, crate::proofs::Tested::release))]
fn push_release(fault: bool, others: &[Access], tests: &mut Seq<Test>) -> Result<(), Memory>
    ensures { OnOk result (AddsTests (AskedRelease fault others.now) tests.old tests.new) }
{
    if fault {
        tests.push(Test::InForlopp)?;
        push_seizing(others, tests)?;
    }
    Ok(())
}

/// The same tests in order, each once.
fn in_order(tests: Seq<Test>) -> Result<Seq<Test>, Memory>
    ensures same { IfOk result (λ made. (t : Test) → Contains made t ↔ Contains tests t) }
    ensures rising { IfOk result (IsStrictlySortedBy test_order) }
{
    let mut items = tests.into_vec();
    match items.sort() {
        Ok(()) => {}
        Err(_) => return Err(Memory),
    }
    items.dedup();
    Ok(Seq::from_vec(items))
}

/// What must hold of two jobs that run at once, the first before the later one in the single run:
/// in order, each test once.
pub fn tests_of(alloc: Global, first: &Summary, later: &Summary) -> Result<Seq<Test>, Memory>
    ensures exact { IfOk result
        (λ tests. (t : Test) → Contains tests t ↔ IsTest first.now later.now t) }
    ensures rising { IfOk result (IsStrictlySortedBy test_order) }
{
    let mut tests = Seq::new(alloc);
    let others = later.accesses.as_slice();
    push_fields(first.accesses.as_slice(), others, &mut tests)?;
    push_release(first.fault, others, &mut tests)?;
    in_order(tests)
}
