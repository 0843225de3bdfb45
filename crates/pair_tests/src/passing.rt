// Whether two jobs may run at once.
ghost use Rattle.std.specs.Prelude.{◌≡◌, ◌↔◌, IsTrue, Some};
ghost use Rattle.std.specs.List.Sorted.{IsStrictlySortedBy};
ghost use Rattle.entry_summary.specs.Orders.{access_order};
ghost use Rattle.pair_tests.specs.declared.pair.Test.{Test};
ghost use Rattle.pair_tests.specs.Asked.{AllHold, Asked, AskedRelease, AskedSeizing, AskedWith};
ghost use Rattle.pair_tests.specs.Pairs.{IsTest, Passes};

use crate::asking::{asked, asks, release_test};
use crate::jobs::{are_apart, holds};
use crate::near::{Hints, at, near, passes_reads};
use crate::pair::Test;
use crate::skip::next_near;
use crate::verdict::first_conflict;
use entry_summary::{Access, Summary};
use job_types::JobStart;

/// Whether a test holds, if there is one.
#[tactic(auto, using(crate::proofs::Holding::none_asked, crate::proofs::Holding::one_asked))]
fn holds_if(test: Option<Test>, a: &JobStart, b: &JobStart) -> bool
    ensures { IsTrue result ↔ AllHold (λ (t : Test). test ≡ Some t) a.now b.now }
{
    match test {
        None => true,
        Some(test) => holds(test, a, b),
    }
}

/// Whether the tests of an access of the first with these of the later hold.
#[tactic(auto, using(crate::proofs::Holding::with_begin, crate::proofs::Holding::with_fails, crate::proofs::Holding::with_end))]
fn hold_among(one: Access, others: &[Access], a: &JobStart, b: &JobStart) -> bool
    ensures { IsTrue result ↔ AllHold (AskedWith one others.now) a.now b.now }
{
    for other in others {
        if !holds_if(asked(one, *other), a, b) {
            return false;
        }
    }
    true
}

/// Whether the tests of an access of the first with one of the later hold.
#[tactic(auto, using(crate::proofs::Holding::none_with, crate::proofs::Holding::with_near))]
fn hold_with(one: Access, others: &[Access], hints: &mut Hints, a: &JobStart, b: &JobStart) -> bool
    requires { IsStrictlySortedBy access_order others.now }
    ensures { IsTrue result ↔ AllHold (AskedWith one others.now) a.now b.now }
{
    if !asks(one) {
        return true;
    }
    let writes = hold_among(one, near(others, one, true, &mut hints.writes), a, b);
    if passes_reads(one) {
        return writes;
    }
    let reads = hold_among(one, near(others, one, false, &mut hints.reads), a, b);
    reads & writes
}

/// Whether the tests of accesses of the first with those of the later hold. Lists in order are gone
/// through once, and what can ask for none is passed.
#[tactic(auto, using(crate::proofs::Holding::all_begin, crate::proofs::Holding::all_more, crate::proofs::Holding::all_fails, crate::proofs::Holding::all_end))]
fn fields_hold(ones: &[Access], others: &[Access], a: &JobStart, b: &JobStart) -> bool
    requires ones { IsStrictlySortedBy access_order ones.now }
    requires others { IsStrictlySortedBy access_order others.now }
    ensures { IsTrue result ↔ AllHold (Asked ones.now others.now) a.now b.now }
{
    let mut hints = Hints::new();
    let mut place: usize = 0;
    while place < ones.len() {
        if !hold_with(at(ones, place), others, &mut hints, a, b) {
            return false;
        }
        place = next_near(ones, others, place + 1, &mut hints);
    }
    true
}

/// Whether the first holds no record of a file that the later one may seize.
#[tactic(auto, using(crate::proofs::Holding::seizing_begin, crate::proofs::Holding::seizing_fails, crate::proofs::Holding::seizing_end))]
fn seizing_holds(others: &[Access], a: &JobStart, b: &JobStart) -> bool
    ensures { IsTrue result ↔ AllHold (AskedSeizing others.now) a.now b.now }
{
    for other in others {
        if !holds_if(release_test(*other), a, b) {
            return false;
        }
    }
    true
}

/// Whether the tests of a first job that may fault hold.
#[tactic(auto, using(crate::proofs::Holding::no_fault, crate::proofs::Holding::no_forlopp, crate::proofs::Holding::released))]
fn release_holds(fault: bool, others: &[Access], a: &JobStart, b: &JobStart) -> bool
    ensures { IsTrue result ↔ AllHold (AskedRelease fault others.now) a.now b.now }
{
    if !fault {
        return true;
    }
    if a.job.forlopp == 0 {
        return false;
    }
    seizing_holds(others, a, b)
}

/// Whether all tests of two summaries hold.
#[tactic(auto, using(crate::proofs::Holding::tests_are))]
fn tests_hold(first: &Summary, later: &Summary, a: &JobStart, b: &JobStart) -> bool
    ensures { IsTrue result ↔ AllHold (IsTest first.now later.now) a.now b.now }
{
    let others = later.accesses.as_slice();
    let fields = fields_hold(first.accesses.as_slice(), others, a, b);
    let release = release_holds(first.fault, others, a, b);
    fields & release
}

/// Whether the two jobs may run at once, the first before the later one in the single run: no
/// conflict of their summaries, all tests hold, and they are not of one forlopp other than 0.
#[tactic(auto, using(crate::proofs::Holding::passing))]
pub fn passes(first: &Summary, later: &Summary, a: &JobStart, b: &JobStart) -> bool
    ensures { IsTrue result ↔ Passes first.now later.now a.now b.now }
{
    if first_conflict(first, later).is_some() {
        return false;
    }
    let hold = tests_hold(first, later, a, b);
    let apart = are_apart(a, b);
    hold & apart
}
