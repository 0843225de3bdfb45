// What is told of two summaries.
ghost use Rattle.std.specs.Prelude.{◌≡◌, ◌↔◌, IfOk, IsTrue};
ghost use Rattle.addition_pairs.specs.declared.told.Told.TheVariants as variant;
ghost use Rattle.addition_pairs.specs.Adding.{IsTold};

use entry_summary::Summary;
use pair_tests::{Conflict, Test, Verdict, tests_of, verdict_of};
use plex_num::{Memory, Seq};
use std::alloc::Global;

/// What is told of two summaries: that jobs of them never run at once, with the first conflict in
/// order; or all tests that they must pass, in order.
#[derive(Drop)]
pub enum Told {
    Never(Conflict),
    Asks(Seq<Test>),
}

/// What is told of two summaries, of the job that comes first in the single run and of the later
/// one.
pub(crate) fn told_of(alloc: Global, one: &Summary, other: &Summary) -> Result<Told, Memory>
    ensures { IfOk result (IsTold one.now other.now) }
{
    match verdict_of(one, other) {
        Verdict::Never(conflict) => Ok(Told::Never(conflict)),
        Verdict::Tests => {
            let tests = tests_of(alloc, one, other)?;
            Ok(Told::Asks(tests))
        }
    }
}

/// Whether the same is told.
pub(crate) fn is_same(one: &Told, other: &Told) -> bool
    ensures { IsTrue result ↔ one.now ≡ other.now }
{
    match one {
        Told::Never(conflict) => is_never(other, *conflict),
        Told::Asks(tests) => asks(other, tests.as_slice()),
    }
}

fn is_never(told: &Told, conflict: Conflict) -> bool
    ensures { IsTrue result ↔ variant.Never conflict ≡ told.now }
{
    match told {
        Told::Never(own) => *own == conflict,
        Told::Asks(_) => false,
    }
}

fn asks(told: &Told, tests: &[Test]) -> bool
    ensures { IsTrue result ↔ variant.Asks tests.now ≡ told.now }
{
    match told {
        Told::Never(_) => false,
        Told::Asks(own) => are_same(own.as_slice(), tests),
    }
}

fn are_same(some: &[Test], others: &[Test]) -> bool
    ensures { IsTrue result ↔ others.now ≡ some.now }
{
    some == others
}
