// The pairs of entries.
ghost use Rattle.std.specs.Prelude.{◌<◌, ◌↔◌, Contains, IfOk, IsTrue, length};
ghost use Rattle.std.specs.List.Sorted.{IsStrictlySortedBy};
ghost use Rattle.pair_tests.specs.declared.pair.Test.{Test as TestType};
ghost use Rattle.pair_tests.specs.Orders.{test_order};
ghost use Rattle.pair_tests.specs.Pairs.{IsTest, IsVerdict, Passes};
ghost use Rattle.exchange_model.specs.declared.exchange.Exchange.{Exchange};
ghost use Rattle.exchange_model.specs.Kept.{IsExchange};
ghost use Rattle.source_meaning.specs.State.{State};
ghost use Rattle.source_meaning.specs.Valid.{IsFitting, IsJob, IsValid};
ghost use Rattle.order_laws.specs.Windows.{MakesWay};
ghost use Rattle.pair_laws.specs.Together.{RunTogether};
ghost use Rattle.checked.specs.Kept.{IsChecked};
ghost use Rattle.interference_check.specs.Pairs.{OfPair};

use checked::Checked;
use job_types::JobStart;
use pair_tests::{Test, Verdict, passes, tests_of, verdict_of};
use plex_num::{Memory, Seq};
use std::alloc::Global;

/// Whether jobs of two entries may run at once, the first before the later one in the single run:
/// never, with the first conflict in order, or where tests hold.
pub fn verdict(checked: &Checked, first: u32, later: u32) -> Verdict
    requires first { first < length checked.now.summaries }
    requires later { later < length checked.now.summaries }
    ensures { OfPair checked.now first later (λ s t. IsVerdict s t result) }
{
    verdict_of(checked.summary(first), checked.summary(later))
}

/// The tests that jobs of two entries must pass, in their order, each once.
pub fn tests(alloc: Global, checked: &Checked, first: u32, later: u32) -> Result<Seq<Test>, Memory>
    requires first { first < length checked.now.summaries }
    requires later { later < length checked.now.summaries }
    ensures exact { IfOk result (λ tests. OfPair checked.now first later
        (λ s t. (test : TestType) → Contains tests test ↔ IsTest s t test)) }
    ensures rising { IfOk result (IsStrictlySortedBy test_order) }
{
    tests_of(alloc, checked.summary(first), checked.summary(later))
}

/// Whether the later job may run at once with the first: the two do not conflict, pass all their
/// tests, and are not of one forlopp. Where they do, and the certificate is one of the exchange,
/// they run together in every valid state that both starts fit; and the first makes way to the
/// later one wherever it begins.
pub fn may_follow(checked: &Checked, first: &JobStart, later: &JobStart) -> bool
    requires first { first.now.job.entry < length checked.now.summaries }
    requires later { later.now.job.entry < length checked.now.summaries }
    ensures exact { OfPair checked.now first.now.job.entry later.now.job.entry
        (λ s t. IsTrue result ↔ Passes s t first.now later.now) }
    ensures together { IsTrue result → (x : Exchange) (s : State)
        → IsExchange x → IsChecked x checked.now → IsValid x s
        → IsFitting x s first.now → IsFitting x s later.now
        → OfPair checked.now first.now.job.entry later.now.job.entry
        (λ one other. RunTogether x s one other first.now later.now) }
    ensures way { IsTrue result → (x : Exchange)
        → IsExchange x → IsChecked x checked.now → IsJob x later.now.job
        → MakesWay x first.now later.now }
{
    let one = checked.summary(first.job.entry);
    let other = checked.summary(later.job.entry);
    passes(one, other, first, later)
}
