// Whether tests hold of two jobs.
ghost use Rattle.std.specs.Prelude.{◌≡◌, ◌≢◌, ◌↔◌, IsTrue};
ghost use Rattle.std.specs.List.{All, Contains};
ghost use Rattle.job_types.specs.declared.chain.Held.{Held};
ghost use Rattle.pair_tests.specs.Pairs.{TestHolds};

use crate::pair::Test;
use job_types::{Held, JobStart};
use plex_num::value_at;

/// Whether all records of a chain are of other files.
fn are_of_others(chain: &[Held], file: u32) -> bool
    ensures { IsTrue result ↔ All (λ (h : Held). h.file ≢ file) chain.now }
{
    chain.iter().all(|held| held.file != file)
}

/// Whether a chain has no record of a file.
fn holds_none(chain: &[Held], file: u32) -> bool
    ensures { IsTrue result ↔ ((h : Held) → Contains chain.now h → h.file ≢ file) }
{
    are_of_others(chain, file)
}

/// Whether a test holds of these two jobs.
pub(crate) fn holds(test: Test, a: &JobStart, b: &JobStart) -> bool
    ensures { IsTrue result ↔ TestHolds a.now b.now test }
{
    match test {
        Test::Differ { first, later } => {
            value_at(a.job.values.as_slice(), first as usize)
                != value_at(b.job.values.as_slice(), later as usize)
        }
        Test::FirstNot { first, value } => value_at(a.job.values.as_slice(), first as usize)
            != value,
        Test::LaterNot { later, value } => value_at(b.job.values.as_slice(), later as usize)
            != value,
        Test::InForlopp => a.job.forlopp != 0,
        Test::HoldsNo { file } => holds_none(a.chain.as_slice(), file),
    }
}

/// Whether all of these tests hold of the two.
pub fn all_hold(tests: &[Test], a: &JobStart, b: &JobStart) -> bool
    ensures { IsTrue result ↔ All (TestHolds a.now b.now) tests.now }
{
    tests.iter().all(|test| holds(*test, a, b))
}

/// Whether two jobs are not of one forlopp other than 0.
pub fn are_apart(a: &JobStart, b: &JobStart) -> bool
    ensures { IsTrue result
        ↔ (a.now.job.forlopp ≡ b.now.job.forlopp → a.now.job.forlopp ≡ 0) }
{
    if a.job.forlopp == 0 {
        return true;
    }
    a.job.forlopp != b.job.forlopp
}
