// Tests which jobs may run in parallel.
use crate::given::{NotMade, books_of, exchange_of, least_of, lines_of, told_by};
use crate::texts::{CALLS, LINES, LOOSE_TABLE, TABLE, TABLE_LINES};
use checked::Checked;
use exchange_model::Exchange;
use interference_check::may_follow;
use job_types::{Chain, Held, JobStart};
use plex_num::{Memory, Seq};
use run_books::Books;
use std::alloc::Global;
use std::test::Fail;

/// The indices of two jobs in a list, first the one that comes first in the single run, and whether
/// they may run in parallel.
type Pair = (usize, usize, bool);

/// The jobs of these lines, in the order in which they begin.
pub fn starts_of(alloc: Global, exchange: &Exchange, text: &str) -> Result<Seq<JobStart>, NotMade> {
    let lines = lines_of(alloc, exchange, text)?;
    let mut books = books_of(alloc, exchange, lines)?;
    let mut starts = Seq::new(alloc);
    begin_all(&mut books, &mut starts)?;
    Ok(starts)
}

/// Begins all waiting jobs, one after the other, without retiring any.
fn begin_all(books: &mut Books, starts: &mut Seq<JobStart>) -> Result<(), Memory> {
    for _ in 0..100 {
        let Some(start) = books.next_job() else {
            break;
        };
        starts.push(start)?;
    }
    Ok(())
}

/// Whether two jobs may run in parallel; `None` if an entry has no summary.
fn follows(checked: &Checked, first: &JobStart, later: &JobStart) -> Option<bool> {
    if first.job.entry < checked.entries() && later.job.entry < checked.entries() {
        Some(may_follow(checked, first, later))
    } else {
        None
    }
}

/// Whether two jobs of a list may run in parallel; `None` if there is no such job.
fn follows_at(checked: &Checked, starts: &[JobStart], first: usize, later: usize) -> Option<bool> {
    follows(checked, starts.get(first)?, starts.get(later)?)
}

/// The index of the first pair whose result differs from the expected one.
fn first_wrong(checked: &Checked, starts: &[JobStart], pairs: &[Pair]) -> Option<usize> {
    for (place, (first, later, wanted)) in pairs.iter().enumerate() {
        if follows_at(checked, starts, *first, *later) != Some(*wanted) {
            return Some(place);
        }
    }
    None
}

/// The first wrong pair among the jobs of these lines, by a checked certificate.
fn wrong_by(
    alloc: Global,
    exchange: &Exchange,
    lines: &str,
    checked: &Checked,
    pairs: &[Pair],
) -> Result<Option<usize>, NotMade> {
    let starts = starts_of(alloc, exchange, lines)?;
    Ok(first_wrong(checked, starts.as_slice(), pairs))
}

/// The same by the exchange's own certificate, or by that of a text.
fn wrong_in(
    alloc: Global,
    exchange: &Exchange,
    lines: &str,
    certificate: Option<&str>,
    pairs: &[Pair],
) -> Result<Option<usize>, NotMade> {
    let checked = match certificate {
        Some(text) => told_by(alloc, exchange, text)?,
        None => least_of(alloc, exchange)?,
    };
    wrong_by(alloc, exchange, lines, &checked, pairs)
}

/// The same for the exchange of a text.
fn wrong_pair(
    alloc: Global,
    exchange: &str,
    lines: &str,
    certificate: Option<&str>,
    pairs: &[Pair],
) -> Result<Option<usize>, NotMade> {
    let exchange = exchange_of(alloc, exchange)?;
    wrong_in(alloc, &exchange, lines, certificate, pairs)
}

#[test]
fn jobs_that_write_other_records_may_run_at_once(rt: HostRuntime) -> Result<(), Fail> {
    let pairs = [
        (0, 1, false),
        (1, 2, true),
        (0, 2, true),
        (2, 3, false),
        (3, 0, false),
    ];
    let wrong = wrong_pair(rt.alloc(), TABLE, TABLE_LINES, None, &pairs)?;
    assert_eq!(rt; wrong, None);
    Ok(())
}

#[test]
fn a_looser_certificate_lets_fewer_run_at_once(rt: HostRuntime) -> Result<(), Fail> {
    let pairs = [
        (0, 1, false),
        (1, 2, false),
        (0, 2, false),
        (2, 3, false),
        (3, 0, false),
    ];
    let wrong = wrong_pair(rt.alloc(), TABLE, TABLE_LINES, Some(LOOSE_TABLE), &pairs)?;
    assert_eq!(rt; wrong, None);
    Ok(())
}

#[test]
fn jobs_of_other_forlopps_may_run_at_once(rt: HostRuntime) -> Result<(), Fail> {
    let pairs = [
        (0, 1, false),
        (0, 2, true),
        (2, 0, true),
        (2, 3, true),
        (2, 4, false),
        (5, 2, false),
        (2, 5, true),
    ];
    let wrong = wrong_pair(rt.alloc(), LINES, CALLS, None, &pairs)?;
    assert_eq!(rt; wrong, None);
    Ok(())
}

/// The same job, with this record in its forlopp's chain.
fn holding(start: &JobStart, held: Held) -> JobStart {
    let mut chain = Chain::new();
    chain.push(held);
    JobStart {
        job: start.job.copy(),
        chain,
    }
}

/// Whether the first job may run beside the third one, which precedes it here and whose forlopp
/// holds a record of LINE; `None` if there is no such job.
fn first_follows_holder(checked: &Checked, starts: &[JobStart]) -> Option<bool> {
    let (call, digit) = (starts.get(0)?, starts.get(2)?);
    let holder = holding(digit, Held { file: 0, number: 1 });
    follows(checked, &holder, call)
}

/// The same for CALL and DIGIT, by a checked certificate.
fn call_follows(
    alloc: Global,
    exchange: &Exchange,
    checked: &Checked,
) -> Result<Option<bool>, NotMade> {
    let starts = starts_of(alloc, exchange, CALLS)?;
    Ok(first_follows_holder(checked, starts.as_slice()))
}

/// The same for an exchange.
fn call_follows_in(alloc: Global, exchange: &Exchange) -> Result<Option<bool>, NotMade> {
    let checked = least_of(alloc, exchange)?;
    call_follows(alloc, exchange, &checked)
}

/// The same for LINES.
fn call_follows_holder(alloc: Global) -> Result<Option<bool>, NotMade> {
    let exchange = exchange_of(alloc, LINES)?;
    call_follows_in(alloc, &exchange)
}

#[test]
fn a_job_that_may_give_records_back_goes_before_one_that_seizes(
    rt: HostRuntime,
) -> Result<(), Fail> {
    let follows = call_follows_holder(rt.alloc())?;
    assert_eq!(rt; follows, Some(false));
    Ok(())
}
