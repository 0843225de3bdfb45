// Tests which words jobs may read and write.
use crate::given::{NotMade, exchange_of, least_of};
use crate::pairs::starts_of;
use crate::texts::{TABLE, TABLE_LINES};
use checked::Checked;
use exchange_model::Exchange;
use forlopp_chain::Chains;
use interference_check::permit;
use job_types::JobStart;
use machine_code::{Permit, Span};
use start_permit::table_of;
use std::alloc::Global;
use std::test::Fail;
use store_layout::layout_of;

/// The permit of a job of the exchange, while no forlopp holds a record.
fn permit_by(
    alloc: Global,
    exchange: &Exchange,
    checked: &Checked,
    start: &JobStart,
) -> Result<Permit, NotMade> {
    if start.job.entry >= checked.entries() {
        return Err(NotMade);
    }
    let layout = layout_of(alloc, exchange)?;
    let table = table_of(alloc, exchange)?;
    let chains = Chains::new(alloc);
    let permit = permit(alloc, exchange, checked, &layout, &table, &chains, start)?;
    Ok(permit)
}

/// The permit of the job at this index among those that TABLE_LINES start.
fn permit_in_table(alloc: Global, place: usize) -> Result<Permit, NotMade> {
    let exchange = exchange_of(alloc, TABLE)?;
    let checked = least_of(alloc, &exchange)?;
    let starts = starts_of(alloc, &exchange, TABLE_LINES)?;
    match starts.as_slice().get(place) {
        Some(start) => permit_by(alloc, &exchange, &checked, start),
        None => Err(NotMade),
    }
}

/// Consecutive words.
fn span(first: u32, count: u32) -> Span {
    Span {
        first,
        count,
        stride: 1,
    }
}

/// A PUT job may write only the record that its signal names, and a LOOK job may read all records.
#[test]
fn a_job_may_touch_the_words_that_its_start_names(rt: HostRuntime) -> Result<(), Fail> {
    let puts = permit_in_table(rt.alloc(), 2)?;
    assert!(rt; puts.writes.as_slice() == [span(5, 1)].as_slice());
    assert!(rt; puts.reads.as_slice().is_empty());
    let looks = permit_in_table(rt.alloc(), 3)?;
    assert!(rt; looks.writes.as_slice().is_empty());
    assert!(rt; looks.reads.as_slice() == [span(0, 8)].as_slice());
    Ok(())
}
