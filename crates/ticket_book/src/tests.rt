use crate::TicketBook;
use job_types::{Chain, Job, JobStart};
use machine_code::Permit;
use plex_num::{Level, Seq, Values};
use shared_store::SharedStore;
use std::test::Fail;

#[test]
fn tickets_are_numbered_as_they_are_written(rt: HostRuntime) -> Result<(), Fail> {
    let start = JobStart {
        job: Job {
            entry: 0,
            level: Level::A,
            values: Values::new(),
            forlopp: 0,
        },
        chain: Chain::new(),
    };
    let nothing = Permit {
        reads: Seq::new(rt.alloc()),
        writes: Seq::new(rt.alloc()),
    };
    let (store, mut root) = SharedStore::new(rt.alloc(), &Seq::new(rt.alloc()))?;
    let seat = store.lend(&mut root, &start, nothing);
    let (book, mut pen) = TicketBook::new(rt.alloc())?;
    let mut first = book.write(&mut pen, &seat);
    let second = book.write(&mut pen, &seat);
    let again = book.copy(&mut first);
    let numbers = [first.number(), second.number(), again.number()];
    assert_eq!(rt; numbers.as_slice(), [0, 1, 0].as_slice());
    book.meet(first, again);
    store.take_back(&mut root, seat);
    Ok(())
}
