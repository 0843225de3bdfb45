// A gate at which two jobs meet.
use crate::gate::{Gate, Moment};
use crate::turns::comes_to;
use std::sync::atomic::{AtomicU64, Ordering};

/// A gate that holds each job before its first step until two jobs have begun, for a number of
/// turns at most.
#[derive(Drop)]
pub struct MeetGate {
    limit: u64,
    /// How many jobs have begun.
    begun: AtomicU64,
    /// How many jobs found that two had begun.
    seen: AtomicU64,
}

impl MeetGate {
    /// A gate that no job has come to. It holds a job for so many turns at most; a turn is one look
    /// at how many have begun.
    pub fn new(limit: u64) -> MeetGate {
        MeetGate {
            limit,
            begun: AtomicU64::new(0),
            seen: AtomicU64::new(0),
        }
    }

    /// How many jobs found that two had begun.
    pub fn seen(&self) -> u64 {
        self.seen.load(Ordering::SeqCst)
    }
}

impl Gate for MeetGate {
    fn at(&self, _job: u64, moment: Moment) {
        if let Moment::Before = moment {
            self.begun.fetch_add(1, Ordering::SeqCst);
            if comes_to(&self.begun, 2, self.limit) {
                self.seen.fetch_add(1, Ordering::SeqCst);
            }
        }
    }
}
