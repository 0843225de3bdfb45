// A wait that ends.
use std::sync::atomic::{AtomicU64, Ordering};
use std::{hint, thread};

/// After so many turns the thread lets others run.
const TURNS_IN_A_ROW: u64 = 4096;

/// Waits until a count has come to so many, for so many turns at most. Whether it has. A turn is
/// one look at the count.
pub(crate) fn comes_to(count: &AtomicU64, many: u64, limit: u64) -> bool {
    for turn in 0..limit {
        if count.load(Ordering::SeqCst) >= many {
            return true;
        }
        if turn % TURNS_IN_A_ROW == TURNS_IN_A_ROW - 1 {
            thread::yield_now();
        } else {
            hint::spin_loop();
        }
    }
    count.load(Ordering::SeqCst) >= many
}
