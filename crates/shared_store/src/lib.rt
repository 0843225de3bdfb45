// The stored data of running jobs: words in an atomic table, whose rule lends each word to the jobs
// that may touch it.
//
// What goes in: the words of the exchange, and for each job its start and its permit. What comes
// out: a `SharedStore` that threads share, the one `RootSeat` of the dispatcher, and a `JobSeat`
// for each loan. The runner of a job stands on the contracts of `load` and `store`: a seat finds
// its own last store or the value that was lent, whatever other seats do. The dispatcher stands on
// those of `lend`, `take_back`, `root_load` and `root_store`. It knows no instruction, no cell's
// name and no thread, and does not say when a step happens.
#![tactic(auto)]

mod crossing;
mod laws;
mod row;
mod rule;
mod seat;
mod store;
#[cfg(test)]
mod tests;
mod view;

pub use crossing::{job_seat_crosses, root_seat_crosses, store_crosses};
pub use laws::{
    a_new_loan_has_a_number_of_its_own, one_loan_ends_alone, the_root_may_touch_what_no_loan_may,
};
pub use rule::Terms;
pub use seat::{JobSeat, RootSeat};
pub use store::SharedStore;
pub use view::{Hold, Lent, Top, View};
