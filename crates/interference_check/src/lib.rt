// Whether two jobs of an exchange may run at once, and what one may touch, by a certificate that
// has been checked.
//
// What goes in: what is kept of the certificate, and two entries or two starts of jobs, of the job
// that comes first in the single run and of the later one; or one start, and the records that stand
// in chains. What comes out: the verdict, the tests that the two must pass, and whether they pass;
// or the words that the job may read and write. Its contracts say what jobs do that pass, and that
// each stays within its permit; it does not know how a certificate is checked, nor what runs jobs.
#![tactic(auto)]

mod granting;
mod laws;
mod pairs;
mod table;

pub use granting::permit;
pub use laws::permits_of_two_are_apart;
pub use pairs::{may_follow, tests, verdict};
pub use table::PairTable;
