// Pairs of jobs that only add to the variables and fields that they share.
//
// What goes in: two summaries, of the job that comes first in the single run and of the later one,
// and for each the variables and fields to which its jobs only add. What comes out: what is told of
// the summaries without the accesses to what both only add to, the first conflict or all tests,
// where that is another thing than of the whole summaries. It does not know how additions were
// found.
#![tactic(auto)]

mod shared;
mod told;
mod verdict;
mod without;

pub use told::Told;
pub use verdict::adding_of;
