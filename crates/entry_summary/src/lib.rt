// What the jobs of an entry may do, told from facts.
//
// An access is what a statement may do to stored data; the summary of an entry has the accesses,
// the levels to which its jobs send, and whether one may fault. The definitions are over facts,
// whichever these are: the least ones, or those of a certificate.
#![tactic(auto)]

mod summary;

pub use summary::{Access, Summary};
