// Laws of pairs: what two jobs that pass may read and write is apart.
//
// What goes in are definitions: when the jobs of two summaries pass, which words a job may read and
// write, and what a retirement leaves. What comes out are laws, as public functions without a body:
// no word that one of the two may write is one that the other may read; a release after a fault of
// the first writes none of the later one's; the later one's words are the same before and after the
// first has retired; and no signal of the first goes before the later job. Every job keeps to the
// summary of its entry by facts that are closed; so two jobs do the same in either order, and the
// first makes way to the later one. There is no code, and nothing is known of how facts or
// summaries were found.
#![tactic(auto)]

mod laws;

pub use laws::{
    jobs_keep_to_summaries, jobs_leave_what_they_may, jobs_make_way, jobs_run_together,
    levels_are_not_above, orders_are_alike, pairs_stay, permits_are_apart, permits_stay,
    releases_are_apart, retirements_are_stores, retirements_leave_chains, starts_stay_fitting,
    touches_are_apart,
};
