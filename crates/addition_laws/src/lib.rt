// Additions change nothing but sums.
//
// What goes in are definitions: the meaning of a job, facts that are closed, and the variables and
// fields to which the jobs of an entry only add. What comes out are laws, as public functions
// without a body: a job that runs over words with more at these takes the same way, and leaves as
// much more at each; so two jobs that share no other words do the same in either order, to where
// the first has retired. There is no code, and nothing is known of how these are found.
#![tactic(auto)]

mod laws;

pub use laws::{
    added_lists_are_one, adding_jobs_make_way, adding_jobs_run_together,
    jobs_add_as_much_to_other_words, jobs_add_in_either_order, lists_tell_who_passes,
    passing_jobs_add_in_either_order, spared_words_are_added_to,
};
