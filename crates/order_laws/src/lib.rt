// The order of the single run: which retirements change places with taking later jobs, and what
// stays until then.
//
// What goes in are definitions: the states of the single run, its retirements, arrivals and turns.
// What comes out are laws, as public functions without a body. There is no code, and nothing is
// known of the analysis by which jobs are found that may run at once, nor of what runs them.
#![tactic(auto)]

mod laws;

pub use laws::{
    arrivals_keep_the_order, books_follow, jobs_stay_in_place, picks_go_on, picks_stay,
    retirements_keep, windows_move, windows_run, words_are_apart,
};
