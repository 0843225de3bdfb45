// What a program means: the value of an expression, the statement step, the meaning of a job, and
// what an exchange is between two jobs; and the laws that hold of every job.
//
// The definitions are over the exchange of `exchange_model` and the jobs of `job_types`. The
// machine, the code and the run of an exchange are proved against them. They know no address, no
// register and no book: what remains to be done is a list of statements, chains are a map of
// numbers, and events are plain data.
#![tactic(auto)]

mod laws;

pub use laws::{
    activations_begin_at_their_enter, jobs_are_framed, jobs_end, jobs_stay_in_range,
    records_are_held, rests_are_of_the_text, states_stay_valid, steps_make_effects, texts_are_kept,
    texts_come_to_their_end, touches_are_of_the_exchange, traces_tell,
};
