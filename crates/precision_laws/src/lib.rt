// Laws of how much the analysis lets run together, and of what its conflicts are about.
//
// What goes in are definitions: the least facts and those of a certificate, the summaries by them,
// the verdict of a pair, the tests of two jobs, and the words that a job may read and write. What
// comes out are laws, as public functions without a body: more facts say more of an entry; so no
// certificate lets more run together than the exchange's own; and a conflict over a variable or a
// field, and a test that fails, is about a word that both jobs may touch. There is no code, and
// nothing is known of how facts, summaries and verdicts are found.
#![tactic(auto)]

mod laws;

pub use laws::{
    conflicts_are_about_words, jobs_without_common_words_pass, more_facts_say_more,
    own_certificate_is_best, seizures_are_about_marks, smaller_summaries_let_more_pass,
};
