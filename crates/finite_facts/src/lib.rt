// That the least facts of an exchange are finitely many.
//
// What goes in are definitions: the statements of an exchange, and which facts follow from which.
// What comes out is a law, as a public function without a body. Behind it stands what finitely many
// cases are: what has a list can be decided, and rules that give from a list no more than a list
// has lead to an end. There is no code, and nothing is known of how facts are found.
#![tactic(auto)]

mod laws;

pub use laws::least_facts_are_a_list;
