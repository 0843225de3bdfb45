// Laws of the register machine: what holds of the run of a job by code, alone on a store, after any
// number of its instructions.
//
// What goes in are definitions: the machine, and the run of a job alone. What comes out are laws,
// as public functions without a body. It knows no statement, and of no other job but the words that
// it leaves.
#![tactic(auto)]

pub mod laws;
