// The code that statements, blocks and exchanges become, and that it is faithful.
//
// What goes in: an exchange, whose facts it takes from `Exchange::kept`. What comes out:
// definitions of its code, as lists of instructions with the addresses of labels and entries, and
// the law that the machine's run of a job leaves what the job means, for every kind of statement,
// and that each operand is in its range. The code generator is to write this code and no other. It
// knows no list that grows: which code there is, and not how it is made.
#![tactic(auto)]

mod laws;
mod lengths;
mod ranges;

pub use laws::whole_code_is_faithful;
pub use lengths::{
    AGAIN_LENGTH, BOUNDS_LENGTH, COMPARE_LENGTH, FIRST_LOOP_LOCAL, FOUND_LENGTH, LOOK_LENGTH,
    NEXT_LENGTH, TURN_LENGTH,
};
pub use ranges::files_are_numbered;
