// The code generator: the code of an exchange, which is faithful.
//
// What goes in: an exchange and its layout. What comes out: the instructions of all blocks, and the
// address of each entry. That code is `whole_code`, which does what the statements mean. Each kind
// of statement has a function of its own in the file of its group, and a further kind is a further
// function and an arm of `emit_kind`. Two passes are made: the first tells the address of each
// place of each text, and the second writes the code with these addresses. How much of the code
// stands there again for each field of a file and each receiver of a signal is told before any is
// written. It knows no state, no job and no step of the machine.
#![tactic(auto)]

mod addresses;
mod control;
mod data;
mod lookup;
mod passes;
mod receivers;
mod records;
mod setting;
mod signals;
mod text;
mod unrolled;
mod value;

pub use passes::compile;
pub use unrolled::unrolled_length;
