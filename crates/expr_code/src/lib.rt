// The code of expressions and of conditions.
//
// What goes in: an expression or a condition of a block, and the layout where the code finds stored
// words. What comes out: the instructions that leave its value in a register, appended to a list.
// The machine's run of this code gives the value that the meaning gives, with the same loads, or
// stops by the same fault: `Computes` says so, and the code of statements stands on it. It knows no
// statement, no address and no label: this code never jumps.
#![tactic(auto)]

mod cond;
mod expr;
mod field;
mod laws;
mod push;

pub use cond::{cond_code, rel_op};
pub use expr::expr_code;
pub use laws::{code_computes_its_value, operands_are_in_range};
pub use push::push_all;
