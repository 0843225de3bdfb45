// The text of a machine's code, and the code of a text.
//
// What goes in: code whose operands are in their ranges, or a text of at most 16 MiB, whatever its
// bytes. What comes out: the listing, a line for each entry and each instruction; or the code whose
// listing the text is, else the first faulty line. Who writes a listing stands on the contract of
// `print_code`, who reads one on that of `read_code`; `laws` says that reading is the inverse of
// printing. It knows neither what an instruction does nor where an address leads.
#![tactic(auto)]

mod fault;
mod kinds;
mod laws;
mod operands;
mod parts;
mod print;
mod print_line;
mod read;
mod read_line;
mod rows;
mod statement;

pub use fault::ListFault;
pub use laws::{
    code_has_one_listing, faults_are_at_lines, lines_are_the_text, listing_is_of_its_code,
    text_has_one_code,
};
pub use print::print_code;
pub use read::read_code;
