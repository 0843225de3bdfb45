// The text of a certificate, and the certificate of a text.
//
// What goes in: a certificate whose facts rise, or a text of at most 16 MiB, whatever its bytes.
// What comes out: the text, a line for each fact; or the certificate whose text it is, else the
// first line that is not as stated. Who writes a certificate stands on the contract of
// `print_certificate`, or where its facts come some at a time on those of `print_head`,
// `print_facts` and `print_end`; who reads one on that of `read_certificate`; `laws` says that
// reading is the inverse of printing. It does not know whether an exchange has the shape, nor what
// its facts mean.
#![tactic(auto)]

mod certificate;
mod fault;
mod laws;
mod parts;
mod print;
mod read;
mod read_fact;
mod read_head;
mod version;

pub use certificate::{Certificate, Shape};
pub use fault::TextFault;
pub use laws::{
    bad_line_is_a_line, certificate_has_these_texts, lines_are_the_text, printed_is_read,
    text_has_one_certificate,
};
pub use print::{print_certificate, print_end, print_fact, print_facts, print_head};
pub use read::read_certificate;
