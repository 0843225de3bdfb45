// Whether a text keeps its rules.
//
// What goes in: the events of a text, part by part, with its signals and its blocks. What comes
// out: that they keep the rules of signals, of blocks or of links, or the first fault of that set
// and there its lowest rule, which `text_rules` defines. Each set of rules is one pass over the
// events, with tables of what came before.
// It knows nothing of the tree but what the surveys of blocks say, and makes no exchange.
#![tactic(auto)]

mod amounts;
mod block_tables;
mod blocks;
mod links;
mod names;
mod operand_counts;
mod signals;

pub use blocks::check_blocks;
pub use links::check_links;
pub use signals::check_signals;
