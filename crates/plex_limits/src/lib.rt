// How large the parts of a text, of an exchange and of a job may be.
//
// What comes out: one named number for each limit, which definitions and code cite alike. It knows
// nothing of what is counted.
#![tactic(auto)]

mod limits;

pub use limits::{
    MOST_BLOCKS, MOST_BRACKETS, MOST_BYTES, MOST_CALLERS, MOST_CELLS, MOST_COUNTED, MOST_ENTRIES,
    MOST_HELD, MOST_JOBS, MOST_NESTED, MOST_OPERANDS, MOST_RECORDS, MOST_RESTARTS, MOST_SENT,
    MOST_SIGNALS, MOST_STATEMENTS, MOST_TEMPORARIES, MOST_TOKENS, MOST_VALUES, MOST_WHENS,
    MOST_WORKERS,
};
