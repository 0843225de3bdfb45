// The lines that are written instead of a report, and the stops that report them.
//
// In: the first fault of an exchange text, of a signal file, of a table, of a filter or of a
// certificate. Out: the stop with the status and the line of that fault. The crate reads no file
// and does not search for faults.
#![tactic(auto)]

mod stops;

pub use stops::{certificate_stop, filter_stop, signals_stop, source_stop, table_stop};
