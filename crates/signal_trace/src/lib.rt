// The jobs of the single run that a filter shows.
//
// What goes in: an exchange, the text of a filter, and books and stored words of a valid state in
// which no job has ended, with the code that runs the jobs. What comes out: the lines of the
// filter, or its first faulty line with its first fault; the text of each job that some line shows,
// with how it starts, what it sends and how it ends, which is all that is kept of it; and the books
// and words at the end of the run. It knows neither files nor reports, and runs one job at a time.
#![tactic(auto)]

mod fault;
mod form;
mod laws;
mod meaning;
mod read;
mod run;
mod show;
mod table;
mod text;
mod tracer;

pub use fault::{FilterFault, FilterRule};
pub use laws::{
    all_jobs_are_traced, both_filters_show_what_either_shows, first_faulty_line_decides,
    no_lines_show_nothing,
};
pub use read::read_filter;
pub use run::{Traced, trace_run};
pub use show::Show;
pub use tracer::TracedJob;
