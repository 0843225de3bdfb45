// The whole program as one call.
//
// In: the command's arguments, a shelf (a device that reads files) and a sink (a device that takes
// output). Out: an exit status, and the text in the sink. The contract of `plex` states that both
// are a function of the arguments and the files; the report of a run is that of the single run. The
// crate does not touch the process: main passes in the real devices.
#![tactic(auto)]

mod perform;
mod program;
mod steady;

pub use program::plex;
pub use steady::plex_steady;
