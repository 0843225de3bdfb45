// The core of events never gets stuck, and comes to where the single run ends.
//
// What goes in are definitions: the cores to which events lead, each as it is allowed, and the
// single run. What comes out are laws, as public functions without a body. There is no code.
// Nothing is known of threads: that one of them makes its next event is not said.
#![tactic(auto)]

mod laws;

pub use laws::{events_are_bounded, events_end_as_the_single_run, some_event_is_allowed};
