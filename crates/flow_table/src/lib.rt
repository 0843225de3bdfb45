// The flow table of an exchange: all its statements, each where it stands, and where each one
// leads.
//
// What goes in: an exchange. What comes out: a `FlowTable`, which is made once: for each point how
// many slots stand before it and the ways from it, with how values go along; and the points of the
// RETRIEVEs of each answer. It is proved to lead exactly where the flow rules of `flow_points` do.
// Over facts that are known, however they are kept, it tells the values that come from a source,
// and the facts that one flow gives.
#![tactic(auto)]

mod giving;
mod known;
mod lookup;
mod passing;
mod place;
mod point_lists;
mod points;
mod reached;
mod row;
mod source;
mod table;
mod walk;
mod way;
mod ways;

pub use giving::{is_guarded, push_facts, push_flow, push_given, values_from};
pub use known::KnownFacts;
pub use lookup::{enter_point, label_point};
pub use passing::{Origin, source_over, start_source};
pub use place::PlaceAt;
pub use point_lists::{empty_lists, push_listed};
pub use points::Points;
pub use reached::reached_places;
pub use row::{FlowTable, Row};
pub use source::source_of;
pub use table::{BlockSlots, awaited_of, rows_of, table_of};
pub use walk::{first_of, places_of};
pub use way::{Ends, Way};
pub use ways::{count_of, given_of, ways_of};
