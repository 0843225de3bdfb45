// What a search for least facts looks things up in.
use crate::order::Place;
use answer_table::AnswerTable;
use exchange_model::Exchange;
use flow_table::FlowTable;
use plex_num::Seq;
use std::alloc::Global;

/// What a search for the least facts of an entry looks things up in: the exchange with its table
/// and its answers, and the place of each point in the order in which points are looked at.
#[derive(Clone, Copy)]
pub struct Setting<'a> {
    pub alloc: Global,
    pub exchange: &'a Exchange,
    pub table: &'a FlowTable,
    pub answers: &'a AnswerTable,
    pub order: &'a Seq<Place>,
    pub entry: u32,
}
