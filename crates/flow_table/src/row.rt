use crate::way::Way;
use plex_num::Seq;

/// The row of a point: how many temporaries, entry values and values of an answer stand before it,
/// and the ways from it.
pub struct Row {
    pub temps: u8,
    pub given: u8,
    pub answered: u8,
    pub ways: Seq<Way>,
}

impl Drop for Row {
    fn drop(self) {
        let Row {
            temps: _,
            given: _,
            answered: _,
            ways: _,
        } = self;
    }
}

/// The table of an exchange: the row of each point, and for each signal the points of the RETRIEVEs
/// that await it.
pub struct FlowTable {
    pub rows: Seq<Row>,
    pub retrieves: Seq<Seq<u32>>,
}

impl Drop for FlowTable {
    fn drop(self) {
        let FlowTable {
            rows: _,
            retrieves: _,
        } = self;
    }
}
