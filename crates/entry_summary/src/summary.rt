ghost use Rattle.std.specs.List.Sorted.{IsStrictlySortedBy, IsStrictlySortedBy-prop};
ghost use Rattle.entry_summary.specs.Orders.{access_order, level_order};

use flow_points::Value;
use plex_num::{Level, Seq};

/// What a job may do to stored data. Variables, fields and files are numbered through the exchange,
/// in the order of the blocks. In order: all reads of variables, all writes of them, reads and
/// writes of fields of plain files, reads and writes of fields of own records, seizing, freeing;
/// each by its numbers.
#[derive(Clone, Copy, PartialEq, Eq, PartialOrd, Ord)]
pub enum Access {
    Variable {
        write: bool,
        number: u32,
    },
    /// A field of a plain file, in the record that the selector tells.
    Field {
        write: bool,
        number: u32,
        selector: Value,
    },
    /// A field of a forlopp file, in a record that the job holds.
    Own {
        write: bool,
        number: u32,
    },
    Seizes {
        file: u32,
    },
    Frees {
        file: u32,
    },
}

/// What the jobs of an entry may do: the level of the entry, their accesses in order, the levels to
/// which they send in order, and whether one may fault. No access and no level stands twice, and
/// none is made otherwise.
pub struct Summary {
    pub level: Level,
    pub accesses: Seq<Access>,
    pub levels: Seq<Level>,
    pub fault: bool,
    pub ghost rising: { IsStrictlySortedBy access_order accesses } by { IsStrictlySortedBy-prop access_order accesses },
    pub ghost levels_rising: { IsStrictlySortedBy level_order levels } by { IsStrictlySortedBy-prop level_order levels },
}

impl Drop for Summary {
    fn drop(self) {
        let Summary {
            level: _,
            accesses: _,
            levels: _,
            fault: _,
        } = self;
    }
}
