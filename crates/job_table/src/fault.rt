// The faults of a table, and the words of its rules.
ghost use Rattle.std.specs.Prelude.{◌≡◌};
ghost use Rattle.job_table.specs.Rules.{table_rule_name};

/// The first fault of a table: its first faulty line, and the first rule that this line breaks.
#[derive(Clone, Copy, Debug)]
pub struct TableFault {
    /// The line, from 1; 0 where the text is too large.
    pub line: u32,
    pub rule: TableRule,
}

/// The rules of a table (docs/FORMATS.md, Table of periodic signals), in the order in which a line
/// is looked at.
#[derive(Clone, Copy, Debug)]
pub enum TableRule {
    /// The text has more than 16,777,216 bytes; told where it is read from a file.
    TooLarge,
    /// The line is no line of a table, whatever the number of values.
    BadLine,
    /// No single buffered signal has that name.
    UnknownSignal,
    /// No block of that name receives the signal.
    UnknownBlock,
    /// There are more or fewer values than the signal has.
    WrongData,
    /// The signal never comes, or it comes again after no jobs, or its last count is not below
    /// 2^32.
    BadRange,
    /// With the signals of this line there are over 1,000,000 in the signal file and the table.
    TooMany,
}

impl TableRule {
    /// The word of the rule in what is told of a fault.
    pub fn word(self) -> &'static [u8]
        ensures { result.now ≡ table_rule_name self }
    {
        match self {
            TableRule::TooLarge => b"TOOLARGE",
            TableRule::BadLine => b"BADLINE",
            TableRule::UnknownSignal => b"UNKNOWNSIGNAL",
            TableRule::UnknownBlock => b"UNKNOWNBLOCK",
            TableRule::WrongData => b"WRONGDATA",
            TableRule::BadRange => b"BADRANGE",
            TableRule::TooMany => b"TOOMANY",
        }
    }
}
