// The faults of a filter, and the words of its rules.
ghost use Rattle.std.specs.Prelude.{◌≡◌};
ghost use Rattle.signal_trace.specs.Filter.{filter_rule_name};

/// The first fault of a filter: its first faulty line, and the first rule that this line breaks.
#[derive(Clone, Copy, Debug)]
pub struct FilterFault {
    /// The line, from 1; 0 where the text is too large.
    pub line: u32,
    pub rule: FilterRule,
}

/// The rules of a filter (docs/FORMATS.md, Filter and trace), in the order in which a line is
/// looked at.
#[derive(Clone, Copy, Debug)]
pub enum FilterRule {
    /// The text has more than 16,777,216 bytes; told where it is read from a file.
    TooLarge,
    /// The line is no line of a filter.
    BadLine,
    /// The exchange has no block of that name.
    UnknownBlock,
    /// The exchange has no signal of that name.
    UnknownSignal,
}

impl FilterRule {
    /// The word of the rule in what is told of a fault.
    pub fn word(self) -> &'static [u8]
        ensures { result.now ≡ filter_rule_name self }
    {
        match self {
            FilterRule::TooLarge => b"TOOLARGE",
            FilterRule::BadLine => b"BADLINE",
            FilterRule::UnknownBlock => b"UNKNOWNBLOCK",
            FilterRule::UnknownSignal => b"UNKNOWNSIGNAL",
        }
    }
}
