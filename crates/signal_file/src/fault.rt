// The faults of a signal file, and the words of its rules.
ghost use Rattle.std.specs.Prelude.{◌≡◌};
ghost use Rattle.signal_file.specs.Rules.{signals_rule_name};

/// The first fault of a signal file: its first faulty line, and the first rule that this line
/// breaks.
#[derive(Clone, Copy, Debug)]
pub struct SignalsFault {
    /// The line, from 1; 0 where the text is too large.
    pub line: u32,
    pub rule: SignalsRule,
}

/// The rules of a signal file (docs/FORMATS.md, Signal file), in the order in which a line is
/// looked at.
#[derive(Clone, Copy, Debug)]
pub enum SignalsRule {
    /// The text has more than 16,777,216 bytes; told where it is read from a file.
    TooLarge,
    /// The line is no signal line, whatever the number of values.
    BadLine,
    /// No single buffered signal has that name.
    UnknownSignal,
    /// No block of that name receives the signal.
    UnknownBlock,
    /// There are more or fewer values than the signal has.
    WrongData,
    /// The count is below that of the signal line before.
    FallingCount,
    /// The number after AS is that of no earlier signal line, or of one that ends in NONE.
    BadAs,
}

impl SignalsRule {
    /// The word of the rule in what is told of a fault.
    pub fn word(self) -> &'static [u8]
        ensures { result.now ≡ signals_rule_name self }
    {
        match self {
            SignalsRule::TooLarge => b"TOOLARGE",
            SignalsRule::BadLine => b"BADLINE",
            SignalsRule::UnknownSignal => b"UNKNOWNSIGNAL",
            SignalsRule::UnknownBlock => b"UNKNOWNBLOCK",
            SignalsRule::WrongData => b"WRONGDATA",
            SignalsRule::FallingCount => b"FALLINGCOUNT",
            SignalsRule::BadAs => b"BADAS",
        }
    }
}
