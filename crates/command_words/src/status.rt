// How a program ends that is called by words.
ghost use Rattle.std.specs.Prelude.{◌≡◌};
ghost use Rattle.command_words.specs.Status.{exit_number};

/// How the program ends.
#[derive(Clone, Copy, Debug, PartialEq, Eq)]
pub enum Status {
    /// The report was written.
    Done,
    /// The words are no command; the usage line was written.
    Usage,
    /// The exchange text has a fault; the line that tells the first one was written.
    Source,
    /// The signal file has a fault; the line that tells the first one was written.
    Signals,
    /// The report was written of a run that ended with its last restart.
    Restart,
    /// The report was written of a run that ended after as many jobs as it may have.
    Limit,
    /// A file could not be read; nothing was written.
    Read,
    /// The text could not be written whole.
    Write,
    /// Memory was refused; nothing was written.
    Memory,
    /// The certificate is none of the exchange; the line that tells why was written.
    Certificate,
    /// The table of periodic signals has a fault; the line that tells the first one was written.
    Table,
    /// The exchange that is to take the place of the first one does not fit; the line that tells
    /// what it has not was written.
    Change,
    /// The filter has a fault; the line that tells the first one was written.
    Filter,
}

impl Status {
    /// The exit status of the process (docs/FORMATS.md, Exit statuses).
    pub fn number(self) -> u8
        ensures { result ≡ exit_number self }
    {
        match self {
            Status::Done => 0,
            Status::Usage => 1,
            Status::Source => 2,
            Status::Signals => 3,
            Status::Restart => 4,
            Status::Limit => 5,
            Status::Read => 6,
            Status::Write => 7,
            Status::Memory => 8,
            Status::Certificate => 9,
            Status::Table => 11,
            Status::Change => 12,
            Status::Filter => 13,
        }
    }
}
