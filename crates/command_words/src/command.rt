// What the words of the command ask for.
use plex_io::Word;

/// After how many jobs a run ends, where the words do not say.
pub const USUAL_JOBS: u32 = 1_000_000;

/// How many jobs may run at once, where the words do not say.
pub const USUAL_WORKERS: u32 = 4;

/// How many calls a load has at most.
pub const MOST_CALLS: u32 = 10_000;

/// What the words ask for.
#[derive(Drop)]
pub enum Command {
    /// `run E S [--workers N] [--jobs N] [--cert F]`: the report of the run of an exchange file and
    /// a signal file, where the certificate is one of the exchange.
    Run(RunWords),
    /// `single E S [--jobs N]`: the same report, each job by the source itself.
    Single(RunWords),
    /// `analyse E`: the analysis of an exchange file.
    Analyse(Word),
    /// `certify E`: the certificate of an exchange file.
    Certify(Word),
    /// `list E`: the listing of the compiled code of an exchange file.
    List(Word),
    /// `load N`: the summary of the run of a load of so many calls, from 1 to 10,000.
    Load(u32),
    /// `timed E S T [--workers N] [--jobs N]`: the report of the run of an exchange file and a
    /// signal file that is merged with the signals of a table.
    Timed(TimedWords),
    /// `change E S E2 K [--workers N] [--jobs N]`: the report of a run that goes on with another
    /// exchange after so many jobs.
    Change(ChangeWords),
    /// `trace E S Q [--jobs N]`: the jobs of the run that a filter shows, and its report.
    Trace(TraceWords),
}

/// How many jobs may run at once, and after how many jobs a run ends.
#[derive(Clone, Copy)]
pub struct Bounds {
    /// How many jobs may run at once, from 1 to 64.
    pub workers: u32,
    /// After how many jobs the run ends at the latest, from 1 to 10,000,000.
    pub jobs: u32,
}

/// The words of a run after its name.
pub struct RunWords {
    /// The name of the file with the exchange text.
    pub exchange: Word,
    /// The name of the signal file.
    pub signals: Word,
    /// How many jobs may run at once, and after how many the run ends.
    pub bounds: Bounds,
    /// The name of the file with the certificate, where one is given.
    pub certificate: Option<Word>,
}

impl Drop for RunWords {
    fn drop(self) {
        let RunWords {
            exchange: _,
            signals: _,
            bounds: _,
            certificate: _,
        } = self;
    }
}

/// The words of a run with a table after its name.
pub struct TimedWords {
    /// The words of the run without the table, which has no certificate.
    pub run: RunWords,
    /// The name of the file with the table of periodic signals.
    pub table: Word,
}

impl Drop for TimedWords {
    fn drop(self) {
        let TimedWords { run: _, table: _ } = self;
    }
}

/// The words of a change of blocks after its name.
pub struct ChangeWords {
    /// The words of the run without the change, which has no certificate.
    pub run: RunWords,
    /// The name of the file with the exchange that takes the place of the first one.
    pub new: Word,
    /// After how many jobs it does, from 1 to 10,000,000.
    pub at: u32,
}

impl Drop for ChangeWords {
    fn drop(self) {
        let ChangeWords {
            run: _,
            new: _,
            at: _,
        } = self;
    }
}

/// The words of a trace after its name.
pub struct TraceWords {
    /// The words of the run that is traced, with one worker and without a certificate.
    pub run: RunWords,
    /// The name of the file with the filter.
    pub filter: Word,
}

impl Drop for TraceWords {
    fn drop(self) {
        let TraceWords { run: _, filter: _ } = self;
    }
}
