// The commands: what stands behind the name of each, and what it does.
use command_words::{CommandName, CommandOption, MOST_CALLS};
use plex_limits::{MOST_JOBS, MOST_WORKERS};
use process_ends::Program;

/// The program `plex`, as it is named on the standard error.
pub const PROGRAM: Program = Program {
    name: "plex",
    no_memory: "out of memory: give it more, or run a smaller text; --workers 1 takes less",
};

/// The names of the commands, as a sentence tells them.
pub const NAMES: &str = "run, single, analyse, certify, list, load, timed, change or trace";

/// The commands, in the order of the usage line.
pub static COMMANDS: [CommandName; 9] = [
    CommandName::Run,
    CommandName::Single,
    CommandName::Analyse,
    CommandName::Certify,
    CommandName::List,
    CommandName::Load,
    CommandName::Timed,
    CommandName::Change,
    CommandName::Trace,
];

/// What a sentence tells of a command.
#[derive(Clone, Copy)]
pub struct Form {
    pub name: &'static str,
    /// The words that stand behind the name, before the options.
    pub wants: &'static str,
    /// The options; none where the command takes none.
    pub options: Option<&'static str>,
    /// What the command does.
    pub does: &'static str,
}

/// What a sentence tells of this command.
pub fn form_of(command: CommandName) -> Form {
    match command {
        CommandName::Run => Form {
            name: "run",
            wants: "two files",
            options: Some("--workers N, --jobs N or --cert F"),
            does: "run E S: runs the exchange text E with the signal file S, several jobs at once",
        },
        CommandName::Single => Form {
            name: "single",
            wants: "two files",
            options: Some("--jobs N"),
            does: "single E S: the same by the source itself, one job at a time",
        },
        CommandName::Analyse => Form {
            name: "analyse",
            wants: "one file",
            options: None,
            does: "analyse E: what the jobs of each entry may do, and which may run at once",
        },
        CommandName::Certify => Form {
            name: "certify",
            wants: "one file",
            options: None,
            does: "certify E: the facts on which the analysis rests, as a certificate",
        },
        CommandName::List => Form {
            name: "list",
            wants: "one file",
            options: None,
            does: "list E: the compiled code",
        },
        CommandName::Load => Form {
            name: "load",
            wants: "a number of calls",
            options: None,
            does: "load N: runs a load of N calls, and sums it up",
        },
        CommandName::Timed => Form {
            name: "timed",
            wants: "three files",
            options: Some("--workers N or --jobs N"),
            does: "timed E S T: runs E with S and the periodic signals of the table T",
        },
        CommandName::Change => Form {
            name: "change",
            wants: "three files and a number of jobs",
            options: Some("--workers N or --jobs N"),
            does: "change E S E2 K: runs E with S until K jobs have ended, and goes on with E2",
        },
        CommandName::Trace => Form {
            name: "trace",
            wants: "three files",
            options: Some("--jobs N"),
            does: "trace E S Q: runs E with S, and lists the jobs that the filter Q shows",
        },
    }
}

/// The words in front of the number that a command wants, and the largest that it may be.
pub fn number_of(command: CommandName) -> (&'static str, u32) {
    match command {
        CommandName::Change => ("change after", MOST_JOBS as u32),
        _ => ("load", MOST_CALLS),
    }
}

/// The name of an option, and the largest number that may stand behind it; none where a file stands
/// there.
pub fn option_of(option: CommandOption) -> (&'static str, Option<u32>) {
    match option {
        CommandOption::Workers => ("--workers", Some(MOST_WORKERS as u32)),
        CommandOption::Jobs => ("--jobs", Some(MOST_JOBS as u32)),
        CommandOption::Certificate => ("--cert", None),
    }
}
