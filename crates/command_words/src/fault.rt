// What is wrong with words that are no command.
ghost use Rattle.std.specs.Prelude.{◌≡◌};
ghost use Rattle.std.specs.Str.{bytes_eq};
ghost use Rattle.command_words.specs.Words.{command_named, option_named, takes};

use plex_io::Word;

/// The name of a command.
#[derive(Clone, Copy)]
pub enum CommandName {
    Run,
    Single,
    Analyse,
    Certify,
    List,
    Load,
    Timed,
    Change,
    Trace,
}

/// The name of an option, behind which a value stands.
#[derive(Clone, Copy)]
pub enum CommandOption {
    /// `--workers`: how many jobs may run at once.
    Workers,
    /// `--jobs`: after how many jobs the run ends.
    Jobs,
    /// `--cert`: the file with the certificate.
    Certificate,
}

/// What is wrong with words that are no command: the first thing that is, where words are looked at
/// from the first one on. That words are missing is found before what the others are.
#[derive(Drop)]
pub enum WordsFault {
    /// There are no words.
    NoWords,
    /// The first word is this one, and names no command.
    UnknownCommand(Word),
    /// The command wants more words than stand behind its name.
    MissingWords(CommandName),
    /// This word stands where the command wants a number, and is none of its range.
    BadNumber(CommandName, Word),
    /// This word stands where an option may, and is none that the command takes.
    UnknownOption(CommandName, Word),
    /// This option stands twice.
    OptionTwice(CommandOption),
    /// Nothing stands behind this option.
    MissingValue(CommandOption),
    /// This word stands behind the option, and is no number of its range.
    BadValue(CommandOption, Word),
}

impl CommandName {
    /// The command of this name; `None` where no command has it.
    pub fn named(name: &[u8]) -> Option<CommandName>
        ensures { result ≡ command_named name.now }
    {
        if is_word(name, b"run") {
            Some(CommandName::Run)
        } else if is_word(name, b"single") {
            Some(CommandName::Single)
        } else if is_word(name, b"analyse") {
            Some(CommandName::Analyse)
        } else if is_word(name, b"certify") {
            Some(CommandName::Certify)
        } else if is_word(name, b"list") {
            Some(CommandName::List)
        } else if is_word(name, b"load") {
            Some(CommandName::Load)
        } else if is_word(name, b"timed") {
            Some(CommandName::Timed)
        } else if is_word(name, b"change") {
            Some(CommandName::Change)
        } else if is_word(name, b"trace") {
            Some(CommandName::Trace)
        } else {
            None
        }
    }

    /// Whether the command takes this option.
    pub fn takes(self, option: CommandOption) -> bool
        ensures { result ≡ takes self option }
    {
        match option {
            CommandOption::Workers => match self {
                CommandName::Run | CommandName::Timed | CommandName::Change => true,
                _ => false,
            },
            CommandOption::Jobs => match self {
                CommandName::Run | CommandName::Timed | CommandName::Change => true,
                CommandName::Single | CommandName::Trace => true,
                _ => false,
            },
            CommandOption::Certificate => match self {
                CommandName::Run => true,
                _ => false,
            },
        }
    }
}

impl CommandOption {
    /// The option of this name; `None` where none has it.
    pub fn named(name: &[u8]) -> Option<CommandOption>
        ensures { result ≡ option_named name.now }
    {
        if is_word(name, b"--workers") {
            Some(CommandOption::Workers)
        } else if is_word(name, b"--jobs") {
            Some(CommandOption::Jobs)
        } else if is_word(name, b"--cert") {
            Some(CommandOption::Certificate)
        } else {
            None
        }
    }
}

/// Whether the bytes are those of this text.
fn is_word(word: &[u8], text: &[u8]) -> bool
    ensures { result ≡ bytes_eq word.now text.now }
{
    word == text
}
