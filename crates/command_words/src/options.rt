// The options of a command, which stand behind its files and numbers.
ghost use Rattle.std.specs.Prelude.{◌≡◌, ◌≤◌, IfOk, IfSome};
ghost use Rattle.command_words.specs.Bounded.{AreWithin, AreWorkers, IsTold};
ghost use Rattle.command_words.specs.Words.{added, bounds_of, count_of, fault_of_bare, has_told};
ghost use Rattle.command_words.specs.Words.{nothing_told, once_told, open_option, options_of};
ghost use Rattle.command_words.specs.Words.{taken, told_with, workers_of};

use crate::command::{Bounds, USUAL_JOBS, USUAL_WORKERS};
use crate::fault::{CommandName, CommandOption, WordsFault};
use plex_io::Word;
use plex_limits::{MOST_JOBS, MOST_WORKERS};
use plex_num::{Memory, Seq, read_number};
use std::alloc::Global;

/// What options tell; `None` for each that does not stand among them.
#[derive(Drop)]
pub struct OptionValues {
    /// How many jobs may run at once.
    pub workers: Option<u32>,
    /// After how many jobs the run ends.
    pub jobs: Option<u32>,
    /// The name of the file with the certificate.
    pub certificate: Option<Word>,
}

impl OptionValues {
    /// Whether this option is told.
    fn has(&self, option: CommandOption) -> bool
        ensures { result ≡ has_told self.now option }
    {
        match option {
            CommandOption::Workers => self.workers.is_some(),
            CommandOption::Jobs => self.jobs.is_some(),
            CommandOption::Certificate => self.certificate.is_some(),
        }
    }

    /// The bounds of a run of this command: a command that takes no workers has one.
    pub fn bounds(&self, command: CommandName) -> Bounds
        requires { IsTold self.now }
        ensures is { result ≡ bounds_of command self.now }
        ensures within { AreWithin result }
    {
        Bounds {
            workers: self.workers_of(command),
            jobs: self.jobs.unwrap_or(USUAL_JOBS),
        }
    }

    /// How many jobs of a run of this command may run at once.
    fn workers_of(&self, command: CommandName) -> u32
        requires { IsTold self.now }
        ensures is { result ≡ workers_of command self.now }
        ensures within { AreWorkers result }
    {
        if command.takes(CommandOption::Workers) {
            self.workers.unwrap_or(USUAL_WORKERS)
        } else {
            1
        }
    }
}

/// What the words behind the files and numbers of this command tell, each of its options at most
/// once and with its value; or what is wrong with the first one that does not.
pub fn read_options(
    alloc: Global,
    command: CommandName,
    options: &[Word],
) -> Result<Result<OptionValues, WordsFault>, Memory>
    ensures told { IfOk result (λ told.
        told ≡ options_of command nothing_told options.now) }
    ensures range { IfOk result (λ told. IfOk told IsTold) }
{
    let mut told = OptionValues {
        workers: None,
        jobs: None,
        certificate: None,
    };
    let mut rest = options;
    while let Some((name, behind)) = rest.split_first() {
        let Some((value, more)) = behind.split_first() else {
            return Ok(Err(bare_option(alloc, command, &told, name)?));
        };
        match add_option(alloc, command, told, name, value)? {
            Ok(all) => told = all,
            Err(fault) => return Ok(Err(fault)),
        }
        rest = more;
    }
    Ok(Ok(told))
}

/// What is told once this option has this value too; or what is wrong with them.
fn add_option(
    alloc: Global,
    command: CommandName,
    told: OptionValues,
    name: &Word,
    value: &Word,
) -> Result<Result<OptionValues, WordsFault>, Memory>
    requires { IsTold told }
    ensures told { IfOk result (λ all.
        all ≡ added told value.now (open_option command told name.now)) }
    ensures range { IfOk result (λ all. IfOk all IsTold) }
{
    match open_option(alloc, command, &told, name)? {
        Ok(option) => match told_with(alloc, told, option, value)? {
            Some(all) => Ok(Ok(all)),
            None => {
                let value = Seq::copied(alloc, value.as_slice())?;
                Ok(Err(WordsFault::BadValue(option, value)))
            }
        },
        Err(fault) => Ok(Err(fault)),
    }
}

/// What is wrong with a word where an option may stand, and behind which nothing stands.
fn bare_option(
    alloc: Global,
    command: CommandName,
    told: &OptionValues,
    name: &Word,
) -> Result<WordsFault, Memory>
    ensures { IfOk result (λ fault.
        fault ≡ fault_of_bare (open_option command told.now name.now)) }
{
    match open_option(alloc, command, told, name)? {
        Ok(option) => Ok(WordsFault::MissingValue(option)),
        Err(fault) => Ok(fault),
    }
}

/// The option of this name, where the command takes it and it is not told yet; or what is wrong
/// with the word.
fn open_option(
    alloc: Global,
    command: CommandName,
    told: &OptionValues,
    name: &Word,
) -> Result<Result<CommandOption, WordsFault>, Memory>
    ensures { IfOk result (λ option. option ≡ open_option command told.now name.now) }
{
    match taken(command, CommandOption::named(name.as_slice())) {
        Some(option) => Ok(once_told(told, option)),
        None => {
            let name = Seq::copied(alloc, name.as_slice())?;
            Ok(Err(WordsFault::UnknownOption(command, name)))
        }
    }
}

/// The option, where the command takes it.
fn taken(command: CommandName, option: Option<CommandOption>) -> Option<CommandOption>
    ensures { result ≡ taken command option }
{
    let option = option?;
    if command.takes(option) {
        Some(option)
    } else {
        None
    }
}

/// The option, where it is not told yet.
fn once_told(told: &OptionValues, option: CommandOption) -> Result<CommandOption, WordsFault>
    ensures { result ≡ once_told told.now option }
{
    if told.has(option) {
        Err(WordsFault::OptionTwice(option))
    } else {
        Ok(option)
    }
}

/// What is told once this option has this value too; `None` where it may not have it.
fn told_with(
    alloc: Global,
    told: OptionValues,
    option: CommandOption,
    value: &Word,
) -> Result<Option<OptionValues>, Memory>
    requires { IsTold told }
    ensures told { IfOk result (λ all. all ≡ told_with told option value.now) }
    ensures range { IfOk result (λ all. IfSome all IsTold) }
{
    let OptionValues {
        workers,
        jobs,
        certificate,
    } = told;
    match option {
        CommandOption::Workers => match number_within(value, MOST_WORKERS as u32) {
            Some(number) => Ok(Some(OptionValues {
                workers: Some(number),
                jobs,
                certificate,
            })),
            None => Ok(None),
        },
        CommandOption::Jobs => match number_within(value, MOST_JOBS as u32) {
            Some(number) => Ok(Some(OptionValues {
                workers,
                jobs: Some(number),
                certificate,
            })),
            None => Ok(None),
        },
        CommandOption::Certificate => Ok(Some(OptionValues {
            workers,
            jobs,
            certificate: Some(Seq::copied(alloc, value.as_slice())?),
        })),
    }
}

/// The number that the word is, from 1 up to the most; `None` where it is none of these.
pub fn number_within(word: &Word, most: u32) -> Option<u32>
    ensures is { result ≡ count_of most word.now }
    ensures some { IfSome result (λ n. 1 ≤ n) }
    ensures few { IfSome result (λ n. n ≤ most) }
{
    let number = read_number(word.as_slice())?;
    if 1 <= number && number <= most {
        Some(number)
    } else {
        None
    }
}
