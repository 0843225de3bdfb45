// What a line of a table means in an exchange, or its first fault.
ghost use Rattle.std.specs.Prelude.{◌≡◌, ◌+◌, ◌<◌, ◌^◌};
ghost use Rattle.job_table.specs.Form.{IsRead, Saying};
ghost use Rattle.signal_file.specs.Rules.{rule_broken};
ghost use Rattle.job_table.specs.Rules.{added, behind, breach, is_in_range, last_count, meaning};
ghost use Rattle.job_table.specs.Rules.{tests};

use crate::fault::{TableFault, TableRule};
use crate::form::{Said, said_of};
use crate::period::{MOST_LINES, Period};
use signal_file::{Known, Signal};
use text_lines::is_skipped;

/// What counts of the lines before a line: how many lines of the table there are, and how many
/// signals in the signal file and in these lines.
#[derive(Clone, Copy)]
pub struct Before {
    pub lines: u32,
    pub signals: u64,
}

impl Before {
    /// What counts of the lines up to the one that adds this.
    pub fn with(self, added: &Option<Period>) -> Before
        requires lines { self.lines < 2 ^ 24 }
        requires signals { self.signals < 2 ^ 32 }
        ensures { result ≡ behind self added.now }
    {
        let more = match added {
            Some(period) => u64::from(period.times),
            None => 0,
        };
        Before {
            lines: self.lines + 1,
            signals: self.signals + more,
        }
    }
}

/// What a line adds behind those before, `None` where it is skipped; or its first fault.
#[tactic(auto, unfolding(crate::specs::Rules::added))]
pub fn added(known: &Known<'_>, before: Before, line: &[u8]) -> Result<Option<Period>, TableFault>
    requires lines { before.lines < 2 ^ 24 }
    requires signals { before.signals < 2 ^ 32 }
    ensures { result ≡ added known.now.exchange.now before line.now }
{
    if is_skipped(line) {
        return Ok(None);
    }
    let Some(said) = said_of(line) else {
        return Err(breach(before.lines + 1, TableRule::BadLine));
    };
    match meaning(known, before, &said) {
        Ok(period) => Ok(Some(period)),
        Err(fault) => Err(fault),
    }
}

/// What a line of the form means, or its first fault.
#[tactic(auto, using(crate::proofs::Meant::line_meant))]
fn meaning(known: &Known<'_>, before: Before, said: &Said<'_>) -> Result<Period, TableFault>
    requires lines { before.lines < 2 ^ 24 }
    requires signals { before.signals < 2 ^ 32 }
    ensures { (s : Saying) → IsRead s said.now → result ≡ meaning known.now.exchange.now before s }
{
    let line = before.lines + 1;
    let Some(signal) = known.signal_of(said.signal) else {
        return Err(breach(line, TableRule::UnknownSignal));
    };
    let Some(entry) = known.entry_of(signal.number, said.block) else {
        return Err(breach(line, TableRule::UnknownBlock));
    };
    if let Some(rule) = rule_broken(before, said, signal) {
        return Err(breach(line, rule));
    }
    Ok(Period {
        number: line,
        every: said.every,
        from: said.from,
        times: said.times,
        entry,
        values: said.values.copy(),
        fresh: said.fresh,
    })
}

/// The first rule that a line of this signal breaks, `None` where it keeps them all.
fn rule_broken(before: Before, said: &Said<'_>, signal: Signal) -> Option<TableRule>
    requires { before.signals < 2 ^ 32 }
    ensures { result ≡ rule_broken
        (tests before signal said.now.count said.now.every said.now.from said.now.times) }
{
    if said.count != usize::from(signal.count) {
        return Some(TableRule::WrongData);
    }
    if !is_in_range(said.every, said.from, said.times) {
        return Some(TableRule::BadRange);
    }
    if before.signals + u64::from(said.times) > MOST_LINES {
        return Some(TableRule::TooMany);
    }
    None
}

/// The fault of a line that breaks this rule.
fn breach(line: u32, rule: TableRule) -> TableFault
    ensures { result ≡ breach rule line }
{
    TableFault { line, rule }
}

/// Whether a signal that comes so often has counts that rise and are all below 2^32.
fn is_in_range(every: u32, from: u32, times: u32) -> bool
    ensures { result ≡ is_in_range every from times }
{
    every > 0 && times > 0 && last_count(every, from, times) < 4_294_967_296
}

/// The count of the last of these signals.
#[tactic(auto, using(crate::proofs::Ranges::product_small))]
fn last_count(every: u32, from: u32, times: u32) -> u64
    requires { 0 < times }
    ensures { result ≡ last_count every from times }
{
    u64::from(from) + u64::from(every) * u64::from(times - 1)
}
