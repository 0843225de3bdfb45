// What a line shows in an exchange, or its first fault.
ghost use Rattle.std.specs.Prelude.{◌≡◌, ◌≤◌, length};
ghost use Rattle.plex_limits.specs.declared.limits.TheConstants.{MOST_SIGNALS};
ghost use Rattle.signal_trace.specs.Filter.{added, breach, meaning, sought};
ghost use Rattle.signal_trace.specs.Form.{asking_of, named};

use crate::fault::{FilterFault, FilterRule};
use crate::form::{Asked, asked_of};
use crate::show::Show;
use signal_file::{Known, Names};
use text_lines::is_skipped;

/// What a line of this number shows, `None` where it is skipped; or its first fault.
#[tactic(auto, unfolding(crate::specs::Filter::added))]
pub fn added(known: &Known<'_>, number: u32, line: &[u8]) -> Result<Option<Show>, FilterFault>
    ensures { result ≡ added known.now.names.now number line.now }
{
    if is_skipped(line) {
        return Ok(None);
    }
    let Some(asked) = asked_of(line) else {
        return Err(breach(number, FilterRule::BadLine));
    };
    match meaning(known, number, &asked) {
        Ok(show) => Ok(Some(show)),
        Err(fault) => Err(fault),
    }
}

/// What a line of this number shows that asks for this, or its first fault.
#[tactic(auto, unfolding(crate::specs::Filter::meaning))]
fn meaning(known: &Known<'_>, number: u32, asked: &Asked<'_>) -> Result<Show, FilterFault>
    ensures { result ≡ meaning known.now.names.now number (asking_of asked.now) }
{
    let Some(block) = sought(&known.names.blocks, asked.block) else {
        return Err(breach(number, FilterRule::UnknownBlock));
    };
    let Some(signal) = sought(&known.names.signals, asked.signal) else {
        return Err(breach(number, FilterRule::UnknownSignal));
    };
    Ok(Show {
        block,
        signal,
        forlopp: asked.forlopp,
        from: asked.from,
        upto: asked.upto,
        faults: asked.faults,
    })
}

/// The fault of a line that breaks this rule.
fn breach(line: u32, rule: FilterRule) -> FilterFault
    ensures { result ≡ breach rule line }
{
    FilterFault { line, rule }
}

/// The number of what has this name, if one is asked for; `None` where nothing has it.
fn sought(names: &Names, name: Option<&[u8]>) -> Option<Option<u32>>
    requires { length names.now ≤ MOST_SIGNALS }
    ensures { result ≡ sought names.now (named name.entry) }
{
    let Some(name) = name else {
        return Some(None);
    };
    match names.place(name) {
        Some(place) => Some(Some(place as u32)),
        None => None,
    }
}
