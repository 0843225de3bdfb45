// What a line means in an exchange, or its first fault.
ghost use Rattle.std.specs.Prelude.{◌≡◌, ◌<◌, ◌^◌, length};
ghost use Rattle.signal_file.specs.Form.{IsRead, Saying};
ghost use Rattle.signal_file.specs.Rules.{added, breach, meaning, rule_broken, tests};

use crate::before::Before;
use crate::directory::{Known, Signal};
use crate::fault::{SignalsFault, SignalsRule};
use crate::form::{Said, said_of};
use crate::line::Line;
use text_lines::is_skipped;

/// What a line adds behind those before, `None` where it is skipped; or its first fault.
#[tactic(auto, unfolding(crate::specs::Rules::added))]
pub fn added(known: &Known<'_>, before: &Before, line: &[u8]) -> Result<Option<Line>, SignalsFault>
    requires { length before.now.origins < 2 ^ 24 }
    ensures { result ≡ added known.now.exchange.now before.now line.now }
{
    if is_skipped(line) {
        return Ok(None);
    }
    let Some(said) = said_of(line) else {
        return Err(breach(before.next_number(), SignalsRule::BadLine));
    };
    match meaning(known, before, &said) {
        Ok(line) => Ok(Some(line)),
        Err(fault) => Err(fault),
    }
}

/// What a signal line means, or its first fault.
#[tactic(auto, using(crate::proofs::Meant::line_meant))]
fn meaning(known: &Known<'_>, before: &Before, said: &Said<'_>) -> Result<Line, SignalsFault>
    requires { length before.now.origins < 2 ^ 24 }
    ensures { (s : Saying) → IsRead s said.now
        → result ≡ meaning known.now.exchange.now before.now s }
{
    let line = before.next_number();
    let Some(signal) = known.signal_of(said.signal) else {
        return Err(breach(line, SignalsRule::UnknownSignal));
    };
    let Some(entry) = known.entry_of(signal.number, said.block) else {
        return Err(breach(line, SignalsRule::UnknownBlock));
    };
    if let Some(rule) = rule_broken(before, said, signal) {
        return Err(breach(line, rule));
    }
    Ok(Line {
        number: line,
        after: said.after,
        entry,
        values: said.values.copy(),
        kind: said.kind,
    })
}

/// The first rule that a line of this signal breaks, `None` where it keeps them all.
fn rule_broken(before: &Before, said: &Said<'_>, signal: Signal) -> Option<SignalsRule>
    ensures { result ≡ rule_broken
        (tests before.now signal said.now.after said.now.count said.now.kind) }
{
    if said.count != usize::from(signal.count) {
        return Some(SignalsRule::WrongData);
    }
    if said.after < before.last {
        return Some(SignalsRule::FallingCount);
    }
    if !before.has_origin(said.kind) {
        return Some(SignalsRule::BadAs);
    }
    None
}

/// The fault of a line that breaks this rule.
fn breach(line: u32, rule: SignalsRule) -> SignalsFault
    ensures { result ≡ breach rule line }
{
    SignalsFault { line, rule }
}
