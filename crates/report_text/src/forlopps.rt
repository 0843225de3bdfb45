// The lines of the records that forlopps hold.
ghost use Rattle.std.specs.Prelude.{◌≡◌, ◌++◌, OnOk, map};
ghost use Rattle.report_text.specs.Report.{held_line, held_lines, text_of, written};

use crate::names::add_held_name;
use exchange_model::Exchange;
use forlopp_chain::Chains;
use job_types::Held;
use plex_num::{Memory, add_number};
use text_parts::Text;

/// The line of each record that a forlopp holds, by the numbers of the forlopps.
pub fn add_holders(text: &mut Text, exchange: &Exchange, chains: &Chains) -> Result<(), Memory>
    ensures { OnOk result
        (text.new ≡ text.old ++ text_of (held_lines exchange.now.blocks chains.now.chains)) }
{
    let numbers = chains.numbers()?;
    for number in numbers.as_slice() {
        add_chain(text, exchange, *number, chains.chain(*number))?;
    }
    Ok(())
}

/// The line of each record of a chain.
fn add_chain(
    text: &mut Text,
    exchange: &Exchange,
    forlopp: u64,
    chain: &[Held],
) -> Result<(), Memory>
    ensures { OnOk result (text.new
        ≡ text.old ++ text_of (map (held_line exchange.now.blocks forlopp) chain.now)) }
{
    for held in chain {
        add_held(text, exchange, forlopp, *held)?;
    }
    Ok(())
}

/// `HELD Fn BLOCK.FILE(r)`.
fn add_held(text: &mut Text, exchange: &Exchange, forlopp: u64, held: Held) -> Result<(), Memory>
    ensures { OnOk result
        (text.new ≡ text.old ++ written (held_line exchange.now.blocks forlopp held)) }
{
    let mut end = text.take_end();
    add_number(&mut end, b"HELD F", forlopp)?;
    end.append(b" ")?;
    add_held_name(&mut end, exchange, held)?;
    end.append(b"\n")?;
    text.put(end)?;
    Ok(())
}
