// The text of a signal file with certain lines.
ghost use Rattle.std.specs.Prelude.{◌≡◌, ◌++◌, IfOk, OnOk};
ghost use Rattle.job_table.specs.Writing.{ending_words, line_words, value_words, written_out};

use exchange_model::Exchange;
use plex_num::{Memory, Seq, add_number};
use signal_file::{Line, LineKind};
use std::alloc::Global;

/// The text of the signal file that has these lines and no others, each with the names of its
/// signal and its block. Their numbers are not written: a line has the number of its place.
pub fn write_out(alloc: Global, exchange: &Exchange, lines: &Seq<Line>) -> Result<Seq<u8>, Memory>
    ensures { IfOk result (λ text. text ≡ written_out exchange.now lines.now) }
{
    let mut text = Seq::new(alloc);
    for line in lines.as_slice() {
        add_line(&mut text, exchange, line)?;
        text.append(b"\n")?;
    }
    Ok(text)
}

/// A line, without its end.
fn add_line(text: &mut Seq<u8>, exchange: &Exchange, line: &Line) -> Result<(), Memory>
    ensures { OnOk result (text.new ≡ text.old ++ line_words exchange.now line.now) }
{
    add_number(text, b"AFTER ", u64::from(line.after))?;
    text.append(b" ")?;
    exchange.add_entry(text, line.entry as usize)?;
    add_values(text, line.values.as_slice())?;
    add_ending(text, line.kind)
}

/// ` v` for each value.
fn add_values(text: &mut Seq<u8>, values: &[u32]) -> Result<(), Memory>
    ensures { OnOk result (text.new ≡ text.old ++ value_words values.now) }
{
    for value in values {
        add_number(text, b" ", u64::from(*value))?;
    }
    Ok(())
}

/// ` NEW`, ` NONE`, or ` AS i`.
fn add_ending(text: &mut Seq<u8>, kind: LineKind) -> Result<(), Memory>
    ensures { OnOk result (text.new ≡ text.old ++ ending_words kind) }
{
    match kind {
        LineKind::Fresh => text.append(b" NEW"),
        LineKind::Bare => text.append(b" NONE"),
        LineKind::Same { line } => add_number(text, b" AS ", u64::from(line)),
    }
}
