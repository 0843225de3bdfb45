// What has a number is told by its name.
ghost use Rattle.std.specs.Prelude.{◌≡◌, ◌++◌, OnOk};
ghost use Rattle.report_text.specs.Names.{fault_word, name_of_held, name_of_point, placed};
ghost use Rattle.report_text.specs.Names.{record_name};

use exchange_model::{Exchange, FilePlace};
use job_types::{Fault, Held};
use plex_num::{Memory, Seq, add_number};

/// The word of a fault.
pub fn fault_word(fault: Fault) -> &'static [u8]
    ensures { result.now ≡ fault_word fault }
{
    match fault {
        Fault::Pointer => b"POINTER",
        Fault::Range => b"RANGE",
        Fault::Divide => b"DIVIDE",
        Fault::NotOwn => b"NOTOWN",
        Fault::NoForlopp => b"NOFORLOPP",
        Fault::Chain => b"CHAIN",
        Fault::BadEnd => b"BADEND",
        Fault::Depth => b"DEPTH",
        Fault::Sends => b"SENDS",
        Fault::Budget => b"BUDGET",
    }
}

/// `BLOCK:line` of a point.
pub fn add_point(text: &mut Seq<u8>, exchange: &Exchange, point: u32) -> Result<(), Memory>
    ensures { OnOk result (text.new ≡ text.old ++ name_of_point exchange.now point) }
{
    let Some(info) = exchange.points.get(point as usize) else {
        return Ok(());
    };
    text.append(exchange.block_name(info.block))?;
    add_number(text, b":", u64::from(info.line))
}

/// `BLOCK.FILE(r)` of a record of a file.
pub fn add_record_name(
    text: &mut Seq<u8>,
    exchange: &Exchange,
    place: &FilePlace<'_>,
    number: u32,
) -> Result<(), Memory>
    ensures { OnOk result
        (text.new ≡ text.old ++ record_name exchange.now.blocks (placed place.now) number) }
{
    text.append(exchange.block_name(place.block))?;
    text.append(b".")?;
    text.append(place.file.name.as_slice())?;
    add_number(text, b"(", u64::from(number))?;
    text.append(b")")
}

/// The same of a record that is held.
pub fn add_held_name(text: &mut Seq<u8>, exchange: &Exchange, held: Held) -> Result<(), Memory>
    ensures { OnOk result (text.new ≡ text.old ++ name_of_held exchange.now.blocks held) }
{
    let Some(place) = exchange.file(held.file) else {
        return Ok(());
    };
    add_record_name(text, exchange, &place, held.number)
}
