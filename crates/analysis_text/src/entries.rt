// The lines of the entries.
ghost use Rattle.std.specs.Prelude.{◌≡◌, ◌+◌, ◌<◌, ◌++◌, IfOk, OnOk, Some, length, map, slice_get};
ghost use Rattle.std.specs.List.{concat};
ghost use Rattle.entry_summary.specs.declared.summary.Summary.{Summary};
ghost use Rattle.analysis_text.specs.Bodies.{AreBodies, HasBody, body_text};
ghost use Rattle.analysis_text.specs.Lines.{access_line, entries_text, entry_line, fault_text};
ghost use Rattle.analysis_text.specs.Lines.{send_line, summary_text, text_of, use_word, written};

use crate::names::{Names, add_value, level_word, name_at};
use entry_summary::{Access, Summary};
use exchange_model::Exchange;
use kept_summaries::Summaries;
use plex_num::{Level, Memory, Seq, add_number};
use std::alloc::Global;
use text_parts::Parts;

/// What the jobs of each entry may do. What is told of entries with equal summaries, behind the
/// lines that name them, is kept once.
pub fn add_entries(
    parts: &mut Parts,
    alloc: Global,
    exchange: &Exchange,
    names: &Names,
    summaries: &Summaries,
) -> Result<(), Memory>
    ensures { OnOk result (concat parts.new
        ≡ concat parts.old ++ entries_text exchange.now names.now summaries.now) }
{
    let mut places = Seq::new(alloc);
    for number in 0..summaries.len() {
        add_entry(
            parts,
            &mut places,
            alloc,
            exchange,
            names,
            summaries,
            number,
        )?;
    }
    Ok(())
}

/// What the jobs of an entry may do, where that of those before it stands at these places.
fn add_entry(
    parts: &mut Parts,
    places: &mut Seq<usize>,
    alloc: Global,
    exchange: &Exchange,
    names: &Names,
    summaries: &Summaries,
    number: usize,
) -> Result<(), Memory>
    requires number { number < length summaries.now }
    requires bodies { AreBodies names.now summaries.now number parts.old places.old }
    ensures bodies { OnOk result
        (AreBodies names.now summaries.now (number + 1) parts.new places.new) }
    ensures text { OnOk result ((s : Summary) → slice_get summaries.now number ≡ Some s
        → concat parts.new ≡ concat parts.old ++ summary_text exchange.now names.now number s) }
{
    let head = head_of(alloc, exchange, number, summaries.at(number).level)?;
    parts.add(head)?;
    let place = add_body(parts, places.as_slice(), alloc, names, summaries, number)?;
    places.push(place)?;
    Ok(())
}

/// What is told of an entry behind the line that names it. Its place among the parts is given back.
fn add_body(
    parts: &mut Parts,
    places: &[usize],
    alloc: Global,
    names: &Names,
    summaries: &Summaries,
    number: usize,
) -> Result<usize, Memory>
    requires number { number < length summaries.now }
    requires bodies { AreBodies names.now summaries.now number parts.old places.now }
    ensures { IfOk result (λ place. (s : Summary) → slice_get summaries.now number ≡ Some s
        → HasBody names.now s parts.old parts.new place) }
{
    let like = summaries.first_like(number);
    if let Some(place) = place_of_body(places, like) {
        parts.again(place)?;
        return Ok(place);
    }
    let body = body_of(alloc, names, summaries.at(number))?;
    let place = parts.len();
    parts.add(body)?;
    Ok(place)
}

/// Where what is told of the entry of a number stands, if it is told.
fn place_of_body(places: &[usize], number: usize) -> Option<usize>
    ensures { result ≡ slice_get places.now number }
{
    places.get(number).copied()
}

fn body_of(alloc: Global, names: &Names, summary: &Summary) -> Result<Seq<u8>, Memory>
    ensures { IfOk result (λ text. text ≡ body_text names.now summary.now) }
{
    let mut text = Seq::new(alloc);
    add_accesses(&mut text, names, summary.accesses.as_slice())?;
    add_levels(&mut text, summary.levels.as_slice())?;
    add_fault(&mut text, summary.fault)?;
    Ok(text)
}

/// `ENTRY i SIG BLOCK LEVEL l`.
fn head_of(
    alloc: Global,
    exchange: &Exchange,
    number: usize,
    level: Level,
) -> Result<Seq<u8>, Memory>
    ensures { IfOk result (λ text. text ≡ written (entry_line exchange.now number level)) }
{
    let mut text = Seq::new(alloc);
    add_number(&mut text, b"ENTRY ", number as u64)?;
    text.append(b" ")?;
    exchange.add_entry(&mut text, number)?;
    text.append(b" LEVEL ")?;
    text.append(level_word(level))?;
    text.append(b"\n")?;
    Ok(text)
}

fn add_accesses(text: &mut Seq<u8>, names: &Names, accesses: &[Access]) -> Result<(), Memory>
    ensures { OnOk result
        (text.new ≡ text.old ++ text_of (map (access_line names.now) accesses.now)) }
{
    for access in accesses {
        add_access(text, names, *access)?;
        text.append(b"\n")?;
    }
    Ok(())
}

/// The line of an access, without its end.
fn add_access(text: &mut Seq<u8>, names: &Names, access: Access) -> Result<(), Memory>
    ensures { OnOk result (text.new ≡ text.old ++ access_line names.now access) }
{
    match access {
        Access::Variable { write, number } => {
            text.append(use_word(write))?;
            text.append(b"VAR ")?;
            text.append(name_at(&names.variables, number))
        }
        Access::Field {
            write,
            number,
            selector,
        } => {
            text.append(use_word(write))?;
            text.append(b"FIELD ")?;
            text.append(name_at(&names.fields, number))?;
            text.append(b" ")?;
            add_value(text, selector)
        }
        Access::Own { write, number } => {
            text.append(use_word(write))?;
            text.append(b"OWN ")?;
            text.append(name_at(&names.fields, number))
        }
        Access::Seizes { file } => {
            text.append(b"SEIZE ")?;
            text.append(name_at(&names.files, file))
        }
        Access::Frees { file } => {
            text.append(b"FREE ")?;
            text.append(name_at(&names.files, file))
        }
    }
}

fn use_word(write: bool) -> &'static [u8]
    ensures { result.now ≡ use_word write }
{
    if write { b"WRITE " } else { b"READ " }
}

fn add_levels(text: &mut Seq<u8>, levels: &[Level]) -> Result<(), Memory>
    ensures { OnOk result (text.new ≡ text.old ++ text_of (map send_line levels.now)) }
{
    for level in levels {
        add_send(text, *level)?;
    }
    Ok(())
}

/// `SEND l`.
fn add_send(text: &mut Seq<u8>, level: Level) -> Result<(), Memory>
    ensures { OnOk result (text.new ≡ text.old ++ written (send_line level)) }
{
    text.append(b"SEND ")?;
    text.append(level_word(level))?;
    text.append(b"\n")
}

fn add_fault(text: &mut Seq<u8>, fault: bool) -> Result<(), Memory>
    ensures { OnOk result (text.new ≡ text.old ++ fault_text fault) }
{
    if fault {
        text.append(b"FAULT\n")
    } else {
        Ok(())
    }
}
