// The AT and CLASH lines.
ghost use Rattle.std.specs.Prelude.{◌≡◌, ◌<◌, ◌++◌, nat_lt, Some, flat_map, length, slice_get};
ghost use Rattle.std.specs.Prelude.{IfOk, OnOk};
ghost use Rattle.std.specs.Fmt.{decimal};
ghost use Rattle.conflicts_meaning.specs.Lines.{clash_text, later_words, limit_line};
ghost use Rattle.conflicts_meaning.specs.Lines.{line_at as line_of_point, point_text};
ghost use Rattle.conflicts_text.specs.Fits.{TextWithin};

use conflicts_meaning::{Clash, ClashRow, EntryPair, GivenAt};
use exchange_model::Exchange;
use plex_num::{Memory, Seq, add_number};
use std::alloc::Global;

/// The AT lines of an entry; `None` if they take more than `room` bytes.
pub(crate) fn point_lines(
    alloc: Global,
    exchange: &Exchange,
    entry: usize,
    rows: &[GivenAt],
    room: usize,
) -> Result<Option<Seq<u8>>, Memory>
    ensures { IfOk result (TextWithin
        (λ text. text ≡ flat_map (point_text exchange.now entry) rows.now)
        (λ text. text ≡ flat_map (point_text exchange.now entry) rows.now) room) }
{
    let mut text = Seq::new(alloc);
    for place in 0..rows.len() {
        let row = row_at(rows, place);
        add_point(&mut text, exchange, entry, &row)?;
        if room < text.len() {
            return Ok(None);
        }
    }
    Ok(Some(text))
}

/// `AT e k POINT p LINE n`.
fn add_point(
    text: &mut Seq<u8>,
    exchange: &Exchange,
    entry: usize,
    row: &GivenAt,
) -> Result<(), Memory>
    ensures { OnOk result (text.new ≡ text.old ++ point_text exchange.now entry row.now) }
{
    add_number(text, b"AT ", entry as u64)?;
    add_number(text, b" ", row.number as u64)?;
    add_short(text, b" POINT ", row.point)?;
    add_short(text, b" LINE ", line_at(exchange, row.point))?;
    text.append(b"\n")?;
    Ok(())
}

/// Appends a text, then a number of 32 bits.
fn add_short(text: &mut Seq<u8>, before: &[u8], number: u32) -> Result<(), Memory>
    ensures { OnOk result (text.new ≡ text.old ++ before.now ++ decimal number) }
{
    add_number(text, before, u64::from(number))
}

/// The source line on which the statement at a point begins; 0 if there is none.
fn line_at(exchange: &Exchange, point: u32) -> u32
    ensures { result ≡ line_of_point exchange.now point }
{
    match exchange.points.get(point as usize) {
        Some(info) => info.line,
        None => 0,
    }
}

/// Whether the AT lines of these points take more than `room` bytes.
pub(crate) fn points_outgrow(
    alloc: Global,
    exchange: &Exchange,
    entry: usize,
    rows: &[GivenAt],
    room: usize,
) -> Result<bool, Memory>
    ensures { IfOk result (λ over. over ≡
        nat_lt room (length (flat_map (point_text exchange.now entry) rows.now))) }
{
    let mut left = room;
    for place in 0..rows.len() {
        let size = point_size(alloc, exchange, entry, row_at(rows, place))?;
        if left < size {
            return Ok(true);
        }
        left -= size;
    }
    Ok(false)
}

/// The length of an AT line in bytes.
fn point_size(
    alloc: Global,
    exchange: &Exchange,
    entry: usize,
    row: GivenAt,
) -> Result<usize, Memory>
    ensures { IfOk result (λ size. size ≡ length (point_text exchange.now entry row)) }
{
    let mut line = Seq::new(alloc);
    add_point(&mut line, exchange, entry, &row)?;
    Ok(line.len())
}

/// The row of a point, by its index.
fn row_at(rows: &[GivenAt], place: usize) -> GivenAt
    requires { place < length rows.now }
    ensures { slice_get rows.now place ≡ Some result }
{
    rows[place]
}

/// The CLASH lines of a pair; `None` if they take more than `room` bytes.
pub(crate) fn clash_lines(
    alloc: Global,
    pair: EntryPair,
    rows: &[ClashRow],
    room: usize,
) -> Result<Option<Seq<u8>>, Memory>
    ensures { IfOk result (TextWithin (λ text. text ≡ flat_map (clash_text pair) rows.now)
        (λ text. text ≡ flat_map (clash_text pair) rows.now) room) }
{
    let mut text = Seq::new(alloc);
    for place in 0..rows.len() {
        let row = clash_at(rows, place);
        add_clash(&mut text, pair, &row)?;
        if room < text.len() {
            return Ok(None);
        }
    }
    Ok(Some(text))
}

/// The row of a conflict, by its index.
fn clash_at(rows: &[ClashRow], place: usize) -> ClashRow
    requires { place < length rows.now }
    ensures { slice_get rows.now place ≡ Some result }
{
    rows[place]
}

/// `CLASH i j k l`, or `CLASH i j k` for a level.
fn add_clash(text: &mut Seq<u8>, pair: EntryPair, row: &ClashRow) -> Result<(), Memory>
    ensures { OnOk result (text.new ≡ text.old ++ clash_text pair row.now) }
{
    add_number(text, b"CLASH ", pair.first as u64)?;
    add_number(text, b" ", pair.later as u64)?;
    add_number(text, b" ", row.first as u64)?;
    add_later(text, row.clash, row.later)?;
    text.append(b"\n")?;
    Ok(())
}

fn add_later(text: &mut Seq<u8>, clash: Clash, later: usize) -> Result<(), Memory>
    ensures { OnOk result (text.new ≡ text.old ++ later_words clash later) }
{
    match clash {
        Clash::Above { .. } => text.append(b""),
        Clash::Variable { .. } => add_number(text, b" ", later as u64),
        Clash::Field { .. } => add_number(text, b" ", later as u64),
        Clash::Seizing { .. } => add_number(text, b" ", later as u64),
    }
}

/// The LIMIT line: the text would exceed this many bytes.
pub(crate) fn limit_text(alloc: Global, most: usize) -> Result<Seq<u8>, Memory>
    ensures { IfOk result (λ text. text ≡ limit_line most) }
{
    let mut text = Seq::new(alloc);
    add_number(&mut text, b"LIMIT ", most as u64)?;
    text.append(b"\n")?;
    Ok(text)
}
