// The form of a line: what its words say, whatever their names mean.
ghost use Rattle.std.specs.Prelude.{◌≡◌, ◌<◌, ◌∷◌, length};
ghost use Rattle.plex_limits.specs.declared.limits.TheConstants.{MOST_VALUES};
ghost use Rattle.signal_file.specs.Form.{IsSaidOf, IsTailOf, KeepsOneMore, bare_ending, ending};
ghost use Rattle.signal_file.specs.Form.{same_ending};
ghost use Rattle.text_lines.specs.Words.{is_comment, is_skipped, words};

use crate::line::LineKind;
use plex_limits::MOST_VALUES;
use plex_num::{Values, read_number};
use text_lines::{is_word, next_word};

/// What a signal line says, with the names of its signal and its block. The first eight values are
/// kept, and all are counted.
#[derive(Drop)]
pub struct Said<'a> {
    pub after: u32,
    pub signal: &'a [u8],
    pub block: &'a [u8],
    pub values: Values,
    pub count: usize,
    pub kind: LineKind,
}

/// The values at the end of a line, of which the first eight are kept and all are counted, and
/// where the forlopp comes from.
#[derive(Drop)]
pub struct Tail {
    pub values: Values,
    pub count: usize,
    pub kind: LineKind,
}

/// What a line says; `None` where it is no signal line.
#[tactic(auto, unfolding(crate::specs::Form::said_in))]
pub fn said_of(line: &[u8]) -> Option<Said<'_>>
    ensures { IsSaidOf (words line.now) result }
{
    let Some((first, rest)) = next_word(line) else {
        return None;
    };
    let Some((count, rest)) = next_word(rest) else {
        return None;
    };
    let Some((signal, rest)) = next_word(rest) else {
        return None;
    };
    let Some((block, rest)) = next_word(rest) else {
        return None;
    };
    if !is_word(first, b"AFTER") {
        return None;
    }
    let Some(after) = read_number(count) else {
        return None;
    };
    let Some(tail) = tail_of(rest) else {
        return None;
    };
    Some(Said {
        after,
        signal,
        block,
        values: tail.values,
        count: tail.count,
        kind: tail.kind,
    })
}

/// The values, and the end of the line; `None` where a word before the end is no number, or there
/// is no end.
#[tactic(auto, using(crate::proofs::Tails::tail_read))]
pub fn tail_of(line: &[u8]) -> Option<Tail>
    ensures { IsTailOf (words line.now) result }
{
    let mut values = Values::new();
    let mut count = 0;
    let mut rest = line;
    while let Some((word, after)) = next_word(rest) {
        if let Some(kind) = ending(word, after) {
            return Some(Tail {
                values,
                count,
                kind,
            });
        }
        let Some(value) = read_number(word) else {
            return None;
        };
        keep(&mut values, count, value);
        count += 1;
        rest = after;
    }
    None
}

/// Keeps a value behind so many others, if there is room.
#[tactic(auto, using(crate::proofs::Tails::keep_pushed, crate::proofs::Tails::keep_full))]
fn keep(values: &mut Values, count: usize, value: u32)
    requires { count < MOST_VALUES → length values.old < MOST_VALUES }
    ensures { KeepsOneMore values.old count value values.new }
{
    if count < MOST_VALUES {
        values.push(value);
    }
}

/// What a word says that is the last of a line, or has the last behind it; `None` where it is no
/// end of a line.
fn ending(word: &[u8], after: &[u8]) -> Option<LineKind>
    ensures { result ≡ ending (word.now ∷ words after.now) }
{
    let Some((number, rest)) = next_word(after) else {
        return bare_ending(word);
    };
    match next_word(rest) {
        None => same_ending(word, number),
        Some(_) => None,
    }
}

/// `NEW` or `NONE`.
fn bare_ending(word: &[u8]) -> Option<LineKind>
    ensures { result ≡ bare_ending word.now }
{
    if is_word(word, b"NEW") {
        Some(LineKind::Fresh)
    } else if is_word(word, b"NONE") {
        Some(LineKind::Bare)
    } else {
        None
    }
}

/// `AS` and the number of a line.
fn same_ending(word: &[u8], number: &[u8]) -> Option<LineKind>
    ensures { result ≡ same_ending word.now number.now }
{
    if !is_word(word, b"AS") {
        return None;
    }
    match read_number(number) {
        Some(line) => Some(LineKind::Same { line }),
        None => None,
    }
}
