// The form of a line of a table: what its words say, whatever their names mean.
ghost use Rattle.std.specs.Prelude.{◌≡◌, MatchOption, None, Some};
ghost use Rattle.text_lines.specs.Words.{words};
ghost use Rattle.job_table.specs.Form.{IsSaid, fresh_of, numbered, said_in};

use plex_num::{Values, read_number};
use signal_file::{LineKind, tail_of};
use text_lines::{is_word, next_word};

/// What a line of a table says, with the names of its signal and its block. The first eight values
/// are kept, and all are counted.
#[derive(Drop)]
pub struct Said<'a> {
    pub every: u32,
    pub from: u32,
    pub times: u32,
    pub signal: &'a [u8],
    pub block: &'a [u8],
    pub values: Values,
    pub count: usize,
    pub fresh: bool,
}

/// What a line says; `None` where it is no line of a table.
#[tactic(auto, unfolding(crate::specs::Form::said_in))]
pub fn said_of(line: &[u8]) -> Option<Said<'_>>
    ensures { MatchOption result
        (said_in (words line.now) ≡ None)
        (λ said. IsSaid (said_in (words line.now)) said) }
{
    let Some((every, rest)) = numbered(line, b"EVERY") else {
        return None;
    };
    let Some((from, rest)) = numbered(rest, b"FROM") else {
        return None;
    };
    let Some((times, rest)) = numbered(rest, b"TIMES") else {
        return None;
    };
    let Some((signal, rest)) = next_word(rest) else {
        return None;
    };
    let Some((block, rest)) = next_word(rest) else {
        return None;
    };
    let Some(tail) = tail_of(rest) else {
        return None;
    };
    let Some(fresh) = fresh_of(tail.kind) else {
        return None;
    };
    Some(Said {
        every,
        from,
        times,
        signal,
        block,
        values: tail.values,
        count: tail.count,
        fresh,
    })
}

/// The number behind this word at the front of a line, and what stands after it.
fn numbered<'a>(line: &'a [u8], word: &[u8]) -> Option<(u32, &'a [u8])>
    ensures { MatchOption result
        (numbered word.now (words line.now) ≡ None)
        (λ p. numbered word.now (words line.now) ≡ Some (record {
          number = p.0;
          rest = words p.1.now;
        })) }
{
    let Some((first, rest)) = next_word(line) else {
        return None;
    };
    let Some((number, rest)) = next_word(rest) else {
        return None;
    };
    if !is_word(first, word) {
        return None;
    }
    match read_number(number) {
        Some(number) => Some((number, rest)),
        None => None,
    }
}

/// Whether a line that ends so draws a forlopp; `None` where no line of a table ends so.
fn fresh_of(kind: LineKind) -> Option<bool>
    ensures { result ≡ fresh_of kind }
{
    match kind {
        LineKind::Fresh => Some(true),
        LineKind::Bare => Some(false),
        LineKind::Same { .. } => None,
    }
}
