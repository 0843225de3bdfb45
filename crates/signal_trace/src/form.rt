// The form of a line: what its words ask for, whatever their names mean.
ghost use Rattle.std.specs.Prelude.{◌≡◌, ◌∷◌, [], None, Some, MatchOption};
ghost use Rattle.std.specs.Option.{option_map};
ghost use Rattle.plex_num.specs.Number.{number_of};
ghost use Rattle.text_lines.specs.Words.{words};
ghost use Rattle.signal_trace.specs.Form.{asked_in, asking_of, ending, named, part};

use plex_num::read_number;
use text_lines::{is_word, next_word};

/// What a line asks for, with the names of its block and its signal.
#[derive(Drop)]
pub struct Asked<'a> {
    pub block: Option<&'a [u8]>,
    pub signal: Option<&'a [u8]>,
    pub forlopp: Option<u64>,
    pub from: Option<u64>,
    pub upto: Option<u64>,
    pub faults: bool,
}

/// A name that may be left out, and what stands behind it.
#[derive(Drop)]
pub struct NamePart<'a> {
    pub name: Option<&'a [u8]>,
    pub rest: &'a [u8],
}

/// A number that may be left out, and what stands behind it.
#[derive(Drop)]
pub struct NumberPart<'a> {
    pub number: Option<u64>,
    pub rest: &'a [u8],
}

/// What a line asks for; `None` where it is no line of a filter.
#[tactic(auto, unfolding(crate::specs::Form::asked_in))]
pub fn asked_of(line: &[u8]) -> Option<Asked<'_>>
    ensures { option_map asking_of result ≡ asked_in (words line.now) }
{
    let Some((first, rest)) = next_word(line) else {
        return None;
    };
    if !is_word(first, b"SHOW") {
        return None;
    }
    let block = name_part(rest, b"BLOCK")?;
    let signal = name_part(block.rest, b"SIGNAL")?;
    let forlopp = number_part(signal.rest, b"FORLOPP")?;
    let from = number_part(forlopp.rest, b"FROM")?;
    let upto = number_part(from.rest, b"UPTO")?;
    let faults = faults_part(upto.rest)?;
    Some(Asked {
        block: block.name,
        signal: signal.name,
        forlopp: forlopp.number,
        from: from.number,
        upto: upto.number,
        faults,
    })
}

/// The name behind this word, where a line goes on with it; `None` where nothing stands behind the
/// word.
fn name_part<'a>(line: &'a [u8], word: &[u8]) -> Option<NamePart<'a>>
    ensures { MatchOption result
        (part word.now Some (words line.now) ≡ None)
        (λ p. part word.now Some (words line.now) ≡ Some (named p.name, words p.rest.now)) }
{
    let Some((first, after)) = next_word(line) else {
        return Some(NamePart {
            name: None,
            rest: line,
        });
    };
    if !is_word(first, word) {
        return Some(NamePart {
            name: None,
            rest: line,
        });
    }
    match next_word(after) {
        Some((name, rest)) => Some(NamePart {
            name: Some(name),
            rest,
        }),
        None => None,
    }
}

/// The number behind this word, where a line goes on with it; `None` where no number stands behind
/// the word.
fn number_part<'a>(line: &'a [u8], word: &[u8]) -> Option<NumberPart<'a>>
    ensures { MatchOption result
        (part word.now number_of (words line.now) ≡ None)
        (λ p. part word.now number_of (words line.now) ≡ Some (p.number, words p.rest.now)) }
{
    let Some((first, after)) = next_word(line) else {
        return Some(NumberPart {
            number: None,
            rest: line,
        });
    };
    if !is_word(first, word) {
        return Some(NumberPart {
            number: None,
            rest: line,
        });
    }
    let Some((digits, rest)) = next_word(after) else {
        return None;
    };
    match read_number(digits) {
        Some(number) => Some(NumberPart {
            number: Some(u64::from(number)),
            rest,
        }),
        None => None,
    }
}

/// Whether a line ends with `FAULTS`; `None` where it ends in another way than this or with
/// nothing.
fn faults_part(line: &[u8]) -> Option<bool>
    ensures { result ≡ ending (words line.now) }
{
    let Some((first, rest)) = next_word(line) else {
        return Some(false);
    };
    match next_word(rest) {
        Some(_) => None,
        None => only_faults(first),
    }
}

/// Whether the last word of a line is `FAULTS`; `None` where it is another one.
fn only_faults(word: &[u8]) -> Option<bool>
    ensures { result ≡ ending (word.now ∷ []) }
{
    if is_word(word, b"FAULTS") {
        Some(true)
    } else {
        None
    }
}
