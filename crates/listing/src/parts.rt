// Lines and words, from the front of a text.
ghost use Rattle.std.specs.Prelude.{◌≡◌, ◌++◌, [], MatchOption, None, Some, if◌then◌else◌};
ghost use Rattle.plex_num.specs.Number.{number_of};
ghost use Rattle.listing.specs.Parts.{AreNoOperands, AreOperands, IsNextWord};
ghost use Rattle.text_lines.specs.Numerals.{is_numeral};
ghost use Rattle.text_lines.specs.Parts.{HasNo, StartsWith};

use arrayvec::ArrayVec;
use plex_num::read_number;
use text_lines::{is_numeral, until};

/// The values of numerals, which are `None` where they are not below 2^32.
pub type Operands = ArrayVec<Option<u32>, 4>;

/// The name of a line, and the words behind it, each with its space.
pub fn name_and_words(line: &[u8]) -> (&[u8], &[u8])
    ensures apart { HasNo 32 result.0.now }
    ensures starts { StartsWith 32 result.1.now }
    ensures joined { line.now ≡ result.0.now ++ result.1.now }
{
    until(line, b' ')
}

/// The values of the numerals behind spaces; `None` where there are more than 4, or another word.
#[tactic(auto, using(crate::proofs::Words::words_parted))]
pub fn operands(bytes: &[u8]) -> Option<Operands>
    requires { StartsWith 32 bytes.now }
    ensures { MatchOption result
        (AreNoOperands bytes.now)
        (λ operands. AreOperands bytes.now operands.items) }
{
    let mut operands = Operands::new();
    let mut rest = bytes;
    while let Some((word, after)) = next_word(rest) {
        if operands.is_full() {
            return None;
        }
        match numeral(word) {
            Some(value) => operands.push(value),
            None => return None,
        }
        rest = after;
    }
    Some(operands)
}

/// The first word behind a space, and what follows it.
fn next_word(bytes: &[u8]) -> Option<(&[u8], &[u8])>
    requires { StartsWith 32 bytes.now }
    ensures { MatchOption result (bytes.now ≡ []) (λ p. IsNextWord bytes.now p.0.now p.1.now) }
{
    match bytes.split_first() {
        Some((_, after)) => Some(until(after, b' ')),
        None => None,
    }
}

/// The value of a numeral, which is `None` where it is not below 2^32; `None` for every other word.
fn numeral(word: &[u8]) -> Option<Option<u32>>
    ensures { result ≡ (if is_numeral word.now then Some (number_of word.now) else None) }
{
    if is_numeral(word) {
        Some(read_number(word))
    } else {
        None
    }
}
