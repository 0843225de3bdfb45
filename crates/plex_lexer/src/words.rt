// Keywords, names and numbers: what a run of letters and digits says.
ghost use Rattle.std.specs.Prelude.{◌≡◌, ◌<◌, length, take_while, IfOk, IfSome};
ghost use Rattle.std.specs.Char.{is_ascii_digit};
ghost use Rattle.name_tables.specs.Names.{keyword_names};
ghost use Rattle.name_tables.specs.Rows.{names_of};
ghost use Rattle.plex_lexer.specs.Bytes.{in_word};
ghost use Rattle.plex_lexer.specs.Spots.{kinds_at, value_of, IsSmall};
ghost use Rattle.plex_num.specs.Number.{number_of};
ghost use Rattle.plex_lexer.specs.Words.{keyword_of, word_kind, number_kind};

use crate::fault::LexFault;
use crate::runs::{digit_run, word_run};
use crate::sort::Sort;
use name_tables::{Row, find};
use plex_num::read_number;

/// The number of bytes of the longest keyword.
const LONGEST_KEYWORD: usize = 9;

/// The number of the keyword that the run is, if it is one.
#[tactic(auto, using(crate::proofs::Keywords::keyword_of_longer), unfolding(crate::specs::Words::keyword_of))]
fn keyword(run: &[u8], keywords: &[Row; 56]) -> Option<u8>
    requires { names_of keywords.now ≡ keyword_names }
    ensures is { result ≡ keyword_of run.now }
    ensures small { IfSome result (λ number. number < 126) }
{
    if run.len() > LONGEST_KEYWORD {
        return None;
    }
    match find(keywords, run) {
        Some(place) => Some(place as u8),
        None => None,
    }
}

/// What the run of letters and digits is with which these bytes begin: a keyword or a name of at
/// most 31 bytes.
#[tactic(auto, using(crate::proofs::SortedTokens::name_word))]
pub fn word(bytes: &[u8], offset: u32, line: u32, keywords: &[Row; 56]) -> Result<Sort, LexFault>
    requires { names_of keywords.now ≡ keyword_names }
    ensures is { kinds_at result bytes.now ≡ word_kind (take_while in_word bytes.now) offset line }
    ensures small { IfOk result IsSmall }
{
    let run = word_run(bytes);
    if run.len() > 31 {
        return Err(LexFault::LongName { offset, line });
    }
    match keyword(run, keywords) {
        Some(number) => Ok(Sort::Keyword(number)),
        None => Ok(Sort::Name),
    }
}

/// What the run of digits is with which these bytes begin: a number.
pub fn number(bytes: &[u8], offset: u32, line: u32) -> Result<Sort, LexFault>
    ensures is { kinds_at result bytes.now ≡
        number_kind (take_while is_ascii_digit bytes.now) offset line }
    ensures small { IfOk result IsSmall }
{
    match read_number(digit_run(bytes)) {
        Some(_) => Ok(Sort::Number),
        None => Err(LexFault::BadNumber { offset, line }),
    }
}

/// The number that the digits are; 0 where they are none.
pub fn value(digits: &[u8]) -> u32
    ensures { result ≡ value_of (number_of digits.now) }
{
    match read_number(digits) {
        Some(value) => value,
        None => 0,
    }
}
