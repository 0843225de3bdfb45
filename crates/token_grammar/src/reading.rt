// One token read.
ghost use Rattle.std.specs.Prelude.{◌≡◌, ◌∷◌, [], length};
ghost use Rattle.std.specs.Str.{bytes_eq};
ghost use Rattle.plex_lexer.specs.Cursors.{ahead, token};
ghost use Rattle.token_grammar.specs.Language.{class, line_at, mem, name_class, LEVEL, NAME};
ghost use Rattle.token_grammar.specs.Reading.{at, level_of, level_read, name_in, name_read};
ghost use Rattle.token_grammar.specs.Reading.{number_read, word_of};
ghost use Rattle.token_grammar.specs.Gives.{GivesOrStops, Reads};

use crate::fault::Fault;
use crate::kept_name::KeptName;
use crate::named::{Leveled, Named, Numbered};
use plex_lexer::{Cursor, Found, Sort};
use plex_num::Level;
use std::alloc::Global;

/// The class of a token: below 5 a name, 5 a number, 2k + 6 the keyword k, 2m + 7 the mark m.
#[tactic(auto, using(crate::proofs::Classes::class_by_sort))]
fn class_of(found: Found<'_>) -> u64
    ensures { result ≡ class (token found.entry) }
{
    match found.sort() {
        Sort::Name => name_class_of(found.spelled()),
        Sort::Number => 5,
        Sort::Keyword(keyword) => 2 * u64::from(keyword) + 6,
        Sort::Mark(mark) => 2 * u64::from(mark) + 7,
    }
}

fn name_class_of(name: &[u8]) -> u64
    ensures { result ≡ name_class name.now }
{
    if is_text(name, b"A") {
        1
    } else if is_text(name, b"B") {
        2
    } else if is_text(name, b"C") {
        3
    } else if is_text(name, b"D") {
        4
    } else {
        0
    }
}

fn is_text(name: &[u8], text: &[u8]) -> bool
    ensures { result ≡ bytes_eq name.now text.now }
{
    name == text
}

/// The line of the first token; 1 where there is none.
pub fn line_of(tokens: Cursor<'_>) -> u32
    ensures { result ≡ line_at (ahead tokens.entry) }
{
    match tokens.split_first() {
        None => 1,
        Some((first, _)) => first.line(),
    }
}

/// Whether the first token is of this class.
pub fn starts(tokens: Cursor<'_>, want: u64) -> bool
    ensures { result ≡ at (want ∷ []) (ahead tokens.entry) }
{
    match tokens.split_first() {
        None => false,
        Some((first, _)) => class_of(first) == want,
    }
}

/// Whether the first token is of one of these classes.
pub fn starts_in(tokens: Cursor<'_>, wants: &[u64]) -> bool
    ensures { result ≡ at wants.now (ahead tokens.entry) }
{
    match tokens.split_first() {
        None => false,
        Some((first, _)) => is_in(class_of(first), wants),
    }
}

fn is_in(class: u64, wants: &[u64]) -> bool
    ensures { result ≡ mem class wants.now }
{
    let mut rest = wants;
    'wants: while let Some((want, left)) = rest.split_first() {
        if class == *want {
            return true;
        }
        rest = left;
    }
    false
}

/// Whether the first token is a name.
pub fn starts_name(tokens: Cursor<'_>) -> bool
    ensures { result ≡ at NAME (ahead tokens.entry) }
{
    match tokens.split_first() {
        None => false,
        Some((first, _)) => is_name(class_of(first)),
    }
}

fn is_name(class: u64) -> bool
    ensures { result ≡ mem class NAME }
{
    class == 0 || class == 1 || class == 2 || class == 3 || class == 4
}

/// A word of this class and the tokens after it, or the place where it lacks.
#[tactic(auto, unfolding(crate::specs::Reading::word_of))]
pub fn word(tokens: Cursor<'_>, want: u64) -> Result<(Found<'_>, Cursor<'_>), Fault>
    ensures { GivesOrStops (λ x. (token x.0, ahead x.1)) result
        (word_of (want ∷ []) (ahead tokens.entry)) }
{
    match tokens.split_first() {
        None => Err(Fault::Stuck {
            left: 0,
            deep: false,
        }),
        Some((first, rest)) => {
            if class_of(first) == want {
                Ok((first, rest))
            } else {
                Err(Fault::Stuck {
                    left: tokens.len(),
                    deep: false,
                })
            }
        }
    }
}

/// A name and the tokens after it, or the place where it lacks. A long name takes memory.
#[tactic(auto, unfolding(crate::specs::Reading::word_of, crate::specs::Reading::name_read))]
pub fn name(alloc: Global, tokens: Cursor<'_>) -> Result<(Named, Cursor<'_>), Fault>
    ensures { Reads result name_read tokens.entry }
{
    match tokens.split_first() {
        None => Err(Fault::Stuck {
            left: 0,
            deep: false,
        }),
        Some((first, rest)) => {
            if !is_name(class_of(first)) {
                return Err(Fault::Stuck {
                    left: tokens.len(),
                    deep: false,
                });
            }
            let Ok(name) = KeptName::new(alloc, first.name()) else {
                return Err(Fault::Memory);
            };
            let line = first.line();
            Ok((Named { line, name }, rest))
        }
    }
}

/// A number and the tokens after it, or the place where it lacks.
#[tactic(auto, unfolding(crate::specs::Reading::word_of, crate::specs::Reading::number_read))]
pub fn number(tokens: Cursor<'_>) -> Result<(Numbered, Cursor<'_>), Fault>
    ensures { Reads result number_read tokens.entry }
{
    match tokens.split_first() {
        None => Err(Fault::Stuck {
            left: 0,
            deep: false,
        }),
        Some((first, rest)) => {
            if class_of(first) != 5 {
                return Err(Fault::Stuck {
                    left: tokens.len(),
                    deep: false,
                });
            }
            Ok((
                Numbered {
                    line: first.line(),
                    value: first.number(),
                },
                rest,
            ))
        }
    }
}

/// The name of a job buffer and the tokens after it, or the place where it lacks.
#[tactic(auto, unfolding(crate::specs::Reading::word_of, crate::specs::Reading::level_read))]
pub fn level(tokens: Cursor<'_>) -> Result<(Leveled, Cursor<'_>), Fault>
    ensures { Reads result level_read tokens.entry }
{
    match tokens.split_first() {
        None => Err(Fault::Stuck {
            left: 0,
            deep: false,
        }),
        Some((first, rest)) => {
            if !is_level(class_of(first)) {
                return Err(Fault::Stuck {
                    left: tokens.len(),
                    deep: false,
                });
            }
            Ok((
                Leveled {
                    line: first.line(),
                    level: level_of_name(first.spelled()),
                },
                rest,
            ))
        }
    }
}

fn is_level(class: u64) -> bool
    ensures { result ≡ mem class LEVEL }
{
    class == 1 || class == 2 || class == 3 || class == 4
}

fn level_of_name(name: &[u8]) -> Level
    ensures { result ≡ level_of name.now }
{
    if is_text(name, b"A") {
        Level::A
    } else if is_text(name, b"B") {
        Level::B
    } else if is_text(name, b"C") {
        Level::C
    } else {
        Level::D
    }
}
