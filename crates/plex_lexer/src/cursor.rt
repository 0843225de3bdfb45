// Tokens read one after the other.
ghost use Rattle.std.specs.Prelude.{◌≡◌, ◌≤◌, ◌∷◌, [], drop, take, length, take_while, MatchOption};
ghost use Rattle.std.specs.Char.{is_ascii_digit};
ghost use Rattle.plex_lexer.specs.Bytes.{in_word};
ghost use Rattle.plex_lexer.specs.Cursors.{ahead, token};
ghost use Rattle.plex_lexer.specs.Spots.{name_in, number_in, all_shown, offset_of, sort_of};

use crate::runs::{at_most, digit_run, from_any, word_run};
use crate::sort::Sort;
use crate::spot::Spot;
use crate::words::value;
use plex_num::Name;

/// One token of a text.
#[derive(Clone, Copy)]
pub struct Found<'t> {
    text: &'t [u8],
    spot: Spot,
}

impl<'t> Found<'t> {
    /// The bytes of the text from its first on.
    fn bytes(self) -> &'t [u8]
        ensures { result.now ≡ drop (offset_of self.entry.spot) self.entry.text.now }
    {
        from_any(self.text, self.spot.offset() as usize)
    }

    /// Its line, from 1.
    #[tactic(auto, unfolding(crate::specs::Cursors::token, crate::specs::Spots::shown))]
    pub fn line(self) -> u32
        ensures { result ≡ (token self.entry).line }
    {
        self.spot.line()
    }

    /// What sort of word it is.
    #[tactic(auto, unfolding(crate::specs::Cursors::token, crate::specs::Spots::shown), using(crate::proofs::SortedTokens::sort_of_kind))]
    pub fn sort(self) -> Sort
        ensures { result ≡ sort_of (token self.entry).kind }
    {
        self.spot.sort()
    }

    /// The bytes of the name that it is; none where it is no name.
    #[tactic(auto, unfolding(crate::specs::Cursors::token, crate::specs::Spots::shown))]
    pub fn spelled(self) -> &'t [u8]
        ensures name { result.now ≡ name_in (token self.entry).kind }
        ensures few { length result.now ≤ 31 }
    {
        match self.spot.sort() {
            Sort::Name => at_most(word_run(self.bytes()), 31),
            Sort::Number => at_most(self.text, 0),
            Sort::Keyword(_) => at_most(self.text, 0),
            Sort::Mark(_) => at_most(self.text, 0),
        }
    }

    /// The name that it is; the empty one where it is none.
    pub fn name(self) -> Name
        ensures { result ≡ name_in (token self.entry).kind }
    {
        Name::of(self.spelled())
    }

    /// The number that it is; 0 where it is none.
    #[tactic(auto, unfolding(crate::specs::Cursors::token, crate::specs::Spots::shown))]
    pub fn number(self) -> u32
        ensures { result ≡ number_in (token self.entry).kind }
    {
        match self.spot.sort() {
            Sort::Number => value(digit_run(self.bytes())),
            Sort::Name => 0,
            Sort::Keyword(_) => 0,
            Sort::Mark(_) => 0,
        }
    }
}

/// What is left of the tokens of a text, from one of them on.
#[derive(Clone, Copy)]
pub struct Cursor<'t> {
    text: &'t [u8],
    spots: &'t [Spot],
}

impl<'t> Cursor<'t> {
    /// All of these tokens.
    #[tactic(auto, unfolding(crate::specs::Cursors::ahead))]
    pub(crate) fn over(text: &'t [u8], spots: &'t [Spot]) -> Cursor<'t>
        ensures { ahead result ≡ all_shown text.now spots.now }
    {
        Cursor { text, spots }
    }

    /// How many tokens are ahead.
    #[tactic(auto, unfolding(crate::specs::Cursors::ahead))]
    pub fn len(self) -> usize
        ensures { result ≡ length (ahead self.entry) }
    {
        self.spots.len()
    }

    /// The first token and those after it; `None` exactly where there is none.
    #[tactic(auto, unfolding(crate::specs::Cursors::ahead, crate::specs::Cursors::token))]
    pub fn split_first(self) -> Option<(Found<'t>, Cursor<'t>)>
        ensures { MatchOption result (ahead self.entry ≡ [])
            (λ x. ahead self.entry ≡ token x.0 ∷ ahead x.1) }
    {
        match self.spots.split_first() {
            None => None,
            Some((spot, spots)) => Some((
                Found {
                    text: self.text,
                    spot: *spot,
                },
                Cursor {
                    text: self.text,
                    spots,
                },
            )),
        }
    }
}
