// The tokens of a text.
ghost use Rattle.std.specs.Prelude.{◌≡◌, ◌≤◌, length, slice_get, MatchOption, Some};
ghost use Rattle.plex_lexer.specs.Cursors.{ahead, lines};
ghost use Rattle.plex_lexer.specs.Spots.{all_shown};

use crate::cursor::Cursor;
use crate::spot::Spot;
use plex_num::Seq;
use std::marker::Model;

/// The tokens of a text, each kept in eight bytes; contracts see a list of tokens.
#[derive(Drop)]
pub struct Tokens<'t> {
    text: &'t [u8],
    spots: Seq<Spot>,
}

impl<'t> Model for Tokens<'t> {
    ghost use Rattle.std.specs.Prelude.{List};
    ghost use Rattle.plex_lexer.specs.declared.token.Token.{Token};

    ghost Value = { List Token };

    ghost use Rattle.plex_lexer.specs.Spots.{all_shown};

    ghost view = { λ t. all_shown t.text.now t.spots };
}

impl<'t> Tokens<'t> {
    /// The tokens of a text that are kept so.
    pub(crate) fn of(text: &'t [u8], spots: Seq<Spot>) -> Tokens<'t>
        ensures { result ≡ all_shown text.now spots }
    {
        Tokens { text, spots }
    }

    /// How many there are.
    pub fn len(&self) -> usize
        ensures { result ≡ length self.now }
    {
        self.spots.len()
    }

    /// All of them, to be read from the first on.
    pub fn cursor(&self) -> Cursor<'_>
        ensures { ahead result ≡ self.now }
    {
        Cursor::over(self.text, self.spots.as_slice())
    }

    /// The line of the token at a place, counted from 0; `None` exactly where there is none.
    #[tactic(auto, using(crate::proofs::SortedTokens::line_kept))]
    pub fn line_at(&self, i: usize) -> Option<u32>
        ensures { MatchOption result (length self.now ≤ i)
            (λ line. slice_get (lines self.now) i ≡ Some line) }
    {
        match self.spots.get(i) {
            Some(spot) => Some(spot.line()),
            None => None,
        }
    }
}
