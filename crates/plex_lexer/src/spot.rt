// Tokens as they are kept, each in eight bytes.
ghost use Rattle.std.specs.Prelude.{◌≡◌, ◌<◌};
ghost use Rattle.plex_lexer.specs.Spots.{code_of, kept, offset_of, sort_by, spot_sort, IsSmall};

use crate::sort::Sort;

/// How many offsets there are.
const OFFSETS: u32 = 16_777_216;

/// A token as it is kept: the code of its sort and its offset in one number, and its line.
#[derive(Clone, Copy)]
pub struct Spot {
    place: u32,
    line: u32,
}

impl Spot {
    /// The token of this sort at this place.
    pub fn new(sort: Sort, offset: u32, line: u32) -> Spot
        requires small { IsSmall sort }
        requires within { offset < OFFSETS }
        ensures { result ≡ kept sort offset line }
    {
        Spot {
            place: code(sort) * OFFSETS + offset,
            line,
        }
    }

    /// Its line.
    pub fn line(self) -> u32
        ensures { result ≡ self.line }
    {
        self.line
    }

    /// The number of bytes before it.
    pub fn offset(self) -> u32
        ensures { result ≡ offset_of self }
    {
        self.place % OFFSETS
    }

    /// Its sort.
    pub fn sort(self) -> Sort
        ensures { result ≡ spot_sort self }
    {
        sort_of(self.place / OFFSETS)
    }
}

/// The code of a sort, below 256.
fn code(sort: Sort) -> u32
    requires { IsSmall sort }
    ensures code { result ≡ code_of sort }
    ensures small { result < 256 }
{
    match sort {
        Sort::Name => 0,
        Sort::Number => 1,
        Sort::Keyword(number) => 2 + u32::from(number),
        Sort::Mark(number) => 128 + u32::from(number),
    }
}

/// The sort of a code.
fn sort_of(code: u32) -> Sort
    requires { code < 256 }
    ensures { result ≡ sort_by code }
{
    if code > 127 {
        Sort::Mark((code - 128) as u8)
    } else if code > 1 {
        Sort::Keyword((code - 2) as u8)
    } else if code == 1 {
        Sort::Number
    } else {
        Sort::Name
    }
}
