// How the search for the points of an entry ends, of which so many may be found.
ghost use Rattle.std.specs.Prelude.{◌≡◌};
ghost use Rattle.conflict_rows.specs.Found.{is_past as is_past_bound};

use conflicts_meaning::GivenAt;
use plex_num::Seq;

/// The points that give what an entry has, in order, each once.
#[derive(Drop)]
pub enum GivenRows {
    /// All of them.
    Whole { rows: Seq<GivenAt> },
    /// Some of them, which are more than may be found: the search was given up.
    Over { rows: Seq<GivenAt> },
}

/// Whether there is a bound, and so many are more.
pub(crate) fn is_past(most: Option<usize>, count: usize) -> bool
    ensures { result ≡ is_past_bound most count }
{
    match most {
        Some(most) => most < count,
        None => false,
    }
}
