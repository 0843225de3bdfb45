// How the search for the accesses of an entry ends, which may meet so many.
use entry_summary::Access;
use plex_num::Seq;

/// How the search for the accesses of an entry ended, with how many were met, some of them again.
#[derive(Drop)]
pub enum Listed {
    /// All of them, in order, each once.
    Whole { accesses: Seq<Access>, met: usize },
    /// So many are more than may be met, and the search was given up.
    Over { met: usize },
}
