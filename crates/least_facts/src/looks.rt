// How a search ends that may take so many looks.

/// So many looks are told for each fact at most that was found, however many were made.
pub const LOOKS_OF_FACT: usize = 64;

/// How a search for least facts ended, with the looks at slots that were counted, some of them at
/// one slot again.
#[derive(Clone, Copy)]
pub enum Looked {
    /// All were found, with so many looks.
    Whole { looks: usize },
    /// So many looks are more than there may be, and the search was given up. A fact was found for
    /// each `LOOKS_OF_FACT` of them at least.
    Over { looks: usize },
}
