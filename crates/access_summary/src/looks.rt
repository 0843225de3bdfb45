// How many looks the summaries of an exchange may take, and whether they take more. A look is one
// at a fact, or an access that is met: each takes time, and memory for what it finds.
use entry_summary::Summary;
use kept_summaries::Summaries;

/// The part of all looks that may be spent on one entry: what they find takes memory, some 100
/// bytes for each.
pub const PART_OF_ENTRY: usize = 16;

/// So many points of the table are gone over for an entry in the time of a look at a fact.
pub const POINTS_OF_LOOK: usize = 6;

/// The summary of an entry, for which there may be so many looks.
#[derive(Drop)]
pub enum Summed {
    /// The summary, and the looks that were made.
    Whole { summary: Summary, looks: usize },
    /// So many looks are more than there may be, and no summary is told.
    Over { looks: usize },
}

/// The summaries of an exchange, for which there may be so many looks.
#[derive(Drop)]
pub enum FewOrMany {
    /// The summary of each entry, by the least facts.
    Few(Summaries),
    /// More looks were made, and no summary is told.
    Many(Excess),
}

/// The looks that are more than there may be. No more are told than `LOOKS_OF_FACT` of
/// `least_facts` for each least fact that was found, and one for each `POINTS_OF_LOOK` points and
/// each entry.
#[derive(Clone, Copy)]
pub enum Excess {
    /// In all: so many for the entries before one, with the time that its table takes, and so many
    /// for that one.
    InAll { before: usize, looks: usize },
    /// For one entry, for which there may be a sixteenth of them: so many, for its own facts alone.
    ForOne { looks: usize },
}
