// What is kept of a certificate that has been checked.
ghost use Rattle.std.specs.Prelude.{◌≡◌, ◌<◌, ◌≤◌, Some, length, slice_get};
ghost use Rattle.plex_limits.specs.declared.limits.TheConstants.{MOST_ENTRIES};

use entry_summary::Summary;
use kept_summaries::Summaries;
use std::marker::Model;

/// The summary of each entry of an exchange, by the facts of a certificate that is one of it. The
/// facts themselves are not kept.
pub struct Checked {
    summaries: Summaries,
}

impl Drop for Checked {
    fn drop(self) {
        let Checked { summaries: _ } = self;
    }
}

impl Model for Checked {
    ghost use Rattle.std.specs.Prelude.{◌≤◌, length};
    ghost use Rattle.std.specs.Coded.{codes};
    ghost use Rattle.std.specs.List.Sorted.{IsStrictlySortedBy-prop};
    ghost use Rattle.plex_limits.specs.declared.limits.TheConstants.{MOST_ENTRIES};
    ghost use Rattle.checked.specs.Kept.{KeptSummaries};

    ghost Value = { KeptSummaries };

    ghost coded = { Prim.hlevel (codes, IsStrictlySortedBy-prop) };

    ghost view = { λ c. record { summaries = c.summaries } };

    ghost invariant = { λ c. length c.summaries ≤ MOST_ENTRIES };
}

impl Checked {
    /// What keeps these summaries, one for each entry, of which there are no more than an exchange
    /// may have.
    pub fn new(summaries: Summaries) -> Checked
        requires { length summaries ≤ MOST_ENTRIES }
        ensures { result.summaries ≡ summaries }
    {
        Checked { summaries }
    }

    /// How many entries have a summary, which are all of the exchange.
    pub fn entries(&self) -> u32
        ensures { result ≡ length self.now.summaries }
    {
        self.summaries.len() as u32
    }

    /// The summary of an entry, which must be one of them.
    pub fn summary(&self, entry: u32) -> &Summary
        requires { entry < length self.now.summaries }
        ensures it { slice_get self.now.summaries entry ≡ Some result.now }
    {
        self.summaries.at(entry as usize)
    }

    /// An entry that has the same summary: the first one, as far as equal summaries are kept once.
    pub fn first_like(&self, entry: u32) -> u32
        requires { entry < length self.now.summaries }
        ensures within { result < length self.now.summaries }
        ensures same { slice_get self.now.summaries result ≡ slice_get self.now.summaries entry }
    {
        self.summaries.first_like(entry as usize) as u32
    }
}
