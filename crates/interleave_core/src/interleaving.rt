// One event after the other.
ghost use Rattle.std.specs.Prelude.{◌≡◌, MatchResult};
ghost use Rattle.store_layout.specs.Laid.{IsLayout};
ghost use Rattle.source_meaning.specs.Arrivals.{arrivals};
ghost use Rattle.source_meaning.specs.Valid.{IsValid};
ghost use Rattle.run_books.specs.Accounts.{with_words};
ghost use Rattle.machine_meaning.specs.Faithful.{Faithful};
ghost use Rattle.checked.specs.Kept.{IsChecked};
ghost use Rattle.interleave_core.specs.Follows.{Interleaves};
ghost use Rattle.interleave_core.specs.Runs.{IsFault, setting};

use crate::event::{CoreEvent, CoreFault};
use crate::making::happen;
use crate::window::{CoreState, RunningCore};
use checked::Checked;
use exchange_model::Exchange;
use machine_code::Code;
use plex_num::Seq;
use run_books::Books;
use std::alloc::Global;
use store_layout::Layout;

/// Makes these events one after the other, from books in which no job runs and these stored words,
/// with so many jobs at most at once: what stands afterwards, or the first event that is not
/// allowed. Books and words must be those of a valid state in which nothing arrives, and the code
/// and the certificate those of the exchange. Then what stands afterwards follows the single run,
/// whatever the events are: books and words are those that it has after as many jobs as have
/// retired, but for the jobs of the window, which it begins next. Each of these has come as far as
/// it does alone, and none has touched a word that another one has stored to.
pub fn run_events(
    alloc: Global,
    exchange: &Exchange,
    layout: &Layout,
    code: &Code,
    checked: &Checked,
    books: Books,
    words: Seq<u32>,
    workers: u32,
    events: &[CoreEvent],
) -> Result<CoreState, CoreFault>
    requires nobody { books.running ≡ 0 }
    requires layout { IsLayout exchange.now.blocks layout.now }
    requires faithful { Faithful exchange.now code.now }
    requires checked { IsChecked exchange.now checked.now }
    requires valid { IsValid exchange.now (with_words books.state words) }
    requires quiet { arrivals exchange.now (with_words books.state words)
        ≡ with_words books.state words }
    ensures { MatchResult result
        (Interleaves (setting exchange.now code.now checked.now workers) books words events.now)
        (IsFault (setting exchange.now code.now checked.now workers) books words events.now) }
{
    exchange.kept();
    let mut core = RunningCore::new(alloc, books, words);
    for (at, event) in events.iter().enumerate() {
        if !happen(&mut core, exchange, layout, code, checked, workers, *event)? {
            return Err(CoreFault::NotEnabled { at: at as u64 });
        }
    }
    Ok(core.into_state())
}
