// The summary of a load.
ghost use Rattle.std.specs.Prelude.{◌≡◌, ◌+◌, ◌<◌, ◌^◌, IfOk};
ghost use Rattle.std.specs.List.{count_by};
ghost use Rattle.run_books.specs.Events.{ending_of, event_of};
ghost use Rattle.report_text.specs.Load.{is_lost, is_out, is_release, load_text};
ghost use Rattle.report_text.specs.Tallies.{IsTallied};

use crate::whole::{add_counted, add_ending};
use plex_num::Memory;
use run_books::{Books, Ending, EventQueue, ReportEvent};
use std::alloc::Global;
use text_parts::Text;

/// The summary of a run of a load of so many calls that has left these books, and that has ended
/// so: how many jobs ended, how many signals left the exchange, how many forlopps were released,
/// and how many lines were lost. Memory is the only reason for an error. The books give up their
/// events.
pub fn load_summary(
    alloc: Global,
    calls: u32,
    books: &mut Books,
    ending: Ending,
) -> Result<Text, Memory>
    ensures { IfOk result (λ text. text ≡ load_text calls books.old.state (ending_of ending)) }
{
    let mut text = Text::new(alloc);
    add_counted(&mut text, b"LOAD ", u64::from(calls))?;
    add_counted(&mut text, b"JOBS ", books.ended())?;
    let tally = tally_of(books.take_events());
    add_counted(&mut text, b"OUTS ", tally.outs)?;
    add_counted(&mut text, b"RELEASES ", tally.releases)?;
    add_counted(&mut text, b"LOST ", tally.lost)?;
    add_ending(&mut text, ending)?;
    Ok(text)
}

/// How many events of each kind there are that a summary tells.
#[derive(Clone, Copy)]
struct Tally {
    outs: u64,
    releases: u64,
    lost: u64,
}

impl Tally {
    /// The tally with an event more; no number of it may be the last one of 64 bits.
    fn with(self, event: &ReportEvent) -> Tally
        requires outs { self.outs + 1 < 2 ^ 64 }
        requires releases { self.releases + 1 < 2 ^ 64 }
        requires lost { self.lost + 1 < 2 ^ 64 }
        ensures { IsTallied (event_of event.now) self result }
    {
        let Tally {
            outs,
            releases,
            lost,
        } = self;
        match event {
            ReportEvent::Out { .. } => Tally {
                outs: outs + 1,
                ..self
            },
            ReportEvent::Release { .. } => Tally {
                releases: releases + 1,
                ..self
            },
            ReportEvent::Lost { .. } => Tally {
                lost: lost + 1,
                ..self
            },
            ReportEvent::Restart { .. } => self,
        }
    }
}

/// The tally of these events.
#[tactic(auto, using(crate::proofs::Counts::tally_begin, crate::proofs::Counts::tally_room))]
fn tally_of(events: EventQueue) -> Tally
    ensures outs { result.outs ≡ count_by is_out events }
    ensures releases { result.releases ≡ count_by is_release events }
    ensures lost { result.lost ≡ count_by is_lost events }
{
    let mut left = events;
    left.are_few();
    let mut tally = Tally {
        outs: 0,
        releases: 0,
        lost: 0,
    };
    while let Some(event) = left.next() {
        tally = tally.with(&event);
    }
    tally
}
