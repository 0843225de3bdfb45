// The whole is carried over.
ghost use Rattle.std.specs.Prelude.{◌≡◌, IfOk, None};
ghost use Rattle.store_layout.specs.Laid.{IsLayout};
ghost use Rattle.block_change.specs.Carried.{AreStanding, IsCarried, state_with};
ghost use Rattle.block_change.specs.Misfits.{misfit};
ghost use Rattle.block_change.specs.Moves.{AreMoved};
ghost use Rattle.block_change.specs.Renamed.{AreAtLevels};

use crate::books::{carried_lines, carried_waiting, carry_chains, new_entries};
use crate::directory::directory_of;
use crate::same::Named;
use crate::words::all_words;
use exchange_model::Exchange;
use plex_num::{Memory, Seq};
use run_books::{BookParts, EventLog};
use std::alloc::Global;
use store_layout::Layout;

/// What the old exchange has between two jobs, its books in parts and its stored words, as the new
/// exchange has it, which must fit. Each variable and each field of a record keeps its value where
/// the old exchange has one of the same names and the value fits; else it has its INIT value. Jobs,
/// lines and chains name the entries and files of the same names. There are no events, and all else
/// stays. Memory is the only reason for an error.
pub fn carry(
    alloc: Global,
    old: &Exchange,
    new: &Named<'_>,
    old_layout: &Layout,
    new_layout: &Layout,
    parts: BookParts,
    words: &Seq<u32>,
) -> Result<(BookParts, Seq<u32>), Memory>
    requires fits { misfit old.now new.now.exchange.now ≡ None }
    requires standing { AreStanding old.now parts words.now }
    requires old_layout { IsLayout old.now.blocks old_layout.now }
    requires new_layout { IsLayout new.now.exchange.now.blocks new_layout.now }
    ensures limit { IfOk result (λ r. r.0.limit ≡ parts.limit) }
    ensures carried { IfOk result (λ r.
        IsCarried old.now new.now.exchange.now (state_with parts words.now) (state_with r.0 r.1)) }
    ensures standing { IfOk result (λ r. AreStanding new.now.exchange.now r.0 r.1) }
{
    old.kept();
    new.exchange.kept();
    let from = Named {
        exchange: old,
        names: directory_of(alloc, old)?,
    };
    let moved = carried_parts(alloc, old, new, parts)?;
    let carried = all_words(
        alloc,
        &from,
        new.exchange,
        old_layout,
        new_layout,
        &moved.chains,
        words.as_slice(),
    )?;
    Ok((moved, carried))
}

/// The books of the new exchange.
fn carried_parts(
    alloc: Global,
    old: &Exchange,
    new: &Named<'_>,
    parts: BookParts,
) -> Result<BookParts, Memory>
    requires levels { AreAtLevels parts.buffers.waiting }
    ensures { IfOk result (λ moved. AreMoved old.now new.now.exchange.now parts moved) }
{
    let entries = new_entries(alloc, old, new)?;
    let lines = carried_lines(alloc, parts.lines.as_slice(), entries.as_slice())?;
    let buffers = carried_waiting(alloc, parts.buffers, entries.as_slice())?;
    let mut chains = parts.chains;
    carry_chains(&mut chains, old, new)?;
    Ok(BookParts {
        buffers,
        chains,
        lines,
        next_line: parts.next_line,
        given: parts.given,
        numbers: parts.numbers,
        next_forlopp: parts.next_forlopp,
        ended: parts.ended,
        restarts: parts.restarts,
        limit: parts.limit,
        events: EventLog::new(alloc),
        alloc,
    })
}
