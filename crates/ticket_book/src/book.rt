ghost use Rattle.std.specs.Prelude.{◌≡◌, ◌+◌, ◌<◌, ◌^◌, IfOk};
ghost use Rattle.ticket_book.specs.Pages.{claim};

use crate::page::Page;
use crate::rule::{Compare, Copy, Meet, Rule, Terms, Write};
use atomic_table::{Seat, Table};
use plex_num::Memory;
use shared_store::JobSeat;
use std::alloc::Global;
use std::marker::{Brand, Model};

/// A book of tickets. Contracts see which book it is.
#[derive(Drop)]
pub struct TicketBook {
    table: Table<(), Page, (), Rule, Global>,
}

impl Model for TicketBook {
    ghost use Rattle.atomic_table.specs.Seated.{TableId, table_id_coded};

    ghost Value = { TableId };

    ghost coded = { table_id_coded };

    ghost view = { λ b. b.table.shared.table_id };
}

/// What writes the tickets of a book, of which there is one. Contracts see its book, and how many
/// tickets it has written.
#[derive(Drop)]
pub struct Pen {
    written: u64,
    seat: Seat<(), Page>,
}

impl Model for Pen {
    ghost use Rattle.ticket_book.specs.Pages.{PenView, IsPen};

    ghost Value = { PenView };

    ghost view = { λ p. (p.seat.table_id, p.written) };

    ghost invariant = { λ p. IsPen p.written p.seat.table_id p.seat.me };
}

/// A ticket. Contracts see its book and what it claims: its number, and the loan that it was
/// written for.
#[derive(Drop)]
pub struct Ticket {
    number: u64,
    seat: Seat<(), Page>,
}

impl Model for Ticket {
    ghost use Rattle.ticket_book.specs.Pages.{TicketView, IsTicket, claim, loan_of};

    ghost Value = { TicketView };

    ghost view = { λ t. (t.seat.table_id, claim t.number (loan_of t.seat.me.0)) };

    ghost invariant = { λ t. IsTicket t.number t.seat.table_id t.seat.me };
}

impl TicketBook {
    /// A book without tickets, and its pen. Memory is the only reason for an error.
    pub fn new(alloc: Global) -> Result<(TicketBook, Pen), Memory>
        ensures { IfOk result (λ made. made.1 ≡ (made.0, 0)) }
    {
        let row = [0u64; 1];
        match Table::of_words(alloc, &row, &()) {
            Ok((table, seat)) => Ok((TicketBook { table }, Pen { written: 0, seat })),
            Err(_) => Err(Memory),
        }
    }

    /// A ticket for the seat's loan. Its number is how many tickets were written before; there must
    /// be fewer than 2^64 - 1.
    pub fn write(&self, pen: &mut Pen, seat: &JobSeat) -> Ticket
        requires book { pen.old.0 ≡ self.now }
        requires room { pen.old.1 + 1 < 2 ^ 64 }
        ensures ticket { result ≡ (self.now, claim pen.old.1 seat.now.1.lent) }
        ensures pen { pen.new ≡ (self.now, pen.old.1 + 1) }
    {
        self.write_as::<Brand>(pen, seat)
    }

    /// The ticket itself, for the loan that the terms name.
    fn write_as<T: Terms>(&self, pen: &mut Pen, seat: &JobSeat) -> Ticket
        requires terms { T.loan ≡ seat.now.1.lent }
        requires book { pen.old.0 ≡ self.now }
        requires room { pen.old.1 + 1 < 2 ^ 64 }
        ensures ticket { result ≡ (self.now, claim pen.old.1 seat.now.1.lent) }
        ensures pen { pen.new ≡ (self.now, pen.old.1 + 1) }
    {
        let number = pen.written;
        let seat = self.table.shared.split_seat::<Write<T>>(&mut pen.seat);
        pen.written = number + 1;
        Ticket { number, seat }
    }

    /// The same ticket again.
    pub fn copy(&self, ticket: &mut Ticket) -> Ticket
        requires book { ticket.old.0 ≡ self.now }
        ensures new { result ≡ ticket.old }
        ensures same { ticket.new ≡ ticket.old }
    {
        let seat = self.table.shared.split_seat::<Copy>(&mut ticket.seat);
        Ticket {
            number: ticket.number,
            seat,
        }
    }

    /// Tells that two tickets of one number are for one loan. Both are given up.
    pub fn meet(&self, mine: Ticket, theirs: Ticket)
        requires mine { mine.0 ≡ self.now }
        requires theirs { theirs.0 ≡ self.now }
        requires number { mine.1.number ≡ theirs.1.number }
        ensures { mine.1.loan ≡ theirs.1.loan }
    {
        let Ticket {
            number: _,
            seat: mut one,
        } = mine;
        let Ticket {
            number: _,
            seat: other,
        } = theirs;
        self.table.shared.join_seat::<Meet>(&mut one, other);
        let _found = self.table.shared.load::<Compare>(&mut one, 0);
    }
}

impl Ticket {
    /// The ticket's number.
    pub fn number(&self) -> u64
        ensures { result ≡ self.now.1.number }
    {
        self.number
    }
}
