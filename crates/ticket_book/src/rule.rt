// The rule of the table, and the names of its steps.
use crate::page::Page;
use atomic_table::{Join, Play, Split, TableRule};
use std::marker::{Brand, PhantomData};

pub(crate) struct Rule;

impl TableRule<(), Page, ()> for Rule {
    ghost use Rattle.ticket_book.specs.Rule.{Booked};
    ghost use Rattle.ticket_book.specs.declared.page.Page.TheVariants.{Writes};

    ghost holds = { λ _. Booked };

    ghost first = { λ _. Writes 0 };
}

/// A look at the table's word by a seat that has two tickets.
pub(crate) struct Compare;

impl Play<(), Page> for Compare {
    ghost use Rattle.ticket_book.specs.Rule.{compared};

    ghost then = { compared };
}

/// For which loan a ticket is written. A call at `Brand` picks it from its arguments.
pub(crate) trait Terms {
    ghost use Rattle.shared_store.specs.declared.view.Lent.{Lent};

    ghost loan: { Lent };
}

impl Terms for Brand {
    ghost use Rattle.ticket_book.specs.Pages.{no_loan};

    ghost loan = { no_loan };
}

/// The pen writes a ticket.
pub(crate) struct Write<T> {
    terms: PhantomData<T>,
}

impl<T: Terms> Split<Page> for Write<T> {
    ghost use Rattle.ticket_book.specs.Rule.{pen_after, ticket_after};

    ghost left = { pen_after };

    ghost right = { ticket_after T.loan };
}

/// A ticket becomes two of the same.
pub(crate) struct Copy;

impl Split<Page> for Copy {
    ghost left = { λ v. v };

    ghost right = { λ v. v };
}

/// Two tickets come into one seat.
pub(crate) struct Meet;

impl Join<Page> for Meet {
    ghost use Rattle.ticket_book.specs.Rule.{both};
    ghost use Rattle.ticket_book.specs.declared.page.Page.TheVariants.{Spent};

    ghost both = { both };

    ghost spent = { Spent };
}
