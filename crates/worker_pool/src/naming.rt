// What all jobs of one dispatch have in common.
use std::marker::Brand;

/// Names the exchange, its code, the shared store and the book of the tickets of one dispatch. A
/// call at `Brand` picks them; then all that its threads hand to one another speaks of these alone.
pub trait Naming {
    ghost use Rattle.exchange_model.specs.declared.exchange.Exchange.{Exchange};
    ghost use Rattle.machine_code.specs.Coded.{Code};
    ghost use Rattle.shared_store.specs.Seats.{StoreId};
    ghost use Rattle.ticket_book.specs.Pages.{BookId};

    ghost exchange: { Exchange };

    ghost code: { Code };

    ghost store: { StoreId };

    ghost book: { BookId };
}

impl Naming for Brand {
    ghost use Rattle.worker_pool.specs.Handed.{no_exchange, no_code, no_store, no_book};

    ghost exchange = { no_exchange };

    ghost code = { no_code };

    ghost store = { no_store };

    ghost book = { no_book };
}
