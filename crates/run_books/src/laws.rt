// What holds of the lines of every signal file, and of books and their parts, said by clauses.
ghost use Rattle.std.specs.Prelude.{◌≡◌, ◌<◌, ◌≤◌, ◌^◌, ℕ, List, [], length, map, nat_eq};
ghost use Rattle.std.specs.HashMap.{get};
ghost use Rattle.plex_limits.specs.declared.limits.TheConstants.{MOST_JOBS};
ghost use Rattle.exchange_model.specs.Kept.{IsExchange};
ghost use Rattle.source_meaning.specs.SingleRun.{opening};
ghost use Rattle.source_meaning.specs.Valid.{IsValid, LinesFit};
ghost use Rattle.run_books.specs.Accounts.{with_words};
ghost use Rattle.run_books.specs.Lines.{AreFound, OfEachFile, coming_of};
ghost use Rattle.run_books.specs.Parts.{AreAlike, AreParts, account_of};

use crate::books::Books;
use crate::parts::BookParts;
use exchange_model::Exchange;

/// The lines of a signal file that has no fault fit its exchange, so that the state before the
/// first of them has arrived is valid. A text of at most 16 MiB has fewer than 2^32 of them.
pub fn lines_fit_their_exchange()
    ensures lines { OfEachFile (λ x _ lines. LinesFit x [] (map coming_of lines)) }
    ensures few { OfEachFile (λ _ text lines. length text ≤ 2 ^ 24 → length lines < 2 ^ 32) }
    ensures opening { OfEachFile (λ x _ ls.
        IsExchange x → IsValid x (opening x (map coming_of ls))) }
{}

/// Books that are taken apart and put together again are the same books.
pub fn books_come_back(books: Books) -> Books
    requires nobody { books.running ≡ 0 }
    ensures { result ≡ books }
{
    Books::from_parts(books.into_parts())
}

/// Parts of which books are made, and which are taken out again, are the same parts.
#[tactic(auto, using(crate::proofs::Parted::alike_of_books))]
pub fn parts_come_back(parts: BookParts) -> BookParts
    requires { AreParts parts }
    ensures parts { AreAlike parts result }
    ensures events { (account_of result).state.events ≡ (account_of parts).state.events }
{
    Books::from_parts(parts).into_parts()
}

/// The parts of a valid state are parts of books: the limit and the number of lines are as those of
/// new books, no more jobs have ended than the limit says, fewer than 2^32 restarts came, and each
/// line that has arrived has its forlopp, which is found by the number of the line.
pub fn valid_states_have_books(exchange: &Exchange, parts: &BookParts)
    requires limit { parts.now.limit ≤ MOST_JOBS }
    requires ended { parts.now.ended ≤ parts.now.limit }
    requires restarts { parts.now.restarts < 2 ^ 32 }
    requires lines { length parts.now.lines < 2 ^ 32 }
    requires next_line { parts.now.next_line ≡ length parts.now.given }
    requires given { length parts.now.given ≤ length parts.now.lines }
    requires numbers { AreFound (get nat_eq parts.now.numbers) parts.now.lines parts.now.given }
    ensures { (words : List ℕ)
        → IsValid exchange.now (with_words (account_of parts.now).state words)
        → AreParts parts.now }
{
    exchange.kept();
    let _ = parts.chains.chain(0);
}
