// What a change of blocks leaves as it was, said by clauses.
ghost use Rattle.std.specs.Prelude.{◌≡◌, ◌↔◌, ℕ, List, [], None, Some};
ghost use Rattle.exchange_model.specs.declared.exchange.Exchange.{Exchange};
ghost use Rattle.exchange_model.specs.Kept.{IsExchange};
ghost use Rattle.run_books.specs.Accounts.{with_words};
ghost use Rattle.run_books.specs.Parts.{AreAlike, AreParts, account_of};
ghost use Rattle.run_books.specs.declared.parts.BookParts.{BookParts};
ghost use Rattle.source_meaning.specs.State.{State};
ghost use Rattle.source_meaning.specs.Valid.{IsValid};
ghost use Rattle.block_change.specs.Carried.{IsCarried};
ghost use Rattle.block_change.specs.declared.misfit.Misfit.{Misfit};
ghost use Rattle.block_change.specs.Counterparts.{Fits, IsFirstMisfit};
ghost use Rattle.block_change.specs.Misfits.{misfit};

/// There is no misfit exactly where each entry and each FORLOPP FILE of the old exchange has its
/// counterpart in the new one, and a misfit is the first of them that has none.
pub fn what_has_no_counterpart_is_a_misfit()
    ensures none { (x y : Exchange) → IsExchange y → (misfit x y ≡ None) ↔ Fits x y }
    ensures first { (x y : Exchange) (m : Misfit) → IsExchange y
        → misfit x y ≡ Some m → IsFirstMisfit x y m }
{}

/// A valid state of an exchange, carried over to one that fits, is a valid state of that.
pub fn carried_states_are_valid()
    ensures { (x y : Exchange) (s t : State) → IsExchange x → IsExchange y → misfit x y ≡ None
        → IsValid x s → IsCarried x y s t → IsValid y t }
{}

/// A state goes over to another exchange in one way alone.
pub fn states_go_over_in_one_way()
    ensures { (x y : Exchange) (s t u : State) → IsExchange y
        → IsCarried x y s t → IsCarried x y s u → t ≡ u }
{}

/// An exchange fits itself, and a valid state goes over to the same exchange as it is, but for its
/// events: so it does, and in no other way. So do the stored words, and the parts of the books.
pub fn the_same_exchange_changes_nothing()
    ensures fits { (x : Exchange) → IsExchange x → misfit x x ≡ None }
    ensures state { (x : Exchange) (s t : State) → IsExchange x → IsValid x s → IsCarried x x s t
        → t ≡ record s { events = [] } }
    ensures goes { (x : Exchange) (s : State) → IsExchange x → IsValid x s
        → IsCarried x x s (record s { events = [] }) }
    ensures parts { (x : Exchange) (p q : BookParts) (words carried : List ℕ)
        → IsExchange x → AreParts p → AreParts q → q.limit ≡ p.limit
        → IsValid x (with_words (account_of p).state words)
        → IsCarried x x (with_words (account_of p).state words)
        (with_words (account_of q).state carried)
        → AreAlike p q × (carried ≡ words) }
{}
