// Theorems about the text, stated as contracts.
ghost use Rattle.std.specs.Prelude.{◌≡◌, ℕ, List, Option};
ghost use Rattle.exchange_model.specs.declared.exchange.Exchange.{Exchange};
ghost use Rattle.conflicts_meaning.specs.declared.rows.EntryPair.{EntryPair};
ghost use Rattle.additions_text.specs.Additions.{AreAdditions};

/// The text of the additions exists for each exchange, and for any two of its entries or all of
/// them.
pub fn additions_come()
    ensures { (x : Exchange) (asked : Option EntryPair)
        → (text : List ℕ) × AreAdditions x asked text }
{}

/// The text of the additions is unique.
pub fn additions_are_one()
    ensures { (x : Exchange) (asked : Option EntryPair) (one other : List ℕ)
        → AreAdditions x asked one → AreAdditions x asked other → one ≡ other }
{}
