// Theorems about the rows of conflicts, stated as contracts.
ghost use Rattle.std.specs.Prelude.{◌≡◌, ◌↔◌, ℕ, List, Option};
ghost use Rattle.exchange_model.specs.declared.exchange.Exchange.{Exchange};
ghost use Rattle.entry_summary.specs.declared.summary.Summary.{Summary};
ghost use Rattle.pair_tests.specs.declared.pair.Conflict.{Conflict};
ghost use Rattle.pair_tests.specs.declared.pair.Verdict.{Verdict};
ghost use Rattle.pair_tests.specs.Pairs.{IsConflict, IsVerdict};
ghost use Rattle.conflicts_meaning.specs.declared.rows.ClashRow.{ClashRow};
ghost use Rattle.conflicts_meaning.specs.declared.rows.EntryPair.{EntryPair};
ghost use Rattle.conflicts_meaning.specs.Rows.{AreClashRows};
ghost use Rattle.conflicts_meaning.specs.Told.{AreConflicts};
ghost use Rattle.conflict_laws.specs.Conflicts.{AreInOrder, IsToldIn, TellVerdict};

/// The rows of two summaries list exactly their conflicts: each conflict that makes the pair NEVER
/// is in some row, and each row lists such a conflict.
pub fn rows_tell_all_conflicts()
    ensures { (first later : Summary) (rows : List ClashRow)
        → AreClashRows first later rows
        → (c : Conflict) → IsConflict first later c ↔ IsToldIn rows c }
{}

/// The rows of two summaries are in the order of their conflicts: no row lists a conflict that
/// precedes that of a row above it.
pub fn rows_are_in_order_of_conflicts()
    ensures { (first later : Summary) (rows : List ClashRow)
        → AreClashRows first later rows → AreInOrder rows }
{}

/// The verdict of a pair follows from its rows: NEVER with the conflict of the first row, or tests
/// if there are no rows.
pub fn rows_begin_with_the_verdict()
    ensures { (first later : Summary) (rows : List ClashRow)
        → AreClashRows first later rows
        → (v : Verdict) → IsVerdict first later v ↔ TellVerdict rows v }
{}

/// The text of the conflicts exists for each exchange, and for any two of its entries or all of
/// them.
pub fn conflicts_come()
    ensures { (x : Exchange) (asked : Option EntryPair)
        → (text : List ℕ) × AreConflicts x asked text }
{}

/// The text of the conflicts is unique. So the LIMIT line is written exactly where the whole text
/// of a section does not fit.
pub fn conflicts_are_one()
    ensures { (x : Exchange) (asked : Option EntryPair) (one other : List ℕ)
        → AreConflicts x asked one → AreConflicts x asked other → one ≡ other }
{}
