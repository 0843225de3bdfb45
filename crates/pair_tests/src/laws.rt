// What holds of conflicts, said by clauses.
ghost use Rattle.std.specs.Prelude.{◌≡◌};
ghost use Rattle.entry_summary.specs.declared.summary.Summary.{Summary};
ghost use Rattle.pair_tests.specs.declared.pair.Conflict.{Conflict};
ghost use Rattle.pair_tests.specs.Pairs.{IsFirstConflict};

/// Two summaries have at most one first conflict.
pub fn first_conflict_is_one()
    ensures { (first later : Summary) (c d : Conflict)
        → IsFirstConflict first later c → IsFirstConflict first later d → c ≡ d }
{}
