// What a list of touches leaves, and what the records of all chains are, said by clauses.
ghost use Rattle.std.specs.Prelude.{◌≡◌, ℕ, ◌<◌, List, ◌∷◌, ◌++◌, flat_map, length, slice_index};
ghost use Rattle.std.specs.FinMap as map;
ghost use Rattle.job_types.specs.Forlopps.{ChainMap, all_records, chain_at};
ghost use Rattle.job_types.specs.Touches.{stored, NoStore};
ghost use Rattle.job_types.specs.declared.touch.Touch.{Touch};
ghost use Rattle.job_types.specs.declared.touch.Touch.TheVariants.{Store};

/// After a list of touches a word has the value that was stored to it last, and where none was, the
/// value that it had before.
pub fn last_store_counts()
    ensures last { (a b : List Touch) (vs : List ℕ) (w x : ℕ) → w < length vs → NoStore w b →
        slice_index (stored vs (a ++ Store w x ∷ b)) w ≡ x }
    ensures none { (ts : List Touch) (vs : List ℕ) (w : ℕ) → NoStore w ts →
        slice_index (stored vs ts) w ≡ slice_index vs w }
{}

/// All records are those of the numbers that hold some, chain by chain, as the numbers rise.
pub fn chains_by_number()
    ensures { (m : ChainMap) → all_records m ≡ flat_map (chain_at m) (map.keys m) }
{}
