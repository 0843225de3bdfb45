// What the looks of names and of places have to do with each other, for every list of names.
ghost use Rattle.std.specs.Prelude.{◌≡◌, ◌≢◌, ◌<◌, ◌↔◌, List, ℕ, slice_get, Some, None};
ghost use Rattle.name_tables.specs.Rows.{NamesDiffer, place_of};

/// `find` and `name_of` are inverse where names differ: a name is found at the very place that has
/// it.
#[tactic(auto, using(crate::proofs::Places::found_where_it_stands))]
pub fn found_where_it_stands()
    ensures { (names : List (List ℕ)) (name : List ℕ) (i : ℕ) → NamesDiffer names →
        (place_of names name ≡ Some i) ↔ (slice_get names i ≡ Some name) }
{}

/// What is found is the first of that name.
pub fn found_is_first()
    ensures { (names : List (List ℕ)) (name : List ℕ) (i : ℕ) → place_of names name ≡ Some i →
        (slice_get names i ≡ Some name) × ((k : ℕ) → k < i → slice_get names k ≢ Some name) }
{}

/// A name is found nowhere exactly where no place has it.
#[tactic(auto, using(crate::proofs::Places::absent_where_none))]
pub fn absent_where_none()
    ensures { (names : List (List ℕ)) (name : List ℕ) → (place_of names name ≡ None) ↔
        ((i : ℕ) → slice_get names i ≢ Some name) }
{}
