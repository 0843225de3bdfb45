// What the words of the clauses mean, said by clauses.
ghost use Rattle.std.specs.Prelude.{◌≡◌, ◌≢◌, ◌↔◌, ℕ, false, List};
ghost use Rattle.machine_code.specs.Permits.{may_read, may_write};
ghost use Rattle.shared_store.specs.Loans.{Has, fresh, without, lent_out, seen_by};
ghost use Rattle.shared_store.specs.declared.view.Lent.{Lent};

/// A new loan has a number that no live loan has.
pub fn a_new_loan_has_a_number_of_its_own()
    ensures { (ls : List Lent) (l : Lent) → Has ls l → l.number ≢ fresh ls }
{}

/// Taking a loan back takes that number from the list, and nothing else.
pub fn one_loan_ends_alone()
    ensures { (n : ℕ) (ls : List Lent) (l : Lent) →
        Has (without n ls) l ↔ (Has ls l × (l.number ≢ n)) }
{}

/// The root may read a word exactly where no loan's permit lets it be written, and store it exactly
/// where none lets it be read or written.
pub fn the_root_may_touch_what_no_loan_may()
    ensures read { (ls : List Lent) (w : ℕ) →
        (lent_out ls w ≡ false) ↔ ((l : Lent) → Has ls l → may_write l.permit w ≡ false) }
    ensures store { (ls : List Lent) (w : ℕ) →
        (seen_by ls w ≡ false) ↔ ((l : Lent) → Has ls l → may_read l.permit w ≡ false) }
{}
