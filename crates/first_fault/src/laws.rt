// What a first fault is, said by clauses.
ghost use Rattle.std.specs.Prelude.{◌≡◌, ℕ, Bool, List};
ghost use Rattle.first_fault.specs.First.{IsFine, IsFirstFault};
ghost use Rattle.first_fault.specs.Told.{told_parts, HasAll, IsSo};

/// A text that is fine has no first fault, and two first faults of one text have the same line and
/// the same number of their rule.
pub fn first_faults_are_one<E, R>()
    ensures apart { (breaks : ℕ → E → R → Bool) (number : R → ℕ) (line : E → ℕ) (whole : List E)
        (rule : R) (on : ℕ) → IsFine breaks whole → IsFirstFault breaks number line whole rule on
        → ⊥ }
    ensures line { (breaks : ℕ → E → R → Bool) (number : R → ℕ) (line : E → ℕ) (whole : List E)
        (rule other : R) (on at : ℕ) → IsFirstFault breaks number line whole rule on
        → IsFirstFault breaks number line whole other at → on ≡ at }
    ensures number { (breaks : ℕ → E → R → Bool) (number : R → ℕ) (line : E → ℕ) (whole : List E)
        (rule other : R) (on at : ℕ) → IsFirstFault breaks number line whole rule on
        → IsFirstFault breaks number line whole other at → number rule ≡ number other }
{}

/// What is told of a text in parts is its first fault, and where nothing is told no event of it
/// breaks a rule.
pub fn first_faults_are_told<E, K, R>()
    ensures { (broken : R → K → E → Bool) (rules : List R) (number : R → ℕ) → HasAll number rules
        → (line : E → ℕ) (known : List (List E) → List E → List E → K) (parts : List (List E))
        → IsSo broken number line known parts (told_parts broken rules line known parts) }
{}
