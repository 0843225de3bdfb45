// What the words of the definitions mean, for every text and every code.
ghost use Rattle.std.specs.Prelude.{◌≡◌, ◌≤◌, List, ℕ, length};
ghost use Rattle.std.specs.List.{flat_map};
ghost use Rattle.machine_code.specs.Coded.{Code};
ghost use Rattle.listing.specs.Faults.{HasBadLine, HasBadOperand};
ghost use Rattle.listing.specs.Listing.{CodeFits, IsListing, code_text};
ghost use Rattle.text_lines.specs.Lines.{lines_in};

/// What is printed is the listing of the code that was printed.
pub fn listing_is_of_its_code()
    ensures { (code : Code) → CodeFits code → IsListing (code_text code) code }
{}

/// A text is the listing of one code at most: reading what was printed gives the code.
pub fn text_has_one_code()
    ensures { (text : List ℕ) (c d : Code) → IsListing text c → IsListing text d → c ≡ d }
{}

/// Each code has one spelling: two texts that are read as the same code are the same text.
pub fn code_has_one_listing()
    ensures { (t u : List ℕ) (code : Code) → IsListing t code → IsListing u code → t ≡ u }
{}

/// The lines of a text, one after the other, are the text.
pub fn lines_are_the_text()
    ensures { (text : List ℕ) → flat_map (λ line. line) (lines_in text) ≡ text }
{}

/// A fault is at one of the lines of the text, or behind its last LF.
pub fn faults_are_at_lines()
    ensures bad_line { (text : List ℕ) (l : ℕ) → HasBadLine text l →
        (1 ≤ l) × (l ≤ length (lines_in text)) }
    ensures bad_operand { (text : List ℕ) (l : ℕ) → HasBadOperand text l →
        (1 ≤ l) × (l ≤ length (lines_in text)) }
{}
