// What a text is refused with.
ghost use Rattle.std.specs.Prelude.{◌≡◌, ℕ, Some};
ghost use Rattle.plex_ast.specs.declared.tree.Tree.{Tree as ATree};
ghost use Rattle.text_rules.specs.declared.rule.Rule.{Rule as ARule};
ghost use Rattle.text_rules.specs.Texts.{text_told, BreaksNoRule};
ghost use Rattle.front_end.specs.Firsts.{IsFine, IsFirstFault};

/// What is told of a text is its first fault: the least by phase, by place in the text, and by
/// number. Where nothing is told, no event of the text breaks a rule.
pub fn first_faults_are_told()
    ensures told { (t : ATree) (rule : ARule) (line : ℕ) → text_told t ≡ Some (rule, line) →
        IsFirstFault t rule line }
    ensures fine { (t : ATree) → BreaksNoRule t → IsFine t }
{}

/// A text has at most one first fault, and a text that breaks no rule has none.
pub fn a_text_has_one_fault()
    ensures one { (t : ATree) (rule other : ARule) (line on : ℕ) → IsFirstFault t rule line →
        IsFirstFault t other on → (rule ≡ other) × (line ≡ on) }
    ensures apart { (t : ATree) (rule : ARule) (line : ℕ) → IsFine t → IsFirstFault t rule line →
        ⊥ }
{}
