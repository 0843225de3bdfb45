//! What follows from the contract of `parse` and from the grammar, as empty functions.
ghost use Rattle.std.specs.Prelude.{◌≡◌, ◌↔◌, ℕ, List};
ghost use Rattle.plex_lexer.specs.declared.token.Token.{Token};
ghost use Rattle.plex_ast.specs.Grammar.{Sentence};
ghost use Rattle.plex_ast.specs.declared.tree.Tree.{Tree};
ghost use Rattle.plex_parser.specs.Parses.{parsed, EndsEarly, TooDeepAt, UnexpectedAt};
ghost use Rattle.plex_parser.specs.declared.parser.ParseFault.TheVariants.{Ended, TooDeep};
ghost use Rattle.plex_parser.specs.declared.parser.ParseFault.TheVariants.{Unexpected};
ghost use Rattle.std.specs.Prelude.{Ok, Err};

/// A list of tokens spells at most one tree.
pub fn one_tree()
    ensures { (w : List Token) (t s : Tree) → Sentence t w → Sentence s w → t ≡ s }
{}

/// The answer is a tree exactly where the tokens spell it.
pub fn ok_is_spelled()
    ensures { (w : List Token) (t : Tree) → (parsed w ≡ Ok t ↔ Sentence t w) }
{}

/// The answer is that the tokens end too soon exactly where all of them begin a sentence and are
/// none.
pub fn ended_is_ended()
    ensures { (w : List Token) → (parsed w ≡ Err Ended ↔ EndsEarly w) }
{}

/// A token is answered as nested too deep exactly where it is the first that does not fit, and
/// would without limits.
pub fn too_deep_is_too_deep()
    ensures { (w : List Token) (i : ℕ) → (parsed w ≡ Err (TooDeep i) ↔ TooDeepAt w i) }
{}

/// A token is answered as unexpected exactly where it is the first that does not fit, and would not
/// without limits.
pub fn unexpected_is_unexpected()
    ensures { (w : List Token) (i : ℕ) → (parsed w ≡ Err (Unexpected i) ↔ UnexpectedAt w i) }
{}
