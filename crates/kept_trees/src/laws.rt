//! What trees keep, as an empty function.
ghost use Rattle.std.specs.Prelude.{◌≡◌, ℕ, List, Ok};
ghost use Rattle.plex_lexer.specs.Lexed.{tokens_of};
ghost use Rattle.plex_lexer.specs.declared.token.Token.{Token};
ghost use Rattle.plex_ast.specs.Grammar.{Sentence};
ghost use Rattle.plex_ast.specs.declared.tree.Tree.{Tree};
ghost use Rattle.kept_trees.specs.Keeps.{IsKept};

/// The tree that the tokens of a text spell has names that are names, numbers of 32 bits, and no
/// deeper nesting than allowed.
pub fn read_keeps()
    ensures { (text : List ℕ) (w : List Token) (t : Tree) → tokens_of text ≡ Ok w →
        Sentence t w → IsKept t }
{}
