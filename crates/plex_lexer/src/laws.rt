// What holds of the tokens of every text.
ghost use Rattle.std.specs.Prelude.{◌≡◌, ◌≤◌, ◌+◌, List, ℕ, Ok, All, length};
ghost use Rattle.plex_lexer.specs.declared.token.Token.{Token};
ghost use Rattle.plex_lexer.specs.Lexed.{tokens_of};
ghost use Rattle.plex_lexer.specs.Lines.{IsOnItsLine};

/// A token begins at a byte of the text, and its line is 1 plus the number of LF bytes before that
/// byte.
pub fn tokens_are_on_their_lines()
    ensures { (text : List ℕ) (tokens : List Token) → tokens_of text ≡ Ok tokens →
        All (IsOnItsLine text) tokens }
{}

/// A token's line is at most 1 plus the number of the text's bytes.
pub fn lines_are_few()
    ensures { (text : List ℕ) (tokens : List Token) → tokens_of text ≡ Ok tokens →
        All (λ token. token.line ≤ 1 + length text) tokens }
{}
