// What the words of a command are, said by clauses.
ghost use Rattle.std.specs.Prelude.{◌≡◌, ◌↔◌, List, Some};
ghost use Rattle.command_words.specs.declared.command.Command.{Command};
ghost use Rattle.command_words.specs.Shapes.{IsShape};
ghost use Rattle.command_words.specs.Words.{Word, shape};

/// Words are read as a command exactly where they have its shape, and they have one shape at most.
pub fn words_are_of_one_shape()
    ensures read { (words : List Word) (c : Command) → (shape words ≡ Some c) ↔ IsShape words c }
    ensures one { (words : List Word) (a b : Command) → IsShape words a → IsShape words b → a ≡ b }
{}
