// Theorems about all arguments and files, stated as contracts.
ghost use Rattle.std.specs.Prelude.{◌≡◌, List};
ghost use Rattle.plex_io.specs.Files.{Files};
ghost use Rattle.command_words.specs.Words.{Word};
ghost use Rattle.answer_meaning.specs.declared.answer.Answer.{Answer};
ghost use Rattle.conflicts_program.specs.Words.{IsConflictsAnswer};

/// For all arguments and files there is an answer, a status and a text. So what the program must
/// answer is always defined.
pub fn an_answer_comes()
    ensures { (words : List Word) (files : Files)
        → (answer : Answer) × IsConflictsAnswer words files answer }
{}

/// Two answers to the same arguments and files have the same status and the same text.
pub fn answers_are_one()
    ensures { (words : List Word) (files : Files) (one other : Answer)
        → IsConflictsAnswer words files one → IsConflictsAnswer words files other → one ≡ other }
{}
