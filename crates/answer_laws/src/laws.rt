// Theorem, stated as a contract: answers are unique.
ghost use Rattle.std.specs.Prelude.{◌≡◌, List};
ghost use Rattle.plex_io.specs.Files.{Files};
ghost use Rattle.command_words.specs.Words.{Word};
ghost use Rattle.answer_meaning.specs.Answer.{IsAnswer};
ghost use Rattle.answer_meaning.specs.declared.answer.Answer.{Answer};

/// Two answers to the same arguments and files have the same status and the same text. This holds
/// for `analyse`, `certify`, a run with a certificate, and `change` too, whose definitions are not
/// functions but state properties of the answer.
pub fn answers_are_one()
    ensures { (words : List Word) (files : Files) (one other : Answer)
        → IsAnswer words files one → IsAnswer words files other → one ≡ other }
{}
