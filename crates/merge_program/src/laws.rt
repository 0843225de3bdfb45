// Theorems about the answers to all arguments, stated as contracts.
ghost use Rattle.std.specs.Prelude.{◌≡◌, ◌≤◌, List, [], ◌∷◌, Some, length};
ghost use Rattle.plex_limits.specs.declared.limits.TheConstants.{MOST_BYTES};
ghost use Rattle.plex_io.specs.Files.{Files};
ghost use Rattle.answer_meaning.specs.Given.{exchange_at};
ghost use Rattle.answer_meaning.specs.RunAnswer.{run_of};
ghost use Rattle.answer_meaning.specs.TimedAnswer.{timed_of};
ghost use Rattle.answer_meaning.specs.declared.answer.Answer.{Answer};
ghost use Rattle.command_words.specs.declared.status.Status.TheVariants.{Done};
ghost use Rattle.command_words.specs.Words.{Word};
ghost use Rattle.command_words.specs.declared.command.TimedWords.{TimedWords};
ghost use Rattle.merge_program.specs.Merge.{IsMergeAnswer};

/// If the answer to an exchange, a signal file and a table is `Done` and its text is within the
/// size limit of files, then `run` with that text as the signal file has the same answer as `timed`
/// with all three files.
pub fn merged_files_run()
    ensures { (w : TimedWords) (files others : Files) (name : Word) (a : Answer)
        → IsMergeAnswer (w.run.exchange ∷ w.run.signals ∷ w.table ∷ []) files a
        → a.status ≡ Done
        → exchange_at w.run.exchange others ≡ exchange_at w.run.exchange files
        → others name ≡ Some a.text
        → length a.text ≤ MOST_BYTES
        → run_of (record w.run { signals = name }) others ≡ timed_of w files }
{}

/// For all arguments and files there is an answer, a status and a text.
pub fn an_answer_comes()
    ensures { (words : List Word) (files : Files)
        → (answer : Answer) × IsMergeAnswer words files answer }
{}

/// Two answers to the same arguments and files have the same status and the same text.
pub fn answers_are_one()
    ensures { (words : List Word) (files : Files) (one other : Answer)
        → IsMergeAnswer words files one → IsMergeAnswer words files other → one ≡ other }
{}
