// Theorems about the answers to all commands, stated as contracts.
ghost use Rattle.std.specs.Prelude.{◌≡◌, ◌≤◌, ◌<◌, ◌^◌, ℕ, List, [], Some, Ok, length, map};
ghost use Rattle.std.specs.List.{AllByRecursion};
ghost use Rattle.plex_limits.specs.declared.limits.TheConstants.{MOST_BYTES};
ghost use Rattle.plex_io.specs.Files.{Files};
ghost use Rattle.exchange_model.specs.declared.exchange.Exchange.{Exchange};
ghost use Rattle.signal_file.specs.declared.line.Line.{Line};
ghost use Rattle.signal_file.specs.Lines.{signal_lines};
ghost use Rattle.source_meaning.specs.Valid.{LinesFit};
ghost use Rattle.run_books.specs.Lines.{coming_of};
ghost use Rattle.job_table.specs.Fit.{AreNumberedFrom};
ghost use Rattle.job_table.specs.Writing.{written_out};
ghost use Rattle.answer_meaning.specs.Given.{exchange_at, lines_at};
ghost use Rattle.answer_meaning.specs.RunAnswer.{run_of};
ghost use Rattle.answer_meaning.specs.TimedAnswer.{merged_at, timed_of};
ghost use Rattle.command_words.specs.Words.{Word};
ghost use Rattle.command_words.specs.declared.command.TimedWords.{TimedWords};

/// Where `timed` makes a run, `run` makes the same run from a signal file of the merged lines, if
/// that file is within the size limit.
pub fn timed_runs_are_runs()
    ensures { (w : TimedWords) (files others : Files) (name : Word) (x : Exchange)
        (lines all : List Line)
        → exchange_at w.run.exchange files ≡ Ok x
        → lines_at x w.run.signals files ≡ Ok lines
        → merged_at x lines w.table files ≡ Ok all
        → exchange_at w.run.exchange others ≡ Ok x
        → others name ≡ Some (written_out x all)
        → length (written_out x all) ≤ MOST_BYTES
        → run_of (record w.run { signals = name }) others ≡ timed_of w files }
{}

/// Lines written as a text are read back unchanged, for the exchange of every text: they fit it,
/// are numbered from 1, are fewer than 2^32, and have counts below 2^32. The merged lines of a
/// signal file and a table are such lines.
pub fn written_lines_of_texts_are_read()
    ensures lines { (name : Word) (files : Files) (x : Exchange) (lines : List Line)
        → exchange_at name files ≡ Ok x
        → LinesFit x [] (map coming_of lines) → AreNumberedFrom 1 lines
        → AllByRecursion (λ (l : Line). l.after < 2 ^ 32) lines → length lines < 2 ^ 32
        → signal_lines x (written_out x lines) ≡ Ok lines }
    ensures merged { (w : TimedWords) (files : Files) (x : Exchange) (lines all : List Line)
        → exchange_at w.run.exchange files ≡ Ok x
        → lines_at x w.run.signals files ≡ Ok lines
        → merged_at x lines w.table files ≡ Ok all
        → signal_lines x (written_out x all) ≡ Ok all }
{}
