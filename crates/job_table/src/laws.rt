// What holds of the lines of every signal file and every table that are merged, said by clauses.
ghost use Rattle.std.specs.Prelude.{◌≡◌, ◌<◌, ◌^◌, ◌++◌, ◌∷◌, ℕ, List, [], length, map};
ghost use Rattle.std.specs.Prelude.{Err, Ok, Some, slice_get};
ghost use Rattle.std.specs.List.{AllByRecursion};
ghost use Rattle.exchange_model.specs.declared.exchange.Exchange.{Exchange};
ghost use Rattle.exchange_model.specs.Kept.{IsExchange};
ghost use Rattle.signal_file.specs.declared.line.Line.{Line};
ghost use Rattle.signal_file.specs.Lines.{signal_lines};
ghost use Rattle.source_meaning.specs.Valid.{LinesFit};
ghost use Rattle.run_books.specs.Lines.{coming_of};
ghost use Rattle.job_table.specs.declared.period.Period.{Period};
ghost use Rattle.job_table.specs.declared.fault.TableFault.{TableFault};
ghost use Rattle.job_table.specs.Fit.{AreNumberedFrom, HasWords, IsNamed, Rises, StandOnce};
ghost use Rattle.job_table.specs.Merged.{line_count, merged};
ghost use Rattle.job_table.specs.Writing.{written_out};
ghost use Rattle.job_table.specs.Rules.{added};
ghost use Rattle.job_table.specs.Table.{beside, counted_of, periods_behind, table_periods};

/// The lines of a signal file and the periods of a table that have no fault are merged to lines
/// that fit the exchange, as those of one signal file do. They are numbered from 1, there are as
/// many as signals in both files, and their counts are below 2^32.
pub fn merged_lines_fit()
    ensures fit { (x : Exchange) (signals table : List ℕ)
        (lines : List Line) (periods : List Period)
        → signal_lines x signals ≡ Ok lines → table_periods x (length lines) table ≡ Ok periods
        → LinesFit x [] (map coming_of (merged lines periods)) }
    ensures numbers { (lines : List Line) (periods : List Period)
        → AreNumberedFrom 1 (merged lines periods) }
    ensures many { (lines : List Line) (periods : List Period)
        → length (merged lines periods) ≡ line_count lines periods }
    ensures counts { (x : Exchange) (signals table : List ℕ)
        (lines : List Line) (periods : List Period)
        → signal_lines x signals ≡ Ok lines → table_periods x (length lines) table ≡ Ok periods
        → AllByRecursion (λ (l : Line). l.after < 2 ^ 32) (merged lines periods) }
{}

/// What is written out is read again: lines that fit an exchange whose names are words, that are
/// numbered from 1 and fewer than 2^32, and whose counts are below 2^32, are the signal lines of
/// the text that they are written to. So are merged lines.
pub fn written_lines_are_read()
    ensures lines { (x : Exchange) (lines : List Line) → IsExchange x → HasWords x
        → LinesFit x [] (map coming_of lines) → AreNumberedFrom 1 lines
        → AllByRecursion (λ (l : Line). l.after < 2 ^ 32) lines → length lines < 2 ^ 32
        → signal_lines x (written_out x lines) ≡ Ok lines }
    ensures merged { (x : Exchange) (signals table : List ℕ)
        (lines : List Line) (periods : List Period)
        → IsExchange x → HasWords x → length lines < 2 ^ 32
        → signal_lines x signals ≡ Ok lines → table_periods x (length lines) table ≡ Ok periods
        → signal_lines x (written_out x (merged lines periods)) ≡ Ok (merged lines periods) }
{}

/// Merging puts lines in order, and does nothing else. No count falls. Of each count the merged
/// lines are those of the signal file and then the signals of the periods in turn, each once and in
/// the order in which they stood, whatever their own numbers are; a line that takes the forlopp of
/// another names it by its new number, and under that number the other one stands.
pub fn merging_keeps_all_lines()
    ensures rises { (lines : List Line) (periods : List Period) → Rises (merged lines periods) }
    ensures once { (lines : List Line) (periods : List Period) → StandOnce lines periods }
    ensures named { (x : Exchange) (signals table : List ℕ)
        (lines : List Line) (periods : List Period)
        → signal_lines x signals ≡ Ok lines → table_periods x (length lines) table ≡ Ok periods
        → (i : ℕ) (l : Line) → slice_get lines i ≡ Some l → IsNamed lines periods l }
{}

/// The first faulty line of a table decides: where the lines before it are right, its first fault
/// is that of the table, whatever stands behind it.
pub fn first_faulty_line_decides()
    ensures { (x : Exchange) (signals : ℕ) (front rest : List (List ℕ)) (line : List ℕ)
        (list : List Period) (f : TableFault)
        → periods_behind x (beside signals) front ≡ Ok list
        → added x (counted_of signals front list) line ≡ Err f
        → periods_behind x (beside signals) (front ++ line ∷ rest) ≡ Err f }
{}
