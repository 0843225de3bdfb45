// The lines of a signal file, merged with the signals of a table.
ghost use Rattle.std.specs.Prelude.{◌≡◌, ◌≤◌, ◌<◌, ◌^◌, IfOk, IfSome, length};
ghost use Rattle.plex_limits.specs.declared.limits.TheConstants.{MOST_BYTES};
ghost use Rattle.answer_meaning.specs.Stages.{Comes, ReadAs};
ghost use Rattle.answer_meaning.specs.TimedAnswer.{merged_at, merged_of_file};
ghost use Rattle.answer_meaning.specs.Lines.{AreOfText, AreRead};

use crate::files::text_in;
use answer_meaning::{KnownExchange, Stop};
use job_table::{TableFault, TableRule, merge, read_table};
use plex_io::{Shelf, Word};
use plex_num::Seq;
use refusal_lines::table_stop;
use signal_file::{Known, Line};
use std::alloc::Global;

/// The lines of a signal file and the signals of a table's file, as one list. Stops where the file
/// is missing or cannot be read, at the table's first faulty line, or out of memory.
#[tactic(auto, using(answer_meaning::proofs::Stages::comes_rules))]
pub fn merged_in<S: Shelf>(
    alloc: Global,
    shelf: &mut S,
    known: &KnownExchange,
    lines: &Seq<Line>,
    name: &Word,
) -> Result<Seq<Line>, Stop>
    requires of_text { AreOfText known.now.exchange lines.now }
    requires few { length lines.now < 2 ^ 32 }
    ensures comes { Comes (S.held shelf.old) (merged_at known.now.exchange lines.now name.now)
        (S.faults shelf.old) (S.faults shelf.new) result }
    ensures kept { S.held shelf.new ≡ S.held shelf.old }
    ensures read { IfOk result (AreRead known.now.exchange) }
{
    let text = text_in(alloc, shelf, name)?;
    merged_of_file(alloc, known, lines, &text)
}

/// The same for the text of a table; `None` is a text above the size limit.
#[tactic(auto, using(crate::proofs::Tables::table_rules, answer_meaning::proofs::Stages::reads_rules, answer_meaning::proofs::Stages::refused_rules))]
fn merged_of_file(
    alloc: Global,
    known: &KnownExchange,
    lines: &Seq<Line>,
    text: &Option<Seq<u8>>,
) -> Result<Seq<Line>, Stop>
    requires of_text { AreOfText known.now.exchange lines.now }
    requires few { length lines.now < 2 ^ 32 }
    requires size { IfSome text.now (λ t. length t ≤ MOST_BYTES) }
    ensures reads { ReadAs (merged_of_file known.now.exchange lines.now text.now) result }
    ensures read { IfOk result (AreRead known.now.exchange) }
{
    let Some(text) = text else {
        let rule = TableRule::TooLarge;
        return Err(table_stop(alloc, TableFault { line: 0, rule }));
    };
    let reader = Known {
        exchange: &known.exchange,
        names: &known.names,
    };
    match read_table(alloc, &reader, lines, text.as_slice())? {
        Ok(periods) => {
            let all = merge(alloc, lines, &periods)?;
            Ok(all)
        }
        Err(fault) => Err(table_stop(alloc, fault)),
    }
}
