ghost use Rattle.std.specs.Prelude.{◌≡◌, ◌++◌, IfOk, OnOk};
ghost use Rattle.std.specs.Fmt.{decimal};
ghost use Rattle.run_books.specs.Accounts.{with_words};
ghost use Rattle.run_books.specs.Events.{ending_of};
ghost use Rattle.report_text.specs.Report.{end_line, report_text, written};

use crate::events::add_events;
use crate::forlopps::add_holders;
use crate::stored::{add_fields, add_variables};
use exchange_model::Exchange;
use plex_num::{Memory, Seq, add_number};
use run_books::{Books, Ending};
use std::alloc::Global;
use text_parts::Text;

/// The text of the report of a run of this exchange that has left these books and these stored
/// words, in the order of the cells, and that has ended so. The books give up their events, whose
/// memory goes as they are written. Memory is the only reason for an error.
pub fn report(
    alloc: Global,
    exchange: &Exchange,
    books: &mut Books,
    words: &Seq<u32>,
    ending: Ending,
) -> Result<Text, Memory>
    ensures { IfOk result (λ text. text
        ≡ report_text exchange.now (with_words books.old.state words.now) (ending_of ending)) }
{
    let mut text = Text::new(alloc);
    add_report(&mut text, exchange, books, words, ending)?;
    Ok(text)
}

/// Appends the same text.
pub fn add_report(
    text: &mut Text,
    exchange: &Exchange,
    books: &mut Books,
    words: &Seq<u32>,
    ending: Ending,
) -> Result<(), Memory>
    ensures { OnOk result (text.new ≡ text.old
        ++ report_text exchange.now (with_words books.old.state words.now) (ending_of ending)) }
{
    add_events(text, exchange, books.take_events())?;
    add_counted(text, b"JOBS ", books.ended())?;
    add_variables(text, exchange, words.as_slice())?;
    add_fields(text, exchange, words.as_slice())?;
    add_holders(text, exchange, books.chains())?;
    add_ending(text, ending)?;
    Ok(())
}

/// A line of a word and a number.
pub(crate) fn add_counted(text: &mut Text, word: &[u8], number: u64) -> Result<(), Memory>
    ensures { OnOk result (text.new ≡ text.old ++ written (word.now ++ decimal number)) }
{
    let mut end = text.take_end();
    add_number(&mut end, word, number)?;
    end.append(b"\n")?;
    text.put(end)?;
    Ok(())
}

/// How the run ended.
pub(crate) fn add_ending(text: &mut Text, ending: Ending) -> Result<(), Memory>
    ensures { OnOk result (text.new ≡ text.old ++ written (end_line (ending_of ending))) }
{
    match ending {
        Ending::Done => text.append(b"END DONE\n"),
        Ending::Restart => text.append(b"END RESTART\n"),
        Ending::Limit => text.append(b"END LIMIT\n"),
    }
}
