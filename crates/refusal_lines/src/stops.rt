// The lines that are written instead of a report, and the stops that report them.
ghost use Rattle.std.specs.Prelude.{◌≡◌, ◌++◌, IfOk, OnOk};
ghost use Rattle.std.specs.List.{flat_map};
ghost use Rattle.answer_meaning.specs.Stages.{IsStopOf, IsStopWith};
ghost use Rattle.answer_meaning.specs.Text.{certificate_refusal, certificate_text, fact_text};
ghost use Rattle.answer_meaning.specs.Text.{filter_refusal, link_name, numbered_name};
ghost use Rattle.answer_meaning.specs.Text.{other_exchange, rule_line, rule_name, shape_numbers};
ghost use Rattle.answer_meaning.specs.Text.{signals_refusal, source_refusal, source_words, spaced};
ghost use Rattle.answer_meaning.specs.Text.{table_refusal};

use answer_meaning::{Answer, CertificateFault, FileFault, Rule, SourceFault, Stop, Which};
use certificate_text::{Shape, print_fact};
use command_words::Status;
use flow_points::Fact;
use job_table::TableFault;
use plex_num::{Memory, Seq, print_number};
use signal_file::SignalsFault;
use signal_trace::FilterFault;
use std::alloc::Global;
use text_parts::Text;
use text_rules::LinkRule;

/// The stop at a fault of an exchange text.
#[tactic(auto, unfolding(answer_meaning::specs::Text::source_refusal), using(answer_meaning::proofs::Stages::told_so))]
pub fn source_stop(alloc: Global, which: Which, fault: SourceFault) -> Stop
    ensures { IsStopOf (source_refusal which fault) result }
{
    let line = source_line(alloc, source_words(which), fault);
    stop_with(
        alloc,
        FileFault::Source { which, fault },
        Status::Source,
        line,
    )
}

/// The words before the line of a fault of an exchange text.
fn source_words(which: Which) -> &'static [u8]
    ensures { result.now ≡ source_words which }
{
    match which {
        Which::First => b"SOURCE line ",
        Which::New => b"NEWSOURCE line ",
    }
}

/// The stop at a fault of a signal file.
#[tactic(auto, unfolding(answer_meaning::specs::Text::signals_refusal), using(answer_meaning::proofs::Stages::told_so))]
pub fn signals_stop(alloc: Global, fault: SignalsFault) -> Stop
    ensures { IsStopOf (signals_refusal fault) result }
{
    let rule = fault.rule.word();
    let line = line_of(alloc, b"SIGNALS line ", fault.line, rule);
    stop_with(alloc, FileFault::Signals(fault), Status::Signals, line)
}

/// The stop at a fault of a certificate.
#[tactic(auto, unfolding(answer_meaning::specs::Text::certificate_refusal), using(answer_meaning::proofs::Stages::told_so))]
pub fn certificate_stop(alloc: Global, fault: CertificateFault) -> Stop
    ensures { IsStopOf (certificate_refusal fault) result }
{
    let line = certificate_line(alloc, fault);
    stop_with(
        alloc,
        FileFault::Certificate(fault),
        Status::Certificate,
        line,
    )
}

/// The stop at a fault of a table.
#[tactic(auto, unfolding(answer_meaning::specs::Text::table_refusal), using(answer_meaning::proofs::Stages::told_so))]
pub fn table_stop(alloc: Global, fault: TableFault) -> Stop
    ensures { IsStopOf (table_refusal fault) result }
{
    let rule = fault.rule.word();
    let line = line_of(alloc, b"TABLE line ", fault.line, rule);
    stop_with(alloc, FileFault::Table(fault), Status::Table, line)
}

/// The stop at a fault of a filter.
#[tactic(auto, unfolding(answer_meaning::specs::Text::filter_refusal), using(answer_meaning::proofs::Stages::told_so))]
pub fn filter_stop(alloc: Global, fault: FilterFault) -> Stop
    ensures { IsStopOf (filter_refusal fault) result }
{
    let rule = fault.rule.word();
    let line = line_of(alloc, b"FILTER line ", fault.line, rule);
    stop_with(alloc, FileFault::Filter(fault), Status::Filter, line)
}

/// The stop with this fault, status and line, or out of memory if there was none for the line.
fn stop_with(alloc: Global, fault: FileFault, status: Status, line: Result<Seq<u8>, Memory>) -> Stop
    ensures { IsStopWith fault status line result }
{
    match line {
        Ok(text) => Stop::Told {
            answer: Answer {
                status,
                text: Text::whole(alloc, text),
            },
            fault,
        },
        Err(Memory) => Stop::Memory,
    }
}

/// These words, the line's number, and the fault's rule.
fn source_line(alloc: Global, words: &[u8], fault: SourceFault) -> Result<Seq<u8>, Memory>
    ensures { IfOk result (λ text. text ≡ rule_line words.now fault.line (rule_name fault.rule)) }
{
    let mut text = Seq::copied(alloc, words)?;
    print_number(u64::from(fault.line), &mut text)?;
    text.append(b" ")?;
    add_rule(&mut text, fault.rule)?;
    text.append(b"\n")?;
    Ok(text)
}

/// These words, the line's number, and the rule's word.
fn line_of(alloc: Global, words: &[u8], line: u32, rule: &[u8]) -> Result<Seq<u8>, Memory>
    ensures { IfOk result (λ text. text ≡ rule_line words.now line rule.now) }
{
    let mut text = Seq::copied(alloc, words)?;
    print_number(u64::from(line), &mut text)?;
    text.append(b" ")?;
    text.append(rule)?;
    text.append(b"\n")?;
    Ok(text)
}

/// The line of a certificate's refusal.
fn certificate_line(alloc: Global, fault: CertificateFault) -> Result<Seq<u8>, Memory>
    ensures { IfOk result (λ text. text ≡ certificate_text fault) }
{
    match fault {
        CertificateFault::TooLarge => line_of(alloc, b"CERTIFICATE line ", 0, b"TOOLARGE"),
        CertificateFault::BadText { line } => {
            line_of(alloc, b"CERTIFICATE line ", line, b"BADTEXT")
        }
        CertificateFault::WrongExchange {
            exchange,
            certificate,
        } => other_exchange_line(alloc, exchange, certificate),
        CertificateFault::Strange { fact } => fact_line(alloc, b"CERTIFICATE STRANGE ", fact),
        CertificateFault::Missing { fact } => fact_line(alloc, b"CERTIFICATE MISSING ", fact),
    }
}

/// `CERTIFICATE WRONGEXCHANGE` and the numbers of both shapes.
fn other_exchange_line(
    alloc: Global,
    exchange: Shape,
    certificate: Shape,
) -> Result<Seq<u8>, Memory>
    ensures { IfOk result (λ text. text ≡ other_exchange exchange certificate) }
{
    let mut text = Seq::copied(alloc, b"CERTIFICATE WRONGEXCHANGE")?;
    add_shape(&mut text, exchange)?;
    text.append(b" AND")?;
    add_shape(&mut text, certificate)?;
    text.append(b"\n")?;
    Ok(text)
}

/// Appends the numbers of a shape, each after a space.
fn add_shape(text: &mut Seq<u8>, shape: Shape) -> Result<(), Memory>
    ensures { OnOk result (text.new ≡ text.old ++ flat_map spaced (shape_numbers shape)) }
{
    let numbers = [
        shape.signals,
        shape.blocks,
        shape.points,
        shape.cells,
        shape.entries,
        shape.references,
    ];
    add_numbers(text, &numbers)
}

/// Appends numbers, each after a space.
fn add_numbers(text: &mut Seq<u8>, numbers: &[u32]) -> Result<(), Memory>
    ensures { OnOk result (text.new ≡ text.old ++ flat_map spaced numbers.now) }
{
    for number in numbers {
        add_spaced(text, *number)?;
    }
    Ok(())
}

/// Appends a space and a number.
#[tactic(auto, using(answer_meaning::proofs::Stages::two_pieces))]
fn add_spaced(text: &mut Seq<u8>, number: u32) -> Result<(), Memory>
    ensures { OnOk result (text.new ≡ text.old ++ spaced number) }
{
    text.append(b" ")?;
    print_number(u64::from(number), text)?;
    Ok(())
}

/// These words, then the line of a fact.
fn fact_line(alloc: Global, words: &[u8], fact: Fact) -> Result<Seq<u8>, Memory>
    ensures { IfOk result (λ text. text ≡ fact_text words.now fact) }
{
    let mut text = Seq::copied(alloc, words)?;
    print_fact(&mut text, fact)?;
    text.append(b"\n")?;
    Ok(text)
}

/// Appends `N` and the number of a rule.
#[tactic(auto, using(answer_meaning::proofs::Stages::two_pieces))]
fn add_number(text: &mut Seq<u8>, number: u8) -> Result<(), Memory>
    ensures { OnOk result (text.new ≡ text.old ++ numbered_name number) }
{
    text.append(b"N")?;
    print_number(u64::from(number), text)?;
    Ok(())
}

/// Appends the word of a rule.
fn add_rule(text: &mut Seq<u8>, rule: Rule) -> Result<(), Memory>
    ensures { OnOk result (text.new ≡ text.old ++ rule_name rule) }
{
    match rule {
        Rule::TooLarge => text.append(b"TOOLARGE"),
        Rule::BadByte => text.append(b"BADBYTE"),
        Rule::BadNumber => text.append(b"BADNUMBER"),
        Rule::LongName => text.append(b"LONGNAME"),
        Rule::Unexpected => text.append(b"UNEXPECTED"),
        Rule::Ended => text.append(b"ENDED"),
        Rule::TooDeep => text.append(b"TOODEEP"),
        Rule::Numbered(number) => add_number(text, number),
        Rule::Link(rule) => text.append(link_word(rule)),
    }
}

/// The word of a rule of links.
fn link_word(rule: LinkRule) -> &'static [u8]
    ensures { result.now ≡ link_name rule }
{
    match rule {
        LinkRule::NoReceiver => b"NORECEIVER",
        LinkRule::NeedsReference => b"NEEDSREFERENCE",
        LinkRule::NotReceived => b"NOTRECEIVED",
        LinkRule::NotInSurvey => b"NOTINSURVEY",
        LinkRule::TwoEnters => b"TWOENTERS",
        LinkRule::NoEnter => b"NOENTER",
        LinkRule::Limit => b"LIMIT",
    }
}
