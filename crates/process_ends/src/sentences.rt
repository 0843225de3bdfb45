// The message for each fault: its word, as in the output's line, and a sentence. docs/FORMATS.md
// has the same rows, and tools/sentences_table compares them: keep each row a pair of texts and
// each reason a text, after an arrow and in the order of the document.
use answer_meaning::{CertificateFault, FileFault, Rule};
use block_change::Misfit;
use job_table::TableRule;
use signal_file::SignalsRule;
use signal_trace::FilterRule;
use std::io::ErrorKind;
use text_rules::LinkRule;

/// The word of a fault, and the sentence that explains it.
pub type Row = (&'static str, &'static str);

/// For a number that no rule has.
const NO_RULE: Row = ("N", "no rule of a text");

/// The word and the sentence of a fault.
pub fn row_of(fault: FileFault) -> Row {
    match fault {
        FileFault::Source { which: _, fault } => source_row(fault.rule),
        FileFault::Signals(fault) => signals_row(fault.rule),
        FileFault::Certificate(fault) => certificate_row(fault),
        FileFault::Table(fault) => table_row(fault.rule),
        FileFault::Filter(fault) => filter_row(fault.rule),
        FileFault::Change(misfit) => change_row(misfit),
    }
}

/// For an exchange text.
fn source_row(rule: Rule) -> Row {
    match rule {
        Rule::TooLarge => ("TOOLARGE", "the text is over 16,777,216 bytes"),
        Rule::BadByte => ("BADBYTE", "a byte that begins no token"),
        Rule::BadNumber => ("BADNUMBER", "over 10 digits, or not below 2^32"),
        Rule::LongName => ("LONGNAME", "a word of over 31 bytes"),
        Rule::Unexpected => ("UNEXPECTED", "a token that does not fit there"),
        Rule::TooDeep => ("TOODEEP", "over 6 brackets or 12 statements in each other"),
        Rule::Ended => ("ENDED", "the text ends too soon"),
        Rule::Numbered(number) => numbered_row(number),
        Rule::Link(rule) => link_row(rule),
    }
}

/// For a rule of signals and blocks.
fn numbered_row(number: u8) -> Row {
    match number {
        1 => ("N1", "a name is declared twice"),
        2 => ("N2", "WIDTH is not 1 to 32"),
        3 => ("N3", "INIT does not fit the WIDTH"),
        4 => ("N4", "SIZE is not 1 to 65,535"),
        5 => ("N5", "over 24 temporaries in a block"),
        6 => ("N6", "a name is not declared as what is needed"),
        7 => ("N7", "the label of a GOTO is not in the block"),
        8 => ("N8", "FOR FIRST in no plain FILE"),
        9 => ("N9", "SEIZE or FREE in no FORLOPP FILE"),
        10 => ("N10", "the signal is of another kind, or not declared"),
        11 => ("N11", "more or fewer values than DATA says"),
        12 => ("N12", "a combined SEND and its RETRIEVE are not neighbours"),
        13 => ("N13", "over 64 operands in one statement"),
        14 => (
            "N14",
            "NEW FORLOPP behind another signal than a buffered one",
        ),
        15 => ("N15", "a number twice in a CASE"),
        16 => ("N16", "DATA is over 8"),
        17 => ("N17", "REFERENCE in an expression names no block"),
        _ => NO_RULE,
    }
}

/// For a rule of links.
fn link_row(rule: LinkRule) -> Row {
    match rule {
        LinkRule::NoReceiver => ("NORECEIVER", "no block receives what is sent"),
        LinkRule::NeedsReference => ("NEEDSREFERENCE", "several blocks receive it"),
        LinkRule::NotReceived => ("NOTRECEIVED", "the named block does not receive it"),
        LinkRule::NotInSurvey => ("NOTINSURVEY", "the survey lacks what is sent or entered"),
        LinkRule::TwoEnters => ("TWOENTERS", "a signal is entered twice"),
        LinkRule::NoEnter => ("NOENTER", "a signal is received and not entered"),
        LinkRule::Limit => ("LIMIT", "a limit of the whole text is passed"),
    }
}

/// For a signal file.
fn signals_row(rule: SignalsRule) -> Row {
    match rule {
        SignalsRule::TooLarge => ("TOOLARGE", "the file is over 16,777,216 bytes"),
        SignalsRule::BadLine => (
            "BADLINE",
            "a word is missing, too many, or no number; or ! that is not the first byte of the line",
        ),
        SignalsRule::UnknownSignal => ("UNKNOWNSIGNAL", "no single buffered signal has that name"),
        SignalsRule::UnknownBlock => ("UNKNOWNBLOCK", "no such block receives the signal"),
        SignalsRule::WrongData => ("WRONGDATA", "more or fewer values than DATA says"),
        SignalsRule::FallingCount => ("FALLINGCOUNT", "the count falls"),
        SignalsRule::BadAs => ("BADAS", "AS names no earlier line with a forlopp"),
    }
}

/// For a table of periodic signals. A fault that a signal file can have too gets the same row.
fn table_row(rule: TableRule) -> Row {
    match rule {
        TableRule::TooLarge => signals_row(SignalsRule::TooLarge),
        TableRule::BadLine => signals_row(SignalsRule::BadLine),
        TableRule::UnknownSignal => signals_row(SignalsRule::UnknownSignal),
        TableRule::UnknownBlock => signals_row(SignalsRule::UnknownBlock),
        TableRule::WrongData => signals_row(SignalsRule::WrongData),
        TableRule::BadRange => ("BADRANGE", "p or t is 0, or a count is too large"),
        TableRule::TooMany => ("TOOMANY", "over 1,000,000 signals together"),
    }
}

/// For a filter.
fn filter_row(rule: FilterRule) -> Row {
    match rule {
        FilterRule::TooLarge => signals_row(SignalsRule::TooLarge),
        FilterRule::BadLine => (
            "BADLINE",
            "the parts are in another order, or one lacks its word",
        ),
        FilterRule::UnknownBlock => ("UNKNOWNBLOCK", "no block has that name"),
        FilterRule::UnknownSignal => ("UNKNOWNSIGNAL", "no signal has that name"),
    }
}

/// Why a certificate is not accepted.
fn certificate_row(fault: CertificateFault) -> Row {
    match fault {
        CertificateFault::TooLarge => (
            "TOOLARGE",
            "the text is over 16,777,216 bytes: cut the exchange in two, or run without --cert",
        ),
        CertificateFault::BadText { line: _ } => (
            "BADTEXT",
            "it was cut or edited by hand: the reported line is not as stated",
        ),
        CertificateFault::WrongExchange {
            exchange: _,
            certificate: _,
        } => (
            "WRONGEXCHANGE",
            "it is that of another exchange, or this one has grown or shrunk since",
        ),
        CertificateFault::Strange { fact: _ } => (
            "STRANGE",
            "a fact speaks of an entry, a point, a slot or a value that the exchange has not",
        ),
        CertificateFault::Missing { fact: _ } => (
            "MISSING",
            "a statement has changed since, so that a fact follows which is not listed",
        ),
    }
}

/// For an exchange that cannot replace the present one: what it lacks.
fn change_row(misfit: Misfit) -> Row {
    match misfit {
        Misfit::Entry { entry: _ } => (
            "ENTRY",
            "the new exchange lacks the reported entry, or has it with another level or number of values",
        ),
        Misfit::File { file: _ } => (
            "FILE",
            "the new exchange lacks the reported FORLOPP FILE, or has a smaller one",
        ),
    }
}

/// Status 6: why a file could not be read.
pub fn read_reason(kind: Option<ErrorKind>) -> &'static str {
    match kind {
        Some(ErrorKind::NotFound | ErrorKind::NotADirectory) => "no such file",
        Some(ErrorKind::IsADirectory) => "it is a folder",
        Some(ErrorKind::PermissionDenied) => "no right to read it",
        Some(ErrorKind::InvalidFilename) => "its name is too long",
        _ => "its device failed",
    }
}

/// Status 7: why the output could not be written in full.
pub fn write_reason(kind: Option<ErrorKind>) -> &'static str {
    match kind {
        Some(ErrorKind::StorageFull | ErrorKind::QuotaExceeded) => "no space is left",
        Some(ErrorKind::FileTooLarge) => "a file may not be so large",
        Some(ErrorKind::BrokenPipe) => "nobody reads the pipe any more",
        _ => "it is closed, or its device failed",
    }
}
