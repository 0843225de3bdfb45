// The first fault of a file: of an exchange text, of a certificate, or of any file.

use block_change::Misfit;
use certificate_text::Shape;
use flow_points::Fact;
use job_table::TableFault;
use signal_file::SignalsFault;
use signal_trace::FilterFault;
use text_rules::LinkRule;

/// Which of a command's exchange texts.
#[derive(Clone, Copy)]
pub enum Which {
    /// The one to start with.
    First,
    /// The one that replaces it while the exchange runs.
    New,
}

/// The first fault of an exchange text.
#[derive(Clone, Copy, Debug)]
pub struct SourceFault {
    /// The line of the fault, from 1; 0 if it has none.
    pub line: u32,
    pub rule: Rule,
}

/// The rules, of which the first one broken is reported (docs/FORMATS.md, Refusals).
#[derive(Clone, Copy, Debug)]
pub enum Rule {
    /// The text has more than 16,777,216 bytes.
    TooLarge,
    /// A byte starts no token.
    BadByte,
    /// A number has more than 10 digits, or is not below 2^32.
    BadNumber,
    /// A word has more than 31 bytes.
    LongName,
    /// A token is not allowed there.
    Unexpected,
    /// The text ends too soon.
    Ended,
    /// A token that only deeper nesting of brackets or statements would allow.
    TooDeep,
    /// A rule of signals or blocks, by its number from 1 to 17 (docs/LANGUAGE.md, Rules).
    Numbered(u8),
    /// A rule of links, or a limit (docs/LANGUAGE.md, Rules).
    Link(LinkRule),
}

/// Why a certificate is refused: the first of these that applies.
#[derive(Clone, Copy)]
pub enum CertificateFault {
    /// The text has more than 16,777,216 bytes.
    TooLarge,
    /// This line, from 1, is not well-formed, or the text ends before it.
    BadText { line: u32 },
    /// The certificate states another shape than the exchange has.
    WrongExchange { exchange: Shape, certificate: Shape },
    /// The first fact that is not one of the exchange.
    Strange { fact: Fact },
    /// The least fact that a rule derives from the certificate's and that is not in it.
    Missing { fact: Fact },
}

/// The first fault of a command's files, which the answer reports.
#[derive(Clone, Copy)]
pub enum FileFault {
    /// A fault of an exchange text.
    Source { which: Which, fault: SourceFault },
    /// A fault of the signal file.
    Signals(SignalsFault),
    /// A fault of the certificate.
    Certificate(CertificateFault),
    /// A fault of the table of periodic signals.
    Table(TableFault),
    /// A fault of the filter.
    Filter(FilterFault),
    /// The new exchange of a `change` lacks this, which the first one has.
    Change(Misfit),
}
