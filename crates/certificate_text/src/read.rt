// Text as a certificate.
ghost use Rattle.std.specs.Prelude.{◌≡◌, ◌≤◌, ◌↔◌, ◌++◌, ◌∷◌, [], Err, IsTrue, Ok, ℕ, length};
ghost use Rattle.std.specs.List.Sorted.{IsStrictlySortedBy};
ghost use Rattle.plex_limits.specs.declared.limits.TheConstants.{MOST_BYTES};
ghost use Rattle.flow_points.specs.Orders.{fact_order};
ghost use Rattle.certificate_text.specs.Lines.{HasBadLine, IsTextOf, IsUnlessMemory};
ghost use Rattle.certificate_text.specs.Lines.{TellsCertificate};
ghost use Rattle.certificate_text.specs.Parts.{Begun};
ghost use Rattle.certificate_text.specs.declared.certificate.Certificate.{Certificate};
ghost use Rattle.certificate_text.specs.declared.fault.TextFault.TheVariants.{BadText};

use crate::certificate::{Certificate, Shape};
use crate::fault::TextFault;
use crate::parts::after;
use crate::read_fact::fact;
use crate::read_head::{shape, version};
use crate::version::Version;
use flow_points::Fact;
use plex_num::Seq;
use std::alloc::Global;

/// The certificate whose text this is, of at most 16 MiB; else its first line that is not as
/// stated. A text that ends too early is bad at the line after its last, and so is one that goes on
/// behind the last line of a certificate; a last line without its LF is bad.
pub fn read_certificate(alloc: Global, text: &[u8]) -> Result<Certificate, TextFault>
    requires { length text.now ≤ MOST_BYTES }
    ensures told { TellsCertificate text.now result }
    ensures certificate { (c : Certificate) → IsTextOf text.now c → IsUnlessMemory result (Ok c) }
    ensures bad_line { (l : ℕ) → HasBadLine text.now l →
        IsUnlessMemory result (Err (BadText l)) }
{
    read_text(alloc, text)
}

/// The same, told once.
fn read_text(alloc: Global, text: &[u8]) -> Result<Certificate, TextFault>
    requires { length text.now ≤ MOST_BYTES }
    ensures { TellsCertificate text.now result }
{
    let Some((version, rest)) = version(text) else {
        return Err(TextFault::BadText { line: 1 });
    };
    let Some((shape, rest)) = shape(rest, version) else {
        return Err(TextFault::BadText { line: 2 });
    };
    read_facts(alloc, text, version, shape, rest)
}

/// The same of a text that goes on with these bytes behind its first two lines.
fn read_facts(
    alloc: Global,
    text: &[u8],
    version: Version,
    shape: Shape,
    rest: &[u8],
) -> Result<Certificate, TextFault>
    requires begun { Begun version shape text.now rest.now }
    requires small { length text.now ≤ MOST_BYTES }
    ensures { TellsCertificate text.now result }
{
    let mut facts = Seq::new(alloc);
    // how many lines have been read
    let mut number: u32 = 2;
    let mut rest = rest;
    while let Some((fact, after)) = fact(rest) {
        if !rises(facts.as_slice(), fact) {
            return Err(TextFault::BadText { line: number + 1 });
        }
        facts.push(fact)?;
        number += 1;
        rest = after;
    }
    let Some(behind) = after(rest, b"END CERTIFICATE\n") else {
        return Err(TextFault::BadText { line: number + 1 });
    };
    if behind.is_empty() {
        Ok(Certificate { shape, facts })
    } else {
        Err(TextFault::BadText { line: number + 2 })
    }
}

/// Whether facts that rise go on rising with one more.
fn rises(facts: &[Fact], fact: Fact) -> bool
    requires { IsStrictlySortedBy fact_order facts.now }
    ensures { IsTrue result ↔ IsStrictlySortedBy fact_order (facts.now ++ fact ∷ []) }
{
    match facts.last() {
        Some(last) => last.cmp(&fact).is_lt(),
        None => true,
    }
}
