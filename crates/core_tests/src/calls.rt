// Tests of public calls that no command makes.
ghost use Rattle.std.specs.Prelude.{All};
ghost use Rattle.machine_code.specs.Operands.{OpFits};

use crate::given::{NotMade, accepted, exchange_of, least_of};
use crate::texts::{LOOSE_TABLE, PARTS, TABLE};
use certificate::certificate_of;
use certificate_text::{Certificate, print_certificate, read_certificate};
use checked::Checked;
use code_gen::compile;
use exchange_model::Exchange;
use flow_points::Value;
use interference_check::{tests, verdict};
use listing::{ListFault, print_code, read_code};
use machine_code::Code;
use pair_tests::{Conflict, Test, Verdict};
use plex_limits::MOST_BYTES;
use plex_num::Seq;
use std::alloc::Global;
use std::test::Fail;
use store_layout::layout_of;

/// A listing with one instruction, at which the only entry begins.
const ONE_LINE: &str = "PLEX CODE 1\nENTRY 0 0\nLDI 15 7\nEND CODE\n";

/// There is no register 16.
const LARGE_OPERAND: &str = "PLEX CODE 1\nENTRY 0 0\nLDI 16 7\nEND CODE\n";

const NO_NUMBER: &str = "PLEX CODE 1\nENTRY 0 0\nLDI 15\nEND CODE\n";

/// The code of a listing; `Memory` if the text is too large.
fn code_of(alloc: Global, text: &[u8]) -> Result<Code, ListFault> {
    if text.len() > MOST_BYTES {
        return Err(ListFault::Memory);
    }
    read_code(alloc, text)
}

/// Reads a listing and prints the code again.
#[tactic(auto, using(crate::proofs::Fits::listed_fits))]
fn listed_again(alloc: Global, text: &[u8]) -> Result<Seq<u8>, NotMade> {
    if text.len() > MOST_BYTES {
        return Err(NotMade);
    }
    match read_code(alloc, text) {
        Ok(code) => {
            let text = print_code(alloc, &code)?;
            Ok(text)
        }
        Err(_) => Err(NotMade),
    }
}

/// Whether the code's listing is unchanged when read and printed again. Different codes have
/// different listings.
fn comes_back(alloc: Global, code: &Code) -> Result<bool, NotMade>
    requires { All OpFits code.now.ops }
{
    let text = print_code(alloc, code)?;
    let again = listed_again(alloc, text.as_slice())?;
    Ok(again.as_slice() == text.as_slice())
}

/// The same for the code of an exchange.
fn code_comes_back(alloc: Global, exchange: &str) -> Result<bool, NotMade> {
    let exchange = exchange_of(alloc, exchange)?;
    let layout = layout_of(alloc, &exchange)?;
    let code = compile(alloc, &exchange, &layout)?;
    comes_back(alloc, &code)
}

#[test]
fn a_listing_is_read(rt: HostRuntime) -> Result<(), Fail> {
    assert!(rt; code_comes_back(rt.alloc(), PARTS)?);
    let again = listed_again(rt.alloc(), ONE_LINE.as_bytes())?;
    assert_eq!(rt; again.as_slice(), ONE_LINE.as_bytes());
    let large = code_of(rt.alloc(), LARGE_OPERAND.as_bytes());
    assert!(rt; matches!(large, Err(ListFault::BadOperand { line: 3 })));
    let few = code_of(rt.alloc(), NO_NUMBER.as_bytes());
    assert!(rt; matches!(few, Err(ListFault::BadLine { line: 3 })));
    Ok(())
}

/// Reads a certificate and prints it again.
#[tactic(auto, using(crate::proofs::Making::told_rises, crate::proofs::Fits::told_fits))]
fn certified_again(alloc: Global, text: &str) -> Result<Seq<u8>, NotMade> {
    let text = text.as_bytes();
    if text.len() > MOST_BYTES {
        return Err(NotMade);
    }
    match read_certificate(alloc, text) {
        Ok(certificate) => {
            let text = print_certificate(alloc, &certificate)?;
            Ok(text)
        }
        Err(_) => Err(NotMade),
    }
}

#[test]
fn a_certificate_is_printed(rt: HostRuntime) -> Result<(), Fail> {
    let again = certified_again(rt.alloc(), LOOSE_TABLE)?;
    assert_eq!(rt; again.as_slice(), LOOSE_TABLE.as_bytes());
    Ok(())
}

/// The certificate of an exchange, with its facts in reverse order and then all of them once more.
fn turned(alloc: Global, exchange: &Exchange) -> Result<Certificate, NotMade> {
    let Certificate { shape, facts } = certificate_of(alloc, exchange)?;
    let mut copies = Seq::new(alloc);
    copies.push_all(facts.as_slice())?;
    let mut turned = copies.into_vec();
    turned.reverse();
    let mut all = Seq::from_vec(turned);
    all.push_all(facts.as_slice())?;
    Ok(Certificate { shape, facts: all })
}

#[test]
fn facts_may_stand_in_any_order(rt: HostRuntime) -> Result<(), Fail> {
    let exchange = exchange_of(rt.alloc(), TABLE)?;
    let own = least_of(rt.alloc(), &exchange)?;
    let certificate = turned(rt.alloc(), &exchange)?;
    let again = accepted(rt.alloc(), &exchange, certificate)?;
    let (told, asked) = judged(rt.alloc(), &own, 0, 0)?;
    let (told_again, asked_again) = judged(rt.alloc(), &again, 0, 0)?;
    assert!(rt; told == told_again);
    assert!(rt; asked.as_slice() == asked_again.as_slice());
    Ok(())
}

/// The verdict and the tests for two entries.
fn judged(
    alloc: Global,
    checked: &Checked,
    first: u32,
    later: u32,
) -> Result<(Verdict, Seq<Test>), NotMade> {
    if first >= checked.entries() || later >= checked.entries() {
        return Err(NotMade);
    }
    let asked = tests(alloc, checked, first, later)?;
    Ok((verdict(checked, first, later), asked))
}

/// The same for two entries of TABLE.
fn judged_in_table(alloc: Global, first: u32, later: u32) -> Result<(Verdict, Seq<Test>), NotMade> {
    let exchange = exchange_of(alloc, TABLE)?;
    let checked = least_of(alloc, &exchange)?;
    judged(alloc, &checked, first, later)
}

/// Two PUT jobs need different records, and the first one a forlopp; a LOOK job reads all records.
#[test]
fn entries_are_judged(rt: HostRuntime) -> Result<(), Fail> {
    let (puts, asked) = judged_in_table(rt.alloc(), 0, 0)?;
    let wanted = [Test::Differ { first: 0, later: 0 }, Test::InForlopp];
    assert!(rt; puts == Verdict::Tests);
    assert!(rt; asked.as_slice() == wanted.as_slice());
    let (looks, _) = judged_in_table(rt.alloc(), 0, 1)?;
    let field = Conflict::Field {
        number: 0,
        first: Value::Arg(0),
        later: Value::Any,
    };
    assert!(rt; looks == Verdict::Never(field));
    Ok(())
}
