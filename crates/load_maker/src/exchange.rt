// The exchange text of a load.
ghost use Rattle.std.specs.Prelude.{◌≡◌, ◌++◌, IfOk, OnOk};
ghost use Rattle.std.specs.List.{flat_map, range_with_len};
ghost use Rattle.load_maker.specs.Exchange.{block, block_text, call_signal, exchange_text};
ghost use Rattle.load_maker.specs.Exchange.{first_block, last_block, other_signals, plain_block};
ghost use Rattle.load_maker.specs.Exchange.{signal_text, tone_block};

use crate::patterns::add_filled;
use plex_num::{Memory, Seq};
use std::alloc::Global;

/// The exchange text of a load of so many calls, which is meant for 1 to 10,000: eight blocks in a
/// ring, with a record for each call. It fails only where memory is refused.
#[tactic(auto, unfolding(crate::specs::Exchange::exchange_text))]
pub fn load_exchange(alloc: Global, n: u32) -> Result<Seq<u8>, Memory>
    ensures { IfOk result (λ text. text ≡ exchange_text n) }
{
    let mut text = Seq::new(alloc);
    add_signals(&mut text, n)?;
    text.append(other_signals())?;
    add_blocks(&mut text, n)?;
    Ok(text)
}

/// The signals of the blocks, from S1 to S8.
fn add_signals(text: &mut Seq<u8>, n: u32) -> Result<(), Memory>
    ensures { OnOk result (text.new ≡ text.old ++ flat_map (signal_text n) (range_with_len 1 8)) }
{
    for i in 1..9 {
        add_signal(text, n, i)?;
    }
    Ok(())
}

#[tactic(auto, unfolding(crate::specs::Exchange::signal_text))]
fn add_signal(text: &mut Seq<u8>, n: u32, i: u32) -> Result<(), Memory>
    ensures { OnOk result (text.new ≡ text.old ++ signal_text n i) }
{
    add_filled(text, call_signal(), n, i)
}

/// The blocks, from B1 to B8.
fn add_blocks(text: &mut Seq<u8>, n: u32) -> Result<(), Memory>
    ensures { OnOk result (text.new ≡ text.old ++ flat_map (block_text n) (range_with_len 1 8)) }
{
    for i in 1..9 {
        add_block(text, n, i)?;
    }
    Ok(())
}

#[tactic(auto, unfolding(crate::specs::Exchange::block_text))]
fn add_block(text: &mut Seq<u8>, n: u32, i: u32) -> Result<(), Memory>
    ensures { OnOk result (text.new ≡ text.old ++ block_text n i) }
{
    add_filled(text, block(i), n, i)
}

#[tactic(auto, unfolding(crate::specs::Exchange::call_signal))]
fn call_signal() -> &'static [u8]
    ensures { result.now ≡ call_signal }
{
    b"SIGNAL Si SINGLE BUFFERED B DATA 3;\n"
}

#[tactic(auto, unfolding(crate::specs::Exchange::other_signals))]
fn other_signals() -> &'static [u8]
    ensures { result.now ≡ other_signals }
{
    b"SIGNAL TONE SINGLE BUFFERED A DATA 1;
SIGNAL BILL SINGLE BUFFERED C DATA 1;
SIGNAL DONE OUTSIDE DATA 2;
"
}

/// The pattern of block Bi.
fn block(i: u32) -> &'static [u8]
    ensures { result.now ≡ block i }
{
    match i {
        1 => first_block(),
        4 => tone_block(),
        8 => last_block(),
        _ => plain_block(),
    }
}

/// A call begins and ends here.
#[tactic(auto, unfolding(crate::specs::Exchange::first_block))]
fn first_block() -> &'static [u8]
    ensures { result.now ≡ first_block }
{
    b"BLOCK Bi;
DECLARE; TEMPORARY C; TEMPORARY R; TEMPORARY L;
FILE CALLS SIZE n; FIELD STEPS WIDTH 8;
FORLOPP FILE LINE SIZE n; FIELD OWNER WIDTH 32;
SURVEY; RECEIVE Si; SEND Sj; SEND DONE;
PROGRAM;
ENTER Si WITH C, R, L;
IF R = 2 GOTO FINISH;
STEPS(C) = STEPS(C) + 1;
IF R = 1 GOTO FORTH;
SEIZE L IN LINE ELSE GOTO BUSY;
OWNER(L) = C;
FORTH) SEND Sj WITH C, R, L;
EXIT;
FINISH) FREE L IN LINE;
SEND DONE WITH C, STEPS(C);
EXIT;
BUSY) EXIT;
END BLOCK;
"
}

/// A call goes through.
#[tactic(auto, unfolding(crate::specs::Exchange::plain_block))]
fn plain_block() -> &'static [u8]
    ensures { result.now ≡ plain_block }
{
    b"BLOCK Bi;
DECLARE; TEMPORARY C; TEMPORARY R; TEMPORARY L;
FILE CALLS SIZE n; FIELD STEPS WIDTH 8;
SURVEY; RECEIVE Si; SEND Sj;
PROGRAM;
ENTER Si WITH C, R, L;
STEPS(C) = STEPS(C) + 1;
SEND Sj WITH C, R, L;
EXIT;
END BLOCK;
"
}

/// A call goes through, with a tone.
#[tactic(auto, unfolding(crate::specs::Exchange::tone_block))]
fn tone_block() -> &'static [u8]
    ensures { result.now ≡ tone_block }
{
    b"BLOCK Bi;
DECLARE; TEMPORARY C; TEMPORARY R; TEMPORARY L; VARIABLE TONES WIDTH 32;
FILE CALLS SIZE n; FIELD STEPS WIDTH 8;
SURVEY; RECEIVE Si; SEND Sj; RECEIVE TONE; SEND TONE;
PROGRAM;
ENTER Si WITH C, R, L;
STEPS(C) = STEPS(C) + 1;
SEND TONE WITH C;
SEND Sj WITH C, R, L;
EXIT;
ENTER TONE WITH C;
TONES = TONES + 1;
EXIT;
END BLOCK;
"
}

/// A call goes on its second round, or to its end.
#[tactic(auto, unfolding(crate::specs::Exchange::last_block))]
fn last_block() -> &'static [u8]
    ensures { result.now ≡ last_block }
{
    b"BLOCK Bi;
DECLARE; TEMPORARY C; TEMPORARY R; TEMPORARY L; VARIABLE BILLED WIDTH 32;
FILE CALLS SIZE n; FIELD STEPS WIDTH 8;
SURVEY; RECEIVE Si; RECEIVE BILL; SEND S1; SEND BILL;
PROGRAM;
ENTER Si WITH C, R, L;
IF R = 0 THEN STEPS(C) = STEPS(C) + 1; SEND S1 WITH C, 1, L; EXIT; FI;
IF C MOD 16 = 15 THEN STEPS(C) = 256; FI;
STEPS(C) = STEPS(C) + 1;
SEND S1 WITH C, 2, L;
SEND BILL WITH C;
EXIT;
ENTER BILL WITH C;
BILLED = BILLED + 1;
EXIT;
END BLOCK;
"
}
