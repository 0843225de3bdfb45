// The signal file of a load.
ghost use Rattle.std.specs.Prelude.{◌≡◌, ◌++◌, IfOk, OnOk};
ghost use Rattle.load_maker.specs.Signals.{call_line, signals_text};

use plex_num::{Memory, Seq, print_number};
use std::alloc::Global;

/// The signal file of a load of so many calls, which is meant for 1 to 10,000: a line for each
/// call, numbered from 0. It fails only where memory is refused.
pub fn load_signals(alloc: Global, n: u32) -> Result<Seq<u8>, Memory>
    ensures { IfOk result (λ text. text ≡ signals_text n) }
{
    let mut text = Seq::new(alloc);
    for call in 0..n {
        add_call_line(&mut text, call)?;
    }
    Ok(text)
}

/// `AFTER 0 S1 B1 c 0 0 NEW`.
#[tactic(auto, unfolding(crate::specs::Signals::call_line))]
fn add_call_line(text: &mut Seq<u8>, call: u32) -> Result<(), Memory>
    ensures { OnOk result (text.new ≡ text.old ++ call_line call) }
{
    text.append(b"AFTER 0 S1 B1 ")?;
    print_number(u64::from(call), text)?;
    text.append(b" 0 0 NEW\n")?;
    Ok(())
}
