// Tests which events of the core are allowed.
ghost use Rattle.store_layout.specs.Laid.{IsLayout};
ghost use Rattle.machine_meaning.specs.Faithful.{Faithful};
ghost use Rattle.checked.specs.Kept.{IsChecked};

use crate::given::{NotMade, Tried, core_after, exchange_of, least_of, lines_of};
use crate::texts::{LATE_ASKS, LEVELS, PARTS, THREE_ASKS, TWO_ASKS, TWO_WORKS};
use checked::Checked;
use code_gen::compile;
use exchange_model::Exchange;
use interleave_core::{CoreEvent, CoreFault, CoreState};
use machine_code::Code;
use std::alloc::Global;
use std::test::Fail;
use store_layout::{Layout, layout_of};

/// The result of a list of events.
#[derive(Clone, Copy, Debug, PartialEq, Eq)]
enum Told {
    /// The event at this index, from 0, is the first that is not allowed.
    Refused { at: u64 },
    /// All are allowed, and this many jobs are in the window after them.
    Window { jobs: usize },
}

fn told_of(made: Result<CoreState, CoreFault>) -> Result<Told, NotMade> {
    match made {
        Ok(state) => Ok(Told::Window {
            jobs: state.window.len(),
        }),
        Err(CoreFault::NotEnabled { at }) => Ok(Told::Refused { at }),
        Err(CoreFault::Memory) => Err(NotMade),
    }
}

fn told_of_core(
    alloc: Global,
    exchange: &Exchange,
    lines: &str,
    tried: &Tried<'_>,
    layout: &Layout,
    code: &Code,
    checked: &Checked,
) -> Result<Told, NotMade>
    requires layout { IsLayout exchange.now.blocks layout.now }
    requires faithful { Faithful exchange.now code.now }
    requires checked { IsChecked exchange.now checked.now }
{
    let lines = lines_of(alloc, exchange, lines)?;
    let made = core_after(alloc, exchange, layout, code, checked, lines, tried);
    told_of(made)
}

fn told_on(
    alloc: Global,
    exchange: &Exchange,
    lines: &str,
    tried: &Tried<'_>,
) -> Result<Told, NotMade> {
    let layout = layout_of(alloc, exchange)?;
    let code = compile(alloc, exchange, &layout)?;
    let checked = least_of(alloc, exchange)?;
    told_of_core(alloc, exchange, lines, tried, &layout, &code, &checked)
}

/// The result of these events on the exchange of a text, with its own certificate.
fn told_at(
    alloc: Global,
    exchange: &str,
    lines: &str,
    workers: u32,
    events: &[CoreEvent],
) -> Result<Told, NotMade> {
    let exchange = exchange_of(alloc, exchange)?;
    told_on(alloc, &exchange, lines, &Tried { workers, events })
}

#[test]
fn events_are_refused_where_they_are_not_allowed(rt: HostRuntime) -> Result<(), Fail> {
    let (issue, retire, step) = (
        CoreEvent::Issue,
        CoreEvent::Retire,
        CoreEvent::Step { job: 2 },
    );
    let cases: [(&str, &str, u32, &[CoreEvent], Told); 10] = [
        (
            PARTS,
            TWO_ASKS,
            2,
            &[issue, issue],
            Told::Window { jobs: 2 },
        ),
        (
            PARTS,
            TWO_ASKS,
            2,
            &[issue, issue, retire],
            Told::Refused { at: 2 },
        ),
        (PARTS, TWO_ASKS, 1, &[issue, issue], Told::Refused { at: 1 }),
        (
            PARTS,
            THREE_ASKS,
            2,
            &[issue, issue, issue],
            Told::Refused { at: 2 },
        ),
        (
            PARTS,
            THREE_ASKS,
            3,
            &[issue, issue, issue],
            Told::Window { jobs: 3 },
        ),
        (
            PARTS,
            LATE_ASKS,
            2,
            &[issue, issue],
            Told::Refused { at: 1 },
        ),
        (
            PARTS,
            TWO_ASKS,
            2,
            &[issue, issue, step],
            Told::Window { jobs: 2 },
        ),
        (PARTS, TWO_ASKS, 2, &[issue, step], Told::Refused { at: 1 }),
        (PARTS, "", 2, &[issue], Told::Refused { at: 0 }),
        (
            LEVELS,
            TWO_WORKS,
            2,
            &[issue, issue],
            Told::Refused { at: 1 },
        ),
    ];
    for (exchange, lines, workers, events, wanted) in cases {
        let is = told_at(rt.alloc(), exchange, lines, workers, events)?;
        assert_eq!(rt; is, wanted, "{lines}");
    }
    Ok(())
}
