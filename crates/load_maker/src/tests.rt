mod texts;

use super::{load_exchange, load_signals};
use std::test::Fail;
use texts::{BACK_OF_TWO, FRONT_OF_TWO};

#[test]
fn writes_whole_texts(rt: HostRuntime) -> Result<(), Fail> {
    let alloc = rt.alloc();
    let two = load_exchange(alloc, 2)?;
    assert_eq!(rt; two.len(), 2741, "the exchange of two calls");
    assert!(rt; two.as_slice().starts_with(FRONT_OF_TWO), "its front");
    assert!(rt; two.as_slice().ends_with(BACK_OF_TWO), "its back");
    for (case, calls, want) in [
        ("no call", 0, ""),
        ("one call", 1, "AFTER 0 S1 B1 0 0 0 NEW\n"),
        (
            "two calls",
            2,
            "AFTER 0 S1 B1 0 0 0 NEW\nAFTER 0 S1 B1 1 0 0 NEW\n",
        ),
    ] {
        let signals = load_signals(alloc, calls)?;
        assert!(rt; signals.as_slice() == want.as_bytes(), "{case}");
    }
    Ok(())
}
