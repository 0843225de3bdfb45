// The devices in memory.
use plex_io::{MemoryShelf, MemorySink, Shelf, ShelfFault, Sink, StoredFile, write_all};
use plex_num::Seq;
use std::alloc::Global;
use std::test::Fail;

fn stored(alloc: Global, name: &str, content: &str) -> Result<StoredFile, Fail> {
    Ok(StoredFile {
        name: Seq::copied(alloc, name.as_bytes())?,
        content: Seq::copied(alloc, content.as_bytes())?,
    })
}

fn shown(answer: &Result<Seq<u8>, ShelfFault>) -> &[u8] {
    match answer {
        Ok(bytes) => bytes.as_slice(),
        Err(ShelfFault::Absent) => b"(absent)",
        Err(ShelfFault::Failed) => b"(failed)",
        Err(ShelfFault::Memory) => b"(memory)",
    }
}

#[test]
fn a_shelf_reads_what_it_holds(rt: HostRuntime) -> Result<(), Fail> {
    let alloc = rt.alloc();
    let mut files = Seq::new(alloc);
    files.push(stored(alloc, "E", "signal")?)?;
    files.push(stored(alloc, "E", "another")?)?;
    let mut fails = Seq::new(alloc);
    fails.push(2)?;
    let mut shelf = MemoryShelf::new(files, fails);
    let cases = [
        ("the first of two files of one name", "E", 6, "signal"),
        ("the second call", "E", 6, "(failed)"),
        ("a limit one less", "E", 5, "signal"),
        ("a smaller limit", "E", 2, "sig"),
        ("no file of this name", "e", 6, "(absent)"),
    ];
    for (case, name, limit, want) in cases {
        let name = Seq::copied(alloc, name.as_bytes())?;
        let answer = shelf.read_file(alloc, &name, limit);
        assert_eq!(rt; shown(&answer), want.as_bytes(), "{case}");
    }
    Ok(())
}

#[test]
fn a_sink_takes_what_it_may(rt: HostRuntime) -> Result<(), Fail> {
    let alloc = rt.alloc();
    let mut fails = Seq::new(alloc);
    fails.push(3)?;
    let mut sink = MemorySink::new(alloc, 4, 9, fails)?;
    assert_eq!(rt; sink.write(b"signal").ok(), Some(4), "a long piece");
    assert_eq!(rt; sink.write(b"").ok(), Some(0), "an empty piece");
    assert!(rt; sink.write(b"S;").is_err(), "the third write");
    assert!(rt;
        write_all(&mut sink, b"al S;!").is_err(),
        "a byte more than there is room for"
    );
    assert_eq!(rt; sink.bytes(), b"signal S;".as_slice());
    Ok(())
}
