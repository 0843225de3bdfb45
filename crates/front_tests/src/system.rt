// Real files and the standard output.
use plex_io::{FileShelf, OutSink, Shelf, ShelfFault, Sink, write_all};
use plex_num::Seq;
use std::fmt::Display;
use std::io::ErrorKind;
use std::test::Fail;
use std::{fs, io};

#[test]
fn a_shelf_reads_files(rt: HostRuntime) -> Result<(), Fail> {
    let alloc = rt.alloc();
    let path = "front_tests_reads_files";
    fs::write(&rt, path, "ten bytes.")?;
    let mut shelf = FileShelf::new(&rt);
    let cases = [
        (
            "the largest limit",
            path.as_bytes(),
            u64::MAX,
            Some("ten bytes."),
        ),
        ("a limit one less", path.as_bytes(), 9, Some("ten bytes.")),
        ("a smaller limit", path.as_bytes(), 8, Some("ten bytes")),
        ("a missing file", b"front_tests_missing", 20, None),
        ("a name that is no UTF-8", b"\xff", 20, None),
        ("a name with a zero byte", b"a\0b", 20, None),
        ("a folder", b".", 20, None),
    ];
    for (case, name, limit, want) in cases {
        let name = Seq::copied(alloc, name)?;
        match (shelf.read_file(alloc, &name, limit), want) {
            (Ok(bytes), Some(text)) => {
                assert_eq!(rt; bytes.as_slice(), text.as_bytes(), "{case}");
            }
            (Err(ShelfFault::Failed), None) => {}
            _ => assert!(rt; false, "{case}"),
        }
    }
    fs::remove_file(&rt, path)?;
    Ok(())
}

#[test]
fn a_sink_writes_output(rt: HostRuntime) -> Result<(), Fail> {
    let mut sink = OutSink::new(&rt);
    assert_eq!(rt; sink.write(b"").ok(), Some(0));
    assert!(rt; write_all(&mut sink, b"a line of output\n").is_ok());
    let mut sink = OutSink::new(&Blocked);
    assert_eq!(rt;
        sink.write(b"").ok(),
        Some(0),
        "an empty piece is not passed on"
    );
    assert_eq!(rt; sink.write(b"signal").ok(), Some(3), "a part is taken");
    assert_eq!(rt; sink.write(b"!").ok(), None, "an error");
    assert_eq!(rt; sink.write(b"0").ok(), None, "nothing taken");
    assert!(rt; write_all(&mut sink, b"abc!").is_err());
    Ok(())
}

// An output that takes three bytes at a time, none that begin with `0`, and fails at `!` and at
// nothing.
struct Blocked;

impl Print for Blocked {
    fn print<D: Display + Drop>(&self, _value: D) -> io::Result<()> {
        Err(ErrorKind::Unsupported.into())
    }

    fn println<D: Display + Drop>(&self, _value: D) -> io::Result<()> {
        Err(ErrorKind::Unsupported.into())
    }

    fn write_all(&self, _bytes: &[u8]) -> io::Result<()> {
        Err(ErrorKind::Unsupported.into())
    }

    fn write_some(&self, bytes: &[u8]) -> io::Result<usize> {
        match bytes.first() {
            Some(b'0') => Ok(0),
            None | Some(b'!') => Err(ErrorKind::BrokenPipe.into()),
            Some(_) => Ok(bytes.len().min(3)),
        }
    }
}
