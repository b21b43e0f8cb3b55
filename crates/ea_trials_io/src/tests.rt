use crate::{LengthSink, MemSink, MemSource, PlainSource};
use ea_io::{
    ReadAllFault, Sink, Source, StdSink, StdSource, put_number, put_text, read_all, write_all,
    write_texts,
};
use ea_model::List;
use std::alloc::{AllocError, Global};
use std::io;
use std::io::{ErrorKind, Read, Write};
use std::test::Fail;

const LETTERS: &[u8] = b"abcdefghijklmnopqrst";

fn list<T: Copy>(alloc: Global, items: &[T]) -> Result<List<T>, AllocError> {
    Ok(List::from_vec(Vec::from_slice(alloc, items)?))
}

fn name_of(answer: &Result<List<u8>, ReadAllFault>) -> &'static str {
    match answer {
        Ok(_) => "all",
        Err(ReadAllFault::ReadFault) => "read fault",
        Err(ReadAllFault::TooLong) => "too long",
        Err(ReadAllFault::OutOfMemory) => "out of memory",
    }
}

#[test]
fn reading_all_stops_past_the_limit_and_at_each_fault(rt: HostRuntime) -> Result<(), Fail> {
    // bytes given, limit, failing calls, answer, answer of a second call with room for all
    let cases: [(usize, usize, &[u32], &str, usize); 8] = [
        (0, 0, &[], "all", 0),
        (1, 0, &[], "too long", 0),
        (5, 5, &[], "all", 0),
        (6, 5, &[], "too long", 0),
        (20, 5, &[], "too long", 14),
        (20, 20, &[1], "read fault", 20),
        (20, 20, &[3], "read fault", 6),
        (20, 20, &[4], "read fault", 0),
    ];
    for (given, max, failing, answer, left) in cases {
        let alloc = rt.alloc();
        let bytes = LETTERS.get(..given).unwrap_or(&[]);
        assert!(rt; max < 100);
        let mut source = MemSource::new(list(alloc, bytes)?, 7, list(alloc, failing)?);
        let first = read_all(alloc, &mut source, max);
        assert_eq!(rt; name_of(&first), answer, "{given} bytes, at most {max}");
        if let Ok(all) = first {
            assert_eq!(rt; all.as_slice(), bytes);
        }
        let rest = read_all(alloc, &mut source, 100)?;
        assert_eq!(rt; rest.len(), left, "{given} bytes, at most {max}");
        assert!(rt; bytes.ends_with(rest.as_slice()));
    }
    Ok(())
}

#[test]
fn a_plain_source_gives_more_bytes_than_one_read_asks_for(rt: HostRuntime) -> Result<(), Fail> {
    let bytes = Vec::from_elem(rt.alloc(), b'x', 10_000)?;
    let mut source = PlainSource::new(List::from_vec(bytes));
    assert_eq!(rt; read_all(rt.alloc(), &mut source, 10_000)?.len(), 10_000);
    assert_eq!(rt; source.read(&mut [0; 4]), Ok(0));
    Ok(())
}

#[test]
fn writing_offers_all_that_is_left_and_stops_at_the_first_fault(
    rt: HostRuntime,
) -> Result<(), Fail> {
    // room, piece, failing calls, whether all was written, bytes taken
    let cases: [(usize, usize, &[u32], bool, usize); 8] = [
        (20, 1, &[21], true, 20),
        (20, 7, &[5], true, 20),
        (20, 16, &[3], true, 20),
        (20, 7, &[1], false, 0),
        (20, 7, &[2], false, 7),
        (20, 7, &[3], false, 9),
        (20, 7, &[4], false, 16),
        (19, 16, &[], false, 19),
    ];
    for (room, piece, failing, whole, taken) in cases {
        assert!(rt; piece >= 1);
        let mut sink = MemSink::new(rt.alloc(), room, piece, list(rt.alloc(), failing)?)?;
        let written = write_texts(&mut sink, &["abcdefghi", "", "jklmnopqrst"]);
        assert_eq!(rt; written.is_ok(), whole, "room {room}, pieces of {piece}");
        assert_eq!(rt; sink.taken(), LETTERS.get(..taken).unwrap_or(&[]));
    }
    Ok(())
}

#[test]
fn numbers_and_texts_are_put_and_counted(rt: HostRuntime) -> Result<(), Fail> {
    let mut text = List::new(rt.alloc());
    for (number, after) in [(0, " to "), (u64::MAX, " é")] {
        put_number(&mut text, number)?;
        put_text(&mut text, after)?;
    }
    assert_eq!(rt; text.as_slice(), "0 to 18446744073709551615 é".as_bytes());
    let mut sink = LengthSink::new();
    assert_eq!(rt; write_all(&mut sink, text.as_slice()), Ok(()));
    assert_eq!(rt; sink.len(), 28);
    Ok(())
}

// Gives its bytes by threes; at its second call it fails, or gives none, as at an end.
#[derive(Drop)]
struct Lapsing<'a> {
    rest: &'a [u8],
    calls: u8,
    fails: bool,
}

impl Read for Lapsing<'_> {
    fn read(&mut self, buf: &mut [u8]) -> io::Result<usize> {
        self.calls = self.calls.saturating_add(1);
        if self.calls == 2 {
            if self.fails {
                return Err(io::Error::from(ErrorKind::TimedOut));
            }
            return Ok(0);
        }
        let room = buf.len().min(3);
        self.rest.read(&mut buf[..room])
    }
}

#[test]
fn a_reader_gives_its_bytes_and_may_fail_in_between(rt: HostRuntime) -> Result<(), Fail> {
    let mut source = StdSource::new(LETTERS);
    assert_eq!(rt; read_all(rt.alloc(), &mut source, 20)?.as_slice(), LETTERS);

    let mut source = StdSource::new(Lapsing {
        rest: LETTERS,
        calls: 0,
        fails: true,
    });
    assert_eq!(rt;
        name_of(&read_all(rt.alloc(), &mut source, 20)),
        "read fault"
    );
    let rest = read_all(rt.alloc(), &mut source, 20)?;
    assert_eq!(rt; rest.as_slice(), b"defghijklmnopqrst".as_slice());
    Ok(())
}

#[test]
fn a_reader_that_gives_none_is_at_its_end_and_is_not_read_again(
    rt: HostRuntime,
) -> Result<(), Fail> {
    let mut source = StdSource::new(Lapsing {
        rest: LETTERS,
        calls: 0,
        fails: false,
    });
    assert_eq!(rt; source.read(&mut [0; 20]), Ok(3));
    assert_eq!(rt; source.read(&mut [0; 20]), Ok(0));
    let rest = read_all(rt.alloc(), &mut source, 20)?;
    assert_eq!(rt; rest.as_slice(), b"defghijklmnopqrst".as_slice());

    let mut source = StdSource::new(Lapsing {
        rest: LETTERS,
        calls: 0,
        fails: false,
    });
    let first = read_all(rt.alloc(), &mut source, 20)?;
    assert_eq!(rt; first.as_slice(), b"abc".as_slice());
    Ok(())
}

#[derive(Debug, Clone, Copy, PartialEq, Eq)]
enum Lapse {
    Write,
    Zero,
    Flush,
    Never,
}

// Takes bytes by threes, counts its flushes, and fails at its second write or the flush after it.
#[derive(Drop)]
struct Frail {
    text: Vec<u8>,
    lapse: Lapse,
    writes: u8,
    flushes: u8,
}

impl Write for Frail {
    fn write(&mut self, buf: &[u8]) -> io::Result<usize> {
        self.writes = self.writes.saturating_add(1);
        match self.lapse {
            Lapse::Write if self.writes == 2 => Err(io::Error::from(ErrorKind::TimedOut)),
            Lapse::Zero if self.writes == 2 => Ok(0),
            _ => {
                let count = buf.len().min(3);
                self.text.extend_from_slice(&buf[..count])?;
                Ok(count)
            }
        }
    }

    fn flush(&mut self) -> io::Result<()> {
        self.flushes = self.flushes.saturating_add(1);
        if self.lapse == Lapse::Flush && self.writes == 2 {
            return Err(io::Error::from(ErrorKind::TimedOut));
        }
        Ok(())
    }
}

#[test]
fn a_writer_is_flushed_after_each_write_and_may_fail(rt: HostRuntime) -> Result<(), Fail> {
    let cases: [(Lapse, bool, &[u8], u8); 4] = [
        (Lapse::Never, true, b"abcdefgh!", 4),
        (Lapse::Write, false, b"abc!", 2),
        (Lapse::Zero, false, b"abc!", 3),
        (Lapse::Flush, false, b"abcdef!", 3),
    ];
    for (lapse, whole, text, flushes) in cases {
        let mut writer = Frail {
            text: Vec::new(rt.alloc()),
            lapse,
            writes: 0,
            flushes: 0,
        };
        let mut sink = StdSink::new(&mut writer);
        assert_eq!(rt;
            write_all(&mut sink, b"abcdefgh").is_ok(),
            whole,
            "{lapse:?}"
        );
        assert_eq!(rt; sink.write(b"!"), Ok(1), "{lapse:?}");
        drop(sink);
        assert_eq!(rt; writer.text.as_slice(), text, "{lapse:?}");
        assert_eq!(rt; writer.flushes, flushes, "{lapse:?}");
    }
    Ok(())
}
