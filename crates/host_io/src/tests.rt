use super::{
    Failed, Line, LineFault, Lines, MemorySink, MemorySource, Sink, Source, StdSink, StdSource, put,
};
use std::alloc::Global;
use std::io;
use std::io::{Read, Write};
use std::test::Fail;

/// What the reader answers, each line with a bar behind it, up to the end or a fault.
fn answers<I: Source>(alloc: Global, src: &mut I) -> Result<String, Fail> {
    let mut lines = Lines::new(alloc);
    let mut text = String::new(alloc);
    for _ in 0..100 {
        match lines.next(src) {
            Ok(Line::Bytes(line)) => text.push_str(str::from_utf8(&line)?)?,
            Ok(Line::TooLong) => text.push_str("long")?,
            Ok(Line::End) => {
                text.push_str("end")?;
                return Ok(text);
            }
            Err(fault) => {
                text.push_str(fault_word(fault))?;
                // It stays, though the source would go on.
                if lines.next(src).is_ok() {
                    text.push_str(" lost")?;
                }
                return Ok(text);
            }
        }
        text.push('|')?;
    }
    Ok(text)
}

fn fault_word(fault: LineFault) -> &'static str {
    match fault {
        LineFault::Read => "read",
        LineFault::Limit => "limit",
        LineFault::Memory => "memory",
    }
}

#[test]
fn lines_however_cut(rt: HostRuntime) -> Result<(), Fail> {
    let table = [
        ("", "end"),
        ("a\r\nb", "a|b|end"),
        ("a\rb\n\r", "a\rb|\r|end"),
        ("\n\r\n\r\r\n", "||\r|end"),
        ("set A1 2\nset A2", "set A1 2|set A2|end"),
    ];
    for (input, want) in table {
        for piece in [1, 7, 100] {
            let bytes = Vec::from_slice(rt.alloc(), input.as_bytes())?;
            let mut src = MemorySource::new(bytes, piece, Vec::new(rt.alloc()));
            let text = answers(rt.alloc(), &mut src)?;
            assert_eq!(rt; text.as_str(), want, "at {input:?} by {piece}");
        }
    }
    Ok(())
}

#[test]
fn a_line_at_hand_is_given_without_a_read(rt: HostRuntime) -> Result<(), Fail> {
    let bytes = Vec::from_slice(rt.alloc(), b"a\nb\nc")?;
    let mut src = MemorySource::new(bytes, 100, vec![in rt.alloc(); 2]?);
    let mut lines = Lines::new(rt.alloc());
    assert!(rt; !lines.has_line());
    assert!(rt; lines.next(&mut src).is_ok());
    assert!(rt; lines.has_line());
    assert!(rt; lines.next(&mut src).is_ok());
    assert!(rt; !lines.has_line());
    assert!(rt; matches!(lines.next(&mut src), Err(LineFault::Read)));
    Ok(())
}

#[test]
fn a_source_that_fails_ends_the_lines(rt: HostRuntime) -> Result<(), Fail> {
    for (fail, want) in [
        (1, "read"),
        (2, "set A1 2|read"),
        (9, "set A1 2|set A2|end"),
    ] {
        let bytes = Vec::from_slice(rt.alloc(), b"set A1 2\nset A2")?;
        let mut src = MemorySource::new(bytes, 100, vec![in rt.alloc(); fail]?);
        let text = answers(rt.alloc(), &mut src)?;
        assert_eq!(rt; text.as_str(), want, "at {fail}");
    }
    Ok(())
}

#[test]
fn long_lines_and_the_limit_of_the_input(rt: HostRuntime) -> Result<(), Fail> {
    let table = [(160_001, "long|end"), (67_108_865, "limit")];
    for (count, want) in table {
        let bytes = vec![in rt.alloc(); b'x'; count]?;
        let mut src = MemorySource::new(bytes, 1_000_000, Vec::new(rt.alloc()));
        let text = answers(rt.alloc(), &mut src)?;
        assert_eq!(rt; text.as_str(), want, "at {count}");
    }
    let mut bytes = vec![in rt.alloc(); b'x'; 160_000]?;
    bytes.extend_from_slice(b"\r\n")?;
    let mut src = MemorySource::new(bytes, 1_000_000, Vec::new(rt.alloc()));
    let text = answers(rt.alloc(), &mut src)?;
    assert_eq!(rt; text.len(), 160_004);
    Ok(())
}

#[test]
fn put_writes_all_or_a_prefix(rt: HostRuntime) -> Result<(), Fail> {
    for (piece, fail, want, faults) in [
        (100, 9, "abcde", 0),
        (2, 9, "abcde", 0),
        (2, 3, "abcd", 1),
        (2, 1, "", 1),
    ] {
        let mut sink = MemorySink::new(rt.alloc(), piece, vec![in rt.alloc(); fail]?);
        let put = put(&mut sink, b"abcde");
        assert_eq!(rt; put.is_err(), faults == 1, "by {piece} at {fail}");
        assert_eq!(rt; sink.written(), want.as_bytes());
        assert!(rt; sink.finish().is_ok());
    }
    Ok(())
}

/// A stream that fails its first call, then gives one byte a call, takes all and can be flushed.
#[derive(Drop)]
struct Fragile(bool);

impl Read for Fragile {
    fn read(&mut self, buf: &mut [u8]) -> io::Result<usize> {
        if !self.0 {
            self.0 = true;
            return Err(io::Error::from(io::ErrorKind::BrokenPipe));
        }
        if buf.is_empty() {
            return Ok(0);
        }
        buf[0] = b'x';
        Ok(1)
    }
}

impl Write for Fragile {
    fn write(&mut self, buf: &[u8]) -> io::Result<usize> {
        if !self.0 {
            self.0 = true;
            return Ok(0);
        }
        Ok(buf.len())
    }

    fn flush(&mut self) -> io::Result<()> {
        if !self.0 {
            self.0 = true;
            return Err(io::Error::from(io::ErrorKind::BrokenPipe));
        }
        Ok(())
    }
}

#[test]
fn a_stream_fails_and_goes_on(rt: HostRuntime) -> Result<(), Fail> {
    let mut room = [0u8; 4];
    let mut src = StdSource::new(Fragile(false));
    assert_eq!(rt; src.read(&mut room), Err(Failed));
    assert_eq!(rt; src.read(&mut room), Ok(1));
    let mut sink = StdSink::new(Fragile(false));
    assert_eq!(rt; sink.write(b"ab"), Err(Failed));
    assert_eq!(rt; sink.write(b"ab"), Ok(2));
    assert_eq!(rt; sink.finish(), Ok(()));
    let mut sink = StdSink::new(Fragile(false));
    assert_eq!(rt; sink.finish(), Err(Failed));
    assert_eq!(rt; sink.finish(), Ok(()));
    Ok(())
}

/// A stream that fills each buffer, takes all, and knows how many bytes it has and whether a flush was asked for.
#[derive(Drop)]
struct Open {
    taken: usize,
    flushed: bool,
}

impl Open {
    fn new() -> Open {
        Open {
            taken: 0,
            flushed: false,
        }
    }
}

impl Read for Open {
    fn read(&mut self, buf: &mut [u8]) -> io::Result<usize> {
        Ok(buf.len())
    }
}

impl Write for Open {
    fn write(&mut self, buf: &[u8]) -> io::Result<usize> {
        self.taken = self.taken.saturating_add(buf.len());
        self.flushed = false;
        Ok(buf.len())
    }

    fn flush(&mut self) -> io::Result<()> {
        self.flushed = true;
        Ok(())
    }
}

#[test]
fn a_stream_without_faults_is_read_written_and_flushed(rt: HostRuntime) -> Result<(), Fail> {
    let mut src = StdSource::new(Open::new());
    let mut one = [0u8; 1];
    assert_eq!(rt; src.read(&mut one), Ok(1));
    let mut piece = [0u8; 8192];
    assert_eq!(rt; src.read(&mut piece), Ok(8192));
    let bytes = [b'x'; 10_000];
    let mut stream = Open::new();
    let mut sink = StdSink::new(&mut stream);
    assert_eq!(rt; sink.write(&bytes), Ok(10_000));
    assert_eq!(rt; sink.finish(), Ok(()));
    assert!(rt; stream.flushed);
    Ok(())
}

#[test]
fn a_stream_has_what_was_written_before_it_is_flushed(rt: HostRuntime) -> Result<(), Fail> {
    let mut stream = Open::new();
    let mut sink = StdSink::new(&mut stream);
    assert_eq!(rt; sink.write(b"ok\n"), Ok(3));
    assert_eq!(rt; stream.taken, 3);
    assert!(rt; !stream.flushed);
    Ok(())
}

#[test]
fn a_sink_in_memory_fails_only_as_told(rt: HostRuntime) -> Result<(), Fail> {
    let mut sink = MemorySink::new(rt.alloc(), 3, vec![in rt.alloc(); 2, 4]?);
    sink.reserve(6)?;
    assert_eq!(rt; sink.write(b"abcd"), Ok(3));
    assert_eq!(rt; sink.write(b"d"), Err(Failed));
    assert_eq!(rt; sink.write(b"d"), Ok(1));
    assert_eq!(rt; sink.finish(), Err(Failed));
    assert_eq!(rt; sink.finish(), Ok(()));
    assert_eq!(rt; sink.written(), b"abcd".as_slice());
    Ok(())
}

#[test]
fn a_source_in_memory_fails_only_as_told(rt: HostRuntime) -> Result<(), Fail> {
    let bytes = Vec::from_slice(rt.alloc(), b"abc")?;
    let mut src = MemorySource::new(bytes, 2, vec![in rt.alloc(); 2]?);
    let mut room = [0u8; 8];
    assert_eq!(rt; src.read(&mut room), Ok(2));
    assert_eq!(rt; src.read(&mut room), Err(Failed));
    assert_eq!(rt; src.read(&mut room), Ok(1));
    assert_eq!(rt; src.read(&mut room), Ok(0));
    Ok(())
}
