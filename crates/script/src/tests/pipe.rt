// `serve` between an input and an output that lie in memory.
use crate::failure::Failure;
use crate::output::Output;
use crate::serving;
use crate::serving::Protocol;
use std::alloc::{Allocator, Global};
use std::cell::{Cell, RefCell};
use std::fmt::Display;
use std::io::{BufRead, ErrorKind, Lines, Read};
use std::{io, mem};

// A line of more bytes is not taken.
const LONGEST: u64 = 8;

// Bytes, then one read that fails if there is an error, and then the end of input, so that a `serve` that read on would end without an error. The
// end is there once: a read behind it fails.
#[derive(Clone, Copy)]
struct Source<'a> {
    bytes: &'a [u8],
    error: Option<ErrorKind>,
    has_ended: bool,
}

impl<'a> Read for Source<'a> {
    fn read(&mut self, buf: &mut [u8]) -> io::Result<usize> {
        let mut bytes = self.fill_buf()?;
        let n = bytes.read(buf)?;
        self.consume(n);
        Ok(n)
    }
}

impl<'a> BufRead for Source<'a> {
    fn fill_buf(&mut self) -> io::Result<&[u8]> {
        if !self.bytes.is_empty() {
            return Ok(self.bytes);
        }
        if let Some(kind) = self.error.take() {
            return Err(kind.into());
        }
        if mem::replace(&mut self.has_ended, true) {
            return Err(ErrorKind::UnexpectedEof.into());
        }
        Ok(self.bytes)
    }

    fn consume(&mut self, amount: usize) {
        self.bytes.consume(amount)
    }
}

// What is read, what has been written, and how many writes succeed before one fails. Those behind it succeed, so that what is written there shows.
#[derive(Drop)]
struct Pipe<'a> {
    input: Source<'a>,
    output: RefCell<Vec<u8>>,
    writes: Cell<usize>,
    alloc: Global,
}

impl<'a> Pipe<'a> {
    fn new(bytes: &'a [u8], error: Option<ErrorKind>, writes: usize, alloc: Global) -> Self {
        Pipe {
            input: Source {
                bytes,
                error,
                has_ended: false,
            },
            output: RefCell::new(Vec::new(alloc)),
            writes: Cell::new(writes),
            alloc,
        }
    }
}

impl<'a> Alloc for Pipe<'a> {
    type A = Global;

    fn alloc(&self) -> Global {
        self.alloc
    }
}

impl<'a> Input for Pipe<'a> {
    type Reader = Source<'a>;

    fn read_line<A: Allocator + Clone>(&self, buf: &mut String<A>) -> io::Result<usize> {
        self.reader().read_line(buf)
    }

    fn lines<A: Allocator>(&self, alloc: A) -> Lines<Source<'a>, A> {
        self.reader().lines(alloc)
    }

    fn reader(&self) -> Source<'a> {
        self.input
    }
}

impl<'a> Print for Pipe<'a> {
    fn print<D: Display + Drop>(&self, _value: D) -> io::Result<()> {
        Err(ErrorKind::Unsupported.into())
    }

    fn println<D: Display + Drop>(&self, _value: D) -> io::Result<()> {
        Err(ErrorKind::Unsupported.into())
    }

    fn write_all(&self, bytes: &[u8]) -> io::Result<()> {
        let left = self.writes.get();
        self.writes.set(left.wrapping_sub(1));
        if left == 0 {
            return Err(ErrorKind::BrokenPipe.into());
        }
        let mut output = self.output.try_borrow_mut().ok().ok_or(ErrorKind::Other)?;
        Ok(output.extend_from_slice(bytes)?)
    }
}

// Gives each line back, but for `no`, which it does not take, and `heap`, for which memory runs out.
#[derive(Drop)]
struct Echo;

impl Protocol for Echo {
    fn answer(&mut self, line: &str, answer: &mut String) -> Result<(), Failure> {
        writeln!(answer, "{line}")?;
        match line {
            "no" => Err(Failure::NotTaken),
            "heap" => Err(Failure::OutOfMemory),
            _ => Ok(()),
        }
    }
}

// What is written for an input, which may end in an error, where as many writes succeed, and the error that ends the run.
fn run(
    bytes: &[u8],
    error: Option<ErrorKind>,
    writes: usize,
    alloc: Global,
) -> (Vec<u8>, Option<ErrorKind>) {
    let pipe = Pipe::new(bytes, error, writes, alloc);
    let ended = serving::serve(&pipe, LONGEST, &mut Echo);
    (pipe.output.into_inner(), ended.err().map(|e| e.kind()))
}

#[test]
fn lines_are_answered(rt: HostRuntime) {
    for (input, want) in [
        (b"".as_slice(), b"".as_slice()),
        (b"a b\n", b"a b\n"),
        (b"last", b"last\n"),
        (b"\n\n", b""),
        (b"# remark\n#\xFF\n", b""),
        (b"12345678\n123456789\n", b"12345678\n? line 2\n"),
        (b"#23456789\nb", b"? line 1\nb\n"),
        (b"123456789", b"? line 1\n"),
        (b"no\nyes\n\nno", b"? line 1\nyes\n? line 4\n"),
        (b"a\r\n", b"a\r\n"),
        (b"\xC3\x28\n\xC3\xA9\n", b"? line 1\n\xC3\xA9\n"),
    ] {
        let (output, error) = run(input, None, usize::MAX, rt.alloc());
        assert_eq!(rt; output.as_slice(), want, "at {input:?}");
        assert_eq!(rt; error, None, "at {input:?}");
    }
}

// Behind a line's end, behind a line without one, and behind a line that is too long by one byte or by more than is read at once.
#[test]
fn the_end_of_input_is_read_once(rt: HostRuntime) {
    for (input, want) in [
        (b"".as_slice(), b"".as_slice()),
        (b"a\n", b"a\n"),
        (b"a\nlast", b"a\nlast\n"),
        (b"12345678", b"12345678\n"),
        (b"123456789", b"? line 1\n"),
        (b"123456789\n", b"? line 1\n"),
        (b"1234567890", b"? line 1\n"),
        (b"1234567890\n", b"? line 1\n"),
        ([b'z'; 20_000].as_slice(), b"? line 1\n"),
    ] {
        let (output, error) = run(input, None, usize::MAX, rt.alloc());
        assert_eq!(rt; output.as_slice(), want, "at {input:?}");
        assert_eq!(rt; error, None, "at {input:?}");
    }
}

#[test]
fn the_first_failed_write_is_told(rt: HostRuntime) {
    let pipe = Pipe::new(b"", None, 1, rt.alloc());
    let mut output = Output::new(&pipe);
    output.write(b"a");
    assert!(rt; !output.has_failed());
    output.write(b"b");
    assert!(rt; output.has_failed());
    output.write(b"c");
    assert_eq!(rt;
        output.finish().err().map(|e| e.kind()),
        Some(ErrorKind::BrokenPipe)
    );
    assert_eq!(rt; pipe.output.into_inner().as_slice(), b"a".as_slice());
}

// What was answered before stays, and nothing is written after the failure.
#[test]
fn a_failure_ends_the_run(rt: HostRuntime) {
    let (output, error) = run(b"a\nb\nc\n", None, 1, rt.alloc());
    assert_eq!(rt; output.as_slice(), b"a\n".as_slice());
    assert_eq!(rt; error, Some(ErrorKind::BrokenPipe));
    let (output, error) = run(b"a\nheap\nc\n", None, usize::MAX, rt.alloc());
    assert_eq!(rt; output.as_slice(), b"a\n".as_slice());
    assert_eq!(rt; error, Some(ErrorKind::OutOfMemory));
}

// A line of which a part came has no answer, not even one that is known to be too long.
#[test]
fn a_failed_read_ends_the_run(rt: HostRuntime) {
    let failed = Some(ErrorKind::ConnectionReset);
    for input in [b"a\nb".as_slice(), b"a\n", b"a\n#", b"a\n123456789"] {
        let (output, error) = run(input, failed, usize::MAX, rt.alloc());
        assert_eq!(rt; output.as_slice(), b"a\n".as_slice(), "at {input:?}");
        assert_eq!(rt; error, failed, "at {input:?}");
    }
}
