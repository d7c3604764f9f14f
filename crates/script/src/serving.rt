// The lines of standard input, each answered on standard output once its end is read.
ghost use Rattle.std.specs.Prelude.{◌≡◌, ⊤, IsOk, IsErr, OnErr};
ghost use Rattle.std.specs.Io.{StartsWith};

use crate::failure::Failure;
use crate::output::Output;
use std::alloc::Global;
use std::io::{BufRead, BufReader, ErrorKind, Read};
use std::{io, str};

// What answers the lines.
pub trait Protocol {
    // What every answer keeps: it holds before a line and after it.
    ghost kept: { Self → Type 0 } = { λ _. ⊤ };

    // The answer to a line goes behind what `answer` has. A line that is no line of the protocol changes nothing.
    fn answer(&mut self, line: &str, answer: &mut String) -> Result<(), Failure>
        requires { kept self.old }
        ensures { kept self.new };
}

// How a line was read.
#[derive(Clone, Copy)]
enum Came {
    Whole,
    TooLong,
}

// A line of more than `longest` bytes is not taken, whatever it begins with. It reads only where no whole line waits, so that every line that
// has come is answered before the program waits for more, and each answer is written with one call. Where a read or a write fails, nothing more
// is read or written. The end of input is read once: the chain goes on to what is empty, and never back to the reader.
pub fn serve<P: Protocol>(
    rt: &(impl Input + Print + AllocGlobal),
    longest: u64,
    protocol: &mut P,
) -> io::Result<()>
    requires { P.kept protocol.old }
    ensures { P.kept protocol.new }
{
    let mut input = BufReader::new(rt.alloc(), rt.reader().chain(io::empty()))?;
    let mut output = Output::new(rt);
    answer_lines(&mut input, longest, protocol, &mut output, rt.alloc())?;
    output.finish()
}

// Nothing is read behind a write that failed, so that an error of a read, or of memory, comes only where none has. A proved loop has to end, and
// nothing says that the input does: so it counts the lines, up to a number that no run reaches.
fn answer_lines<P: Protocol>(
    input: &mut impl BufRead,
    longest: u64,
    protocol: &mut P,
    output: &mut Output<impl Print>,
    alloc: Global,
) -> io::Result<()>
    requires { P.kept protocol.old }
    ensures kept { P.kept protocol.new }
    ensures written { IsErr output.old.written → output.new.written ≡ output.old.written }
    ensures failed { OnErr result (IsOk output.new.written) }
{
    let mut line = Vec::new(alloc);
    let mut answer = String::new(alloc);
    'lines: for number in 1..u64::MAX {
        if output.has_failed() {
            break;
        }
        line.clear();
        answer.clear();
        let Some(came) = read_line(input, longest, &mut line)? else {
            break;
        };
        answer_to(protocol, came, number, &line, &mut answer)?;
        if !answer.is_empty() {
            output.write(answer.as_bytes());
        }
    }
    Ok(())
}

// A line without its end, behind the bytes that `line` has; of one that is too long no more than `longest` bytes and one. None at the end of input.
// Where a read fails `line` stays as it was.
fn read_line(input: &mut impl BufRead, longest: u64, line: &mut Vec<u8>) -> io::Result<Option<Came>>
    ensures front { StartsWith line.new.items line.old.items }
    ensures failed { OnErr result (line.new.items ≡ line.old.items) }
{
    let length = line.len();
    let came = gather(input, longest, line);
    if came.is_err() {
        line.truncate(length);
    }
    came
}

// The same, but that bytes of the line may stand in `line` where a read fails.
fn gather(input: &mut impl BufRead, longest: u64, line: &mut Vec<u8>) -> io::Result<Option<Came>>
    ensures { StartsWith line.new.items line.old.items }
{
    let n = input
        .by_ref()
        .take(longest.saturating_add(1))
        .read_until(b'\n', line)?;
    if n == 0 {
        return Ok(None);
    }
    let is_ended = line.pop_if(|b| *b == b'\n').is_some();
    if is_ended || (n as u64) <= longest {
        return Ok(Some(Came::Whole));
    }
    input.skip_until(b'\n')?;
    Ok(Some(Came::TooLong))
}

// `? line N` for a line that is not taken.
fn answer_to<P: Protocol>(
    protocol: &mut P,
    came: Came,
    number: u64,
    line: &[u8],
    answer: &mut String,
) -> io::Result<()>
    requires { P.kept protocol.old }
    ensures { P.kept protocol.new }
{
    match taken(protocol, came, line, answer) {
        Ok(()) => Ok(()),
        Err(Failure::NotTaken) => {
            answer.clear();
            Ok(writeln!(answer, "? line {number}")?)
        }
        Err(Failure::OutOfMemory) => Err(ErrorKind::OutOfMemory.into()),
    }
}

// An empty line and a remark have no answer.
fn taken<P: Protocol>(
    protocol: &mut P,
    came: Came,
    line: &[u8],
    answer: &mut String,
) -> Result<(), Failure>
    requires { P.kept protocol.old }
    ensures { P.kept protocol.new }
{
    match (came, line) {
        (Came::TooLong, _) => Err(Failure::NotTaken),
        (_, [] | [b'#', ..]) => Ok(()),
        (_, text) => protocol.answer(str::from_utf8(text).ok().ok_or(Failure::NotTaken)?, answer),
    }
}
