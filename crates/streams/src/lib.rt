// Standard input and output for a program: a short or interrupted read or write goes on, and one that fails gets a line on standard error.
// No contract can speak of what an operating system read or wrote, so these only limit the counts. Of an input whose bytes are known, as a
// slice's, they say too that what was read are its next bytes.
#![tactic(auto)]

ghost use Rattle.std.specs.Prelude.{◌≤◌, length};
ghost use Rattle.streams.specs.Moves.{ReadInto, Takes, WrittenOf};

use std::io::{Error, ErrorKind, Read, Write};
use std::str;

// A read or a write that failed. The line that says why is on standard error.
#[derive(Clone, Copy)]
pub struct Failed;

// FAILURES

// Room for what std says of an error.
const TEXT_ROOM: usize = 128;

// The system's words for an error, out of std's, which put its number behind them: `Is a directory (os error 21)`.
fn system_words(text: &[u8]) -> Option<&str> {
    let (words, _) = str::from_utf8(text).ok()?.split_once(" (os error ")?;
    Some(words)
}

// Writes a line to standard error: what failed, a colon and the error's text.
fn fail(rt: &impl Eprint, what: &str, error: Error) -> Failed {
    let mut text = [0; TEXT_ROOM];
    let mut room = &mut text[..];
    let _ = write!(room, "{error}");
    let _ = match system_words(&text) {
        Some(words) => eprintln!(rt; "{what}: {words}"),
        None => eprintln!(rt; "{what}: {error}"),
    };
    Failed
}

// READING

// One read, tried again where a signal interrupts it; 0 bytes are the end of the input. A proved loop has to end, so this one has a number
// of turns, which no run uses up. Where the read fails, a line on standard error says why.
// write_some is the same loop over a write. One function over a closure would have to promise, of any closure, what a run of its failing
// calls leaves (`FoldsTo`), which is longer than the loop.
fn read_some<R: Read>(rt: &impl Eprint, input: &mut R, buffer: &mut [u8]) -> Result<usize, Failed>
    ensures into { ReadInto buffer.new result }
    ensures bytes { Takes (R.remaining input.old) (R.remaining input.new) buffer.new result }
{
    for _ in 0..u64::MAX {
        match input.read(buffer) {
            Ok(got) => return Ok(got),
            Err(error) if error.kind() == ErrorKind::Interrupted => {}
            Err(error) => return Err(fail(rt, "standard input", error)),
        }
    }
    Err(fail(rt, "standard input", Error::from(ErrorKind::Interrupted)))
}

// Reads a program's input, which is standard input but in a test, until the buffer is full or the input ends: how many bytes were put at
// the start of the buffer. Where a read fails, a line on standard error says why.
// A `while`: a step is as many bytes as a read put there.
pub fn read_input<R: Read>(
    rt: &impl Eprint,
    input: &mut R,
    buffer: &mut [u8],
) -> Result<usize, Failed>
    ensures into { ReadInto buffer.new result }
    ensures bytes { Takes (R.remaining input.old) (R.remaining input.new) buffer.new result }
{
    let mut done = 0;
    while done < buffer.len() {
        let more = read_some(rt, input, &mut buffer[done..])?;
        if more == 0 {
            return Ok(done);
        }
        done += more;
    }
    Ok(done)
}

// WRITING

// One write, tried again where a signal interrupts it; its turns are counted as in read_some. How many of the text's first bytes it took.
// Where the write fails, a line on standard error says why.
fn write_some(rt: &(impl Print + Eprint), text: &[u8]) -> Result<usize, Failed>
    ensures { WrittenOf text.now result }
{
    for _ in 0..u64::MAX {
        match rt.write_some(text) {
            Ok(put) => return Ok(put),
            Err(error) if error.kind() == ErrorKind::Interrupted => {}
            Err(error) => return Err(fail(rt, "standard output", error)),
        }
    }
    Err(fail(rt, "standard output", Error::from(ErrorKind::Interrupted)))
}

// Writes the text to standard output and answers how many of its bytes were written: all, unless a write failed, and then a line on
// standard error says why. A write that takes no byte counts as one that failed.
// The count is the answer, and no Result: that it is at most the length is all that can be promised of a write.
// A `while`: a step is as many bytes as a write took.
pub fn write_output(rt: &(impl Print + Eprint), text: &[u8]) -> usize
    ensures { result ≤ length text.now }
{
    let mut done = 0;
    while done < text.len() {
        let Ok(more) = write_some(rt, &text[done..]) else {
            return done;
        };
        if more == 0 {
            let _ = eprintln!(rt; "standard output: a write took no bytes");
            return done;
        }
        done += more;
    }
    done
}
