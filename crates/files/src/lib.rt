// Whole files and the standard streams through lent buffers, with short and interrupted calls tried again.
#![tactic(auto)]

ghost use Rattle.std.specs.Prelude.{◌≡◌, length, IfOk};
ghost use Rattle.std.specs.Io.{ReadsAtMost};
ghost use Rattle.files.specs.Starts.{ReadInto};

use std::fs;
use std::io::{ErrorKind, Input, Print, Read, Write};
use std::rt::Files;

pub mod pair;

// The start of a file or of standard input: the buffer that it was read into, and how many bytes were read. With the bytes alone nobody could say how many there was room for.
#[derive(Clone, Copy, Debug, PartialEq, Eq)]
pub struct Start<'a> {
    pub buffer: &'a [u8],
    pub read: usize,
}

// A proved loop has to end, and nothing says that a file does: no run uses up this number of calls.
const TURNS: u64 = u64::MAX;

// Reads until the buffer is full or the input ends. What is told: how many bytes. `write_all` gives where this takes: a closure for both would be no plainer.
fn read_all<R: Read>(from: &mut R, buf: &mut [u8]) -> std::io::Result<usize>
    ensures { ReadsAtMost result buf.new }
{
    let mut done = 0;
    for _ in 0..TURNS {
        if done == buf.len() {
            break;
        }
        match from.read(&mut buf[done..]) {
            Ok(0) => return Ok(done),
            Ok(k) => done += k,
            Err(e) if e.kind() == ErrorKind::Interrupted => {}
            Err(e) => return Err(e),
        }
    }
    if done < buf.len() {
        return Err(ErrorKind::TimedOut.into());
    }
    Ok(done)
}

// Writes all of the buffer. What is told: how many bytes. std's `write_all` promises no count, and on standard output it gives up after some interrupted calls.
fn write_all<W: Write>(to: &mut W, buf: &[u8]) -> std::io::Result<usize>
    ensures { IfOk result (λ k. k ≡ length buf.now) }
{
    let mut done = 0;
    for _ in 0..TURNS {
        if done == buf.len() {
            break;
        }
        match to.write(&buf[done..]) {
            Ok(0) => return Err(ErrorKind::WriteZero.into()),
            Ok(k) => done += k,
            Err(e) if e.kind() == ErrorKind::Interrupted => {}
            Err(e) => return Err(e),
        }
    }
    if done < buf.len() {
        return Err(ErrorKind::TimedOut.into());
    }
    Ok(done)
}

// Opens a file for reading. A name that is no text names none.
fn open_read<R: Files>(rt: &R, name: &[u8]) -> std::io::Result<R::File> {
    match str::from_utf8(name) {
        Ok(path) => fs::open(rt, path),
        Err(_) => Err(ErrorKind::InvalidInput.into()),
    }
}

// Reads the start of a file, as much as the buffer holds. What is told: how many bytes.
pub fn read_start<R: Files>(rt: &R, name: &[u8], buf: &mut [u8]) -> std::io::Result<usize>
    ensures { ReadsAtMost result buf.new }
{
    let mut file = open_read(rt, name)?;
    read_all(&mut file, buf)
}

// Reads the start of a file, as much as the buffer holds.
pub fn read_file<'a, R: Files>(rt: &R, name: &[u8], buf: &'a mut [u8]) -> std::io::Result<Start<'a>>
    ensures { IfOk result (ReadInto (length buf.old)) }
{
    let read = read_start(rt, name, buf)?;
    Ok(Start { buffer: buf, read })
}

// Reads the start of standard input, as much as the buffer holds.
pub fn read_input<'a, R: Input>(rt: &R, buf: &'a mut [u8]) -> std::io::Result<Start<'a>>
    ensures { IfOk result (ReadInto (length buf.old)) }
{
    let mut input = rt.reader();
    let read = read_all(&mut input, buf)?;
    Ok(Start { buffer: buf, read })
}

// Writes all of the buffer to standard output. What is told: how many bytes.
pub fn write_output<P: Print>(rt: &P, buf: &[u8]) -> std::io::Result<usize>
    ensures { IfOk result (λ k. k ≡ length buf.now) }
{
    write_all(&mut std::io::writer(rt), buf)
}
