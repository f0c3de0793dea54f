// Lines of a text of circuits. A line goes by its places in the whole text, as in the definitions: slices of it would be no plainer.
ghost use Rattle.std.specs.Prelude.{◌≡◌, suc, ◌+◌, ◌≤◌, length};
ghost use Rattle.entry_text.specs.Entries.{idle_line, header_in, circuit_in, found_by, header_from};
ghost use Rattle.entry_text.specs.inner.Told.{Next};

use crate::{Expected, Header, Wrong, words};
use records::Circuit;

// The header, with where the next line starts and its number.
#[derive(Clone, Copy, Debug, PartialEq, Eq)]
pub struct Opening {
    pub header: Header,
    pub next: usize,
    pub line: usize,
}

// A line that counts: where it starts and ends, and its number.
#[derive(Clone, Copy, Debug, PartialEq, Eq)]
pub struct Counted {
    pub start: usize,
    pub end: usize,
    pub number: usize,
}

// Whether the line from i to before e does not count.
#[tactic(auto, unfolding(crate::specs::Entries::idle_line))]
fn idle_line(text: &[u8], i: usize, e: usize) -> bool
    requires { (i ≤ e) × (e ≤ length text.now) }
    ensures { result ≡ idle_line text.now i e }
{
    let a = words::word_from(text, i, e);
    e <= a || text[a] == b'#'
}

// The header that the line from i to before e says: n and w, or n, w and the grid.
#[tactic(auto, using(crate::proofs::Digits::word_below), unfolding(crate::specs::Entries::header_in))]
fn header_in(text: &[u8], i: usize, e: usize) -> Option<Header>
    requires { (i ≤ e) × (e ≤ length text.now) }
    ensures { result ≡ header_in text.now i e }
{
    let n = words::word_number(text, i, e, 65536)?;
    let p = words::word_past(text, i, e);
    let w = words::word_number(text, p, e, 65536)?;
    let q = words::word_past(text, p, e);
    let (n, w) = (n as u16, w as u16);
    if e <= words::word_from(text, q, e) {
        return Some(Header { n, w, grid: None });
    }
    let grid = words::word_number(text, q, e, 65536)?;
    let o = words::word_past(text, q, e);
    if words::word_from(text, o, e) < e {
        return None;
    }
    let grid = Some(grid as u16);
    Some(Header { n, w, grid })
}

// The circuit of the line from i to before e.
#[tactic(auto, using(crate::proofs::Digits::word_below), unfolding(crate::specs::Entries::circuit_in))]
pub fn circuit_in(text: &[u8], i: usize, e: usize) -> Option<Circuit>
    requires { (i ≤ e) × (e ≤ length text.now) }
    ensures { result ≡ circuit_in text.now i e }
{
    let number = words::word_number(text, i, e, 4294967296)?;
    let p = words::word_past(text, i, e);
    let first = words::word_number(text, p, e, 65536)?;
    let q = words::word_past(text, p, e);
    let last = words::word_number(text, q, e, 65536)?;
    let o = words::word_past(text, q, e);
    if words::word_from(text, o, e) < e {
        return None;
    }
    Some(Circuit {
        number: number as u32,
        first: first as u16,
        last: last as u16,
    })
}

// The first line that counts, from the one that starts at `start` on, which has the number `first`; else the number behind the last line.
pub fn next_counted(text: &[u8], start: usize, first: usize) -> Result<Counted, usize>
    requires { (length text.now ≤ 1048576) × (start ≤ length text.now + 1) × (first ≤ start + 1) }
    ensures { Next text.now start first result }
{
    let mut i = start;
    let mut number = first;
    // A turn goes on by a line and not by a byte, so a `for` would be no plainer.
    while i < text.len() {
        let end = words::line_end(text, i);
        if !idle_line(text, i, end) {
            return Ok(Counted {
                start: i,
                end,
                number,
            });
        }
        i = end + 1;
        number += 1;
    }
    Err(number)
}

// What a line that counts says as the header.
fn opened(text: &[u8], line: Counted) -> Result<Opening, Wrong>
    requires { (line.start ≤ line.end) × (line.end ≤ length text.now) × (length text.now ≤ 1048576) × (line.number ≤ 1048577) }
    ensures { result ≡ found_by (suc line.end) line.number (header_in text.now line.start line.end) }
{
    let header = header_in(text, line.start, line.end).ok_or(Wrong {
        line: line.number,
        expected: Expected::HeaderLine,
    })?;
    Ok(Opening {
        header,
        next: line.end + 1,
        line: line.number + 1,
    })
}

// The first line that counts.
pub fn find_header(text: &[u8]) -> Result<Opening, Wrong>
    requires { length text.now ≤ 1048576 }
    ensures { result ≡ header_from (suc (length text.now)) text.now 0 1 }
{
    match next_counted(text, 0, 1) {
        Ok(line) => opened(text, line),
        Err(line) => Err(Wrong {
            line,
            expected: Expected::HeaderLine,
        }),
    }
}
