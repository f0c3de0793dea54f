// Reads a text of circuits.
#![tactic(auto)]

ghost use Rattle.std.specs.Prelude.{◌≡◌, ◌+◌, ◌/◌, ◌≤◌, length, take};
ghost use Rattle.entry_text.specs.Entered.{Enters};
ghost use Rattle.entry_text.specs.Faults.{expected_number};
ghost use Rattle.entry_text.specs.Pair.{header_bytes, MadeOf};
ghost use Rattle.entry_text.specs.inner.Told.{Reads};

pub mod faults;
mod lines;
pub mod messages;
pub mod numbering;
mod words;

// What the first line that counts says: where it does not name the grid, that is grid 1. n and w are the words of the text.
#[derive(Clone, Copy, Debug, PartialEq, Eq)]
pub struct Header {
    pub n: u16,
    pub w: u16,
    pub grid: Option<u16>,
}

// The header and how many circuits.
#[derive(Clone, Copy, Debug, PartialEq, Eq)]
pub struct Entry {
    pub header: Header,
    pub circuits: usize,
}

// What was expected where a text is wrong: `n w` or `n w grid`, `number first last`, no circuit too many, or a text that is not too long.
#[derive(Clone, Copy, Debug, PartialEq, Eq)]
pub enum Expected {
    HeaderLine = 1,
    CircuitLine = 2,
    NoMoreCircuits = 3,
    ShorterText = 4,
}

impl From<Expected> for u32 {
    ghost from_gives = { λ expected x. x ≡ expected_number expected };

    fn from(expected: Expected) -> u32 {
        expected as u32
    }
}

// The first line that is wrong, counted from 1, and what was expected there.
#[derive(Clone, Copy, Debug, PartialEq, Eq)]
pub struct Wrong {
    pub line: usize,
    pub expected: Expected,
}

// How many bytes line.rec and circuits.rec have.
#[derive(Clone, Copy, Debug, PartialEq, Eq)]
pub struct Files {
    pub line: usize,
    pub circuits: usize,
}

// The files, if the text is right, and how many bytes the message has.
#[derive(Clone, Copy, Debug, PartialEq, Eq)]
pub struct Made {
    pub files: Option<Files>,
    pub message: usize,
}

// Writes the circuits of the lines from `start` on, of which the first is numbered `first`.
fn read_circuits(text: &[u8], out: &mut [u8], start: usize, first: usize) -> Result<usize, Wrong>
    requires { (length text.now ≤ 1048576) × (start ≤ length text.now + 1) × (first ≤ start + 1) }
    ensures { Reads text.now start first out.old result out.new }
{
    let room = out.len() / 8;
    let mut i = start;
    let mut number = first;
    let mut count = 0;
    while let Ok(line) = lines::next_counted(text, i, number) {
        let c = lines::circuit_in(text, line.start, line.end).ok_or(Wrong {
            line: line.number,
            expected: Expected::CircuitLine,
        })?;
        if room <= count {
            return Err(Wrong {
                line: line.number,
                expected: Expected::NoMoreCircuits,
            });
        }
        records::put_record(out, count, c);
        count += 1;
        i = line.end + 1;
        number = line.number + 1;
    }
    Ok(count)
}

// Reads the header and the circuits of a text into circuit records at the start of `out`.
pub fn enter(text: &[u8], out: &mut [u8]) -> Result<Entry, Wrong>
    ensures { Enters text.now (length out.old / 8) out.old result out.new }
{
    if 1048576 < text.len() {
        return Err(Wrong {
            line: 0,
            expected: Expected::ShorterText,
        });
    }
    let opening = lines::find_header(text)?;
    let circuits = read_circuits(text, out, opening.next, opening.line)?;
    Ok(Entry {
        header: opening.header,
        circuits,
    })
}

// The bytes of line.rec. What is told: how many, 6 if the grid is named, else 4.
fn write_line(header: Header, line: &mut [u8]) -> usize
    requires { length line.old ≡ 6 }
    ensures { (take result line.new ≡ header_bytes header) × (result ≤ 6) }
{
    records::cells::put(line, 0, header.n);
    records::cells::put(line, 1, header.w);
    let Some(grid) = header.grid else {
        return 4;
    };
    records::cells::put(line, 2, grid);
    6
}

// Makes the bytes of line.rec and circuits.rec of a text, and what is said of it.
pub fn make_files(text: &[u8], line: &mut [u8], circuits: &mut [u8], message: &mut [u8]) -> Made
    requires { (length line.old ≡ 6) × (length circuits.old ≡ 16384) × (76 ≤ length message.old) }
    ensures { MadeOf text.now result line.new circuits.new message.new }
{
    let answer = enter(text, circuits);
    let message = messages::write_message(text, answer, message);
    let Ok(entry) = answer else {
        return Made {
            files: None,
            message,
        };
    };
    let line = write_line(entry.header, line);
    let circuits = 8 * entry.circuits;
    Made {
        files: Some(Files { line, circuits }),
        message,
    }
}

// A buffer for a byte more than the longest text, to tell that a text is too long.
pub fn buffer() -> [u8; 1048577]
    ensures { 1048577 ≡ length result }
{
    [0; 1048577]
}
