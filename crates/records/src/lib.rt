// The three 8-byte records in lent bytes.
#![tactic(auto)]

ghost use Rattle.std.specs.Prelude.{◌≡◌, ◌+◌, ◌*◌, ◌≤◌, List, ℕ, length, refl};
ghost use Rattle.records.specs.LineFiles.{line_in, line_on};
ghost use Rattle.records.specs.Records.{record_at, circuit_of, fibre_of, assignment_of, circuit_bytes, fibre_bytes, assignment_bytes, put_record};

use crate::numbers::{read16, read32, write16, write32};

pub mod cells;
pub mod chains;
pub mod numbers;

// A line: how many links, how many wavelengths a fibre carries, and the number of their grid.
#[derive(Clone, Copy, Debug, PartialEq, Eq)]
pub struct Line {
    pub links: usize,
    pub wavelengths: usize,
    pub grid: usize,
}

// A circuit, as its record holds it.
#[derive(Clone, Copy, Debug, PartialEq, Eq)]
pub struct Circuit {
    pub number: u32,
    pub first: u16,
    pub last: u16,
}

// A fibre with its number.
#[derive(Clone, Copy, Debug, PartialEq, Eq)]
pub struct FibreRecord {
    pub number: u16,
    pub first: u16,
    pub last: u16,
    pub layer: u16,
}

// What a circuit is given.
#[derive(Clone, Copy, Debug, PartialEq, Eq)]
pub struct AssignmentRecord {
    pub circuit: u32,
    pub fibre: u16,
    pub wavelength: u16,
}

// A record of 8 bytes, which is read from them and written to them.
pub trait Record: Copy {
    // What 8 bytes hold.
    ghost held: { List ℕ → Self };

    // The 8 bytes of a record.
    ghost bytes: { Self → List ℕ };

    fn read(part: &[u8]) -> Self
        requires { length part.now ≡ 8 }
        ensures { result ≡ held part.now };

    fn write(self, part: &mut [u8])
        requires { length part.old ≡ 8 }
        ensures { part.new ≡ bytes self };

    // They are 8.
    ghost eight: { (r : Self) → length (bytes r) ≡ 8 };
}

impl Record for Circuit {
    ghost held = { circuit_of };

    ghost bytes = { circuit_bytes };

    ghost eight = { λ r. refl };

    fn read(part: &[u8]) -> Circuit {
        Circuit {
            number: read32(part, 0),
            first: read16(part, 4),
            last: read16(part, 6),
        }
    }

    fn write(self, part: &mut [u8]) {
        write32(part, 0, self.number);
        write16(part, 4, self.first);
        write16(part, 6, self.last);
    }
}

impl Record for FibreRecord {
    ghost held = { fibre_of };

    ghost bytes = { fibre_bytes };

    ghost eight = { λ r. refl };

    fn read(part: &[u8]) -> FibreRecord {
        FibreRecord {
            number: read16(part, 0),
            first: read16(part, 2),
            last: read16(part, 4),
            layer: read16(part, 6),
        }
    }

    fn write(self, part: &mut [u8]) {
        write16(part, 0, self.number);
        write16(part, 2, self.first);
        write16(part, 4, self.last);
        write16(part, 6, self.layer);
    }
}

impl Record for AssignmentRecord {
    ghost held = { assignment_of };

    ghost bytes = { assignment_bytes };

    ghost eight = { λ r. refl };

    fn read(part: &[u8]) -> AssignmentRecord {
        AssignmentRecord {
            circuit: read32(part, 0),
            fibre: read16(part, 4),
            wavelength: read16(part, 6),
        }
    }

    fn write(self, part: &mut [u8]) {
        write32(part, 0, self.circuit);
        write16(part, 4, self.fibre);
        write16(part, 6, self.wavelength);
    }
}

// Record i of a list, counted from 0.
pub fn record_at<R: Record>(list: &[u8], i: usize) -> R
    requires { 8 * i + 8 ≤ length list.now }
    ensures { result ≡ R.held (record_at list.now i) }
{
    let start = 8 * i;
    R::read(&list[start..start + 8])
}

// Record i of a list, counted from 0, becomes r.
pub fn put_record<R: Record>(list: &mut [u8], i: usize, r: R)
    requires { 8 * i + 8 ≤ length list.old }
    ensures { list.new ≡ put_record list.old i (R.bytes r) }
{
    let start = 8 * i;
    r.write(&mut list[start..start + 8]);
}

// The line whose links and wavelengths the first four bytes say, on a grid.
#[tactic(auto, unfolding(crate::specs::LineFiles::line_on))]
fn line_on(bytes: &[u8], grid: usize) -> Line
    requires { 4 ≤ length bytes.now }
    ensures { result ≡ line_on bytes.now grid }
{
    Line {
        links: usize::from(read16(bytes, 0)),
        wavelengths: usize::from(read16(bytes, 2)),
        grid,
    }
}

// The line that the bytes of `line.rec` say, if they say one.
#[tactic(auto, unfolding(crate::specs::LineFiles::line_in))]
pub fn line_in(bytes: &[u8]) -> Option<Line>
    ensures { result ≡ line_in bytes.now }
{
    match bytes.len() {
        4 => Some(line_on(bytes, 1)),
        6 => Some(line_on(bytes, usize::from(read16(bytes, 4)))),
        _ => None,
    }
}
