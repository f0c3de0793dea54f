// Runs of the planner over lent areas that are filled with sevens first.
ghost use Rattle.std.specs.Prelude.{◌≡◌, ◌*◌, ◌≤◌, min, max, length};

use crate::inputs;
use crate::inputs::Faults;
use crate::report::Answer;
use records::{Circuit, Line};
use refusals::Reason;

// How many bytes of each area are lent.
#[derive(Clone, Copy, Debug, PartialEq, Eq)]
pub struct Room {
    pub fibres: usize,
    pub assigns: usize,
    pub work: usize,
}

// A file of circuits: how many, the last link of the first, whether the others stand along a chain, how many bytes are given, and the faults.
#[derive(Clone, Copy, Debug, PartialEq, Eq)]
pub struct File {
    pub many: usize,
    pub last: u16,
    pub chain: bool,
    pub bytes: usize,
    pub faults: Option<Faults>,
}

// The answer, and how many bytes of the fibre list, the assignment list and the work area are not as they should be.
#[derive(Clone, Copy, Debug, PartialEq, Eq)]
pub struct Came {
    pub answer: Answer,
    pub astray: [usize; 3],
}

// A line on a grid.
pub fn on_grid(links: usize, wavelengths: usize, grid: usize) -> Line {
    Line {
        links,
        wavelengths,
        grid,
    }
}

// A line on grid 1.
pub fn drawn(links: usize, wavelengths: usize) -> Line {
    on_grid(links, wavelengths, 1)
}

// Room of the given sizes.
pub fn sized(fibres: usize, assigns: usize, work: usize) -> Room {
    Room {
        fibres,
        assigns,
        work,
    }
}

// Whether a byte at place i is as it should be: 0 before `zeroed`, and 7 from `kept` on.
fn in_order(b: u8, i: usize, zeroed: usize, kept: usize) -> bool {
    if i < zeroed {
        return b == 0;
    }
    i < kept || b == 7
}

// How many bytes are not as they should be.
fn astray(bytes: &[u8], zeroed: usize, kept: usize) -> usize
    ensures { result ≤ length bytes.now }
{
    bytes
        .iter()
        .enumerate()
        .filter(|(i, b)| !in_order(**b, *i, zeroed, kept))
        .count()
}

// How many bytes so many records take; no plan has more than 2,048.
fn taken(records: usize) -> usize {
    8 * records.min(2048)
}

// What came of an answer on n links and m circuits.
fn seen(answer: Answer, n: usize, m: usize, fibres: &[u8], assigns: &[u8], work: &[u8]) -> Came {
    let astray = match answer {
        Ok(counts) => {
            let k = 4 * n.min(1000) + 4 * m.min(2048);
            [
                astray(fibres, 0, taken(counts.fibres)),
                astray(assigns, 0, taken(m)),
                astray(work, k, k),
            ]
        }
        Err(_) => [
            astray(fibres, 0, 0),
            astray(assigns, 0, 0),
            astray(work, 0, 0),
        ],
    };
    Came { answer, astray }
}

// Plans with so much of the areas lent.
fn lend(
    line: Line,
    circuits: &[u8],
    room: Room,
    fibres: &mut [u8],
    assigns: &mut [u8],
    work: &mut [u8],
) -> Came {
    let f = room.fibres.min(fibres.len());
    let a = room.assigns.min(assigns.len());
    let k = room.work.min(work.len());
    let answer = planner::plan(
        line,
        circuits,
        &mut fibres[..f],
        &mut assigns[..a],
        &mut work[..k],
    );
    seen(
        answer,
        line.links,
        circuits.len() / 8,
        fibres,
        assigns,
        work,
    )
}

// Plans over areas that are a few bytes longer than any plan needs.
fn run(line: Line, circuits: &[u8], room: Room) -> Came {
    let mut fibres = [7u8; 16400];
    let mut assigns = [7u8; 16400];
    let mut work = [7u8; 10300];
    lend(line, circuits, room, &mut fibres, &mut assigns, &mut work)
}

// All of the areas.
fn ample() -> Room {
    sized(16400, 16400, 10300)
}

// One circuit.
pub fn one(line: Line, c: Circuit) -> Came {
    let mut buf = [0u8; 8];
    records::put_record(&mut buf, 0, c);
    run(line, &buf, ample())
}

// Three circuits on 5 links with 1 wavelength.
pub fn three(a: Circuit, b: Circuit, c: Circuit) -> Came {
    let mut buf = [0u8; 24];
    records::put_record(&mut buf, 0, a);
    records::put_record(&mut buf, 1, b);
    records::put_record(&mut buf, 2, c);
    run(drawn(5, 1), &buf, ample())
}

// Plans the first bytes of a file of circuits.
fn file_in(line: Line, file: File, room: Room, buf: &mut [u8]) -> Came
    requires { (file.many ≤ 2049) × (file.last ≤ 512) × (8 * file.many ≤ length buf.old) }
{
    let faults = file.faults;
    inputs::fill(buf, file.many, file.last, file.chain, faults);
    let e = file.bytes.min(buf.len());
    run(line, &buf[..e], room)
}

// Plans a file of circuits.
fn file_of(line: Line, file: File, room: Room) -> Came
    requires { (file.many ≤ 2049) × (file.last ≤ 512) }
{
    let mut buf = [0u8; 16393];
    file_in(line, file, room, &mut buf)
}

// So many circuits, each from link 1 to `last`, of which so many bytes are given.
fn faultless(many: usize, last: u16, bytes: usize) -> File
    ensures { (result.many ≡ many) × (result.last ≡ last) }
{
    File {
        many,
        last,
        chain: false,
        bytes,
        faults: None,
    }
}

// No circuits.
pub fn none(line: Line) -> Came {
    file_of(line, faultless(0, 1, 0), ample())
}

// So many circuits, each from link 1 to `last`.
pub fn crowd(line: Line, many: usize, last: u16) -> Came
    requires { (many ≤ 2049) × (last ≤ 512) }
{
    file_of(line, faultless(many, last, 8 * many), ample())
}

// Circuits [1, 3], [3, 5], .., [19, 21], each twice but the first, with 2 wavelengths.
pub fn chain() -> Came {
    file_of(
        drawn(512, 2),
        File {
            many: 19,
            last: 3,
            chain: true,
            bytes: 152,
            faults: None,
        },
        ample(),
    )
}

// So many bytes of two records, on one link.
pub fn cut(bytes: usize) -> Came {
    file_of(drawn(1, 1), faultless(2, 1, bytes), ample())
}

// One circuit on one link, with so much of the areas lent.
pub fn lent(room: Room) -> Came {
    file_of(drawn(1, 1), faultless(1, 1, 8), room)
}

// The bad value if the fault is one of the two, else the good one.
fn either(faults: Faults, fault: Reason, bad: usize, good: usize) -> usize
    ensures { (result ≤ max bad good) × (min bad good ≤ result) }
{
    if faults.has(fault) { bad } else { good }
}

// Four circuits on 10 links with 2 wavelengths, and lent areas that just hold their plan, but for the faults.
pub fn faulty(faults: Faults) -> Came {
    let n = either(faults, Reason::Links, 513, 10);
    let w = either(faults, Reason::Wavelengths, 41, 2);
    let line = on_grid(n, w, either(faults, Reason::Grid, 3, 1));
    let m = either(faults, Reason::TooManyCircuits, 2049, 4);
    let bytes = 8 * m + either(faults, Reason::PartRecord, 1, 0);
    let room = sized(
        8 * m - either(faults, Reason::FibreRoom, 1, 0),
        8 * m - either(faults, Reason::AssignmentRoom, 1, 0),
        4 * n + 4 * m - either(faults, Reason::WorkRoom, 1, 0),
    );
    file_of(
        line,
        File {
            many: m,
            last: 2,
            chain: false,
            bytes,
            faults: Some(faults),
        },
        room,
    )
}
