// The tests, one function each: what is refused, why and at which place, and which end is wrong; and the chains of them that operations share.
// Records stand in lent bytes, so loops go over their places.
// The lent areas go one by one: a struct that holds them by reference makes clauses say `.entry.` of each field.
#![tactic(auto)]

ghost use Rattle.std.specs.Prelude.{◌≡◌, ◌+◌, ◌*◌, ◌/◌, ◌≤◌, ◌<◌, not, ◌&&◌, length, leb, ltb, None, get_or};
ghost use Rattle.grid.specs.Frequencies.{limit_of};
ghost use Rattle.refusals.specs.Refusals.{number_of, end_number, end_told};
ghost use Rattle.refusals.specs.Table.{whenever, wrong_end, repeats, tested, row1, row2, row3, row4, row5, row6, row7, row8, row9, row10, row12};
ghost use Rattle.refusals.specs.inner.Remainders.{remainder_of, Chain};

use records::Circuit;
use records::chains::Chains;

pub mod admit;

// Why a call is refused; its number is that of the table.
#[derive(Clone, Copy, Debug, PartialEq, Eq)]
pub enum Reason {
    // Circuit bytes that are not whole records.
    PartRecord = 1,
    // More than 2,048 circuits.
    TooManyCircuits = 2,
    // A line of no link, or of too many.
    Links = 3,
    // No wavelength, or more than the grid has.
    Wavelengths = 4,
    // A circuit number that is 0.
    NumberZero = 5,
    // A circuit that doesn't lie on the line.
    WrongEnd = 6,
    // A circuit number that stands twice.
    NumberTwice = 7,
    // A fibre list that is too short.
    FibreRoom = 8,
    // An assignment list that is too short.
    AssignmentRoom = 9,
    // A work area that is too short.
    WorkRoom = 10,
    // A file that can't be read.
    Unread = 11,
    // A grid that there is not.
    Grid = 12,
    // A plan that doesn't fit.
    UnfitPlan = 13,
    // A new circuit with the number of an old one.
    NumberTaken = 14,
    // An index that is too short.
    IndexRoom = 15,
    // A list that is not whole records.
    PartList = 16,
    // Fibres that don't fit.
    UnfitFibres = 20,
    // A sheet that is too short.
    SheetRoom = 21,
    // A report that is too short.
    ReportRoom = 23,
}

impl From<Reason> for u32 {
    ghost from_gives = { λ reason x. x ≡ number_of reason };

    fn from(reason: Reason) -> u32 {
        reason as u32
    }
}

// Which end of a circuit is wrong.
#[derive(Clone, Copy, Debug, PartialEq, Eq)]
pub enum End {
    // The first link is 0.
    FirstZero = 1,
    // The first link is past the last.
    FirstPastLast = 2,
    // The last link is past the line.
    LastPastLine = 3,
}

impl From<End> for u32 {
    ghost from_gives = { λ end x. x ≡ end_number end };

    fn from(end: End) -> u32 {
        end as u32
    }
}

// A refusal: why, the place of the record that is at fault, or 0, and which of its ends is wrong.
#[derive(Clone, Copy, Debug, PartialEq, Eq)]
pub struct Refusal {
    pub reason: Reason,
    pub place: u32,
    pub end: Option<End>,
}

impl Refusal {
    // One that is about no record.
    pub fn at_large(reason: Reason) -> Refusal
        ensures { result ≡ record { reason = reason; place = 0; end = None } }
    {
        Refusal {
            reason,
            place: 0,
            end: None,
        }
    }

    // One that is about the record at a place, and about no end of it.
    pub fn at(reason: Reason, place: u32) -> Refusal
        ensures { result ≡ record { reason = reason; place = place; end = None } }
    {
        Refusal {
            reason,
            place,
            end: None,
        }
    }

    // The number of the wrong end, or 0.
    pub fn end_told(self) -> u32
        ensures { result ≡ end_told self.end }
    {
        self.end.map_or(0, u32::from)
    }
}

// 1: whole records. What is found: how many.
pub fn whole(circuits: &[u8]) -> Result<usize, Refusal>
    ensures { result ≡ tested (row1 circuits.now) (length circuits.now / 8) }
{
    let l = circuits.len();
    if l % 8 != 0 {
        return Err(Refusal::at_large(Reason::PartRecord));
    }
    Ok(l / 8)
}

// 2: not more than 2,048 circuits.
pub fn few(m: usize) -> Result<usize, Refusal>
    ensures { result ≡ tested (row2 m) m }
{
    if 2048 < m {
        return Err(Refusal::at_large(Reason::TooManyCircuits));
    }
    Ok(m)
}

// A number that is not 1 to the limit is refused.
fn within(reason: Reason, x: usize, limit: usize) -> Result<usize, Refusal>
    ensures { result ≡ tested (whenever reason (not (leb 1 x && leb x limit))) x }
{
    if x < 1 || limit < x {
        return Err(Refusal::at_large(reason));
    }
    Ok(x)
}

// 3: a line of 1 to `limit` links.
pub fn line(n: usize, limit: usize) -> Result<usize, Refusal>
    ensures { result ≡ tested (row3 limit n) n }
{
    within(Reason::Links, n, limit)
}

// 12: a grid that there is.
pub fn known_grid(grid: usize) -> Result<usize, Refusal>
    ensures { result ≡ tested (row12 grid) grid }
{
    if grid::is_grid(grid) {
        return Ok(grid);
    }
    Err(Refusal::at_large(Reason::Grid))
}

// 4: 1 to as many wavelengths as the grid has.
pub fn waves(w: usize, grid: usize) -> Result<usize, Refusal>
    ensures { result ≡ tested (row4 (limit_of grid) w) w }
{
    within(Reason::Wavelengths, w, grid::limit(grid))
}

// 5: no circuit number is 0.
pub fn numbered(circuits: &[u8], m: usize) -> Result<usize, Refusal>
    requires { (8 * m ≤ length circuits.now) × (m ≤ 2048) }
    ensures { result ≡ tested (row5 circuits.now m) m }
{
    for j in 0..m {
        let c = records::record_at::<Circuit>(circuits, j);
        if c.number == 0 {
            return Err(Refusal::at(Reason::NumberZero, (j + 1) as u32));
        }
    }
    Ok(m)
}

// Which end of a circuit is wrong on a line of n links.
#[tactic(auto, unfolding(crate::specs::Table::wrong_end))]
fn wrong_end(c: Circuit, n: usize) -> Option<End>
    ensures { result ≡ wrong_end n c }
{
    if c.first == 0 {
        Some(End::FirstZero)
    } else if c.last < c.first {
        Some(End::FirstPastLast)
    } else if n < usize::from(c.last) {
        Some(End::LastPastLine)
    } else {
        None
    }
}

// 6: every circuit lies on the line of n links.
pub fn on_line(circuits: &[u8], m: usize, n: usize) -> Result<usize, Refusal>
    requires { (8 * m ≤ length circuits.now) × (m ≤ 2048) }
    ensures { result ≡ tested (row6 n circuits.now m) m }
{
    for j in 0..m {
        let c = records::record_at::<Circuit>(circuits, j);
        let end = wrong_end(c, n);
        if end.is_some() {
            return Err(Refusal {
                reason: Reason::WrongEnd,
                place: (j + 1) as u32,
                end,
            });
        }
    }
    Ok(m)
}

// A remainder of a number: all of its digits count, so that round numbers spread.
#[tactic(auto, unfolding(crate::specs::inner::Remainders::remainder_of))]
fn remainder(x: u32) -> usize
    ensures { (result ≡ remainder_of x) × (result < 4096) }
{
    ((x % 4096 + x / 4096 % 4096 + x / 16777216) % 4096) as usize
}

// Whether record j repeats the number of an earlier one: it is compared along the chain of its remainder r.
fn is_repeat(circuits: &[u8], j: usize, r: usize, chains: &Chains<4096>) -> bool
    requires room { (8 * j + 8 ≤ length circuits.now) × (j < 2048) × (r < 4096) }
    requires chain { Chain circuits.now j (get_or chains.now.heads r 0) chains.now.next }
    ensures { result ≡ repeats circuits.now j }
{
    let x = records::record_at::<Circuit>(circuits, j).number;
    let mut at = chains.first(r);
    while let Some(i) = at {
        let d = records::record_at::<Circuit>(circuits, i);
        if d.number == x {
            return true;
        }
        at = chains.after(i);
    }
    false
}

// 7: no circuit number stands twice. Each record beside those before it that have its remainder, until one repeats.
pub fn unlike(circuits: &[u8], m: usize) -> Result<usize, Refusal>
    requires { (8 * m ≤ length circuits.now) × (m ≤ 2048) }
    ensures { result ≡ tested (row7 circuits.now m) m }
{
    // A chain for each remainder.
    let mut chains = Chains {
        heads: [0; 4096],
        next: [0; 2048],
    };
    for j in 0..m {
        let x = records::record_at::<Circuit>(circuits, j).number;
        let r = remainder(x);
        if is_repeat(circuits, j, r, &chains) {
            return Err(Refusal::at(Reason::NumberTwice, (j + 1) as u32));
        }
        chains.push(r, j);
    }
    Ok(m)
}

// A lent area that is too short is refused.
fn room(reason: Reason, needed: usize, has: usize) -> Result<usize, Refusal>
    ensures { result ≡ tested (whenever reason (ltb has needed)) has }
{
    if has < needed {
        return Err(Refusal::at_large(reason));
    }
    Ok(has)
}

// 8: the fibre list has 8 bytes for each of m circuits.
pub fn fibre_room(has: usize, m: usize) -> Result<usize, Refusal>
    requires { m ≤ 2048 }
    ensures { result ≡ tested (row8 m has) has }
{
    room(Reason::FibreRoom, 8 * m, has)
}

// 9: the assignment list has 8 bytes for each of m circuits.
pub fn assignment_room(has: usize, m: usize) -> Result<usize, Refusal>
    requires { m ≤ 2048 }
    ensures { result ≡ tested (row9 m has) has }
{
    room(Reason::AssignmentRoom, 8 * m, has)
}

// A list without 8 bytes for each of its named records and of m more is refused. What it holds is compared, so that no sum passes a machine word.
fn room_behind(reason: Reason, has: usize, named: usize, m: usize) -> Result<usize, Refusal>
    ensures { result ≡ tested (whenever reason (ltb has (8 * (named + m)))) has }
{
    let holds = has / 8;
    if holds < named || holds - named < m {
        return Err(Refusal::at_large(reason));
    }
    Ok(has)
}

// 8: the fibre list has 8 bytes for each of its named records and of m circuits.
pub fn fibre_room_behind(has: usize, named: usize, m: usize) -> Result<usize, Refusal>
    ensures { result ≡ tested (row8 (named + m) has) has }
{
    room_behind(Reason::FibreRoom, has, named, m)
}

// 9: the assignment list has 8 bytes for each of its named records and of m circuits.
pub fn assignment_room_behind(has: usize, named: usize, m: usize) -> Result<usize, Refusal>
    ensures { result ≡ tested (row9 (named + m) has) has }
{
    room_behind(Reason::AssignmentRoom, has, named, m)
}

// 10: the work area has 4 bytes for each link and each circuit.
pub fn work_room(has: usize, n: usize, m: usize) -> Result<usize, Refusal>
    requires { (n ≤ 512) × (m ≤ 2048) }
    ensures { result ≡ tested (row10 n m has) has }
{
    room(Reason::WorkRoom, 4 * n + 4 * m, has)
}
