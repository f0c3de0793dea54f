// Riders and their chains: the wavelengths that are busy for a circuit, and one rider more.
// The lent areas go one by one: a struct that holds them by reference makes clauses say `.entry.` of each field.
ghost use Rattle.std.specs.Prelude.{◌≡◌, false, List, ℕ, suc, ◌+◌, ◌-◌, ◌*◌, ◌≤◌, ◌<◌, get_or, length, replicate};
ghost use Rattle.basics.specs.Tools.{seek};
ghost use Rattle.records.specs.Bytes.{cell};
ghost use Rattle.records.specs.Records.{assignment_of, circuit_of, record_at};
ghost use Rattle.places.specs.Places.{Rider, free_wavelength};
ghost use Rattle.placing.specs.Riding.{Chained, GivenKept, kept_in};
ghost use Rattle.placing.specs.inner.Marking.{Marked, clear, overlapping, shown, up_to};
ghost use Rattle.placing.specs.inner.Rides.{Ridden, RidingTo};

use crate::Waves;
use records::chains::Chains;
use records::{AssignmentRecord, Circuit};

// The first and last link of the rider at place j, if it overlaps c.
#[tactic(auto, unfolding(crate::specs::inner::Marking::overlapping))]
pub fn overlapping(ends: &[u8], j: usize, c: Circuit) -> Option<(u16, u16)>
    requires { (j < 2048) × (4 * j + 4 ≤ length ends.now) }
    ensures { result ≡ overlapping (cell ends.now (2 * j)) (cell ends.now (2 * j + 1)) c }
{
    let a = records::cells::get(ends, 2 * j);
    let b = records::cells::get(ends, 2 * j + 1);
    if a <= c.last && c.first <= b {
        return Some((a, b));
    }
    None
}

// The wavelength of the rider at place j, if it overlaps c; it is read in any case, so that a walk does not jump over it.
#[tactic(auto, unfolding(crate::specs::inner::Marking::overlapping, crate::specs::inner::Marking::shown))]
fn seen(ends: &[u8], assigns: &[u8], j: usize, c: Circuit) -> Option<usize>
    requires { (j < 2048) × (4 * j + 4 ≤ length ends.now) × (8 * j + 8 ≤ length assigns.now) }
    ensures { result ≡ shown (cell ends.now (2 * j)) (cell ends.now (2 * j + 1)) (assignment_of (record_at assigns.now j)).wavelength c }
{
    let a = records::record_at::<AssignmentRecord>(assigns, j);
    overlapping(ends, j, c)?;
    Some(usize::from(a.wavelength))
}

// The entry of the first rider of fibre q. Not inlined, so that `mark` walks along whole words: over 2-byte entries, or places, each step takes a sixth longer.
#[inline(never)]
fn first_entry(chains: &Chains<2048>, q: usize) -> usize
    requires { (1 ≤ q) × (q ≤ 2048) }
    ensures { result ≡ get_or chains.now.heads (q - 1) 0 }
{
    usize::from(chains.heads[q - 1])
}

// The wavelengths of the riders of fibre q that overlap c are marked, and entry 0, which is nobody's, for the others: with a branch a long chain takes twice the time.
fn mark(
    ends: &[u8],
    assigns: &[u8],
    chains: &Chains<2048>,
    q: usize,
    c: Circuit,
    busy: &mut [bool; 96],
)
    requires start { (1 ≤ q) × (q ≤ 2048) × (busy.old ≡ replicate 96 false) }
    requires chained { (rs : List Rider) × Chained rs ends.now assigns.now chains.now.next (get_or chains.now.heads (q - 1) 0) q }
    ensures { (rs : List Rider) → Chained rs ends.now assigns.now chains.now.next (get_or chains.now.heads (q - 1) 0) q → Marked rs c q busy.new }
{
    let mut z = first_entry(chains, q);
    while let Some(j) = z.checked_sub(1) {
        let v = seen(ends, assigns, j, c).unwrap_or(0);
        busy[v] = true;
        z = usize::from(chains.next[j]);
    }
}

// The lowest of the entries lo to hi that is clear.
fn lowest_clear(busy: &[bool; 96], lo: usize, hi: usize) -> Option<u16>
    requires { hi < 96 }
    ensures { result ≡ up_to hi (seek (clear busy.now) lo (suc hi - lo)) }
{
    for v in lo..hi + 1 {
        if !busy[v] {
            return Some(v as u16);
        }
    }
    None
}

// The lowest wavelength of `waves` that no rider of fibre q has over c's links.
pub fn free_on(
    ends: &[u8],
    assigns: &[u8],
    chains: &Chains<2048>,
    q: usize,
    c: Circuit,
    waves: Waves,
) -> Option<u16>
    requires numbers { (1 ≤ q) × (q ≤ 2048) }
    requires chained { (rs : List Rider) × Chained rs ends.now assigns.now chains.now.next (get_or chains.now.heads (q - 1) 0) q }
    ensures { (rs : List Rider) → Chained rs ends.now assigns.now chains.now.next (get_or chains.now.heads (q - 1) 0) q → result ≡ up_to waves.high (free_wavelength waves.low waves.high rs c q) }
{
    let mut busy = [false; 96];
    mark(ends, assigns, chains, q, c, &mut busy);
    lowest_clear(&busy, waves.low, waves.high)
}

// c rides on fibre q, at place j: its ends are noted, and it becomes the head of the chain.
#[tactic(auto, unfolding(crate::specs::inner::Rides::noted))]
pub fn ride(c: Circuit, j: usize, q: usize, ends: &mut [u8], chains: &mut Chains<2048>)
    requires { (j < 2048) × (1 ≤ q) × (q ≤ 2048) × (4 * j + 4 ≤ length ends.old) }
    ensures { Ridden c j q ends.old chains.old.heads chains.old.next ends.new chains.new.heads chains.new.next }
{
    records::cells::put(ends, 2 * j, c.first);
    records::cells::put(ends, 2 * j + 1, c.last);
    chains.push(q - 1, j);
}

// Circuit j of a file rides where its assignment record says.
pub fn ride_as_said(
    circuits: &[u8],
    assigns: &[u8],
    j: usize,
    ends: &mut [u8],
    chains: &mut Chains<2048>,
)
    requires { (j < 2048) × (8 * j + 8 ≤ length circuits.now) × (8 * j + 8 ≤ length assigns.now) × (4 * j + 4 ≤ length ends.old) × (1 ≤ (assignment_of (record_at assigns.now j)).fibre) × ((assignment_of (record_at assigns.now j)).fibre ≤ 2048) }
    ensures { Ridden (circuit_of (record_at circuits.now j)) j (assignment_of (record_at assigns.now j)).fibre ends.old chains.old.heads chains.old.next ends.new chains.new.heads chains.new.next }
{
    let c = records::record_at::<Circuit>(circuits, j);
    let a = records::record_at::<AssignmentRecord>(assigns, j);
    ride(c, j, usize::from(a.fibre), ends, chains);
}

// Circuit j of a file, if its flag in `kept` is not 0, rides where its assignment record says.
pub fn ride_if(
    circuits: &[u8],
    m: usize,
    j: usize,
    many: usize,
    assigns: &[u8],
    kept: &[u8],
    ends: &mut [u8],
    chains: &mut Chains<2048>,
)
    requires { (length circuits.now ≡ 8 * m) × (m ≤ 2048) × (j < m) × (many ≤ 2048) × (8 * m ≤ length assigns.now) × (m ≤ length kept.now) × (4 * m ≤ length ends.old) × GivenKept many m assigns.now kept.now }
    ensures { (room : ℕ) → RidingTo many m circuits.now (kept_in m assigns.now kept.now) room ends.old assigns.now chains.old.heads chains.old.next j → RidingTo many m circuits.now (kept_in m assigns.now kept.now) room ends.new assigns.now chains.new.heads chains.new.next (j + 1) }
{
    if kept[j] != 0 {
        ride_as_said(circuits, assigns, j, ends, chains);
    }
}
