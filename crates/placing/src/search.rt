// The lowest place for a circuit: whom a fibre shuts out, the fibres that are open to it, 32 at a time, and what they offer.
// Records stand in lent bytes, so loops go over their places.
// The lent areas go one by one: a struct that holds them by reference makes clauses say `.entry.` of each field.
// Tables of this size are never copied or compared.
ghost use Rattle.std.specs.Prelude.{◌≡◌, List, ℕ, ◌+◌, ◌-◌, ◌*◌, ◌≤◌, ◌<◌, get_or, length};
ghost use Rattle.basics.specs.Tools.{seek};
ghost use Rattle.records.specs.Bytes.{cell};
ghost use Rattle.places.specs.Places.{Rider, free_wavelength};
ghost use Rattle.placing.specs.Riding.{Chained, Riding, spans_of};
ghost use Rattle.placing.specs.Found.{Spotted};
ghost use Rattle.placing.specs.inner.Marking.{up_to};
ghost use Rattle.placing.specs.inner.Spots.{Bounded, Columns, Cornered, CornersHold, Offers, before, open_to, spans_in};

use crate::{Spot, Waves, riders};
use records::chains::Chains;
use records::{Circuit, FibreRecord};

// A corner of a fibre: it shuts out who begins at link `until` or before and ends at link `from` or later.
#[derive(Clone, Copy, Debug, PartialEq, Eq)]
struct Corner {
    until: u16,
    from: u16,
}

// The corners of all fibres, that of fibre q at entry q - 1; 0 in `untils` shuts out nobody.
// Fixed memory: an `Option` in each cell would take twice as much.
#[derive(Drop)]
pub struct Corners {
    pub untils: [u16; 2048],
    pub froms: [u16; 2048],
}

// The first and last links of all fibres, those of fibre q at entry q - 1. Two tables, so that the machine tests many fibres at once.
#[derive(Drop)]
pub struct Spans {
    pub firsts: [u16; 2048],
    pub lasts: [u16; 2048],
}

// The corner x, drawn in by the rider at place j if it overlaps c.
#[tactic(auto, unfolding(crate::specs::inner::Marking::overlapping))]
fn drawn_in(ends: &[u8], j: usize, c: Circuit, x: Corner) -> Corner
    requires { (j < 2048) × (4 * j + 4 ≤ length ends.now) }
    ensures { (result.until ≤ x.until) × (x.from ≤ result.from) × Bounded (cell ends.now (2 * j)) (cell ends.now (2 * j + 1)) c result.until result.from }
{
    match riders::overlapping(ends, j, c) {
        Some((first, last)) => Corner {
            until: last.min(x.until),
            from: first.max(x.from),
        },
        None => x,
    }
}

// The corner of the riders of fibre q that overlap c: none of them ends before `until` or begins after `from`.
fn corner_on(ends: &[u8], chains: &Chains<2048>, q: usize, c: Circuit) -> Corner
    requires fibre { (1 ≤ q) × (q ≤ 2048) }
    requires chained { (rs : List Rider) × (A : List ℕ) × Chained rs ends.now A chains.now.next (get_or chains.now.heads (q - 1) 0) q }
    ensures { (rs : List Rider) (A : List ℕ) → Chained rs ends.now A chains.now.next (get_or chains.now.heads (q - 1) 0) q → Cornered rs c q result.until result.from }
{
    let mut x = Corner {
        until: 65535,
        from: 0,
    };
    let mut at = chains.first(q - 1);
    while let Some(j) = at {
        x = drawn_in(ends, j, c, x);
        at = chains.after(j);
    }
    x
}

// The first and last links of the fibres, in two columns.
pub fn note_spans(fibres: &[u8], many: usize, spans: &mut Spans)
    requires { (many ≤ 2048) × (8 * many ≤ length fibres.now) }
    ensures { Columns many fibres.now spans.new.firsts spans.new.lasts }
{
    for i in 0..many {
        let f = records::record_at::<FibreRecord>(fibres, i);
        spans.firsts[i] = f.first;
        spans.lasts[i] = f.last;
    }
}

// Whether the fibre of entry i spans c and does not shut it out; the four tests are all made, since the machine then makes them in many places at once.
#[tactic(auto, unfolding(crate::specs::inner::Spots::open_to, crate::specs::inner::Spots::within))]
fn open_to(spans: &Spans, corners: &Corners, i: usize, c: Circuit) -> bool
    requires { i < 2048 }
    ensures { result ≡ open_to spans.now.firsts spans.now.lasts corners.now.untils corners.now.froms c i }
{
    let spanned = (spans.firsts[i] <= c.first) & (c.last <= spans.lasts[i]);
    let shut = (c.first <= corners.untils[i]) & (corners.froms[i] <= c.last);
    spanned & !shut
}

// The first entry from `from` on, before `many`, whose fibre is open to c.
#[tactic(auto, unfolding(crate::specs::inner::Spots::before))]
fn next_open(
    spans: &Spans,
    corners: &Corners,
    from: usize,
    many: usize,
    c: Circuit,
) -> Option<usize>
    requires { (from ≤ many) × (many ≤ 2048) }
    ensures { result ≡ before many (seek (open_to spans.now.firsts spans.now.lasts corners.now.untils corners.now.froms c) from (many - from)) }
{
    let i = scans::first_where::<32, _>(|i| open_to(spans, corners, i, c), from, many);
    if i < many {
        return Some(i);
    }
    None
}

// The lowest wavelength of `waves` that is free for c on fibre q; a fibre that has none gets a new corner.
fn offer(
    q: usize,
    ends: &[u8],
    assigns: &[u8],
    chains: &Chains<2048>,
    c: Circuit,
    waves: Waves,
    corners: &mut Corners,
) -> Option<u16>
    requires numbers { (1 ≤ q) × (q ≤ 2048) }
    requires chained { (rs : List Rider) × Chained rs ends.now assigns.now chains.now.next (get_or chains.now.heads (q - 1) 0) q }
    ensures { (many : ℕ) (rs : List Rider) → q ≤ many → many ≤ 2048 → Chained rs ends.now assigns.now chains.now.next (get_or chains.now.heads (q - 1) 0) q → CornersHold many waves.low waves.high rs corners.old.untils corners.old.froms → (result ≡ up_to waves.high (free_wavelength waves.low waves.high rs c q)) × CornersHold many waves.low waves.high rs corners.new.untils corners.new.froms }
{
    let free = riders::free_on(ends, assigns, chains, q, c, waves);
    if free.is_none() {
        let x = corner_on(ends, chains, q, c);
        corners.untils[q - 1] = x.until;
        corners.froms[q - 1] = x.from;
    }
    free
}

// The lowest place for c on the fibres 1 to `many` and their wavelengths of `waves`. Only fibres open to c are asked.
pub fn spot_for(
    spans: &Spans,
    many: usize,
    ends: &[u8],
    assigns: &[u8],
    chains: &Chains<2048>,
    c: Circuit,
    waves: Waves,
    corners: &mut Corners,
) -> Option<Spot>
    requires numbers { (many ≤ 2048) × (1 ≤ c.first) }
    requires riding { (rs : List Rider) × Riding many rs ends.now assigns.now chains.now.heads chains.now.next }
    ensures { (rs : List Rider) → Riding many rs ends.now assigns.now chains.now.heads chains.now.next → CornersHold many waves.low waves.high rs corners.old.untils corners.old.froms → Spotted (spans_in many spans.now.firsts spans.now.lasts) waves.low waves.high rs c result × CornersHold many waves.low waves.high rs corners.new.untils corners.new.froms }
{
    let mut from = 0;
    while let Some(i) = next_open(spans, corners, from, many, c) {
        if let Some(v) = offer(i + 1, ends, assigns, chains, c, waves, corners) {
            return Some(Spot {
                fibre: (i + 1) as u16,
                wavelength: v,
            });
        }
        from = i + 1;
    }
    None
}

// What fibre q offers c: the lowest free wavelength of `waves`, if the fibre spans c.
fn offered(
    fibres: &[u8],
    q: usize,
    ends: &[u8],
    assigns: &[u8],
    chains: &Chains<2048>,
    c: Circuit,
    waves: Waves,
) -> Option<u16>
    requires numbers { (1 ≤ q) × (q ≤ 2048) × (8 * q ≤ length fibres.now) }
    requires chained { (rs : List Rider) × Chained rs ends.now assigns.now chains.now.next (get_or chains.now.heads (q - 1) 0) q }
    ensures { (many : ℕ) (rs : List Rider) → q ≤ many → Chained rs ends.now assigns.now chains.now.next (get_or chains.now.heads (q - 1) 0) q → Offers (spans_of many fibres.now) waves.low waves.high rs c q result }
{
    let f = records::record_at::<FibreRecord>(fibres, q - 1);
    if c.first < f.first || f.last < c.last {
        return None;
    }
    riders::free_on(ends, assigns, chains, q, c, waves)
}

// The lowest place for c on the fibres 1 to `many` and their wavelengths of `waves`, one fibre after the other: a single question pays no corners.
pub fn lowest_spot(
    fibres: &[u8],
    many: usize,
    ends: &[u8],
    assigns: &[u8],
    chains: &Chains<2048>,
    c: Circuit,
    waves: Waves,
) -> Option<Spot>
    requires numbers { (many ≤ 2048) × (8 * many ≤ length fibres.now) }
    requires riding { (rs : List Rider) × Riding many rs ends.now assigns.now chains.now.heads chains.now.next }
    ensures { (rs : List Rider) → Riding many rs ends.now assigns.now chains.now.heads chains.now.next → Spotted (spans_of many fibres.now) waves.low waves.high rs c result }
{
    for q in 1..many + 1 {
        if let Some(v) = offered(fibres, q, ends, assigns, chains, c, waves) {
            return Some(Spot {
                fibre: q as u16,
                wavelength: v,
            });
        }
    }
    None
}
