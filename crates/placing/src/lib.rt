// New circuits on old fibres: each gets the lowest-numbered fibre that spans it and has a free wavelength there, and the lowest such wavelength.
// Riders: cells 2 j and 2 j + 1 of `ends` hold the first and last link of the rider at place j, record j of `assigns` its fibre and wavelength.
// Chains: those who ride on fibre q stand in chain q - 1, in any order.
// Records stand in lent bytes, so loops go over their places.
// The lent areas go one by one: a struct that holds them by reference makes clauses say `.entry.` of each field.
#![tactic(auto)]

mod riders;
mod search;
mod turns;

ghost use Rattle.std.specs.Prelude.{◌≡◌, List, ◌++◌, ℕ, ◌+◌, ◌*◌, ◌≤◌, ◌<◌, get_or, length, replicate, set};
ghost use Rattle.records.specs.Bytes.{cells_of};
ghost use Rattle.records.specs.Records.{circuits_in};
ghost use Rattle.method.specs.Line.{Assignment, Distinct, circuit};
ghost use Rattle.register.specs.Plans.{plan_in};
ghost use Rattle.order.specs.Order.{Ordered};
ghost use Rattle.places.specs.Places.{Rider, free, riders};
ghost use Rattle.places.specs.Turns.{number};
ghost use Rattle.additions.specs.Adding.{places_found};
ghost use Rattle.placing.specs.Riding.{Given, GivenAll, GivenKept, NoneRides, Riding, kept_in, places_of, spans_of};
ghost use Rattle.placing.specs.Found.{Spotted};
ghost use Rattle.placing.specs.Turns.{AllWritten, InTurn, PlacedAll};

use records::Circuit;
use records::chains::Chains;
use search::{Corners, Spans};

// How many there are: circuits of a file, assignment records before theirs, fibres, and wavelengths.
#[derive(Clone, Copy, Debug, PartialEq, Eq)]
pub struct Sizes {
    pub circuits: usize,
    pub before: usize,
    pub fibres: usize,
    pub wavelengths: usize,
    ghost few: { (before + circuits ≤ 2048) × (fibres ≤ 2048) × (wavelengths < 96) },
}

// The wavelengths from `low` to `high`. They have limits in their type, which cells have not, so they are not the bounds of scans.
#[derive(Clone, Copy, Debug, PartialEq, Eq)]
pub struct Waves {
    pub low: usize,
    pub high: usize,
    ghost fit: { (1 ≤ low) × (high < 96) },
}

// A place: fibre and wavelength.
#[derive(Clone, Copy, Debug, PartialEq, Eq)]
pub struct Spot {
    pub fibre: u16,
    pub wavelength: u16,
}

// The k circuits of a file whose places stand in `order` get, one after the other, the lowest place beside all who ride already, or 0 and 0, in their own assignment
// records, behind those of others.
pub fn place_all(
    new: &[u8],
    sizes: Sizes,
    order: &[u8],
    k: usize,
    fibres: &[u8],
    assigns: &mut [u8],
    ends: &mut [u8],
    chains: &mut Chains<2048>,
)
    requires room { (length new.now ≡ 8 * sizes.circuits) × (length order.now ≡ 2 * k) × (8 * sizes.fibres ≤ length fibres.now) × (8 * (sizes.before + sizes.circuits) ≤ length assigns.old) × (4 * (sizes.before + sizes.circuits) ≤ length ends.old) × ((j : ℕ) → j < sizes.circuits → 1 ≤ (circuit (circuits_in sizes.circuits new.now) j).first) × (k ≤ 2048) }
    requires riding { (old : List Rider) × (gs : List Assignment) × (length old ≡ sizes.before) × (length gs ≡ sizes.circuits) × InTurn sizes.circuits gs (cells_of order.now) × Riding sizes.fibres (old ++ riders (circuits_in sizes.circuits new.now) gs) ends.old assigns.old chains.old.heads chains.old.next }
    ensures { (old : List Rider) (gs : List Assignment) → length old ≡ sizes.before → length gs ≡ sizes.circuits → InTurn sizes.circuits gs (cells_of order.now) → Riding sizes.fibres (old ++ riders (circuits_in sizes.circuits new.now) gs) ends.old assigns.old chains.old.heads chains.old.next → PlacedAll sizes.fibres sizes.wavelengths old (circuits_in sizes.circuits new.now) (spans_of sizes.fibres fibres.now) gs (cells_of order.now) assigns.old ends.new assigns.new chains.new.heads chains.new.next }
{
    let mut spans = Spans {
        firsts: [0; 2048],
        lasts: [0; 2048],
    };
    let mut corners = Corners {
        untils: [0; 2048],
        froms: [0; 2048],
    };
    search::note_spans(fibres, sizes.fibres, &mut spans);
    turns::place_in_turn(
        new,
        sizes,
        order,
        k,
        &spans,
        assigns,
        ends,
        chains,
        &mut corners,
    );
}

// All m circuits of a file ride where their assignment records say, in chains that were empty. Behind them there may be riders that have no place yet.
pub fn ride_all(
    circuits: &[u8],
    m: usize,
    many: usize,
    assigns: &[u8],
    ends: &mut [u8],
    chains: &mut Chains<2048>,
)
    requires { (length circuits.now ≡ 8 * m) × (m ≤ 2048) × (many ≤ 2048) × (8 * m ≤ length assigns.now) × (4 * m ≤ length ends.old) × (chains.old.heads ≡ replicate 2048 0) × GivenAll many m assigns.now }
    ensures { (xs : List Rider) → NoneRides xs → m + length xs ≤ 2048 → 4 * (m + length xs) ≤ length ends.old → 8 * (m + length xs) ≤ length assigns.now → Riding many (riders (circuits_in m circuits.now) (places_of m assigns.now) ++ xs) ends.new assigns.now chains.new.heads chains.new.next }
{
    for j in 0..m {
        riders::ride_as_said(circuits, assigns, j, ends, chains);
    }
}

// R-2 on the old fibres: each of the m new circuits, by rising number as `order` has them, gets the lowest place beside the old circuits and the new ones before it; its
// assignment record, behind the old ones, says so, or 0 and 0. `ends` is lent for the ends of the riders.
pub fn place_new(
    old: &[u8],
    before: usize,
    new: &[u8],
    m: usize,
    order: &[u8],
    fibres: &[u8],
    many: usize,
    w: usize,
    assigns: &mut [u8],
    ends: &mut [u8],
)
    requires room { (length old.now ≡ 8 * before) × (length new.now ≡ 8 * m) × (before + m ≤ 2048) × (length order.now ≡ 2 * m) × (many ≤ 2048) × (8 * many ≤ length fibres.now) × (w < 96) × (8 * (before + m) ≤ length assigns.old) × (4 * (before + m) ≤ length ends.old) }
    requires files { GivenAll many before assigns.old × Distinct (circuits_in m new.now) × Ordered m (circuits_in m new.now) (cells_of order.now) × ((j : ℕ) → j < m → 1 ≤ number (circuits_in m new.now) j) × ((j : ℕ) → j < m → 1 ≤ (circuit (circuits_in m new.now) j).first) }
    ensures { AllWritten (circuits_in m new.now) before (places_found w (circuits_in before old.now) (plan_in many before fibres.now assigns.old) (circuits_in m new.now)) assigns.old assigns.new }
{
    let mut chains = Chains {
        heads: [0; 2048],
        next: [0; 2048],
    };
    ride_all(old, before, many, assigns, ends, &mut chains);
    let sizes = Sizes {
        circuits: m,
        before,
        fibres: many,
        wavelengths: w,
    };
    place_all(new, sizes, order, m, fibres, assigns, ends, &mut chains);
}

// Those of the m circuits of a file whose flag in `kept` is not 0 ride where their assignment records say, in chains that were empty. For `ride_all` flags that are all set would
// be a table for nothing.
// Flags are numbers, since the definition of who is kept looks for 0.
pub fn ride_kept(
    circuits: &[u8],
    m: usize,
    many: usize,
    assigns: &[u8],
    kept: &[u8],
    ends: &mut [u8],
    chains: &mut Chains<2048>,
)
    requires { (length circuits.now ≡ 8 * m) × (m ≤ 2048) × (many ≤ 2048) × (8 * m ≤ length assigns.now) × (m ≤ length kept.now) × (4 * m ≤ length ends.old) × (chains.old.heads ≡ replicate 2048 0) × GivenKept many m assigns.now kept.now }
    ensures { Riding many (riders (circuits_in m circuits.now) (kept_in m assigns.now kept.now)) ends.new assigns.now chains.new.heads chains.new.next }
{
    for j in 0..m {
        riders::ride_if(circuits, m, j, many, assigns, kept, ends, chains);
    }
}

// Circuit j of a file is kept: its flag is set, and it rides where its assignment record says, beside those kept before.
pub fn keep(
    circuits: &[u8],
    m: usize,
    j: usize,
    many: usize,
    assigns: &[u8],
    kept: &mut [u8],
    ends: &mut [u8],
    chains: &mut Chains<2048>,
)
    requires room { (length circuits.now ≡ 8 * m) × (m ≤ 2048) × (j < m) × (many ≤ 2048) × (8 * m ≤ length assigns.now) × (m ≤ length kept.old) × (4 * m ≤ length ends.old) }
    requires riding { Given many assigns.now j × (get_or kept.old j 0 ≡ 0) × Riding many (riders (circuits_in m circuits.now) (kept_in m assigns.now kept.old)) ends.old assigns.now chains.old.heads chains.old.next }
    ensures { (kept.new ≡ set kept.old j 1) × Riding many (riders (circuits_in m circuits.now) (kept_in m assigns.now kept.new)) ends.new assigns.now chains.new.heads chains.new.next }
{
    riders::ride_as_said(circuits, assigns, j, ends, chains);
    kept[j] = 1;
}

// Whether wavelength v is free for c on fibre q, beside all who ride.
pub fn is_free(
    ends: &[u8],
    assigns: &[u8],
    chains: &Chains<2048>,
    c: Circuit,
    q: usize,
    v: usize,
) -> bool
    requires numbers { (1 ≤ q) × (q ≤ 2048) × (1 ≤ v) × (v < 96) }
    requires riding { (many : ℕ) × (rs : List Rider) × (q ≤ many) × Riding many rs ends.now assigns.now chains.now.heads chains.now.next }
    ensures { (many : ℕ) (rs : List Rider) → q ≤ many → Riding many rs ends.now assigns.now chains.now.heads chains.now.next → result ≡ free rs c q v }
{
    let alone = Waves { low: v, high: v };
    riders::free_on(ends, assigns, chains, q, c, alone).is_some()
}

// The lowest place for c beside the m circuits of a file, on wavelengths of `waves`; nothing lent is written.
pub fn ask(
    own: &[u8],
    m: usize,
    fibres: &[u8],
    many: usize,
    assigns: &[u8],
    c: Circuit,
    waves: Waves,
) -> Option<Spot>
    requires { (length own.now ≡ 8 * m) × (m ≤ 2048) × (many ≤ 2048) × (8 * many ≤ length fibres.now) × (8 * m ≤ length assigns.now) × GivenAll many m assigns.now }
    ensures { Spotted (spans_of many fibres.now) waves.low waves.high (riders (circuits_in m own.now) (places_of m assigns.now)) c result }
{
    let mut chains = Chains {
        heads: [0; 2048],
        next: [0; 2048],
    };
    let mut ends: [u8; 8192] = [0; 8192];
    ride_all(own, m, many, assigns, &mut ends, &mut chains);
    search::lowest_spot(fibres, many, &ends, assigns, &chains, c, waves)
}
