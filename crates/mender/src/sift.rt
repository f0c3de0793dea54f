// The first pass: who is kept, and for the others their turns in the second pass and the lines of the report that begin.
// kept: a flag for each circuit, a number, since the definition of who is kept looks for 0. ends, chains: those kept, by fibre, as placing has them.
// Records stand in lent bytes, so loops go over their places.
// The areas that are written go one by one: a struct that holds them by reference makes clauses say `.entry.` of each field.
ghost use Rattle.std.specs.Prelude.{◌≡◌, cond, ◌++◌, map, ℕ, ◌+◌, ◌*◌, ◌≤◌, ◌<◌, eqb, drop, get_or, length, replicate, set, take};
ghost use Rattle.records.specs.Bytes.{cells_of, set_cell};
ghost use Rattle.records.specs.Records.{circuits_in};
ghost use Rattle.order.specs.Order.{Ordered};
ghost use Rattle.placing.specs.Riding.{kept_in};
ghost use Rattle.mender.specs.Report.{line_bytes, report_bytes};
ghost use Rattle.mender.specs.inner.Lines.{begun_line, passing, put_line};
ghost use Rattle.mender.specs.inner.Steps.{Register, Sifted, Staying, kept_of, may_stay, waits};

use crate::lines;
use checker::rules;
use records::chains::Chains;
use records::{AssignmentRecord, Circuit};

// A register that may be damaged: m circuits, `many` fibres that are fit, and a record for each circuit, which may be wrong.
#[derive(Clone, Copy, Debug, PartialEq, Eq)]
pub struct Damaged<'a> {
    pub circuits: &'a [u8],
    pub m: usize,
    pub fibres: &'a [u8],
    pub many: usize,
    pub wavelengths: usize,
    pub assigns: &'a [u8],
}

// Circuit j is kept if its record breaks none of rules 4 to 7 and clashes with none kept before.
fn keep_if(
    damaged: Damaged,
    j: usize,
    kept: &mut [u8; 2048],
    ends: &mut [u8],
    chains: &mut Chains<2048>,
)
    requires register { (n : ℕ) × Register n damaged.wavelengths damaged.m damaged.many damaged.circuits.now damaged.fibres.now damaged.assigns.now }
    requires room { (j < damaged.m) × (4 * damaged.m ≤ length ends.old) × (get_or kept.old j 0 ≡ 0) }
    requires staying { Staying damaged.m damaged.many damaged.circuits.now damaged.assigns.now kept.old ends.old chains.old.heads chains.old.next }
    ensures { (kept.new ≡ cond (may_stay damaged.entry.wavelengths damaged.entry.m damaged.entry.many damaged.entry.circuits.now damaged.entry.fibres.now damaged.entry.assigns.now (kept_in damaged.entry.m damaged.entry.assigns.now kept.old) j) (set kept.old j 1) kept.old) × Staying damaged.entry.m damaged.entry.many damaged.entry.circuits.now damaged.entry.assigns.now kept.new ends.new chains.new.heads chains.new.next }
{
    let Damaged {
        circuits,
        m,
        fibres,
        many,
        wavelengths,
        assigns,
    } = damaged;
    if rules::rule_at(circuits, fibres, assigns, j, many, wavelengths).is_some() {
        return;
    }
    let c = records::record_at::<Circuit>(circuits, j);
    let a = records::record_at::<AssignmentRecord>(assigns, j);
    let q = usize::from(a.fibre);
    let v = usize::from(a.wavelength);
    if placing::is_free(ends, assigns, chains, c, q, v) {
        placing::keep(circuits, m, j, many, assigns, kept, ends, chains);
    }
}

// All circuits, by rising number as `order` has them, each kept or not.
fn keep_in_turn(
    damaged: Damaged,
    order: &[u8],
    kept: &mut [u8; 2048],
    ends: &mut [u8],
    chains: &mut Chains<2048>,
)
    requires register { (n : ℕ) × Register n damaged.wavelengths damaged.m damaged.many damaged.circuits.now damaged.fibres.now damaged.assigns.now }
    requires start { (length order.now ≡ 2 * damaged.m) × Ordered damaged.m (circuits_in damaged.m damaged.circuits.now) (cells_of order.now) × (kept.old ≡ replicate 2048 0) × (4 * damaged.m ≤ length ends.old) × (chains.old.heads ≡ replicate 2048 0) }
    ensures { (kept_in damaged.entry.m damaged.entry.assigns.now kept.new ≡ kept_of damaged.entry.wavelengths damaged.entry.m damaged.entry.many damaged.entry.circuits.now damaged.entry.fibres.now damaged.entry.assigns.now) × Staying damaged.entry.m damaged.entry.many damaged.entry.circuits.now damaged.entry.assigns.now kept.new ends.new chains.new.heads chains.new.next }
{
    for t in 0..damaged.m {
        let j = usize::from(records::cells::get(order, t));
        keep_if(damaged, j, kept, ends, chains);
    }
}

// The turns of those that are not kept, in the order that is given, and their lines. What is told: how many.
fn note_all(
    circuits: &[u8],
    m: usize,
    assigns: &[u8],
    kept: &[u8; 2048],
    order: &[u8],
    turns: &mut [u8],
    report: &mut [u8],
) -> usize
    requires { (m ≤ 2048) × (length circuits.now ≡ 8 * m) × (length assigns.now ≡ 8 * m) × (length order.now ≡ 2 * m) × (2 * m ≤ length turns.old) × (12 * m ≤ length report.old) × ((t : ℕ) → t < m → get_or (cells_of order.now) t 0 < m) }
    ensures { (result ≡ length (passing (waits kept.now) (cells_of order.now))) × (take result (cells_of turns.new) ≡ passing (waits kept.now) (cells_of order.now)) × (report.new ≡ report_bytes (map (begun_line circuits.now assigns.now) (passing (waits kept.now) (cells_of order.now))) ++ drop (12 * result) report.old) × (result ≤ m) }
{
    let mut k = 0;
    for t in 0..m {
        let j = usize::from(records::cells::get(order, t));
        if kept[j] == 0 {
            records::cells::put(turns, k, j as u16);
            lines::begin_line(circuits, assigns, j, k, report);
            k += 1;
        }
    }
    k
}

// The whole first pass, in chains that were empty. What is told: how many are not kept.
pub fn sift(
    damaged: Damaged,
    report: &mut [u8],
    turns: &mut [u8],
    ends: &mut [u8],
    chains: &mut Chains<2048>,
) -> usize
    requires register { (n : ℕ) × Register n damaged.wavelengths damaged.m damaged.many damaged.circuits.now damaged.fibres.now damaged.assigns.now }
    requires room { (12 * damaged.m ≤ length report.old) × (2 * damaged.m ≤ length turns.old) × (4 * damaged.m ≤ length ends.old) × (chains.old.heads ≡ replicate 2048 0) }
    ensures { Sifted damaged.entry.wavelengths damaged.entry.m damaged.entry.many damaged.entry.circuits.now damaged.entry.fibres.now damaged.entry.assigns.now report.old report.new turns.new ends.new chains.new.heads chains.new.next result }
{
    let circuits = damaged.circuits;
    let m = damaged.m;
    let mut table: [u8; 4096] = [0; 4096];
    let mut kept: [u8; 2048] = [0; 2048];
    let order = &mut table[..2 * m];
    order::sort(circuits, m, order);
    keep_in_turn(damaged, order, &mut kept, ends, chains);
    note_all(circuits, m, damaged.assigns, &kept, order, turns, report)
}
