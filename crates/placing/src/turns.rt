// Circuits in turn: each gets the lowest place beside all who ride, and rides there.
// Records stand in lent bytes, so loops go over their places.
// The lent areas go one by one: a struct that holds them by reference makes clauses say `.entry.` of each field.
ghost use Rattle.std.specs.Prelude.{◌≡◌, List, Some, ℕ, ◌+◌, ◌*◌, ◌≤◌, ◌<◌, length};
ghost use Rattle.records.specs.Bytes.{cells_of};
ghost use Rattle.records.specs.Records.{circuits_in};
ghost use Rattle.method.specs.Line.{Assignment, circuit};
ghost use Rattle.places.specs.Places.{Rider, given_to};
ghost use Rattle.placing.specs.Found.{told};
ghost use Rattle.placing.specs.Turns.{InTurn, PlacedAll};
ghost use Rattle.placing.specs.inner.Spots.{spans_in};
ghost use Rattle.placing.specs.declared.Spot.{Spot};
ghost use Rattle.placing.specs.inner.Standing.{PlacedOne, Seated, Standing};

use crate::search::{Corners, Spans};
use crate::{Sizes, Spot, Waves, riders, search};
use records::chains::Chains;
use records::{AssignmentRecord, Circuit};

// The record at place j says that c has the place s, or 0 and 0; if it has one it rides there.
fn seat(
    c: Circuit,
    s: Option<Spot>,
    j: usize,
    assigns: &mut [u8],
    ends: &mut [u8],
    chains: &mut Chains<2048>,
)
    requires { (j < 2048) × (8 * j + 8 ≤ length assigns.old) × (4 * j + 4 ≤ length ends.old) × ((x : Spot) → s ≡ Some x → (1 ≤ x.fibre) × (x.fibre ≤ 2048)) }
    ensures { Seated c (told s).fibre (told s).wavelength j assigns.old ends.old chains.old.heads chains.old.next assigns.new ends.new chains.new.heads chains.new.next }
{
    // A record of 8 bytes has no room for an `Option`: fibre 0, which no plan has, is none.
    let none = Spot {
        fibre: 0,
        wavelength: 0,
    };
    let said = s.unwrap_or(none);
    let a = AssignmentRecord {
        circuit: c.number,
        fibre: said.fibre,
        wavelength: said.wavelength,
    };
    records::put_record(assigns, j, a);
    if let Some(x) = s {
        riders::ride(c, j, usize::from(x.fibre), ends, chains);
    }
}

// Circuit i of a file gets its place, or 0 and 0, in its own assignment record, behind those of others; if it has a place it rides there.
fn place_one(
    new: &[u8],
    sizes: Sizes,
    i: usize,
    spans: &Spans,
    assigns: &mut [u8],
    ends: &mut [u8],
    chains: &mut Chains<2048>,
    corners: &mut Corners,
)
    requires room { (length new.now ≡ 8 * sizes.circuits) × (i < sizes.circuits) × (8 * (sizes.before + sizes.circuits) ≤ length assigns.old) × (4 * (sizes.before + sizes.circuits) ≤ length ends.old) × (1 ≤ (circuit (circuits_in sizes.circuits new.now) i).first) }
    requires riding { (old : List Rider) × (gs : List Assignment) × (length old ≡ sizes.before) × ((given_to gs i).fibre ≡ 0) × Standing sizes.fibres sizes.wavelengths old (circuits_in sizes.circuits new.now) gs ends.old assigns.old chains.old.heads chains.old.next corners.old.untils corners.old.froms }
    ensures { (old : List Rider) (gs : List Assignment) → length old ≡ sizes.before → (given_to gs i).fibre ≡ 0 → Standing sizes.fibres sizes.wavelengths old (circuits_in sizes.circuits new.now) gs ends.old assigns.old chains.old.heads chains.old.next corners.old.untils corners.old.froms → PlacedOne sizes.fibres sizes.wavelengths old (circuits_in sizes.circuits new.now) (spans_in sizes.fibres spans.now.firsts spans.now.lasts) gs i assigns.old ends.new assigns.new chains.new.heads chains.new.next corners.new.untils corners.new.froms }
{
    let c = records::record_at::<Circuit>(new, i);
    let waves = Waves {
        low: 1,
        high: sizes.wavelengths,
    };
    let s = search::spot_for(
        spans,
        sizes.fibres,
        ends,
        assigns,
        chains,
        c,
        waves,
        corners,
    );
    seat(c, s, sizes.before + i, assigns, ends, chains);
}

// The k circuits of a file whose places stand in `order`, one after the other.
pub fn place_in_turn(
    new: &[u8],
    sizes: Sizes,
    order: &[u8],
    k: usize,
    spans: &Spans,
    assigns: &mut [u8],
    ends: &mut [u8],
    chains: &mut Chains<2048>,
    corners: &mut Corners,
)
    requires room { (length new.now ≡ 8 * sizes.circuits) × (length order.now ≡ 2 * k) × (8 * (sizes.before + sizes.circuits) ≤ length assigns.old) × (4 * (sizes.before + sizes.circuits) ≤ length ends.old) × ((j : ℕ) → j < sizes.circuits → 1 ≤ (circuit (circuits_in sizes.circuits new.now) j).first) × (k ≤ 2048) }
    requires riding { (old : List Rider) × (gs : List Assignment) × (length old ≡ sizes.before) × InTurn sizes.circuits gs (cells_of order.now) × Standing sizes.fibres sizes.wavelengths old (circuits_in sizes.circuits new.now) gs ends.old assigns.old chains.old.heads chains.old.next corners.old.untils corners.old.froms }
    ensures { (old : List Rider) (gs : List Assignment) → length old ≡ sizes.before → InTurn sizes.circuits gs (cells_of order.now) → Standing sizes.fibres sizes.wavelengths old (circuits_in sizes.circuits new.now) gs ends.old assigns.old chains.old.heads chains.old.next corners.old.untils corners.old.froms → PlacedAll sizes.fibres sizes.wavelengths old (circuits_in sizes.circuits new.now) (spans_in sizes.fibres spans.now.firsts spans.now.lasts) gs (cells_of order.now) assigns.old ends.new assigns.new chains.new.heads chains.new.next }
{
    for t in 0..k {
        let i = usize::from(records::cells::get(order, t));
        place_one(new, sizes, i, spans, assigns, ends, chains, corners);
    }
}
