// Rule 8 of R-7: the first assignment that clashes with an earlier one, that is, overlaps it on the same fibre with the same wavelength.
// The circuits of each fibre are walked by rising first link, so that one pass tells whether any two of the first q circuits clash; halving finds the least q.
// The lent areas go one by one: a struct that holds them by reference makes clauses say `.entry.` of each field.
#![tactic(auto)]

ghost use Rattle.std.specs.Prelude.{◌≡◌, ℕ, ◌+◌, ◌≤◌, ◌<◌};
ghost use Rattle.basics.specs.Tools.{any, seek};
ghost use Rattle.chains.specs.Riders.{OnFibres};
ghost use Rattle.clashes.specs.Clashes.{Placed, clashes_in};
ghost use Rattle.clashes.specs.inner.Sweeps.{InChains, SomeChains, clashes_on};

use records::chains::Chains;
use records::{AssignmentRecord, Circuit};

// Whether some circuit on fibre o + 1 clashes with an earlier one. `reach` has the farthest last link so far of each wavelength: those walked begin no later than
// the next circuit, so it clashes with one of them exactly if it begins no later than there.
fn clashes_on(circuits: &[u8], assigns: &[u8], o: usize, chains: &Chains<4096>) -> bool
    requires fibre { o < 4096 }
    requires some_chains { SomeChains circuits.now assigns.now chains.now.next chains.now.heads }
    ensures { (q : ℕ) → InChains q circuits.now assigns.now chains.now.next chains.now.heads → result ≡ any (clashes_on circuits.now assigns.now (o + 1)) q }
{
    let mut at = chains.first(o);
    if at.is_none() {
        return false;
    }
    let mut reach: [u16; 81] = [0; 81];
    while let Some(j) = at {
        let c = records::record_at::<Circuit>(circuits, j);
        let a = records::record_at::<AssignmentRecord>(assigns, j);
        let v = usize::from(a.wavelength);
        if c.first <= reach[v] {
            return true;
        }
        reach[v] = c.last;
        at = chains.after(j);
    }
    false
}

// Whether some circuit on fibres 1 to k clashes with an earlier one.
fn clashes_on_any(circuits: &[u8], assigns: &[u8], k: usize, chains: &Chains<4096>) -> bool
    requires fibres { k ≤ 4096 }
    requires some_chains { SomeChains circuits.now assigns.now chains.now.next chains.now.heads }
    ensures { (q : ℕ) → InChains q circuits.now assigns.now chains.now.next chains.now.heads → OnFibres q k assigns.now → result ≡ any (clashes_in circuits.now assigns.now) q }
{
    for o in 0..k {
        if clashes_on(circuits, assigns, o, chains) {
            return true;
        }
    }
    false
}

// Whether some of the first q circuits of a line of n links with k fibres clashes with an earlier one.
fn clashes_below(circuits: &[u8], assigns: &[u8], n: usize, k: usize, q: usize) -> bool
    requires { Placed n k q circuits.now assigns.now }
    ensures { result ≡ any (clashes_in circuits.now assigns.now) q }
{
    let mut chains = Chains {
        heads: [0; 4096],
        next: [0; 2048],
    };
    let Chains { heads, next } = &mut chains;
    chains::by_fibre(circuits, assigns, n, q, next, heads);
    clashes_on_any(circuits, assigns, k, &chains)
}

// The first of the first p circuits that clashes with an earlier one: none of the first `low` does, and one of the first `high`.
// What is told where there is none is p, the end, as in `seek`, since callers go on from there.
pub fn first_clash(circuits: &[u8], assigns: &[u8], n: usize, k: usize, p: usize) -> usize
    requires { Placed n k p circuits.now assigns.now }
    ensures { result ≡ seek (clashes_in circuits.now assigns.now) 0 p }
{
    if !clashes_below(circuits, assigns, n, k, p) {
        return p;
    }
    let mut low = 0;
    let mut high = p;
    while low + 1 < high {
        let middle = (low + high) / 2;
        if clashes_below(circuits, assigns, n, k, middle) {
            high = middle;
        } else {
            low = middle;
        }
    }
    low
}
