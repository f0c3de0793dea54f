// Searches in columns of 2-byte cells. A chunk is looked at as a whole, with no exit inside, so that many places are compared at once.
// What is told where there is none is the end, as in `seek`, since callers go on from there.
#![tactic(auto)]

ghost use Rattle.std.specs.Prelude.{◌≡◌, ◌+◌, ◌-◌, ◌*◌, ◌≤◌, ◌<◌, Bool, ℕ, length};
ghost use Rattle.basics.specs.Tools.{any, seek};
ghost use Rattle.records.specs.Bytes.{cells_of};
ghost use Rattle.scans.specs.Scans.{within, cell_within, both_within, Searched, TakesFrom, Tells};
ghost use Rattle.scans.specs.inner.Chunks.{CameTo};

// The numbers from `low` to `high`.
#[derive(Clone, Copy, Debug, PartialEq, Eq)]
pub struct Bounds {
    pub low: u16,
    pub high: u16,
}

// Whether one of the N places from i on passes; all are asked, so that the machine asks many at once.
fn any_of<const N: usize, F: Fn(usize) -> bool>(passes: &F, i: usize) -> bool
    requires { (i ≤ 65535) × (N ≤ 65535) × TakesFrom (F.pre passes.now) i (i + N) }
    ensures { (p : ℕ → Bool) → Tells (F.post passes.now) p i (i + N) → result ≡ any (λ k. p (i + k)) N }
{
    let mut hit = false;
    for k in 0..N {
        hit |= passes(i + k);
    }
    hit
}

// How far the search may go in whole chunks of N places none of which passes.
// The loop steps over chunks and stops at the first that has a hit, which a `for` says no plainer.
fn skip<const N: usize, F: Fn(usize) -> bool>(passes: &F, from: usize, to: usize) -> usize
    requires { (from ≤ to) × (to ≤ 65535) × (1 ≤ N) × (N ≤ 65535) × TakesFrom (F.pre passes.now) from to }
    ensures on_the_way { (from ≤ result) × (result ≤ to) }
    ensures came_to { (p : ℕ → Bool) → Tells (F.post passes.now) p from to → CameTo p from to result }
{
    let mut i = from;
    while i + N <= to && !any_of::<N, F>(passes, i) {
        i += N;
    }
    i
}

// The first place from `from` to before `to` that passes, or `to`. Places are looked at in chunks of N.
pub fn first_where<const N: usize, F: Fn(usize) -> bool>(passes: F, from: usize, to: usize) -> usize
    requires { (from ≤ to) × (to ≤ 65535) × (1 ≤ N) × (N ≤ 65535) × TakesFrom (F.pre passes) from to }
    ensures { (p : ℕ → Bool) → Tells (F.post passes) p from to → result ≡ seek p from (to - from) }
{
    let start = skip::<N, F>(&passes, from, to);
    for i in start..to {
        if passes(i) {
            return i;
        }
    }
    to
}

// Whether a number lies within the bounds.
#[tactic(auto, unfolding(crate::specs::Scans::within))]
fn between(x: u16, b: Bounds) -> bool
    ensures { result ≡ within b x }
{
    b.low <= x && x <= b.high
}

// Whether cell i lies within the bounds.
#[tactic(auto, using(crate::proofs::ScanLaws::read_within))]
fn cell_between(cells: &[u8], i: usize, b: Bounds) -> bool
    requires { 2 * i + 1 < length cells.now }
    ensures { result ≡ cell_within b (cells_of cells.now) i }
{
    between(records::cells::get(cells, i), b)
}

// The first cell from cell `from` to before cell `to` that lies within the bounds, or `to`.
pub fn first_within(cells: &[u8], from: usize, to: usize, b: Bounds) -> usize
    requires { (2 * to ≤ length cells.now) × (from ≤ to) × (to ≤ 65535) }
    ensures { result ≡ seek (cell_within b (cells_of cells.now)) from (to - from) }
{
    first_where::<16, _>(|i| cell_between(cells, i, b), from, to)
}

// The same where low ≤ high, by one comparison of wrapping differences: two comparisons are slower where two columns are searched.
#[tactic(auto, using(crate::proofs::ScanLaws::within_wraps))]
fn inside(x: u16, b: Bounds) -> bool
    requires { b.low ≤ b.high }
    ensures { result ≡ within b x }
{
    x.wrapping_sub(b.low) <= b.high - b.low
}

// Whether at place p the cell of the first column lies within a and that of the second within b.
#[tactic(auto, using(crate::proofs::ScanLaws::read_both))]
fn both_inside(firsts: &[u8], lasts: &[u8], p: usize, a: Bounds, b: Bounds) -> bool
    requires { Searched firsts.now lasts.now p (p + 1) a b }
    ensures { result ≡ both_within a b (cells_of firsts.now) (cells_of lasts.now) p }
{
    let x = records::cells::get(firsts, p);
    let y = records::cells::get(lasts, p);
    inside(x, a) && inside(y, b)
}

// The first place from `from` to before `to` whose cell of the first column lies within a and that of the second within b, or `to`.
pub fn first_within_both(
    firsts: &[u8],
    lasts: &[u8],
    from: usize,
    to: usize,
    a: Bounds,
    b: Bounds,
) -> usize
    requires { Searched firsts.now lasts.now from to a b }
    ensures { result ≡ seek (both_within a b (cells_of firsts.now) (cells_of lasts.now)) from (to - from) }
{
    first_where::<32, _>(|p| both_inside(firsts, lasts, p, a, b), from, to)
}
