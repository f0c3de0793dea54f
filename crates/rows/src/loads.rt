// The load of each link, and c(i), in the first n cells of the work area: link i has cell i - 1.
// Records and cells stand in lent bytes, so loops go over their places.
ghost use Rattle.std.specs.Prelude.{◌≡◌, ◌+◌, ◌*◌, ◌<◌, ◌≤◌, length, take};
ghost use Rattle.basics.specs.Tools.{each};
ghost use Rattle.method.specs.Sheet.{load};
ghost use Rattle.records.specs.Bytes.{cells_of};
ghost use Rattle.records.specs.Records.{circuits_in};
ghost use Rattle.rows.specs.Accepted.{OnLine, Accepted};
ghost use Rattle.rows.specs.inner.Loads.{mark_up, mark_down, mark_to, sum_to, Below, rounded, RoundedAll, NeedsCounted, Zeroed, RedsWritten};

use records::Circuit;

// A circuit's two marks: one up at its first link, and one down just past its last, unless that is past the line, where no cell is.
// A mark below zero wraps around on purpose, and the running sum brings it back.
fn mark_circuit(cells: &mut [u8], n: usize, first: usize, past: usize)
    requires { (length cells.old ≡ 2 * n) × (1 ≤ first) × (first < past) × (past ≤ n + 1) × (n ≤ 512) }
    ensures { cells_of cells.new ≡ mark_down past (mark_up first (cells_of cells.old)) }
{
    let v = records::cells::get(cells, first - 1);
    records::cells::put(cells, first - 1, v.wrapping_add(1));
    if past <= n {
        let u = records::cells::get(cells, past - 1);
        records::cells::put(cells, past - 1, u.wrapping_sub(1));
    }
}

// The marks of both ends of each circuit.
fn mark_ends(circuits: &[u8], m: usize, cells: &mut [u8], n: usize)
    requires { OnLine n m circuits.now × Zeroed n cells.old }
    ensures { cells_of cells.new ≡ each (mark_to (circuits_in m circuits.now) m) 1 n }
{
    for j in 0..m {
        let c = records::record_at::<Circuit>(circuits, j);
        mark_circuit(cells, n, usize::from(c.first), usize::from(c.last) + 1);
    }
}

// Each cell becomes the sum of the cells up to it, which wraps around as the marks do.
fn running_sum(cells: &mut [u8], n: usize)
    requires { (length cells.old ≡ 2 * n) × (n ≤ 512) }
    ensures { cells_of cells.new ≡ each (sum_to (cells_of cells.old)) 1 n }
{
    let mut sum: u16 = 0;
    for i in 0..n {
        let v = records::cells::get(cells, i);
        sum = sum.wrapping_add(v);
        records::cells::put(cells, i, sum);
    }
}

// The load of each link.
fn count_loads(circuits: &[u8], m: usize, cells: &mut [u8], n: usize)
    requires { OnLine n m circuits.now × Zeroed n cells.old }
    ensures { cells_of cells.new ≡ each (load (circuits_in m circuits.now)) 1 n }
{
    mark_ends(circuits, m, cells, n);
    running_sum(cells, n);
}

// A load over w, rounded up.
fn needed(load: u16, w: usize) -> u16
    requires { (1 ≤ w) × (w ≤ 80) × (load ≤ 2048) }
    ensures { result ≡ rounded w load }
{
    usize::from(load).div_ceil(w) as u16
}

// Each load becomes c(i); the largest is handed back.
fn loads_to_needs(cells: &mut [u8], n: usize, w: usize) -> u16
    requires { (length cells.old ≡ 2 * n) × (n ≤ 512) × (1 ≤ w) × (w ≤ 80) × Below 2048 (cells_of cells.old) }
    ensures { RoundedAll n w (cells_of cells.old) (cells_of cells.new) result }
{
    let mut most: u16 = 0;
    for i in 0..n {
        let v = records::cells::get(cells, i);
        let c = needed(v, w);
        records::cells::put(cells, i, c);
        most = c.max(most);
    }
    most
}

// c(i) of each link, and M.
pub fn count_needs(circuits: &[u8], m: usize, cells: &mut [u8], n: usize, w: usize) -> u16
    requires { Accepted n w m circuits.now × Zeroed n cells.old }
    ensures { NeedsCounted n w (circuits_in m circuits.now) (cells_of cells.new) result }
{
    count_loads(circuits, m, cells, n);
    loads_to_needs(cells, n, w)
}

// The last red row of each link, in the second n cells: (M - c(i)) * w.
pub fn last_reds(cells: &mut [u8], n: usize, w: usize, most: usize)
    requires { (length cells.old ≡ 4 * n) × (n ≤ 512) × (most * w ≤ 65534) × Below most (take n (cells_of cells.old)) }
    ensures { RedsWritten n w most cells.old cells.new }
{
    for i in 0..n {
        let c = records::cells::get(cells, i);
        let r = (most - usize::from(c)) * w;
        records::cells::put(cells, n + i, r as u16);
    }
}
