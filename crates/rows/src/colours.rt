// The colours of a row, from the last row of each link: in which it was taken or is red for the last time, or BLUE. So a new row repaints nothing.
// Here the cells are those of n links: link x has cell x - 1.
// Cells stand in lent bytes, so loops go over their places.
ghost use Rattle.std.specs.Prelude.{◌≡◌, ◌+◌, ◌-◌, ◌*◌, ◌<◌, ◌≤◌, length, nat_eq};
ghost use Rattle.basics.specs.Tools.{seek};
ghost use Rattle.method.specs.Sheet.{at, open'};
ghost use Rattle.records.specs.Bytes.{cells_of};
ghost use Rattle.rows.specs.inner.Colours.{shown, LinkTold, AtRun, BlueTo, Around, painted};

use scans::Bounds;

// The last row of a blue link.
pub const BLUE: u16 = u16::MAX;

// A run of open links, from `from` to before `past`, and its reach over the blue links beside it, from `low` to before `high`.
#[derive(Clone, Copy, Debug, PartialEq, Eq)]
pub struct Run {
    pub from: usize,
    pub past: usize,
    pub low: usize,
    pub high: usize,
}

// The first link from `start` on that is open in row k.
pub fn first_open(lasts: &[u8], n: usize, k: u16, start: usize) -> Option<usize>
    requires { (length lasts.now ≡ 2 * n) × (n ≤ 512) × (1 ≤ k) × (1 ≤ start) × (start ≤ n + 1) }
    ensures { LinkTold n (seek (λ x. nat_eq (at (shown n k (cells_of lasts.now)) x) open') start (n + 1 - start)) result }
{
    let over = Bounds {
        low: 0,
        high: k - 1,
    };
    let cell = scans::first_within(lasts, start - 1, n, over);
    (cell < n).then_some(cell + 1)
}

// The first link such that it and all links from it to before `stop` are blue.
fn blue_to(lasts: &[u8], n: usize, k: u16, stop: usize) -> usize
    requires { (length lasts.now ≡ 2 * n) × (n ≤ 512) × (k < 65535) × (1 ≤ stop) × (stop ≤ n) }
    ensures { BlueTo (shown n k (cells_of lasts.now)) stop result }
{
    for i in (1..stop).rev() {
        if records::cells::get(lasts, i - 1) != BLUE {
            return i + 1;
        }
    }
    1
}

// The run of row k that starts at l, the first open link.
pub fn run_at(lasts: &[u8], n: usize, k: u16, l: usize) -> Run
    requires { (length lasts.now ≡ 2 * n) × (n ≤ 512) × AtRun n k l (cells_of lasts.now) }
    ensures { Around n (shown n k (cells_of lasts.now)) result }
{
    let not_over = Bounds { low: k, high: BLUE };
    let not_blue = Bounds {
        low: 0,
        high: BLUE - 1,
    };
    let past = scans::first_within(lasts, l - 1, n, not_over) + 1;
    let low = blue_to(lasts, n, k, l);
    let high = scans::first_within(lasts, past - 1, n, not_blue) + 1;
    Run {
        from: l,
        past,
        low,
        high,
    }
}

// The links from `start` to before `past` get this last row.
pub fn paint(lasts: &mut [u8], n: usize, start: usize, past: usize, v: u16)
    requires { (length lasts.old ≡ 2 * n) × (n ≤ 512) × (1 ≤ start) × (past ≤ n + 1) }
    ensures { cells_of lasts.new ≡ painted n start past v (cells_of lasts.old) }
{
    for i in start..past {
        records::cells::put(lasts, i - 1, v);
    }
}
