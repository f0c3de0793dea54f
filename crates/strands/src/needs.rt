// c(i) of each link, in the first cells of the work area.
ghost use Rattle.std.specs.Prelude.{◌≡◌, not, suc, ◌+◌, ◌*◌, ◌-◌, ◌≤◌, ◌<◌, length};
ghost use Rattle.basics.specs.Tools.{seek, sum};
ghost use Rattle.records.specs.Bytes.{cells_of};
ghost use Rattle.method.specs.Sheet.{at};
ghost use Rattle.strands.specs.inner.Layers.{on_line, reaches};

use scans::Bounds;

// c(i).
#[tactic(auto, using(rows::proofs::Written::read))]
fn need_at(work: &[u8], i: usize) -> usize
    requires { (1 ≤ i) × (2 * i ≤ length work.now) }
    ensures { (result ≡ at (cells_of work.now) i) × (result < 65536) }
{
    usize::from(records::cells::get(work, i - 1))
}

// The first link from i on that reaches t.
pub fn next_run(work: &[u8], n: usize, i: usize, t: u16) -> Option<usize>
    requires { (2 * n ≤ length work.now) × (n ≤ 512) × (1 ≤ i) × (i ≤ n + 1) }
    ensures { result ≡ on_line n (seek (reaches (at (cells_of work.now)) t) i (suc n - i)) }
{
    let b = Bounds {
        low: t,
        high: 65535,
    };
    let l = scans::first_within(work, i - 1, n, b) + 1;
    (l <= n).then_some(l)
}

// The first link from i on that does not reach t. What is told where there is none is n + 1, as in `seek`, since the caller goes on from there.
pub fn end_run(work: &[u8], n: usize, i: usize, t: u16) -> usize
    requires { (2 * n ≤ length work.now) × (n ≤ 512) × (1 ≤ i) × (i ≤ n + 1) × (1 ≤ t) }
    ensures { result ≡ seek (λ x. not (reaches (at (cells_of work.now)) t x)) i (suc n - i) }
{
    let b = Bounds {
        low: 0,
        high: t - 1,
    };
    scans::first_within(work, i - 1, n, b) + 1
}

// The floor: the sum of c(i).
#[tactic(auto, using(crate::proofs::Turns::sum_more), unfolding(basics::specs::Tools::sum))]
pub fn floor_of(work: &[u8], n: usize) -> usize
    requires { (2 * n ≤ length work.now) × (n ≤ 512) }
    ensures { (result ≡ sum (at (cells_of work.now)) n) × (result ≤ 65536 * n) }
{
    let mut all = 0;
    for i in 0..n {
        all += need_at(work, i + 1);
    }
    all
}
