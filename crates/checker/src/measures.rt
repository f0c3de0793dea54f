// The length of the fibres, and the floor.
// Records stand in lent bytes, so loops go over their places.
ghost use Rattle.std.specs.Prelude.{◌≡◌, ◌*◌, ◌≤◌, length};
ghost use Rattle.records.specs.Records.{circuits_in};
ghost use Rattle.method.specs.Line.{span_length};
ghost use Rattle.method.specs.Fibres.{floor};
ghost use Rattle.rows.specs.Accepted.{Accepted};
ghost use Rattle.rows.specs.inner.Loads.{Zeroed};
ghost use Rattle.register.specs.Plans.{span_of};
ghost use Rattle.checker.specs.Checked.{fibres_in, length_in};

use records::FibreRecord;

// The number of links that a fibre spans.
#[tactic(auto, unfolding(method::specs::Line::span_length))]
fn span_of(f: FibreRecord) -> usize
    ensures { (result ≡ span_length (span_of f)) × (result ≤ 65536) }
{
    (usize::from(f.last) + 1).saturating_sub(usize::from(f.first))
}

// The length of k fibres.
pub fn length_of(fibres: &[u8], k: usize) -> usize
    requires { (8 * k ≤ length fibres.now) × (k ≤ 4096) }
    ensures { result ≡ length_in (fibres_in k fibres.now) }
{
    let mut all = 0;
    for i in 0..k {
        all += span_of(records::record_at::<FibreRecord>(fibres, i));
    }
    all
}

// The floor, by way of n cells for the links, which are zero.
fn floor_in(circuits: &[u8], n: usize, w: usize, m: usize, cells: &mut [u8]) -> usize
    requires accepted { Accepted n w m circuits.now }
    requires zeroed { Zeroed n cells.old }
    ensures { result ≡ floor n w (circuits_in m circuits.now) }
{
    rows::loads::count_needs(circuits, m, cells, n, w);
    strands::needs::floor_of(cells, n)
}

// The floor of m circuits that passed the tests.
pub fn floor_of(circuits: &[u8], n: usize, w: usize, m: usize) -> usize
    requires { Accepted n w m circuits.now }
    ensures { result ≡ floor n w (circuits_in m circuits.now) }
{
    let mut cells: [u8; 1024] = [0; 1024];
    floor_in(circuits, n, w, m, &mut cells[..2 * n])
}
