// L(i), c(i) and M, counted from the file as they are defined.
// Records stand in lent bytes, so loops go over their places.
ghost use Rattle.std.specs.Prelude.{◌+◌, ◌*◌, ◌≤◌, ◌≡◌, length};
ghost use Rattle.basics.specs.Tools.{each};
ghost use Rattle.method.specs.Sheet.{load, need, most};
ghost use Rattle.records.specs.Bytes.{cells_of};
ghost use Rattle.records.specs.Records.{circuits_in};
ghost use Rattle.rows.specs.Accepted.{Accepted};

use crate::colours;
use register::Job;

// L(i): the number of circuits on link i.
fn load_of(circuits: &[u8], m: usize, i: usize) -> usize
    requires { (8 * m ≤ length circuits.now) × (m ≤ 2048) }
    ensures { result ≡ load (circuits_in m circuits.now) i }
{
    let mut many = 0;
    for j in 0..m {
        many += usize::from(colours::is_used(records::record_at(circuits, j), i));
    }
    many
}

// c(i): L(i) over w, rounded up.
fn need_of(job: Job, circuits: &[u8], i: usize) -> usize
    requires { (8 * job.circuits ≤ length circuits.now) × (job.circuits ≤ 2048) × (1 ≤ job.wavelengths) × (job.wavelengths ≤ 80) }
    ensures { (result ≡ need job.wavelengths (circuits_in job.circuits circuits.now) i) × (result ≤ 2127) }
{
    load_of(circuits, job.circuits, i).div_ceil(job.wavelengths)
}

// M: the largest c(i).
pub fn most_of(job: Job, circuits: &[u8]) -> usize
    requires { Accepted job.links job.wavelengths job.circuits circuits.now }
    ensures { result ≡ most job.links job.wavelengths (circuits_in job.circuits circuits.now) }
{
    let mut most = 0;
    for i in 1..job.links + 1 {
        most = need_of(job, circuits, i).max(most);
    }
    most
}

// c(i) of each link, a cell each.
pub fn write_needs(job: Job, circuits: &[u8], cells: &mut [u8])
    requires { Accepted job.links job.wavelengths job.circuits circuits.now × (length cells.old ≡ 2 * job.links) }
    ensures { cells_of cells.new ≡ each (need job.wavelengths (circuits_in job.circuits circuits.now)) 1 job.links }
{
    for i in 1..job.links + 1 {
        let c = need_of(job, circuits, i);
        records::cells::put(cells, i - 1, c as u16);
    }
}
