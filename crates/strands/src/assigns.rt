// The assignment list of the method's plan, with fibres counted from 1.
// Records stand in lent bytes, so loops go over their places.
// The lent areas go one by one: a struct that holds them by reference makes clauses say `.entry.` of each field.
ghost use Rattle.std.specs.Prelude.{◌≡◌, ◌+◌, ◌*◌, ◌-◌, ◌≤◌, ◌<◌, length, get_or};
ghost use Rattle.basics.specs.Tools.{seek};
ghost use Rattle.records.specs.Bytes.{cells_of};
ghost use Rattle.records.specs.Records.{circuit_of, circuits_in, record_at};
ghost use Rattle.method.specs.Fibres.{assignments};
ghost use Rattle.register.specs.Lists.{assignment_list};
ghost use Rattle.strands.specs.inner.Area.{PlacedAt, Sources, pair_reaches, put_assignment};

use crate::pairs::Pairs;
use records::{AssignmentRecord, Circuit};
use register::Job;

// The first pair from pair `start` on that reaches link x. What is told where there is none is the end, as in `seek`, since the caller goes on from there.
fn pair_over(pairs: &Pairs, start: usize, x: u16) -> usize
    requires { start ≤ pairs.now.count }
    ensures { result ≡ seek (pair_reaches pairs.now.lasts x) start (pairs.now.count - start) }
{
    for i in start..pairs.count {
        if x <= pairs.lasts[i] {
            return i;
        }
    }
    pairs.count
}

// What circuit j is given.
fn place_of(job: Job, pairs: &Pairs, j: usize, circuits: &[u8], work: &[u8]) -> AssignmentRecord
    requires { Sources job.links job.wavelengths job.circuits pairs.now.count circuits.now work.now pairs.now.lasts × (j < job.circuits) }
    ensures number { result.circuit ≡ (circuit_of (record_at circuits.now j)).number }
    ensures placed { PlacedAt job.links job.wavelengths job.circuits circuits.now j result.fibre result.wavelength }
{
    let c = records::record_at::<Circuit>(circuits, j);
    let v = usize::from(records::cells::get(work, 2 * job.links + j));
    let row = v / 2;
    let q = (row - 1) / job.wavelengths;
    let start = usize::from(records::cells::get(work, 2 * job.links + job.circuits + q));
    let pair = pair_over(pairs, start, c.first);
    AssignmentRecord {
        circuit: c.number,
        fibre: (2 * pair + 1 + v % 2) as u16,
        wavelength: (row - q * job.wavelengths) as u16,
    }
}

// Writes the record of what circuit j is given.
fn write_assignment(job: Job, pairs: &Pairs, j: usize, circuits: &[u8], work: &[u8], out: &mut [u8])
    requires sources { Sources job.links job.wavelengths job.circuits pairs.now.count circuits.now work.now pairs.now.lasts × (j < job.circuits) }
    requires room { 8 * job.circuits ≤ length out.old }
    ensures { out.new ≡ put_assignment job.links job.wavelengths job.circuits circuits.now j out.old }
{
    let a = place_of(job, pairs, j, circuits, work);
    records::put_record(out, j, a);
}

// Writes the whole assignment list, in the order of the file.
pub fn write_assignments(job: Job, pairs: &Pairs, circuits: &[u8], work: &[u8], out: &mut [u8])
    requires sources { Sources job.links job.wavelengths job.circuits pairs.now.count circuits.now work.now pairs.now.lasts }
    requires room { 8 * job.circuits ≤ length out.old }
    ensures { out.new ≡ assignment_list 0 (circuits_in job.circuits circuits.now) (assignments job.links job.wavelengths (circuits_in job.circuits circuits.now)) out.old }
{
    for j in 0..job.circuits {
        write_assignment(job, pairs, j, circuits, work, out);
    }
}
