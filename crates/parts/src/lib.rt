// Some circuits of a file, planned alone: their records are copied, settled, and each assignment is put into its circuit's own record.
// Those that have no place yet are noted by their places, and planned so, their fibres behind the old ones.
// Records stand in lent bytes, so loops go over their places.
// The lent areas go one by one: a struct that holds them by reference makes clauses say `.entry.` of each field.
#![tactic(auto)]

ghost use Rattle.std.specs.Prelude.{◌≡◌, ◌++◌, ℕ, ◌+◌, ◌*◌, ◌/◌, ◌<◌, ◌≤◌, drop, get_or, length, take};
ghost use Rattle.basics.specs.Tools.{count};
ghost use Rattle.records.specs.Bytes.{cells_of};
ghost use Rattle.records.specs.Records.{assignment_bytes, assignment_of, circuits_in, circuits_of, file_of, record_at};
ghost use Rattle.register.specs.Areas.{areas};
ghost use Rattle.places.specs.Parts.{those};
ghost use Rattle.additions.specs.Adding.{unplaced};
ghost use Rattle.parts.specs.Left.{LeftAsked, LeftSettled, said_behind};
ghost use Rattle.parts.specs.Part.{ApartAsked, Once, PartAsked, PartSettled, PlacesOf, Scattered, chosen};

use records::{AssignmentRecord, Circuit};
use register::{Counts, Job};

// The circuits of a file at k places, copied to the start of another file.
fn copy_part(circuits: &[u8], places: &[u8], k: usize, file: &mut [u8])
    requires { (length places.now ≡ 2 * k) × (k ≤ 2048) × (8 * k ≤ length file.old) × PlacesOf (length circuits.now / 8) (cells_of places.now) }
    ensures { file.new ≡ file_of (chosen (circuits_of circuits.now) (cells_of places.now)) ++ drop (8 * k) file.old }
{
    for t in 0..k {
        let i = usize::from(records::cells::get(places, t));
        records::put_record(file, t, records::record_at::<Circuit>(circuits, i));
    }
}

// Assignment t of a list becomes the record of place t, behind `base` others; k of them.
fn put_part(list: &[u8], places: &[u8], k: usize, base: usize, assigns: &mut [u8])
    requires { (length places.now ≡ 2 * k) × (k ≤ 2048) × (base ≤ 2048) × (8 * k ≤ length list.now) × Once k (cells_of places.now) × ((t : ℕ) → t < k → 8 * (base + get_or (cells_of places.now) t 0) + 8 ≤ length assigns.old) }
    ensures { Scattered base k (cells_of places.now) (λ t. assignment_bytes (assignment_of (record_at list.now t))) assigns.old assigns.new }
{
    for t in 0..k {
        let i = usize::from(records::cells::get(places, t));
        let a = records::record_at::<AssignmentRecord>(list, t);
        records::put_record(assigns, base + i, a);
    }
}

// Plans a part that is a file of its own.
fn settle_part(
    job: Job,
    part: &[u8],
    places: &[u8],
    base: usize,
    fibres: &mut [u8],
    assigns: &mut [u8],
    work: &mut [u8],
) -> Counts
    requires { (m : ℕ) × ApartAsked job.links job.wavelengths job.circuits job.from base m part.now places.now (areas fibres.old assigns.old work.old) }
    ensures { PartSettled job.links job.wavelengths job.from base (circuits_in job.circuits part.now) (cells_of places.now) (areas fibres.old assigns.old work.old) (areas fibres.new assigns.new work.new) result }
{
    let mut list: [u8; 16384] = [0; 16384];
    let counts = planner::settle(job, part, fibres, &mut list, work);
    put_part(&list, places, job.circuits, base, assigns);
    counts
}

// Plans the circuits of a file at some places alone; the assignment of the circuit at place j becomes record base + j.
pub fn plan_part(
    job: Job,
    circuits: &[u8],
    places: &[u8],
    base: usize,
    fibres: &mut [u8],
    assigns: &mut [u8],
    work: &mut [u8],
) -> Counts
    requires { PartAsked job.links job.wavelengths job.circuits job.from base circuits.now places.now (areas fibres.old assigns.old work.old) }
    ensures { PartSettled job.links job.wavelengths job.from base (chosen (circuits_of circuits.now) (cells_of places.now)) (cells_of places.now) (areas fibres.old assigns.old work.old) (areas fibres.new assigns.new work.new) result }
{
    let k = job.circuits;
    let mut file: [u8; 16384] = [0; 16384];
    copy_part(circuits, places, k, &mut file);
    settle_part(job, &file[..8 * k], places, base, fibres, assigns, work)
}

// The places of those of m circuits that have no place, by their records behind `base` others, in the order of the file. What is told: how many.
fn note_left(assigns: &[u8], base: usize, m: usize, places: &mut [u8]) -> usize
    requires { (base + m ≤ 2048) × (8 * (base + m) ≤ length assigns.now) × (2 * m ≤ length places.old) }
    ensures { (result ≡ count (unplaced (said_behind base m assigns.now)) m) × (result ≤ m) × (take result (cells_of places.new) ≡ those (unplaced (said_behind base m assigns.now)) m) }
{
    let mut k = 0;
    for j in 0..m {
        let a = records::record_at::<AssignmentRecord>(assigns, base + j);
        // A record of 8 bytes has no room for an `Option`: fibre 0, which no plan has, is none.
        if a.fibre == 0 {
            records::cells::put(places, k, j as u16);
            k += 1;
        }
    }
    k
}

// Plans together those of `circuits` that have no place, by their records behind `base` others; their fibres stand behind the old ones, and are numbered on from them.
pub fn plan_left(
    job: Job,
    circuits: &[u8],
    base: usize,
    fibres: &mut [u8],
    assigns: &mut [u8],
    work: &mut [u8],
) -> Counts
    requires { LeftAsked job.links job.wavelengths job.from base job.circuits circuits.now (areas fibres.old assigns.old work.old) }
    ensures { LeftSettled job.links job.wavelengths job.from base job.circuits circuits.now (areas fibres.old assigns.old work.old) (areas fibres.new assigns.new work.new) result }
{
    let used = 4 * job.links + 4 * (base + job.circuits);
    let mut places: [u8; 4096] = [0; 4096];
    let left = note_left(assigns, base, job.circuits, &mut places);
    let part = Job {
        circuits: left,
        ..job
    };
    let counts = plan_part(
        part,
        circuits,
        &places[..2 * left],
        base,
        &mut fibres[8 * job.from..],
        assigns,
        work,
    );
    work[..used].fill(0);
    counts
}
