// Request R-1: no dark strands. Each maximal run of links that the circuits of an old fibre use becomes a fibre of the same layer in its place.
// The lent areas go one by one: a struct that holds them by reference makes clauses say `.entry.` of each field.
#![tactic(auto)]

ghost use Rattle.std.specs.Prelude.{◌≡◌, ◌+◌, ◌/◌, ◌≤◌, ◌<◌, get_or};
ghost use Rattle.records.specs.Area.{rows_in};
ghost use Rattle.records.specs.Bytes.{cells_of};
ghost use Rattle.records.specs.Records.{circuits_in};
ghost use Rattle.method.specs.Fibres.{layer_of};
ghost use Rattle.method.specs.Line.{Plan};
ghost use Rattle.register.specs.Areas.{areas};
ghost use Rattle.lit.specs.Trims.{Held, Lean, Trimmable};
ghost use Rattle.lit.specs.inner.Sweeps.{HasRow, SweptOn, SweptSome, Takable, taken, written};

use records::chains::Chains;
use records::{Circuit, FibreRecord};
use register::Job;

// How many fibres, and their length.
#[derive(Clone, Copy, Debug, PartialEq, Eq)]
pub struct Trimmed {
    pub fibres: usize,
    pub total: usize,
}

// What is made so far; `past` is the link after the run that is open, or 0 if none is.
// An `Option` is no plainer: 0 is below each link, so one comparison does for both.
#[derive(Clone, Copy, Debug, PartialEq, Eq)]
struct Open {
    made: Trimmed,
    past: usize,
}

// The layer of circuit j's row, which stands doubled in the work area.
fn layer_of(job: Job, j: usize, work: &[u8]) -> usize
    requires { HasRow job.links job.wavelengths job.circuits j work.now }
    ensures { (result ≡ layer_of job.wavelengths (get_or (rows_in job.links job.circuits (cells_of work.now)) j 0 / 2)) × (result ≤ 65535) }
{
    let row = usize::from(records::cells::get(work, 2 * job.links + j)) / 2;
    (row - 1) / job.wavelengths + 1
}

// Circuit c, which begins no sooner than those before it: it begins a run past the one that is open, lengthens that one, or lies in it.
fn take_in(c: Circuit, layer: usize, from: usize, fibres: &mut [u8], s: Open) -> Open
    requires { Takable from layer c s fibres.old }
    ensures { (result ≡ taken c s) × (fibres.new ≡ written from layer c s fibres.old) }
{
    let first = usize::from(c.first);
    let end = usize::from(c.last) + 1;
    let Open { made, past } = s;
    if past < first {
        let f = FibreRecord {
            number: (from + made.fibres + 1) as u16,
            first: c.first,
            last: c.last,
            layer: layer as u16,
        };
        records::put_record(fibres, made.fibres, f);
        let made = Trimmed {
            fibres: made.fibres + 1,
            total: made.total + (end - first),
        };
        return Open { made, past: end };
    }
    if past < end {
        records::cells::put(fibres, 4 * (made.fibres - 1) + 2, c.last);
        let made = Trimmed {
            total: made.total + (end - past),
            ..made
        };
        return Open { made, past: end };
    }
    s
}

// The runs of old fibre o + 1, along its chain: their records after those that are written, and each circuit's new number.
fn runs_of(
    job: Job,
    o: usize,
    circuits: &[u8],
    work: &[u8],
    chains: &Chains<4096>,
    s: Trimmed,
    fibres: &mut [u8],
    assigns: &mut [u8],
) -> Trimmed
    requires fibre { o < 4096 }
    requires swept_some { SweptSome job o circuits.now work.now chains.now.next chains.now.heads s fibres.old assigns.old }
    ensures { SweptOn job circuits.now work.now chains.now.next chains.now.heads o s fibres.old assigns.old (o + 1) result fibres.new assigns.new }
{
    let mut at = chains.first(o);
    let Some(head) = at else {
        return s;
    };
    let layer = layer_of(job, head, work);
    let mut run = Open { made: s, past: 0 };
    while let Some(j) = at {
        let c = records::record_at::<Circuit>(circuits, j);
        run = take_in(c, layer, job.from, fibres, run);
        records::cells::put(assigns, 4 * j + 2, (job.from + run.made.fibres) as u16);
        at = chains.after(j);
    }
    run.made
}

// All old fibres, in their order.
fn trim_all(
    job: Job,
    many: usize,
    circuits: &[u8],
    work: &[u8],
    chains: &Chains<4096>,
    fibres: &mut [u8],
    assigns: &mut [u8],
) -> Trimmed
    requires fibres { many ≤ 4096 }
    requires swept_some { SweptSome job 0 circuits.now work.now chains.now.next chains.now.heads (record { fibres = 0; total = 0 }) fibres.old assigns.old }
    ensures { SweptOn job circuits.now work.now chains.now.next chains.now.heads 0 (record { fibres = 0; total = 0 }) fibres.old assigns.old many result fibres.new assigns.new }
{
    let mut s = Trimmed {
        fibres: 0,
        total: 0,
    };
    for o in 0..many {
        s = runs_of(job, o, circuits, work, chains, s, fibres, assigns);
    }
    s
}

// A plan of `many` fibres, whose assignments stand in their list, loses its dark fibres and links: the new fibre records, numbered after `from`, go to the fibre
// list, and each circuit's new fibre number into its assignment.
pub fn trim(
    job: Job,
    many: usize,
    circuits: &[u8],
    work: &[u8],
    fibres: &mut [u8],
    assigns: &mut [u8],
) -> Trimmed
    requires { Trimmable job.links job.wavelengths job.circuits job.from many circuits.now (areas fibres.old assigns.old work.now) }
    ensures { (p : Plan) → Held job.links job.wavelengths job.circuits many (circuits_in job.circuits circuits.now) p work.now assigns.old → Lean job.links job.from (circuits_in job.circuits circuits.now) p fibres.old fibres.new assigns.old assigns.new result }
{
    let mut chains = Chains {
        heads: [0; 4096],
        next: [0; 2048],
    };
    let Chains { heads, next } = &mut chains;
    chains::by_fibre(circuits, assigns, job.links, job.circuits, next, heads);
    trim_all(job, many, circuits, work, &chains, fibres, assigns)
}
