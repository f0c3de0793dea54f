// Of the waiting circuits that fit, the one with the lowest circuit number.
// Records stand in lent bytes, so loops go over their places.
// The lent areas go one by one: a struct that holds them by reference makes clauses say `.entry.` of each field.
ghost use Rattle.std.specs.Prelude.{◌+◌, ◌*◌, ◌≤◌, ◌<◌, true, ◌≡◌, length};
ghost use Rattle.basics.specs.Tools.{better};
ghost use Rattle.method.specs.Sheet.{chosen};
ghost use Rattle.records.specs.Records.{circuits_in};
ghost use Rattle.whole_sheet.specs.inner.Board.{Board, AtRun, state_in};
ghost use Rattle.whole_sheet.specs.inner.Choices.{place_of, OneOf, may_go, number_of};

use crate::colours;
use crate::colours::Run;
use records::Circuit;
use register::Job;

// Whether circuit j waits and fits. One that waits has row 0 in its cell: an `Option` in each would take twice as much.
fn may_go(job: Job, run: Run, j: usize, circuits: &[u8], work: &[u8], row: &[u8]) -> bool
    requires { Board job.links job.circuits circuits.now work.now row.now × AtRun job.links row.now run × (j < job.circuits) }
    ensures { result ≡ may_go job.links job.circuits circuits.now work.now row.now j }
{
    records::cells::get(work, 2 * job.links + j) == 0
        && colours::does_fit(row, run, records::record_at::<Circuit>(circuits, j))
}

// The one of two circuits with the lower number: circuit j, or the best so far.
fn lower(best: Option<usize>, j: usize, m: usize, circuits: &[u8]) -> Option<usize>
    requires { OneOf m best × (j < m) × (8 * m ≤ length circuits.now) × (m ≤ 2048) }
    ensures { (place_of result ≡ better true (number_of m circuits.now) j (place_of best)) × OneOf m result }
{
    match best {
        None => Some(j),
        Some(b) => {
            if records::record_at::<Circuit>(circuits, j).number
                < records::record_at::<Circuit>(circuits, b).number
            {
                Some(j)
            } else {
                Some(b)
            }
        }
    }
}

// The best so far, once circuit j is looked at.
fn better_of(
    best: Option<usize>,
    j: usize,
    job: Job,
    run: Run,
    circuits: &[u8],
    work: &[u8],
    row: &[u8],
) -> Option<usize>
    requires board { Board job.links job.circuits circuits.now work.now row.now × AtRun job.links row.now run × (j < job.circuits) }
    requires one_of { OneOf job.circuits best }
    ensures { (place_of result ≡ better (may_go job.links job.circuits circuits.now work.now row.now j) (number_of job.circuits circuits.now) j (place_of best)) × OneOf job.circuits result }
{
    if !may_go(job, run, j, circuits, work, row) {
        return best;
    }
    lower(best, j, job.circuits, circuits)
}

// The waiting circuit of lowest number that fits the run.
pub fn lowest_fit(job: Job, run: Run, circuits: &[u8], work: &[u8], row: &[u8]) -> Option<usize>
    requires { Board job.links job.circuits circuits.now work.now row.now × AtRun job.links row.now run }
    ensures { (place_of result ≡ chosen job.links (circuits_in job.circuits circuits.now) (state_in job.links job.circuits work.now row.now)) × OneOf job.circuits result }
{
    let mut best = None;
    for j in 0..job.circuits {
        best = better_of(best, j, job, run, circuits, work, row);
    }
    best
}
