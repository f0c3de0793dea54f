// The whole-sheet engine: it keeps every row of the sheet in a lent area. It is there to be read, so each step is done as the scope of work says it.
// The lent areas go one by one: a struct that holds them by reference makes clauses say `.entry.` of each field.
#![tactic(auto)]

mod admit;
mod choice;
mod colours;
mod loads;
mod table;

ghost use Rattle.std.specs.Prelude.{◌+◌, ◌*◌, ◌≤◌, ◌≡◌, length};
ghost use Rattle.method.specs.Sheet.{most};
ghost use Rattle.planner.specs.Settled.{Admitted, Settled};
ghost use Rattle.records.specs.Records.{circuits_in};
ghost use Rattle.register.specs.Areas.{areas};
ghost use Rattle.rows.specs.Accepted.{Accepted};
ghost use Rattle.rows.specs.Filled.{Filled};
ghost use Rattle.rows.specs.inner.Loops.{Counted};
ghost use Rattle.whole_sheet.specs.Cells.{cell_count, sheet_list};
ghost use Rattle.whole_sheet.specs.WholeOutcome.{WholeOutcome};

use records::Line;
use refusals::Refusal;
use register::{Counts, Job};

// Everything is zeroed, so that every circuit waits, and c(i) of each link is counted.
fn prepare(job: Job, circuits: &[u8], work: &mut [u8])
    requires accepted { Accepted job.links job.wavelengths job.circuits circuits.now }
    requires work_len { length work.old ≡ 4 * job.links + 4 * job.circuits }
    ensures { Counted job.links job.circuits job.wavelengths (circuits_in job.circuits circuits.now) work.new }
{
    work.fill(0);
    loads::write_needs(job, circuits, &mut work[..2 * job.links]);
}

// Phase one: the sheet row by row; M is handed back.
fn fill_whole(job: Job, circuits: &[u8], work: &mut [u8], sheet: &mut [u8]) -> usize
    requires accepted { Accepted job.links job.wavelengths job.circuits circuits.now }
    requires room { (length work.old ≡ 4 * job.links + 4 * job.circuits) × (cell_count job.links job.wavelengths (circuits_in job.circuits circuits.now) ≤ length sheet.old) }
    ensures { (result ≡ most job.links job.wavelengths (circuits_in job.circuits circuits.now)) × Filled job.links job.wavelengths job.circuits circuits.now work.new × (sheet.new ≡ sheet_list job.links job.wavelengths (circuits_in job.circuits circuits.now) sheet.old) }
{
    let top = loads::most_of(job, circuits);
    prepare(job, circuits, work);
    table::all_rows(job, top, circuits, work, sheet);
    top
}

// Plans circuits that passed the tests. What was used of the work area is zeroed.
fn settle_whole(
    job: Job,
    circuits: &[u8],
    fibres: &mut [u8],
    assigns: &mut [u8],
    work: &mut [u8],
    sheet: &mut [u8],
) -> Counts
    requires admitted { Admitted job.links job.wavelengths job.circuits job.from circuits.now (areas fibres.old assigns.old work.old) }
    requires room { cell_count job.links job.wavelengths (circuits_in job.circuits circuits.now) ≤ length sheet.old }
    ensures settled { Settled job.links job.wavelengths job.circuits job.from circuits.now (areas fibres.old assigns.old work.old) (areas fibres.new assigns.new work.new) result }
    ensures sheet_after { sheet.new ≡ sheet_list job.links job.wavelengths (circuits_in job.circuits circuits.now) sheet.old }
{
    let k = 4 * job.links + 4 * job.circuits;
    let top = fill_whole(job, circuits, &mut work[..k], sheet);
    let counts = strands::lay(job, top, circuits, fibres, assigns, &mut work[..k]);
    work[..k].fill(0);
    counts
}

// Plans the circuits of a file on a line, and keeps the whole sheet.
pub fn plan_whole(
    line: Line,
    circuits: &[u8],
    fibres: &mut [u8],
    assigns: &mut [u8],
    work: &mut [u8],
    sheet: &mut [u8],
) -> Result<Counts, Refusal>
    ensures { WholeOutcome line circuits.now (areas fibres.old assigns.old work.old) (areas fibres.new assigns.new work.new) sheet.old sheet.new result }
{
    let m = admit::of_whole(
        line,
        circuits,
        fibres.len(),
        assigns.len(),
        work.len(),
        sheet.len(),
    )?;
    let job = Job::on(line, m, 0);
    Ok(settle_whole(job, circuits, fibres, assigns, work, sheet))
}
