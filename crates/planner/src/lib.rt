// The planner: tests, phase one, phase two, zeroing.
// The lent areas go one by one: a struct that holds them by reference makes clauses say `.entry.` of each field.
#![tactic(auto)]

ghost use Rattle.register.specs.Areas.{areas};
ghost use Rattle.planner.specs.Outcome.{Outcome};
ghost use Rattle.planner.specs.Settled.{Admitted, Settled};

use records::Line;
use refusals::Refusal;
use register::{Counts, Job};

pub mod admit;

// Plans circuits that passed the tests. What was used of the work area is zeroed.
pub fn settle(
    job: Job,
    circuits: &[u8],
    fibres: &mut [u8],
    assigns: &mut [u8],
    work: &mut [u8],
) -> Counts
    requires { Admitted job.links job.wavelengths job.circuits job.from circuits.now (areas fibres.old assigns.old work.old) }
    ensures { Settled job.links job.wavelengths job.circuits job.from circuits.now (areas fibres.old assigns.old work.old) (areas fibres.new assigns.new work.new) result }
{
    let k = 4 * job.links + 4 * job.circuits;
    let top = rows::fill_sheet(
        job.links,
        job.wavelengths,
        job.circuits,
        circuits,
        &mut work[..k],
        &mut assigns[..8 * job.circuits],
    );
    let counts = strands::lay(job, top, circuits, fibres, assigns, &mut work[..k]);
    work[..k].fill(0);
    counts
}

// Plans the circuits of a file on a line. What is told: the three numbers of the plan.
pub fn plan(
    line: Line,
    circuits: &[u8],
    fibres: &mut [u8],
    assigns: &mut [u8],
    work: &mut [u8],
) -> Result<Counts, Refusal>
    ensures { Outcome line circuits.now (areas fibres.old assigns.old work.old) (areas fibres.new assigns.new work.new) result }
{
    let m = admit::of_plan(line, circuits, fibres.len(), assigns.len(), work.len())?;
    let job = Job::on(line, m, 0);
    Ok(settle(job, circuits, fibres, assigns, work))
}
