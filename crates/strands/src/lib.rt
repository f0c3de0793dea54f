// Phase two: from rows to fibres, and no dark ones.
// The lent areas go one by one: a struct that holds them by reference makes clauses say `.entry.` of each field.
#![tactic(auto)]

mod assigns;
pub mod needs;
mod pairs;

ghost use Rattle.register.specs.Areas.{areas};
ghost use Rattle.strands.specs.Laid.{Ready, Laid};

use register::{Counts, Job};

// Writes the fibre list, numbered after `from`, and the assignment list, from what phase one left in the work area, with M as `top`; the work area's cells are used up.
pub fn lay(
    job: Job,
    top: usize,
    circuits: &[u8],
    fibres: &mut [u8],
    assigns: &mut [u8],
    work: &mut [u8],
) -> Counts
    requires { Ready job.links job.wavelengths job.circuits job.from top circuits.now (areas fibres.old assigns.old work.old) }
    ensures { Laid job.links job.wavelengths job.circuits job.from circuits.now (areas fibres.old assigns.old work.old) (areas fibres.new assigns.new work.new) result }
{
    let floor = needs::floor_of(work, job.links);
    // They have a table of their own: no byte behind the new fibre records may change.
    let pairs = pairs::of_layers(work, job.links, job.circuits, top);
    let cells = &mut assigns[..2 * job.circuits];
    halves::write_halves(circuits, job.links, job.circuits, work, cells);
    assigns::write_assignments(job, &pairs, circuits, work, assigns);
    let t = lit::trim(job, 2 * pairs.count, circuits, work, fibres, assigns);
    Counts {
        fibres: t.fibres,
        total: t.total,
        floor,
    }
}
