// Additions for callers in C and Rust.
// The C interface has no struct of references: what is lent goes one by one.
ghost use Rattle.register.specs.Areas.{areas};
ghost use Rattle.adder.specs.Outcome.{Outcome};
ghost use Rattle.exports.specs.Exported.{line_of, Exported};
ghost use Rattle.exports.specs.AddExported.{named_of};

use crate::PlanAnswer;
use adder::Named;
use records::Line;

// Adds circuits to the plan of others, of which the two lists begin with so many records, on a line of so many links with so many wavelengths of a grid.
#[unsafe(no_mangle)]
pub extern "C" fn fibre_add(
    links: usize,
    wavelengths: usize,
    grid: usize,
    circuits: &[u8],
    added: &[u8],
    old_fibres: usize,
    old_assignments: usize,
    fibres: &mut [u8],
    assignments: &mut [u8],
    work: &mut [u8],
) -> PlanAnswer
    ensures { Exported (Outcome (line_of links wavelengths grid) circuits.now added.now (named_of old_fibres old_assignments) (areas fibres.old assignments.old work.old) (areas fibres.new assignments.new work.new)) result }
{
    let line = Line {
        links,
        wavelengths,
        grid,
    };
    let named = Named {
        fibres: old_fibres,
        assignments: old_assignments,
    };
    let answer = adder::add(line, circuits, added, named, fibres, assignments, work);
    PlanAnswer::from(answer)
}
