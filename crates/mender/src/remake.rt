// A register that passed the tests, mended: both passes, new fibres for those that fit nowhere, the report filled in, and the three numbers.
// Each step that needs a table is a function of its own, so that no other table is on the stack while the new fibres are planned.
// The lent areas go one by one: a struct that holds them by reference makes clauses say `.entry.` of each field.
ghost use Rattle.std.specs.Prelude.{◌/◌, length};
ghost use Rattle.mender.specs.Report.{lent_areas};
ghost use Rattle.mender.specs.inner.Steps.{MendAsked, Remade};

use crate::{Mended, lines, refill};
use records::Line;
use register::{Counts, Job};

// Mends the register of `circuits`, whose `many` fibres begin the fibre list.
pub fn remake(
    line: Line,
    circuits: &[u8],
    many: usize,
    fibres: &mut [u8],
    assigns: &mut [u8],
    report: &mut [u8],
    work: &mut [u8],
) -> Mended
    requires { MendAsked line.links line.wavelengths (length circuits.now / 8) many circuits.now (lent_areas fibres.old assigns.old report.old work.old) }
    ensures { Remade line.links line.wavelengths (length circuits.now / 8) many circuits.now (lent_areas fibres.old assigns.old report.old work.old) (lent_areas fibres.new assigns.new report.new work.new) result }
{
    let m = circuits.len() / 8;
    let w = line.wavelengths;
    let span = checker::measures::length_of(fibres, many);
    let floor = checker::measures::floor_of(circuits, line.links, w, m);
    let ends = &mut work[4 * line.links..4 * line.links + 4 * m];
    let lines = refill::refill(circuits, m, fibres, many, w, assigns, report, ends);
    let job = Job::on(line, m, many);
    let added = parts::plan_left(job, circuits, 0, fibres, assigns, work);
    lines::fill_lines(assigns, lines, report);
    Mended {
        counts: Counts {
            fibres: many + added.fibres,
            total: span + added.total,
            floor,
        },
        lines,
    }
}
