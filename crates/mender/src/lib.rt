// A damaged register mended: the tests, who is kept, places for the rest, and the report.
// The lent areas go one by one: a struct that holds them by reference makes clauses say `.entry.` of each field.
#![tactic(auto)]

mod admit;
mod lines;
mod refill;
mod remake;
mod sift;

ghost use Rattle.mender.specs.Report.{lent_areas};
ghost use Rattle.mender.specs.Outcome.{Outcome};

use records::Line;
use refusals::Refusal;
use register::Counts;

// What a mending tells: the three numbers of the plan, and how many lines the report has.
#[derive(Clone, Copy, Debug, PartialEq, Eq)]
pub struct Mended {
    pub counts: Counts,
    pub lines: usize,
}

// Mends the register of the circuits of a file on a line, whose `many` fibres begin the fibre list.
pub fn mend(
    line: Line,
    circuits: &[u8],
    many: usize,
    fibres: &mut [u8],
    assigns: &mut [u8],
    report: &mut [u8],
    work: &mut [u8],
) -> Result<Mended, Refusal>
    ensures { Outcome line circuits.now many (lent_areas fibres.old assigns.old report.old work.old) (lent_areas fibres.new assigns.new report.new work.new) result }
{
    admit::of_mending(line, circuits, many, fibres, assigns, report, work)?;
    Ok(remake::remake(line, circuits, many, fibres, assigns, report, work))
}
