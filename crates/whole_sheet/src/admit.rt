// The tests of the whole-sheet engine, in their order: the first refusal that applies. Nothing is written.
ghost use Rattle.std.specs.Prelude.{◌≡◌, ◌/◌, length};
ghost use Rattle.refusals.specs.Table.{tested, verdict};
ghost use Rattle.whole_sheet.specs.WholeOutcome.{row21, whole_table};

use crate::loads;
use records::Line;
use refusals::{Reason, Refusal};
use register::Job;

// 21: the sheet has at most 65,536 cells, and the lent sheet a byte for each.
fn sheet_room(cells: usize, has: usize) -> Result<usize, Refusal>
    ensures { result ≡ tested (row21 cells has) has }
{
    if 65536 < cells || has < cells {
        return Err(Refusal::at_large(Reason::SheetRoom));
    }
    Ok(has)
}

// All tests, with the lengths of the lent areas. What is found: how many circuits.
#[tactic(auto, unfolding(crate::specs::WholeOutcome::whole_table, refusals::specs::Table::verdict), using(refusals::proofs::Chain::piece_gives))]
pub fn of_whole(
    line: Line,
    circuits: &[u8],
    fibres: usize,
    assigns: usize,
    work: usize,
    sheet: usize,
) -> Result<usize, Refusal>
    ensures { result ≡ verdict (whole_table line circuits.now fibres assigns work sheet) (length circuits.now / 8) }
{
    let m = planner::admit::of_plan(line, circuits, fibres, assigns, work)?;
    let top = loads::most_of(Job::on(line, m, 0), circuits);
    sheet_room(line.links * (top * line.wavelengths), sheet)?;
    Ok(m)
}
