// The planner, additions, mending and the check for callers in C and Rust: the answer as a plain struct of numbers.
// The C interface has no `Option`, `Result` or struct of references: what is lent goes one by one, and a number that has no meaning is 0.
// Each answer is one flat struct, so the three numbers of a refusal stand in each.
#![tactic(auto)]

pub mod add;
pub mod check;
pub mod mend;

ghost use Rattle.std.specs.Prelude.{◌≡◌};
ghost use Rattle.register.specs.Areas.{areas};
ghost use Rattle.planner.specs.Outcome.{Outcome};
ghost use Rattle.exports.specs.Exported.{flat, line_of, Exported};

use records::Line;
use refusals::Refusal;
use register::Counts;

// Planned where `refusal` is 0, with the three numbers; else the refusal's number and place, which end is wrong, and zeros.
#[repr(C)]
#[derive(Clone, Copy, Debug, PartialEq, Eq)]
pub struct PlanAnswer {
    pub refusal: u32,
    pub place: u32,
    pub end: u32,
    pub fibres: usize,
    pub total: usize,
    pub floor: usize,
}

impl From<Result<Counts, Refusal>> for PlanAnswer {
    ghost from_gives = { λ answer flattened. flattened ≡ flat answer };

    fn from(answer: Result<Counts, Refusal>) -> PlanAnswer {
        match answer {
            Ok(c) => PlanAnswer {
                refusal: 0,
                place: 0,
                end: 0,
                fibres: c.fibres,
                total: c.total,
                floor: c.floor,
            },
            Err(r) => PlanAnswer {
                refusal: u32::from(r.reason),
                place: r.place,
                end: r.end_told(),
                fibres: 0,
                total: 0,
                floor: 0,
            },
        }
    }
}

// Plans the circuits of a file on a line of so many links with so many wavelengths of a grid.
#[unsafe(no_mangle)]
pub extern "C" fn fibre_plan(
    links: usize,
    wavelengths: usize,
    grid: usize,
    circuits: &[u8],
    fibres: &mut [u8],
    assignments: &mut [u8],
    work: &mut [u8],
) -> PlanAnswer
    ensures { Exported (Outcome (line_of links wavelengths grid) circuits.now (areas fibres.old assignments.old work.old) (areas fibres.new assignments.new work.new)) result }
{
    let line = Line {
        links,
        wavelengths,
        grid,
    };
    let answer = planner::plan(line, circuits, fibres, assignments, work);
    PlanAnswer::from(answer)
}
