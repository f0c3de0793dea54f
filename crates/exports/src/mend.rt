// Mending for callers in C and Rust: the answer as a plain struct of numbers.
// The C interface has no `Option`, `Result` or struct of references: what is lent goes one by one, and a number that has no meaning is 0.
ghost use Rattle.std.specs.Prelude.{◌≡◌};
ghost use Rattle.mender.specs.Report.{lent_areas};
ghost use Rattle.mender.specs.Outcome.{Outcome};
ghost use Rattle.exports.specs.Exported.{line_of};
ghost use Rattle.exports.specs.MendExported.{flat_mend, MendExported};

use mender::Mended;
use records::Line;
use refusals::Refusal;

// Mended where `refusal` is 0, with the three numbers and how many lines the report has; else the refusal's number and place, which end is wrong, and zeros.
#[repr(C)]
#[derive(Clone, Copy, Debug, PartialEq, Eq)]
pub struct MendAnswer {
    pub refusal: u32,
    pub place: u32,
    pub end: u32,
    pub fibres: usize,
    pub total: usize,
    pub floor: usize,
    pub lines: usize,
}

impl From<Result<Mended, Refusal>> for MendAnswer {
    ghost from_gives = { λ answer flattened. flattened ≡ flat_mend answer };

    fn from(answer: Result<Mended, Refusal>) -> MendAnswer {
        match answer {
            Ok(Mended { counts, lines }) => MendAnswer {
                refusal: 0,
                place: 0,
                end: 0,
                fibres: counts.fibres,
                total: counts.total,
                floor: counts.floor,
                lines,
            },
            Err(r) => MendAnswer {
                refusal: u32::from(r.reason),
                place: r.place,
                end: r.end_told(),
                fibres: 0,
                total: 0,
                floor: 0,
                lines: 0,
            },
        }
    }
}

// Mends the assignments of the circuits of a file, on so many fibres, on a line of so many links with so many wavelengths of a grid.
#[unsafe(no_mangle)]
pub extern "C" fn fibre_mend(
    links: usize,
    wavelengths: usize,
    grid: usize,
    circuits: &[u8],
    old_fibres: usize,
    fibres: &mut [u8],
    assignments: &mut [u8],
    report: &mut [u8],
    work: &mut [u8],
) -> MendAnswer
    ensures { MendExported (Outcome (line_of links wavelengths grid) circuits.now old_fibres (lent_areas fibres.old assignments.old report.old work.old) (lent_areas fibres.new assignments.new report.new work.new)) result }
{
    let line = Line {
        links,
        wavelengths,
        grid,
    };
    let answer = mender::mend(
        line,
        circuits,
        old_fibres,
        fibres,
        assignments,
        report,
        work,
    );
    MendAnswer::from(answer)
}
