// The check for callers in C and Rust: the finding as a plain struct of numbers.
// The C interface has no `Option`, `Result` or struct of references: what is lent goes one by one, and a number that has no meaning is 0.
ghost use Rattle.std.specs.Prelude.{◌≡◌};
ghost use Rattle.exports.specs.Exported.{line_of};
ghost use Rattle.exports.specs.CheckExported.{flat_finding, CheckExported};

use checker::Finding;
use records::Line;
use refusals::Refusal;

// Yes where `refusal` and `rule` are 0, with length and floor; no where only `refusal` is, with the first broken rule and its place; else the refusal's number and place, which end is wrong, and zeros.
#[repr(C)]
#[derive(Clone, Copy, Debug, PartialEq, Eq)]
pub struct CheckAnswer {
    pub refusal: u32,
    pub place: u32,
    pub end: u32,
    pub rule: u32,
    pub length: usize,
    pub floor: usize,
}

impl From<Result<Finding, Refusal>> for CheckAnswer {
    ghost from_gives = { λ finding flattened. flattened ≡ flat_finding finding };

    fn from(finding: Result<Finding, Refusal>) -> CheckAnswer {
        match finding {
            Ok(Finding::Yes { length, floor }) => CheckAnswer {
                refusal: 0,
                place: 0,
                end: 0,
                rule: 0,
                length,
                floor,
            },
            Ok(Finding::No { rule, place }) => CheckAnswer {
                refusal: 0,
                place,
                end: 0,
                rule,
                length: 0,
                floor: 0,
            },
            Err(r) => CheckAnswer {
                refusal: u32::from(r.reason),
                place: r.place,
                end: r.end_told(),
                rule: 0,
                length: 0,
                floor: 0,
            },
        }
    }
}

// Checks a plan, in records, of the circuits of a file on a line of so many links with so many wavelengths of a grid. Nothing is written.
#[unsafe(no_mangle)]
pub extern "C" fn fibre_check(
    links: usize,
    wavelengths: usize,
    grid: usize,
    circuits: &[u8],
    fibres: &[u8],
    assignments: &[u8],
) -> CheckAnswer
    ensures { CheckExported (line_of links wavelengths grid) circuits.now fibres.now assignments.now result }
{
    let line = Line {
        links,
        wavelengths,
        grid,
    };
    let finding = checker::check_plan(line, circuits, fibres, assignments);
    CheckAnswer::from(finding)
}
