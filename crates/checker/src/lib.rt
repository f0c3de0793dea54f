// The check of a plan in records: the tests, then the eight rules.
// The lent areas go one by one: a struct that holds them by reference makes clauses say `.entry.` of each field.
#![tactic(auto)]

mod admit;
pub mod measures;
pub mod rules;

ghost use Rattle.std.specs.Prelude.{◌≡◌, ◌*◌, ◌≤◌, length};
ghost use Rattle.records.specs.Records.{circuits_in};
ghost use Rattle.rows.specs.Accepted.{Accepted};
ghost use Rattle.checker.specs.Checked.{fibres_in, assignments_in, found, checked};

use records::Line;
use refusals::Refusal;
use rules::Fault;

// Yes, with length and floor, or no, with the first broken rule and its place.
#[derive(Clone, Copy, Debug, PartialEq, Eq)]
pub enum Finding {
    Yes { length: usize, floor: usize },
    No { rule: u32, place: u32 },
}

// What is found of m circuits that passed the tests, k fibres and l assignments.
fn examine(
    line: Line,
    circuits: &[u8],
    fibres: &[u8],
    assigns: &[u8],
    m: usize,
    k: usize,
    l: usize,
) -> Finding
    requires accepted { Accepted line.links line.wavelengths m circuits.now }
    requires sizes { (8 * k ≤ length fibres.now) × (k ≤ 4096) × (8 * l ≤ length assigns.now) }
    ensures { result ≡ found line (circuits_in m circuits.now) (fibres_in k fibres.now) (assignments_in l assigns.now) }
{
    match rules::first_broken(line, circuits, fibres, assigns, m, k, l) {
        Some(Fault { rule, place }) => Finding::No { rule, place },
        None => Finding::Yes {
            length: measures::length_of(fibres, k),
            floor: measures::floor_of(circuits, line.links, line.wavelengths, m),
        },
    }
}

// Checks a plan, in records, of the circuits of a file on a line.
pub fn check_plan(
    line: Line,
    circuits: &[u8],
    fibres: &[u8],
    assigns: &[u8],
) -> Result<Finding, Refusal>
    ensures { result ≡ checked line circuits.now fibres.now assigns.now }
{
    let m = admit::of_check(line, circuits, fibres.len(), assigns.len())?;
    let k = fibres.len() / 8;
    let l = assigns.len() / 8;
    Ok(examine(line, circuits, fibres, assigns, m, k, l))
}
