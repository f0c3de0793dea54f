// The tests of the planner, in their order: the first refusal that applies. Nothing is written.
ghost use Rattle.std.specs.Prelude.{◌≡◌, ◌/◌, ◌≤◌, length};
ghost use Rattle.refusals.specs.Table.{verdict, area_rows, plan_table};

use records::Line;
use refusals::Refusal;

// The lent areas, by their lengths, for m circuits on n links. What is found: how many circuits.
#[tactic(auto, unfolding(refusals::specs::Table::verdict, refusals::specs::Table::area_rows))]
fn of_areas(
    n: usize,
    m: usize,
    fibres: usize,
    assigns: usize,
    work: usize,
) -> Result<usize, Refusal>
    requires { (n ≤ 512) × (m ≤ 2048) }
    ensures { result ≡ verdict (area_rows n m fibres assigns work) m }
{
    refusals::fibre_room(fibres, m)?;
    refusals::assignment_room(assigns, m)?;
    refusals::work_room(work, n, m)?;
    Ok(m)
}

// All tests, with the lengths of the lent areas. What is found: how many circuits.
#[tactic(auto, unfolding(refusals::specs::Table::plan_table, refusals::specs::Table::verdict), using(refusals::proofs::Chain::piece_gives))]
pub fn of_plan(
    line: Line,
    circuits: &[u8],
    fibres: usize,
    assigns: usize,
    work: usize,
) -> Result<usize, Refusal>
    ensures { result ≡ verdict (plan_table line circuits.now fibres assigns work) (length circuits.now / 8) }
{
    let m = refusals::admit::of_circuits(line, circuits)?;
    of_areas(line.links, m, fibres, assigns, work)
}
