// The tests in their order, a chain for each piece of a table: the first refusal that applies. Nothing is written.
ghost use Rattle.std.specs.Prelude.{◌≡◌, ◌*◌, ◌/◌, ◌≤◌, length};
ghost use Rattle.refusals.specs.Table.{verdict, file_rows, line_rows, record_rows, circuit_rows};

use crate::Refusal;
use records::Line;

// The circuit bytes. What is found: how many circuits.
#[tactic(auto, unfolding(crate::specs::Table::verdict, crate::specs::Table::file_rows))]
pub fn of_file(circuits: &[u8]) -> Result<usize, Refusal>
    ensures { result ≡ verdict (file_rows circuits.now) (length circuits.now / 8) }
{
    let m = crate::whole(circuits)?;
    crate::few(m)
}

// The line. What is found: how many links.
#[tactic(auto, unfolding(crate::specs::Table::verdict, crate::specs::Table::line_rows))]
pub fn of_line(line: Line) -> Result<usize, Refusal>
    ensures { result ≡ verdict (line_rows line) line.links }
{
    let n = crate::line(line.links, 512)?;
    crate::known_grid(line.grid)?;
    crate::waves(line.wavelengths, line.grid)?;
    Ok(n)
}

// The records of m circuits, on a line of n links. What is found: how many circuits.
#[tactic(auto, unfolding(crate::specs::Table::verdict, crate::specs::Table::record_rows))]
pub fn of_records(n: usize, m: usize, circuits: &[u8]) -> Result<usize, Refusal>
    requires { (8 * m ≤ length circuits.now) × (m ≤ 2048) }
    ensures { result ≡ verdict (record_rows n m circuits.now) m }
{
    crate::numbered(circuits, m)?;
    crate::on_line(circuits, m, n)?;
    crate::unlike(circuits, m)
}

// Tests 1 to 7, with 12 before 4: the circuits of a file on a line. What is found: how many circuits.
#[tactic(auto, unfolding(crate::specs::Table::circuit_rows, crate::specs::Table::verdict), using(crate::proofs::Chain::piece_found, crate::proofs::Chain::piece_gives, crate::proofs::Chain::piece_leaves, crate::proofs::Chain::file_whole, crate::proofs::Chain::file_few))]
pub fn of_circuits(line: Line, circuits: &[u8]) -> Result<usize, Refusal>
    ensures { result ≡ verdict (circuit_rows line circuits.now) (length circuits.now / 8) }
{
    let m = of_file(circuits)?;
    of_line(line)?;
    of_records(line.links, m, circuits)?;
    Ok(m)
}
