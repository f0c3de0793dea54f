// The tests of a check, in their order: the first refusal that applies. Nothing is written.
ghost use Rattle.std.specs.Prelude.{◌≡◌, ◌/◌, length};
ghost use Rattle.refusals.specs.Table.{tested, verdict};
ghost use Rattle.checker.specs.Checked.{row16, list_rows, check_table};

use records::Line;
use refusals::{Reason, Refusal};

// 16: a list of `has` bytes is whole records, at most `limit` of them. What is found: how many.
fn whole_list(place: u32, limit: usize, has: usize) -> Result<usize, Refusal>
    ensures { result ≡ tested (row16 place limit has) (has / 8) }
{
    let k = has / 8;
    if has % 8 != 0 || limit < k {
        return Err(Refusal::at(Reason::PartList, place));
    }
    Ok(k)
}

// The two lists, by their lengths. What is found: how many assignments.
#[tactic(auto, unfolding(refusals::specs::Table::verdict, crate::specs::Checked::list_rows))]
fn of_lists(fibres: usize, assigns: usize) -> Result<usize, Refusal>
    ensures { result ≡ verdict (list_rows fibres assigns) (assigns / 8) }
{
    whole_list(1, 4096, fibres)?;
    whole_list(2, 2048, assigns)
}

// All tests, with the lengths of the two lists. What is found: how many circuits.
#[tactic(auto, unfolding(crate::specs::Checked::check_table, refusals::specs::Table::verdict), using(refusals::proofs::Chain::piece_gives, refusals::proofs::Chain::piece_leaves))]
pub fn of_check(
    line: Line,
    circuits: &[u8],
    fibres: usize,
    assigns: usize,
) -> Result<usize, Refusal>
    ensures { result ≡ verdict (check_table line circuits.now fibres assigns) (length circuits.now / 8) }
{
    let m = refusals::admit::of_circuits(line, circuits)?;
    of_lists(fibres, assigns)?;
    Ok(m)
}
