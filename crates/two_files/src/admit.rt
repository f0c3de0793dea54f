// The tests of two files in their order, a chain for each piece of a table: the first refusal that applies. Nothing is written.
ghost use Rattle.std.specs.Prelude.{◌≡◌, ◌+◌, ◌*◌, ◌/◌, ◌≤◌, length};
ghost use Rattle.refusals.specs.Table.{verdict};
ghost use Rattle.two_files.specs.Rows.{two_file_rows, two_record_rows};

use refusals::Refusal;

// The bytes of both files. What is found: how many circuits there are in all.
#[tactic(auto, unfolding(refusals::specs::Table::verdict, crate::specs::Rows::two_file_rows))]
pub fn of_files(old: &[u8], new: &[u8]) -> Result<usize, Refusal>
    ensures { result ≡ verdict (two_file_rows old.now new.now) (length old.now / 8 + length new.now / 8) }
{
    let k = refusals::whole(old)?;
    let m = refusals::whole(new)?;
    refusals::few(k + m)
}

// The records of k old and m new circuits, on a line of n links. What is found: how many there are in all.
#[tactic(auto, unfolding(refusals::specs::Table::verdict, crate::specs::Rows::two_record_rows))]
pub fn of_records(n: usize, old: &[u8], k: usize, new: &[u8], m: usize) -> Result<usize, Refusal>
    requires { (8 * k ≡ length old.now) × (8 * m ≤ length new.now) × (k + m ≤ 2048) }
    ensures { result ≡ verdict (two_record_rows n k m old.now new.now) (k + m) }
{
    crate::numbered(old, k, new, m)?;
    crate::on_line(old, k, new, m, n)?;
    refusals::unlike(old, k)?;
    crate::unlike_new(new, m, k)?;
    Ok(k + m)
}
