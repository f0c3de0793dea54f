// The tests of an index, in their order: the first refusal that applies. Nothing is written.
// Records stand in lent bytes, so loops go over their places.
ghost use Rattle.std.specs.Prelude.{◌≡◌, ◌+◌, ◌*◌, ◌/◌, ◌≤◌, length};
ghost use Rattle.basics.specs.Tools.{sum};
ghost use Rattle.records.specs.Records.{circuits_of};
ghost use Rattle.method.specs.Line.{Lies};
ghost use Rattle.method.specs.Sheet.{load};
ghost use Rattle.refusals.specs.Table.{tested, verdict};
ghost use Rattle.riders.specs.Index.{cells_for};
ghost use Rattle.riders.specs.Outcome.{both_of, row15, index_table};

use records::Circuit;
use refusals::{Reason, Refusal};

// How many links the circuits of a file use, added up.
#[tactic(auto, using(crate::proofs::LoadLaws::sum_to_none))]
fn spans(circuits: &[u8], links: usize) -> usize
    requires { (length circuits.now / 8 ≤ 2048) × (links ≤ 512) × Lies links (circuits_of circuits.now) }
    ensures { (result ≡ sum (load (circuits_of circuits.now)) links) × (result ≤ 512 * (length circuits.now / 8)) }
{
    let mut all: usize = 0;
    for j in 0..circuits.len() / 8 {
        let c = records::record_at::<Circuit>(circuits, j);
        all += usize::from(c.last - c.first) + 1;
    }
    all
}

// How many cells the index of two files has.
fn cells_for(links: usize, old: &[u8], new: &[u8]) -> usize
    requires files { (8 * (length old.now / 8) ≡ length old.now) × (length old.now / 8 + length new.now / 8 ≤ 2048) × (links ≤ 512) }
    requires lie { Lies links (circuits_of old.now) × Lies links (circuits_of new.now) }
    ensures { result ≡ cells_for links (both_of old.now new.now) }
{
    links + 1 + (spans(old, links) + spans(new, links))
}

// 15: the index buffer has the cells that are needed. What is found: how many those are.
fn index_room(has: usize, needed: usize) -> Result<usize, Refusal>
    ensures { result ≡ tested (row15 needed has) needed }
{
    if has < needed {
        return Err(Refusal::at_large(Reason::IndexRoom));
    }
    Ok(needed)
}

// All tests, with the length of the index buffer. What is found: how many cells the index has.
#[tactic(auto, unfolding(refusals::specs::Table::verdict, crate::specs::Outcome::index_table), using(refusals::proofs::Chain::piece_gives, refusals::proofs::Chain::piece_leaves, two_files::proofs::Told::files_old, two_files::proofs::Told::files_new, two_files::proofs::Told::files_room, two_files::proofs::Told::files_few))]
pub fn of_index(links: usize, old: &[u8], new: &[u8], has: usize) -> Result<usize, Refusal>
    ensures { result ≡ verdict (index_table links old.now new.now has) (cells_for links (both_of old.now new.now)) }
{
    let k = old.len() / 8;
    let m = new.len() / 8;
    two_files::admit::of_files(old, new)?;
    refusals::line(links, 512)?;
    two_files::admit::of_records(links, old, k, new, m)?;
    two_files::unlike_old(old, k, new, m)?;
    index_room(has, cells_for(links, old, new))
}
