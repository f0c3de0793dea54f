// Who rides on a link: an index of circuit numbers by link, built from two files, and the question for one link.
#![tactic(auto)]

ghost use Rattle.std.specs.Prelude.{◌≡◌, ◌++◌, ◌+◌, ◌/◌, ◌≤◌, length};
ghost use Rattle.rows.specs.Accepted.{OnLine};
ghost use Rattle.riders.specs.Index.{stretch_at, riders_at, cells_for, Index};
ghost use Rattle.riders.specs.Outcome.{both_of, Outcome};

use columns::Columns;
use refusals::Refusal;

mod admit;
mod columns;
mod stretches;

// A part of the index: the cell where it starts, and how many cells it has.
#[derive(Clone, Copy, Debug, PartialEq, Eq)]
pub struct Stretch {
    pub start: usize,
    pub length: usize,
}

// Where the riders of a link stand in the index of a line of `links` links.
#[tactic(auto, unfolding(crate::specs::Index::stretch_at, crate::specs::Index::between))]
pub fn where_riders(links: usize, link: usize, index: &[u32]) -> Stretch
    ensures { result ≡ stretch_at links link index.now }
{
    if 1 <= link && link <= links && links < index.len() {
        let start = index[link - 1] as usize;
        let end = index[link] as usize;
        if start <= end && end <= index.len() {
            return Stretch {
                start,
                length: end - start,
            };
        }
    }
    // No riders are an empty stretch, as in the definition, so that a slice of it is empty.
    Stretch {
        start: 0,
        length: 0,
    }
}

// The riders of a link: the part of the index itself.
#[tactic(auto, using(crate::proofs::StretchLaws::stretch_within))]
pub fn riders_of(links: usize, link: usize, index: &[u32]) -> &[u32]
    ensures { result.now ≡ riders_at links link index.now }
{
    let found = where_riders(links, link, index);
    &index[found.start..found.start + found.length]
}

// Builds the index of two files that passed the tests.
fn build(links: usize, old: &[u8], new: &[u8], index: &mut [u32])
    requires { OnLine links (length old.now / 8 + length new.now / 8) (old.now ++ new.now) × (cells_for links (both_of old.now new.now) ≤ length index.old) }
    ensures { Index links (both_of old.now new.now) index.old index.new }
{
    let mut columns = Columns {
        numbers: [0; 2048],
        firsts: [0; 2048],
        lasts: [0; 2048],
        many: 0,
    };
    columns.sort_both(old, new);
    stretches::fill(links, &columns, index);
}

// The index of the circuits of two files on a line of `links` links. What is told: how many cells it has.
pub fn index_riders(
    links: usize,
    old: &[u8],
    new: &[u8],
    index: &mut [u32],
) -> Result<usize, Refusal>
    ensures { Outcome links old.now new.now index.old index.new result }
{
    let cells = admit::of_index(links, old, new, index.len())?;
    build(links, old, new, index);
    Ok(cells)
}
