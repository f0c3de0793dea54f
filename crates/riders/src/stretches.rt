// The index, link by link: of the circuits by rising number, those that use the link.
ghost use Rattle.std.specs.Prelude.{◌≡◌, ◌+◌, ◌≤◌, length};
ghost use Rattle.basics.specs.Tools.{count};
ghost use Rattle.method.specs.Line.{Lies};
ghost use Rattle.riders.specs.Index.{cells_for, Index};
ghost use Rattle.riders.specs.inner.Picks.{rows, Rises, meets, Picked, Near, near_to, listed, number_in, Stretched};

use crate::columns::Columns;

// A shortlist: its first `many` places are rows of the columns. No heap: a list is an array and how much of it is used. It is never copied or compared.
#[derive(Drop)]
pub struct Shortlist {
    pub places: [u16; 2048],
    pub many: usize,
}

impl Shortlist {
    // The rows that use a link of a to e, rising. The loop has no branch, so that the machine does many rows at once.
    fn pick(&mut self, columns: &Columns, a: usize, e: usize)
        ensures { Picked (meets a e columns.now) columns.now.many self.new.many self.new.places }
    {
        let mut many: usize = 0;
        for p in 0..columns.many {
            self.places[many] = p as u16;
            many += usize::from(columns.meets(p, a, e));
        }
        self.many = many;
    }

    // From the link before it on to a link: where the link begins a block of 16, the shortlist of the block is made.
    fn go_on(&mut self, columns: &Columns, link: usize)
        requires link_value { (1 ≤ link) × (link ≤ 512) }
        requires near { Near columns.now link (near_to link) self.old }
        ensures { Near columns.now link (near_to (link + 1)) self.new }
    {
        if link % 16 == 1 {
            self.pick(columns, link, link + 15);
        }
    }
}

// The numbers of those circuits of a shortlist that use a link, from cell `at` on. What is told: the cell after them.
fn put_stretch(
    columns: &Columns,
    near: &Shortlist,
    link: usize,
    index: &mut [u32],
    at: usize,
) -> usize
    requires near { Near columns.now link (near_to (link + 1)) near.now }
    requires room { at + count (listed link columns.now near.now) near.now.many ≤ length index.old }
    ensures { Stretched (listed link columns.now near.now) (number_in columns.now near.now) near.now.many at index.old result index.new }
{
    let mut end = at;
    for q in 0..near.many {
        let p = usize::from(near.places[q]);
        if columns.meets(p, link, link) {
            index[end] = columns.numbers[p];
            end += 1;
        }
    }
    end
}

// The index of circuits that stand in columns by rising number: the first start, and for each link its numbers and the start of the next.
#[tactic(auto, using(crate::proofs::StartLaws::starts_in))]
pub fn fill(links: usize, columns: &Columns, index: &mut [u32])
    requires links_value { links ≤ 512 }
    requires rises { Rises columns.now × Lies links (rows columns.now) × (cells_for links (rows columns.now) ≤ length index.old) }
    ensures { Index links (rows columns.now) index.old index.new }
{
    let mut near = Shortlist {
        places: [0; 2048],
        many: 0,
    };
    let mut at = links + 1;
    index[0] = at as u32;
    for link in 1..links + 1 {
        near.go_on(columns, link);
        at = put_stretch(columns, &near, link, index, at);
        index[link] = at as u32;
    }
}
