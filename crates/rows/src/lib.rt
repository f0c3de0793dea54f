// Phase one in the lent work area: loads, c(i), M, and the sheet row by row.
// The work area, seen as 2-byte cells: n needs c(i), n last rows of links, m rows of circuits (0 while a circuit waits), m spare.
#![tactic(auto)]

mod choice;
mod colours;
pub mod loads;
mod sheet;

ghost use Rattle.std.specs.Prelude.{◌≡◌, ◌+◌, ◌*◌, length};
ghost use Rattle.method.specs.Sheet.{most};
ghost use Rattle.records.specs.Records.{circuits_in};
ghost use Rattle.rows.specs.Accepted.{Accepted};
ghost use Rattle.rows.specs.Filled.{Filled};
ghost use Rattle.rows.specs.inner.Sheeted.{Prepared};

use crate::sheet::File;

// Everything is zeroed, c(i) of each link is counted, and its last red row follows; M is handed back.
fn prepare(n: usize, m: usize, w: usize, circuits: &[u8], work: &mut [u8]) -> usize
    requires accepted { Accepted n w m circuits.now }
    requires work_len { length work.old ≡ 4 * n + 4 * m }
    ensures { Prepared n m w circuits.now work.new result }
{
    work.fill(0);
    let most = usize::from(loads::count_needs(circuits, m, &mut work[..2 * n], n, w));
    loads::last_reds(&mut work[..4 * n], n, w, most);
    most
}

// Phase one: c(i), and the sheet row by row, from whatever the work area and the list hold; M is handed back. The list is lent for the queue of waiting circuits.
pub fn fill_sheet(
    n: usize,
    w: usize,
    m: usize,
    circuits: &[u8],
    work: &mut [u8],
    list: &mut [u8],
) -> usize
    requires accepted { Accepted n w m circuits.now }
    requires work_len { (length work.old ≡ 4 * n + 4 * m) × (length list.old ≡ 8 * m) }
    ensures { (result ≡ most n w (circuits_in m circuits.now)) × Filled n w m circuits.now work.new × (length list.new ≡ 8 * m) }
{
    let most = prepare(n, m, w, circuits, work);
    let file = File {
        links: n,
        many: m,
        circuits,
    };
    sheet::all_rows(file, w, most, work, list);
    most
}
