// The sheet, row by row, in the whole work area, with the queue of waiting circuits in the list.
// The lent areas go one by one: a struct that holds them by reference makes clauses say `.entry.` of each field.
ghost use Rattle.std.specs.Prelude.{◌≡◌, ◌*◌, ◌<◌, ◌≤◌};
ghost use Rattle.method.specs.Sheet.{most};
ghost use Rattle.records.specs.Area.{lasts_in};
ghost use Rattle.records.specs.Bytes.{cells_of};
ghost use Rattle.records.specs.Records.{circuits_in};
ghost use Rattle.rows.specs.Accepted.{Accepted};
ghost use Rattle.rows.specs.inner.Area.{Paintable, PaintedLinks};
ghost use Rattle.rows.specs.inner.Colours.{AtRun};
ghost use Rattle.rows.specs.inner.Desk.{Desk, Waiting, Placeable, PlacedOnDesk, Stepped, RowFilled};
ghost use Rattle.rows.specs.inner.Sheeted.{DeskAfter};

use crate::colours::Run;
use crate::{choice, colours};
use queue::Queue;
use records::Circuit;

// The file that is planned: how many links its line has, how many circuits there are, and their records.
#[derive(Clone, Copy, Debug, PartialEq, Eq)]
pub struct File<'a> {
    pub links: usize,
    pub many: usize,
    pub circuits: &'a [u8],
}

// The links from `start` to before `past` get this last row.
fn paint_links(file: File, start: usize, past: usize, v: u16, work: &mut [u8])
    requires { Paintable file.links file.many start past work.old }
    ensures { PaintedLinks file.entry.links file.entry.many start past v work.old work.new }
{
    let n = file.links;
    colours::paint(&mut work[2 * n..4 * n], n, start, past, v);
}

// The circuit at place p of the list is placed in row k: it is out of the queue, and its links within the run are taken.
fn place(file: File, k: u16, p: usize, run: Run, work: &mut [u8], list: &mut [u8])
    requires desk { Desk file.links file.many file.circuits.now work.old list.old }
    requires placeable { Placeable file.links file.many p run list.old }
    ensures { PlacedOnDesk file.entry.links file.entry.many k p run file.entry.circuits.now work.old work.new list.old list.new }
{
    let j = usize::from(records::cells::get(list, 2 * file.many + p));
    let c = records::record_at::<Circuit>(file.circuits, j);
    let start = usize::from(c.first).max(run.from);
    let past = (usize::from(c.last) + 1).min(run.past);
    records::cells::put(list, p, 0);
    records::cells::put(work, 2 * file.links + j, k);
    paint_links(file, start, past, k, work);
}

// One step of row k, on the run that starts at l.
fn one_step(file: File, k: u16, l: usize, waiting: Queue, work: &mut [u8], list: &mut [u8]) -> Queue
    requires desk { Desk file.links file.many file.circuits.now work.old list.old }
    requires at_run { AtRun file.links k l (lasts_in file.links (cells_of work.old)) × Waiting file.links file.many file.circuits.now work.old list.old waiting }
    ensures { Stepped file.entry.links file.entry.many k file.entry.circuits.now work.old work.new list.new result }
{
    let n = file.links;
    let run = colours::run_at(&work[2 * n..4 * n], n, k, l);
    let p = choice::lowest_fit(file.many, list, waiting, run);
    if p < waiting.to {
        place(file, k, p, run, work, list);
        return Queue {
            many: waiting.many - 1,
            ..waiting
        };
    }
    paint_links(file, run.from, run.past, colours::BLUE, work);
    waiting
}

// Row k: a step, while a link is open. No link before the run of the last step is.
// How many steps there are is known only at the end, so the loop goes by the next open link.
fn fill_row(file: File, k: u16, waiting: Queue, work: &mut [u8], list: &mut [u8]) -> Queue
    requires desk { Desk file.links file.many file.circuits.now work.old list.old }
    requires le_k { ((1 ≤ k) × (k < 65535)) × Waiting file.links file.many file.circuits.now work.old list.old waiting }
    ensures { RowFilled file.entry.links file.entry.many k file.entry.circuits.now work.old work.new list.new result }
{
    let n = file.links;
    let mut waiting = waiting;
    let mut open = colours::first_open(&work[2 * n..4 * n], n, k, 1);
    while let Some(l) = open {
        waiting = one_step(file, k, l, waiting, work, list);
        open = colours::first_open(&work[2 * n..4 * n], n, k, l);
    }
    waiting
}

// All rows, to the last.
pub fn all_rows(file: File, w: usize, top: usize, work: &mut [u8], list: &mut [u8])
    requires accepted { Accepted file.links w file.many file.circuits.now × DeskAfter file.links file.many w 0 file.circuits.now work.old list.old }
    requires top_value { (top ≡ most file.links w (circuits_in file.many file.circuits.now)) × (top * w ≤ 65533) }
    ensures { DeskAfter file.entry.links file.entry.many w (top * w) file.entry.circuits.now work.new list.new }
{
    let mut waiting = queue::line_up(file.circuits, file.many, list);
    for k in 1..top * w + 1 {
        waiting = queue::shorten(file.many, list, waiting);
        waiting = fill_row(file, k as u16, waiting, work, list);
    }
}
