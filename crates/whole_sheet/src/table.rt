// The sheet, row by row, each step as the scope of work has it.
// The lent areas go one by one: a struct that holds them by reference makes clauses say `.entry.` of each field.
ghost use Rattle.std.specs.Prelude.{◌+◌, ◌-◌, ◌*◌, ◌<◌, ◌≤◌, ◌≡◌, length, take};
ghost use Rattle.records.specs.Bytes.{cells_of};
ghost use Rattle.method.specs.Sheet.{run_from};
ghost use Rattle.rows.specs.inner.Loads.{Below};
ghost use Rattle.rows.specs.inner.Loops.{Written};
ghost use Rattle.whole_sheet.specs.inner.Board.{Board, AtRun, BroughtTo, placed_state, Stepped, RowFilled};
ghost use Rattle.whole_sheet.specs.inner.Tables.{above_at, start_as, start_at, Sources, TableAfter, KeptBehind};

use crate::colours::Run;
use crate::{choice, colours};
use records::Circuit;
use register::Job;

// Circuit j is placed in row k: its links within the run become taken.
fn place(job: Job, k: u16, j: usize, run: Run, circuits: &[u8], work: &mut [u8], row: &mut [u8])
    requires { Board job.links job.circuits circuits.now work.old row.old × AtRun job.links row.old run × (j < job.circuits) }
    ensures { BroughtTo job.links job.circuits (placed_state job.links job.circuits k j circuits.now work.old row.old) work.old work.new row.new }
{
    let c = records::record_at::<Circuit>(circuits, j);
    records::cells::put(work, 2 * job.links + j, k);
    colours::take_links(row, run, c);
}

// One step of row k, on the run that starts at l. If none fits, every link of the run becomes blue.
fn one_step(job: Job, k: u16, l: usize, circuits: &[u8], work: &mut [u8], row: &mut [u8])
    requires { Board job.links job.circuits circuits.now work.old row.old × (l ≡ run_from job.links row.old) × (l ≤ job.links) }
    ensures { Stepped job.links job.circuits k circuits.now work.old row.old work.new row.new }
{
    let past = colours::first_closed(row, l);
    let run = Run { from: l, past };
    match choice::lowest_fit(job, run, circuits, work, row) {
        Some(j) => place(job, k, j, run, circuits, work, row),
        None => colours::turn_blue(row, run),
    }
}

// Row k: while open links are left, a step.
fn fill_row(job: Job, k: u16, circuits: &[u8], work: &mut [u8], row: &mut [u8])
    requires { Board job.links job.circuits circuits.now work.old row.old }
    ensures { RowFilled job.links job.circuits k circuits.now work.old row.old work.new row.new }
{
    while let Some(l) = colours::first_open(row) {
        one_step(job, k, l, circuits, work, row);
    }
}

// The colour of link i in the row above the one that starts at place a; above the first row no link is blue.
fn above(sheet: &[u8], n: usize, a: usize, i: usize) -> u8
    requires { (1 ≤ i) × (i ≤ n) × (a + i ≤ length sheet.now) }
    ensures { result ≡ above_at n a sheet.now i }
{
    if a < n {
        return colours::RED;
    }
    sheet[a + i - n - 1]
}

// The colour of a link as row k begins: red up to its last red row, blue if it was blue, else open.
fn starting(k: usize, reds: usize, was: u8) -> u8
    ensures { result ≡ start_as k reds was }
{
    if k <= reds {
        return colours::RED;
    }
    if was == colours::BLUE {
        return colours::BLUE;
    }
    colours::OPEN
}

// Row k begins.
fn begin_row(job: Job, top: usize, k: usize, work: &[u8], sheet: &mut [u8])
    requires { (1 ≤ k) × (k ≤ 2127) × (job.links ≤ 512) × (top * job.wavelengths ≤ 2127) × (2 * job.links ≤ length work.now) × Below top (take job.links (cells_of work.now)) × (job.links * (k - 1) + job.links ≤ length sheet.old) }
    ensures { Written (start_at job.links job.wavelengths top k (cells_of work.now) sheet.old) (job.links * (k - 1) + 1) (job.links * (k - 1) + (job.links + 1)) sheet.old sheet.new }
{
    let n = job.links;
    let a = n * (k - 1);
    for i in 1..n + 1 {
        let c = usize::from(records::cells::get(work, i - 1));
        let was = above(sheet, n, a, i);
        sheet[a + i - 1] = starting(k, (top - c) * job.wavelengths, was);
    }
}

// Row k, from the row above it.
fn one_row(job: Job, top: usize, k: usize, circuits: &[u8], work: &mut [u8], sheet: &mut [u8])
    requires sources { Sources job.links job.wavelengths job.circuits top circuits.now work.old sheet.old × (1 ≤ k) × (k ≤ top * job.wavelengths) }
    requires table_after { TableAfter job.links job.wavelengths job.circuits (k - 1) circuits.now work.old sheet.old }
    ensures { Sources job.links job.wavelengths job.circuits top circuits.now work.new sheet.new × TableAfter job.links job.wavelengths job.circuits k circuits.now work.new sheet.new × KeptBehind (job.links * k) sheet.old sheet.new }
{
    let n = job.links;
    begin_row(job, top, k, work, sheet);
    fill_row(
        job,
        k as u16,
        circuits,
        work,
        &mut sheet[n * (k - 1)..n * k],
    );
}

// All rows, to the last.
pub fn all_rows(job: Job, top: usize, circuits: &[u8], work: &mut [u8], sheet: &mut [u8])
    requires { Sources job.links job.wavelengths job.circuits top circuits.now work.old sheet.old × TableAfter job.links job.wavelengths job.circuits 0 circuits.now work.old sheet.old }
    ensures { Sources job.links job.wavelengths job.circuits top circuits.now work.new sheet.new × TableAfter job.links job.wavelengths job.circuits (top * job.wavelengths) circuits.now work.new sheet.new × KeptBehind (job.links * (top * job.wavelengths)) sheet.old sheet.new }
{
    for k in 1..top * job.wavelengths + 1 {
        one_row(job, top, k, circuits, work, sheet);
    }
}
