// One row of the sheet: a byte a link, link i at place i - 1.
// Links are counted from 1: loops over their numbers say it as the definitions do, where iterators would shift each place.
ghost use Rattle.std.specs.Prelude.{suc, ◌+◌, ◌-◌, ◌≤◌, ◌<◌, ◌&&◌, cond, ◌≡◌, length};
ghost use Rattle.basics.specs.Tools.{every};
ghost use Rattle.method.specs.Line.{uses};
ghost use Rattle.method.specs.Sheet.{blue, taken, fits, paint, run_from, run_past};
ghost use Rattle.rows.specs.inner.Colours.{between};
ghost use Rattle.whole_sheet.specs.inner.Board.{AtRun, FirstOpen, light};

use records::Circuit;

// The colours, as the bytes of the lent sheet have them; no link is open as a row ends.
pub const RED: u8 = 0;

pub const BLUE: u8 = 1;

pub const TAKEN: u8 = 2;

pub const OPEN: u8 = 3;

// A run of open links, from `from` to before `past`.
#[derive(Clone, Copy, Debug, PartialEq, Eq)]
pub struct Run {
    pub from: usize,
    pub past: usize,
}

// Whether a circuit uses link i.
#[tactic(auto, unfolding(method::specs::Line::uses))]
pub fn is_used(c: Circuit, i: usize) -> bool
    ensures { result ≡ uses c i }
{
    usize::from(c.first) <= i && i <= usize::from(c.last)
}

// The first open link, if there is one.
pub fn first_open(row: &[u8]) -> Option<usize>
    requires { length row.now ≤ 512 }
    ensures { FirstOpen (length row.now) row.now result }
{
    let n = row.len();
    for i in 1..n + 1 {
        if row[i - 1] == OPEN {
            return Some(i);
        }
    }
    None
}

// The first link from the run's first on that is not open, or the one after the last: a run ends before it.
pub fn first_closed(row: &[u8], from: usize) -> usize
    requires { (length row.now ≤ 512) × (from ≡ run_from (length row.now) row.now) × (from ≤ length row.now) }
    ensures { result ≡ run_past (length row.now) row.now }
{
    let n = row.len();
    for i in from..n + 1 {
        if row[i - 1] != OPEN {
            return i;
        }
    }
    n + 1
}

// Whether link i is in the run or blue.
#[tactic(auto, unfolding(crate::specs::inner::Board::light), using(rows::proofs::Written::at_get))]
fn is_light(row: &[u8], run: Run, i: usize) -> bool
    requires { (1 ≤ i) × (i ≤ length row.now) }
    ensures { result ≡ light run row.now i }
{
    run.from <= i && i < run.past || row[i - 1] == BLUE
}

// Whether each link from `first` to `last` is in the run or blue.
fn all_light(row: &[u8], run: Run, first: usize, last: usize) -> bool
    requires { (1 ≤ first) × (last ≤ length row.now) × (last ≤ 512) }
    ensures { result ≡ every (light run row.now) first (suc last - first) }
{
    for i in first..last + 1 {
        if !is_light(row, run, i) {
            return false;
        }
    }
    true
}

// A circuit fits if it uses a link of the run and each of its links is in the run or blue.
pub fn does_fit(row: &[u8], run: Run, c: Circuit) -> bool
    requires at_run { (length row.now ≤ 512) × AtRun (length row.now) row.now run }
    requires lies { (1 ≤ c.first) × (c.last ≤ length row.now) }
    ensures { result ≡ fits (length row.now) row.now c }
{
    let first = usize::from(c.first);
    let last = usize::from(c.last);
    run.from <= last && first < run.past && all_light(row, run, first, last)
}

// The links of the run become blue.
pub fn turn_blue(row: &mut [u8], run: Run)
    requires { (length row.old ≤ 512) × (1 ≤ run.from) × (run.past ≤ length row.old + 1) }
    ensures { row.new ≡ paint (length row.old) (between run.from run.past) blue row.old }
{
    for i in run.from..run.past {
        row[i - 1] = BLUE;
    }
}

// Taken if a circuit uses link i, and else as it was.
fn taken_or(c: Circuit, i: usize, was: u8) -> u8
    ensures { result ≡ cond (uses c i) taken was }
{
    if is_used(c, i) {
        return TAKEN;
    }
    was
}

// A circuit's links within the run become taken.
pub fn take_links(row: &mut [u8], run: Run, c: Circuit)
    requires { (length row.old ≤ 512) × (1 ≤ run.from) × (run.past ≤ length row.old + 1) }
    ensures { row.new ≡ paint (length row.old) (λ x. between run.from run.past x && uses c x) taken row.old }
{
    for i in run.from..run.past {
        row[i - 1] = taken_or(c, i, row[i - 1]);
    }
}
