// Lines of the report, 12 bytes each. Until a circuit has its fibre and wavelength, its line holds, where `given` will stand, its place in the file.
// Records stand in lent bytes, so loops go over their places.
// The lent areas go one by one: a struct that holds them by reference makes clauses say `.entry.` of each field.
ghost use Rattle.std.specs.Prelude.{◌≡◌, List, ◌++◌, map, ℕ, ◌+◌, ◌*◌, ◌≤◌, ◌<◌, get_or, length};
ghost use Rattle.records.specs.Bytes.{cell};
ghost use Rattle.mender.specs.Report.{line_bytes, report_bytes};
ghost use Rattle.mender.specs.inner.Lines.{begun_line, begun_with, filled_in, filled_line, put_line};

use records::{AssignmentRecord, Circuit};

// A part of 12 bytes becomes the line, begun, of the circuit at place j: its number and what was found.
fn write_line(line: &mut [u8], found: AssignmentRecord, j: u16)
    requires { length line.old ≡ 12 }
    ensures { line.new ≡ line_bytes (begun_with found j) }
{
    records::put_record(line, 0, found);
    records::cells::put(line, 4, j);
    records::cells::put(line, 5, 0);
}

// Line t of the report begins: that of the circuit at place j.
pub fn begin_line(circuits: &[u8], assigns: &[u8], j: usize, t: usize, report: &mut [u8])
    requires { (j < 2048) × (t < 2048) × (8 * j + 8 ≤ length circuits.now) × (8 * j + 8 ≤ length assigns.now) × (12 * t + 12 ≤ length report.old) }
    ensures { report.new ≡ put_line report.old t (line_bytes (begun_line circuits.now assigns.now j)) }
{
    let c = records::record_at::<Circuit>(circuits, j);
    let was = records::record_at::<AssignmentRecord>(assigns, j);
    let found = AssignmentRecord {
        circuit: c.number,
        fibre: was.fibre,
        wavelength: was.wavelength,
    };
    write_line(&mut report[12 * t..12 * t + 12], found, j as u16);
}

// Line t is filled in: in place of the circuit's place, what its record gives.
fn fill_line(assigns: &[u8], t: usize, report: &mut [u8])
    requires { (t < 2048) × (12 * t + 12 ≤ length report.old) × (8 * cell report.old (6 * t + 4) + 8 ≤ length assigns.now) }
    ensures { report.new ≡ filled_in assigns.now t report.old }
{
    let k = 6 * t + 4;
    let j = usize::from(records::cells::get(report, k));
    let a = records::record_at::<AssignmentRecord>(assigns, j);
    records::cells::put(report, k, a.fibre);
    records::cells::put(report, k + 1, a.wavelength);
}

// The first k lines are filled in.
pub fn fill_lines(assigns: &[u8], k: usize, report: &mut [u8])
    requires few { k ≤ 2048 }
    requires begun { (s before js rest : List ℕ) × (length js ≡ k) × ((t : ℕ) → t < k → 8 * get_or js t 0 + 8 ≤ length assigns.now) × (report.old ≡ report_bytes (map (begun_line s before) js) ++ rest) }
    ensures { (s before js rest : List ℕ) → length js ≡ k → ((t : ℕ) → t < k → 8 * get_or js t 0 + 8 ≤ length assigns.now) → report.old ≡ report_bytes (map (begun_line s before) js) ++ rest → report.new ≡ report_bytes (map (filled_line s before assigns.now) js) ++ rest }
{
    for t in 0..k {
        fill_line(assigns, t, report);
    }
}
