// The text of the sheet, and the line of a check, in a lent buffer.
// It is written by crate `text`, since no clause says which bytes std's `write!` leaves in a slice.
#![tactic(auto)]

ghost use Rattle.std.specs.Prelude.{◌+◌, ◌*◌, ◌≤◌, length};
ghost use Rattle.sheet_text.specs.Text.{no_line, refusal_line, refusal_numbers, sheet_text, yes_line};
ghost use Rattle.text.specs.Wrote.{Wrote};

use refusals::Refusal;
use register::Counts;

mod fields;
mod lines;
mod lists;

// The one line of a refusal by its numbers, at the start of the buffer. What is told: its length.
#[tactic(auto, using(crate::proofs::Lengths::line_room), unfolding(crate::specs::Text::refusal_numbers))]
pub fn write_refusal(number: u32, place: u32, end: u32, out: &mut [u8]) -> usize
    requires { 80 ≤ length out.old }
    ensures { Wrote (refusal_numbers number place end) result out.old out.new }
{
    lines::write_line(b'R', &[number as usize, place as usize, end as usize], out)
}

// The one line of a refusal, at the start of the buffer. What is told: its length.
#[tactic(auto, unfolding(crate::specs::Text::refusal_line))]
pub fn write_refused(refusal: Refusal, out: &mut [u8]) -> usize
    requires { 80 ≤ length out.old }
    ensures { Wrote (refusal_line refusal) result out.old out.new }
{
    write_refusal(
        u32::from(refusal.reason),
        refusal.place,
        refusal.end_told(),
        out,
    )
}

// The one line of a plan that breaks no rule: its total length and the floor. What is told: how many bytes.
#[tactic(auto, using(crate::proofs::Lengths::line_room), unfolding(crate::specs::Text::yes_line))]
pub fn write_yes(total: usize, floor: usize, out: &mut [u8]) -> usize
    requires { 80 ≤ length out.old }
    ensures { Wrote (yes_line total floor) result out.old out.new }
{
    lines::write_line(b'Y', &[total, floor], out)
}

// The one line of a plan that breaks a rule: the first broken, and its place. What is told: how many bytes.
#[tactic(auto, using(crate::proofs::Lengths::line_room), unfolding(crate::specs::Text::no_line))]
pub fn write_no(rule: u32, place: u32, out: &mut [u8]) -> usize
    requires { 80 ≤ length out.old }
    ensures { Wrote (no_line rule place) result out.old out.new }
{
    lines::write_line(b'N', &[rule as usize, place as usize], out)
}

// The sheet of so many fibre records and m assignment records on a grid, at the start of the buffer. What is told: its length.
#[tactic(auto, using(crate::proofs::Lengths::line_room, text::proofs::Writing::then_part), unfolding(crate::specs::Text::sheet_text, crate::specs::Text::total_line))]
pub fn write_sheet(
    grid: usize,
    counts: Counts,
    m: usize,
    fibres: &[u8],
    assigns: &[u8],
    out: &mut [u8],
) -> usize
    requires lists { (8 * counts.fibres ≤ length fibres.now) × (8 * m ≤ length assigns.now) × (counts.fibres ≤ 4096) × (m ≤ 2048) }
    requires room { 32 * counts.fibres + 40 * m + 80 ≤ length out.old }
    ensures { Wrote (sheet_text grid counts.fibres m fibres.now assigns.now counts.total counts.floor) result out.old out.new }
{
    let f = lists::write_fibres(counts.fibres, fibres, out);
    let c = f + lists::write_circuits(grid, m, assigns, &mut out[f..]);
    let totals = [counts.fibres, counts.total, counts.floor];
    c + lines::write_line(b'T', &totals, &mut out[c..])
}
