// What the programs print, from what they read.
// The lent areas go one by one: a struct that holds them by reference makes clauses say `.entry.` of each field.
#![tactic(auto)]

ghost use Rattle.std.specs.Prelude.{◌≡◌, ◌≤◌, length, IfSome};
ghost use Rattle.std.specs.Option.{option_copied};
ghost use Rattle.text.specs.Wrote.{Wrote};
ghost use Rattle.prints.specs.Reads.{AtMost, SheetRead, start_read};
ghost use Rattle.prints.specs.Sheets.{sheet_of, unread, printed};
ghost use Rattle.prints.specs.inner.Lent.{answer_text, Held};

use files::Start;
use records::Line;
use refusals::{Reason, Refusal};
use register::Counts;

pub mod adding;
pub mod checks;
pub mod entering;
pub mod keeping;
#[cfg(test)]
mod tests;
pub mod typed;

// The text of an answer on a grid, with m circuits and the two lists as the planner left them, at the start of a buffer. What is told: its length.
fn write_answer(
    grid: usize,
    answer: Result<Counts, Refusal>,
    m: usize,
    fibres: &[u8],
    assigns: &[u8],
    out: &mut [u8],
) -> usize
    requires { Held answer m fibres.now assigns.now (length out.old) }
    ensures { Wrote (answer_text grid answer m fibres.now assigns.now) result out.old out.new }
{
    match answer {
        Ok(c) => sheet_text::write_sheet(grid, c, m, fibres, assigns, out),
        Err(refusal) => sheet_text::write_refused(refusal, out),
    }
}

// The text of the sheet of circuit bytes on a line, at the start of a buffer. What is told: its length.
pub fn write_sheet(line: Line, circuits: &[u8], out: &mut [u8]) -> usize
    requires { 147536 ≤ length out.old }
    ensures { Wrote (sheet_of line circuits.now) result out.old out.new }
{
    let mut fibres = [0u8; 16384];
    let mut assigns = [0u8; 16384];
    keeping::keep_plan(line, circuits, &mut fibres, &mut assigns, out).text
}

// The refusal of a file that cannot be read, at the start of a buffer. What is told: its length.
fn write_unread(out: &mut [u8]) -> usize
    requires { 80 ≤ length out.old }
    ensures { Wrote unread result out.old out.new }
{
    sheet_text::write_refused(Refusal::at_large(Reason::Unread), out)
}

// The bytes of a file, as far as it can be read.
fn bytes_of<'a>(got: Option<Start<'a>>) -> Option<&'a [u8]>
    requires { IfSome got (λ s. s.read ≤ length s.buffer.now) }
    ensures { option_copied result ≡ start_read got.entry }
{
    match got {
        Some(start) => Some(&start.buffer[..start.read]),
        None => None,
    }
}

// What the sheet program prints, at the start of a buffer, from the bytes of its two files as far as they can be read. What is told: its length.
#[tactic(auto, using(crate::proofs::Printing::line_printed), unfolding(crate::specs::Sheets::printed))]
pub fn print_sheet(line: Option<&[u8]>, circuits: Option<&[u8]>, out: &mut [u8]) -> usize
    requires { AtMost 16392 (option_copied circuits) × (147536 ≤ length out.old) }
    ensures { Wrote (printed (option_copied line.entry) (option_copied circuits.entry)) result out.old out.new }
{
    let (Some(line), Some(circuits)) = (line.and_then(records::line_in), circuits) else {
        return write_unread(out);
    };
    write_sheet(line, circuits, out)
}

// The same, from the starts of its two files, each read into a buffer with room for more than counts.
#[tactic(auto, using(crate::proofs::Starts::held, crate::proofs::Starts::at_most))]
pub fn print_sheet_from_starts(
    line: Option<Start>,
    circuits: Option<Start>,
    out: &mut [u8],
) -> usize
    requires { SheetRead line circuits × (147536 ≤ length out.old) }
    ensures { Wrote (printed (start_read line.entry) (start_read circuits.entry)) result out.old out.new }
{
    print_sheet(bytes_of(line), bytes_of(circuits), out)
}
