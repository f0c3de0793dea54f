// What is printed for a text that a person typed.
ghost use Rattle.std.specs.Prelude.{◌≡◌, ◌/◌, ◌≤◌, length};
ghost use Rattle.std.specs.Option.{option_copied};
ghost use Rattle.refusals.specs.Table.{verdict, circuit_rows};
ghost use Rattle.text.specs.Wrote.{Wrote};
ghost use Rattle.prints.specs.Reads.{start_read, TextRead};
ghost use Rattle.prints.specs.Typed.{end_words, refusal_words, explained, typed_sheet, typed_text, typed};

use files::Start;
use records::Line;
use refusals::{End, Reason, Refusal};

// Which end is wrong, in words. What is told: how many bytes.
#[tactic(auto, unfolding(crate::specs::Typed::end_words, text::specs::Words::words, text::specs::Words::codes))]
fn write_end_words(end: Option<End>, out: &mut [u8]) -> usize
    requires { 64 ≤ length out.old }
    ensures { Wrote (end_words end) result out.old out.new }
{
    let words: &[u8] = match end {
        Some(End::FirstZero) => b"first link 0\n",
        Some(End::FirstPastLast) => b"first link past the last\n",
        _ => b"last link past the line\n",
    };
    text::write_words(words, out)
}

// A refusal on a grid in words. What is told: how many bytes.
#[tactic(auto, unfolding(crate::specs::Typed::refusal_words, text::specs::Words::words, text::specs::Words::codes))]
fn write_refusal_words(grid: usize, reason: Reason, end: Option<End>, out: &mut [u8]) -> usize
    requires { 64 ≤ length out.old }
    ensures { Wrote (refusal_words grid reason end) result out.old out.new }
{
    match reason {
        Reason::Links => text::write_words(b"not 1 to 512 links\n", out),
        Reason::Wavelengths => text::write_between(
            b"not 1 to ",
            grid::limit(grid),
            b" wavelengths\n",
            out,
        ),
        Reason::NumberZero => text::write_words(b"circuit number 0\n", out),
        Reason::WrongEnd => write_end_words(end, out),
        Reason::NumberTwice => text::write_words(b"a circuit number that stands twice\n", out),
        Reason::Grid => text::write_words(b"a grid that is neither 1 nor 2\n", out),
        _ => text::write_words(b"\n", out),
    }
}

// After the line of a refusal: the line of the text where it stands, and the refusal in words. What is told: how many bytes.
#[tactic(auto, using(entry_text::proofs::MessageLaws::line_room, crate::proofs::TypedLaws::words_room, text::proofs::Writing::then_part))]
fn write_explained(text: &[u8], line: Line, v: Result<usize, Refusal>, out: &mut [u8]) -> usize
    requires { (length text.now ≤ 1048576) × (128 ≤ length out.old) }
    ensures { Wrote (explained text.now line v) result out.old out.new }
{
    match v {
        Ok(_) => 0,
        Err(refusal) => {
            let l = entry_text::numbering::line_of_record(text, refusal.place as usize);
            let a = entry_text::messages::write_line_number(l, out);
            a + write_refusal_words(line.grid, refusal.reason, refusal.end, &mut out[a..])
        }
    }
}

// The sheet of circuit bytes on a line, or its refusal with the line of the text. What is told: how many bytes.
fn write_typed_sheet(text: &[u8], line: Line, circuits: &[u8], out: &mut [u8]) -> usize
    requires { (length text.now ≤ 1048576) × (147664 ≤ length out.old) }
    ensures { Wrote (typed_sheet text.now line circuits.now) result out.old out.new }
{
    let a = crate::write_sheet(line, circuits, &mut out[..147536]);
    let v = refusals::admit::of_circuits(line, circuits);
    a + write_explained(text, line, v, &mut out[a..])
}

// What is printed for a text, at the start of a buffer; the circuits are read into another, which has room for as many as the planner takes. What is told: how many bytes.
fn write_typed(text: &[u8], circuits: &mut [u8], out: &mut [u8]) -> usize
    requires { (length circuits.old ≡ 16384) × (147664 ≤ length out.old) }
    ensures { Wrote (typed_text text.now) result out.old out.new }
{
    let answer = entry_text::enter(text, circuits);
    let Ok(entry) = answer else {
        return entry_text::messages::write_message(text, answer, out);
    };
    let k = 8 * entry.circuits;
    let line = Line {
        links: usize::from(entry.header.n),
        wavelengths: usize::from(entry.header.w),
        grid: entry.header.grid.map_or(1, usize::from),
    };
    write_typed_sheet(text, line, &circuits[..k], out)
}

// What is printed, from the text as far as standard input can be read. What is told: how many bytes.
#[tactic(auto, unfolding(crate::specs::Typed::typed, text::specs::Words::words, text::specs::Words::codes))]
pub fn print_typed(text: Option<&[u8]>, circuits: &mut [u8], out: &mut [u8]) -> usize
    requires { (length circuits.old ≡ 16384) × (147664 ≤ length out.old) }
    ensures { Wrote (typed (option_copied text.entry)) result out.old out.new }
{
    match text {
        Some(text) => write_typed(text, circuits, out),
        None => text::write_words(b"standard input cannot be read\n", out),
    }
}

// The same, from the start of standard input, read into a buffer with room for more than the longest text.
#[tactic(auto, using(crate::proofs::Starts::held))]
pub fn print_typed_from_start(text: Option<Start>, circuits: &mut [u8], out: &mut [u8]) -> usize
    requires { TextRead text × ((length circuits.old ≡ 16384) × (147664 ≤ length out.old)) }
    ensures { Wrote (typed (start_read text.entry)) result out.old out.new }
{
    print_typed(crate::bytes_of(text), circuits, out)
}
