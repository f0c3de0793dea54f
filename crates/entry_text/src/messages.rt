// What is said of a text, at the start of a lent buffer.
// It is written by crate `text`, since no clause says which bytes std's `write!` leaves in a slice.
ghost use Rattle.std.specs.Prelude.{◌≤◌, length};
ghost use Rattle.text.specs.Wrote.{Wrote};
ghost use Rattle.entry_text.specs.Messages.{fault_words, expected_words, line_words, fault_message, full_message, wrong_message, count_message, message_by};

use crate::faults::Fault;
use crate::{Entry, Expected, Wrong, faults};

// A fault in words. What is told: how many bytes.
#[tactic(auto, unfolding(crate::specs::Messages::fault_words, text::specs::Words::words, text::specs::Words::codes))]
fn write_fault(fault: Fault, out: &mut [u8]) -> usize
    requires { 18 ≤ length out.old }
    ensures { Wrote (fault_words fault) result out.old out.new }
{
    match fault {
        Fault::NumberMissing => text::write_words(b"a number missing", out),
        Fault::Sign => text::write_words(b"a sign", out),
        Fault::Mark => text::write_words(b"a byte order mark", out),
        Fault::NoNumber => text::write_words(b"not a number", out),
        Fault::TooLarge => text::write_words(b"a number too large", out),
        Fault::WordTooMany => text::write_words(b"a word too many", out),
    }
}

// What a line should have been. What is told: how many bytes.
#[tactic(auto, unfolding(crate::specs::Messages::expected_words, text::specs::Words::words, text::specs::Words::codes))]
fn write_expected(expected: Expected, out: &mut [u8]) -> usize
    requires { 31 ≤ length out.old }
    ensures { Wrote (expected_words expected) result out.old out.new }
{
    match expected {
        Expected::HeaderLine => text::write_words(b" (expected: n w, or n w grid)\n", out),
        _ => text::write_words(b" (expected: number first last)\n", out),
    }
}

// Which line. What is told: how many bytes.
#[tactic(auto, unfolding(crate::specs::Messages::line_words, text::specs::Words::words, text::specs::Words::codes))]
pub fn write_line_number(line: usize, out: &mut [u8]) -> usize
    requires { 27 ≤ length out.old }
    ensures { Wrote (line_words line) result out.old out.new }
{
    text::write_between(b"line ", line, b": ", out)
}

// Which line was not read, its fault, and what it should have been. What is told: how many bytes.
#[tactic(auto, using(crate::proofs::MessageLaws::line_room, crate::proofs::MessageLaws::fault_room, crate::proofs::MessageLaws::expected_room, text::proofs::Writing::then_part), unfolding(crate::specs::Messages::fault_message))]
fn write_fault_line(text: &[u8], wrong: Wrong, out: &mut [u8]) -> usize
    requires { 76 ≤ length out.old }
    ensures { Wrote (fault_message text.now wrong.line wrong.expected) result out.old out.new }
{
    let fault = faults::fault_at(text, wrong.line, u32::from(wrong.expected));
    let a = write_line_number(wrong.line, out);
    let b = a + write_fault(fault, &mut out[a..]);
    b + write_expected(wrong.expected, &mut out[b..])
}

// The line of a circuit too many. What is told: how many bytes.
#[tactic(auto, using(crate::proofs::MessageLaws::line_room, text::proofs::Writing::then_part), unfolding(crate::specs::Messages::full_message, text::specs::Words::words, text::specs::Words::codes))]
fn write_full(line: usize, out: &mut [u8]) -> usize
    requires { 76 ≤ length out.old }
    ensures { Wrote (full_message line) result out.old out.new }
{
    let a = write_line_number(line, out);
    a + text::write_words(b"more than 2048 circuits\n", &mut out[a..])
}

// What is said of a text that is wrong. What is told: how many bytes.
#[tactic(auto, unfolding(crate::specs::Messages::wrong_message, text::specs::Words::words, text::specs::Words::codes))]
fn write_wrong(text: &[u8], wrong: Wrong, out: &mut [u8]) -> usize
    requires { 76 ≤ length out.old }
    ensures { Wrote (wrong_message text.now wrong.line wrong.expected) result out.old out.new }
{
    match wrong.expected {
        Expected::NoMoreCircuits => write_full(wrong.line, out),
        Expected::ShorterText => text::write_words(b"a text of more than 1048576 bytes\n", out),
        _ => write_fault_line(text, wrong, out),
    }
}

// How many circuits there are. What is told: how many bytes.
#[tactic(auto, unfolding(crate::specs::Messages::count_message, text::specs::Words::words, text::specs::Words::codes))]
fn write_count(many: usize, out: &mut [u8]) -> usize
    requires { 76 ≤ length out.old }
    ensures { Wrote (count_message many) result out.old out.new }
{
    text::write_between(b"circuits: ", many, b"\n", out)
}

// What is said of a text, by the answer for it. What is told: how many bytes.
#[tactic(auto, unfolding(crate::specs::Messages::message_by))]
pub fn write_message(text: &[u8], answer: Result<Entry, Wrong>, out: &mut [u8]) -> usize
    requires { 76 ≤ length out.old }
    ensures { Wrote (message_by text.now answer) result out.old out.new }
{
    match answer {
        Ok(entry) => write_count(entry.circuits, out),
        Err(wrong) => write_wrong(text, wrong, out),
    }
}
