// What is wrong with a line that was not read. Lines and words go by their places in the whole text, as in the definitions: slices of it would be no plainer.
ghost use Rattle.std.specs.Prelude.{◌≡◌, ◌≤◌, length, not};
ghost use Rattle.entry_text.specs.Entries.{is_digit};
ghost use Rattle.entry_text.specs.Faults.{is_sign, is_mark, digits_to, word_fault, fault_from, line_fault, fault_at};

use crate::{numbering, words};

// No number where one is expected, a sign before it, a byte order mark, a word that is none, one too large, or a word too many.
#[derive(Clone, Copy, Debug, PartialEq, Eq)]
pub enum Fault {
    NumberMissing,
    Sign,
    Mark,
    NoNumber,
    TooLarge,
    WordTooMany,
}

// Whether a byte is + or -.
#[tactic(auto, unfolding(crate::specs::Faults::is_sign))]
fn is_sign(b: u8) -> bool
    ensures { result ≡ is_sign b }
{
    matches!(b, b'+' | b'-')
}

// Whether the word from i to before e begins with a byte order mark.
#[tactic(auto, unfolding(crate::specs::Faults::is_mark))]
fn is_mark(text: &[u8], i: usize, e: usize) -> bool
    requires { (i ≤ e) × (e ≤ length text.now) }
    ensures { result ≡ is_mark text.now i e }
{
    matches!(&text[i..e], [0xef, 0xbb, 0xbf, ..])
}

// Where the digits from `start` on end, before e.
fn digits_to(text: &[u8], start: usize, e: usize) -> usize
    requires { (start ≤ e) × (e ≤ length text.now) }
    ensures { result ≡ digits_to text.now start e }
{
    words::first_place(
        text,
        start,
        e,
        |b: u8|
            ensures { result ≡ not (is_digit b) }
        { !words::is_digit(b) },
    )
}

// What is wrong with the word from i to before e, which was not read.
#[tactic(auto, unfolding(crate::specs::Faults::word_fault))]
fn word_fault(text: &[u8], i: usize, e: usize) -> Fault
    requires { (i ≤ e) × (e ≤ length text.now) }
    ensures { result ≡ word_fault text.now i e }
{
    if e <= i {
        return Fault::NumberMissing;
    }
    if is_sign(text[i]) {
        return Fault::Sign;
    }
    if is_mark(text, i, e) {
        return Fault::Mark;
    }
    if e <= digits_to(text, i, e) {
        return Fault::TooLarge;
    }
    Fault::NoNumber
}

// What is wrong with the first word from i on, before e, which was not read.
#[tactic(auto, unfolding(crate::specs::Faults::fault_from, crate::specs::Entries::word_past))]
fn fault_from(text: &[u8], i: usize, e: usize) -> Fault
    requires { (i ≤ e) × (e ≤ length text.now) }
    ensures { result ≡ fault_from text.now i e }
{
    let a = words::word_from(text, i, e);
    let b = words::word_to(text, a, e);
    word_fault(text, a, b)
}

// What is wrong with the line from i to before e, which should have been numbers, of which the first is below `limit`.
#[tactic(auto, unfolding(crate::specs::Faults::line_fault))]
fn line_fault(text: &[u8], i: usize, e: usize, limit: u64) -> Fault
    requires { (i ≤ e) × (e ≤ length text.now) × (1 ≤ limit) × (limit ≤ 4294967296) }
    ensures { result ≡ line_fault text.now i e limit }
{
    if words::word_number(text, i, e, limit).is_none() {
        return fault_from(text, i, e);
    }
    let p = words::word_past(text, i, e);
    if words::word_number(text, p, e, 65536).is_none() {
        return fault_from(text, p, e);
    }
    let q = words::word_past(text, p, e);
    if words::word_number(text, q, e, 65536).is_none() {
        return fault_from(text, q, e);
    }
    Fault::WordTooMany
}

// What is wrong with the line of this number, counted from 1: with 1 expected as `n w` or `n w grid`, else as `number first last`.
#[tactic(auto, unfolding(crate::specs::Faults::fault_at))]
pub fn fault_at(text: &[u8], line: usize, expected: u32) -> Fault
    ensures { result ≡ fault_at text.now line expected }
{
    let i = numbering::line_start(text, line);
    let e = words::line_end(text, i);
    if expected == 1 {
        return line_fault(text, i, e, 65536);
    }
    line_fault(text, i, e, 4294967296)
}
