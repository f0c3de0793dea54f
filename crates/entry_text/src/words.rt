// Words and numbers in a text. A word goes by its place in the whole text, as in the definitions: slices of it would be no plainer.
// What is told where there is none is the end, as in the definitions, since callers go on from there.
ghost use Rattle.std.specs.Prelude.{ℕ, ◌≡◌, ◌-◌, ◌≤◌, ◌<◌, length, true, false, not, eqb};
ghost use Rattle.entry_text.specs.Entries.{byte, is_space, is_digit, line_end, word_from, word_to, spelt, below, numeral_in, word_number, word_past};

// Whether a byte stands between words.
#[tactic(auto, unfolding(crate::specs::Entries::is_space))]
fn is_space(b: u8) -> bool
    ensures { result ≡ is_space b }
{
    matches!(b, b' ' | b'\t' | b'\r')
}

// Whether a byte is a digit.
#[tactic(auto, unfolding(crate::specs::Entries::is_digit))]
pub fn is_digit(b: u8) -> bool
    ensures { result ≡ is_digit b }
{
    matches!(b, b'0'..=b'9')
}

// The first place from `start` on, before e, whose byte passes, or e.
pub fn first_place<F: Fn(u8) -> bool>(text: &[u8], start: usize, e: usize, passes: F) -> usize
    requires within { (start ≤ e) × (e ≤ length text.now) }
    requires calls { F.IsAlwaysCallable passes }
    ensures bounds { (start ≤ result) × (result ≤ e) }
    ensures before { (k : ℕ) → start ≤ k → k < result → F.post passes (byte text.now k) false }
    ensures here { result < e → F.post passes (byte text.now result) true }
{
    for i in start..e {
        if passes(text[i]) {
            return i;
        }
    }
    e
}

// Where the line that starts at `start` ends.
pub fn line_end(text: &[u8], start: usize) -> usize
    requires { start ≤ length text.now }
    ensures { (result ≡ line_end text.now start) × (start ≤ result) × (result ≤ length text.now) }
{
    first_place(
        text,
        start,
        text.len(),
        |b: u8|
            ensures { result ≡ eqb b 10 }
        { b == b'\n' },
    )
}

// Where the first word from `start` on begins, or e.
// Not inlined: among the loops of a large function this one keeps its counters in memory, and many spaces take half as long again.
#[inline(never)]
pub fn word_from(text: &[u8], start: usize, e: usize) -> usize
    requires { (start ≤ e) × (e ≤ length text.now) }
    ensures { (result ≡ word_from text.now start e) × (start ≤ result) × (result ≤ e) }
{
    first_place(
        text,
        start,
        e,
        |b: u8|
            ensures { result ≡ not (is_space b) }
        { !is_space(b) },
    )
}

// Where the word that begins at `start` ends.
// Not inlined, for the same reason.
#[inline(never)]
pub fn word_to(text: &[u8], start: usize, e: usize) -> usize
    requires { (start ≤ e) × (e ≤ length text.now) }
    ensures { (result ≡ word_to text.now start e) × (start ≤ result) × (result ≤ e) }
{
    first_place(text, start, e, is_space)
}

// The number that the bytes from `start` to before e spell, if they are digits and it is below the limit.
fn spell(text: &[u8], start: usize, e: usize, limit: u64) -> Option<u64>
    requires { (start ≤ e) × (e ≤ length text.now) × (1 ≤ limit) × (limit ≤ 4294967296) }
    ensures { result ≡ below limit (spelt text.now start (e - start) 0) }
{
    let mut v = 0;
    for i in start..e {
        if !is_digit(text[i]) {
            return None;
        }
        v = 10 * v + u64::from(text[i] - b'0');
        if limit <= v {
            return None;
        }
    }
    Some(v)
}

// The number from `start` to before e: at least one digit, digits only, below the limit.
#[tactic(auto, unfolding(crate::specs::Entries::numeral_in))]
fn numeral_in(text: &[u8], start: usize, e: usize, limit: u64) -> Option<u64>
    requires { (start ≤ e) × (e ≤ length text.now) × (1 ≤ limit) × (limit ≤ 4294967296) }
    ensures { result ≡ numeral_in text.now start e limit }
{
    if e <= start {
        return None;
    }
    spell(text, start, e, limit)
}

// The first word from `start` on, before e, as a number below the limit.
#[tactic(auto, unfolding(crate::specs::Entries::word_number))]
pub fn word_number(text: &[u8], start: usize, e: usize, limit: u64) -> Option<u64>
    requires { (start ≤ e) × (e ≤ length text.now) × (1 ≤ limit) × (limit ≤ 4294967296) }
    ensures { result ≡ word_number text.now start e limit }
{
    let a = word_from(text, start, e);
    let b = word_to(text, a, e);
    numeral_in(text, a, b, limit)
}

// Where that word ends.
#[tactic(auto, unfolding(crate::specs::Entries::word_past))]
pub fn word_past(text: &[u8], start: usize, e: usize) -> usize
    requires { (start ≤ e) × (e ≤ length text.now) }
    ensures { (result ≡ word_past text.now start e) × (start ≤ result) × (result ≤ e) }
{
    let a = word_from(text, start, e);
    word_to(text, a, e)
}
