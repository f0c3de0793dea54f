// Text at the start of a lent buffer: a byte, words, a number.
#![tactic(auto)]

ghost use Rattle.std.specs.Prelude.{[], ◌∷◌, ◌++◌, ◌+◌, ◌≤◌, length};
ghost use Rattle.text.specs.Decimals.{decimal};
ghost use Rattle.text.specs.Wrote.{Wrote};

// One byte.
#[tactic(auto, using(crate::proofs::Writing::first_byte))]
pub fn write_byte(v: u8, out: &mut [u8])
    requires { 1 ≤ length out.old }
    ensures { Wrote (v ∷ []) 1 out.old out.new }
{
    out[0] = v;
}

// All bytes of some words. What is told: how many.
pub fn write_words(words: &[u8], out: &mut [u8]) -> usize
    requires { length words.now ≤ length out.old }
    ensures { Wrote words.now result out.old out.new }
{
    let n = words.len();
    out[..n].copy_from_slice(words);
    n
}

// x in decimal: all digits but the last, then the last. What is told: how many.
// It calls itself, since no clause says which bytes std's `write!` leaves in a slice.
pub fn write_decimal(x: usize, out: &mut [u8]) -> usize
    requires { length (decimal x) ≤ length out.old }
    ensures { Wrote (decimal x) result out.old out.new }
{
    if x < 10 {
        out[0] = b'0' + x as u8;
        return 1;
    }
    let n = write_decimal(x / 10, out);
    out[n] = b'0' + (x % 10) as u8;
    n + 1
}

// Words, x in decimal, and words again. What is told: how many bytes.
#[tactic(auto, using(crate::proofs::Lengths::length_twenty, crate::proofs::Writing::then_part))]
pub fn write_between(before: &[u8], x: usize, after: &[u8], out: &mut [u8]) -> usize
    requires { length before.now + 20 + length after.now ≤ length out.old }
    ensures { Wrote (before.now ++ decimal x ++ after.now) result out.old out.new }
{
    let a = write_words(before, out);
    let b = a + write_decimal(x, &mut out[a..]);
    b + write_words(after, &mut out[b..])
}
