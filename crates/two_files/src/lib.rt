// Tests of two files of circuits, the old one first: places in the new file count on from the old one.
// The lent areas go one by one: a struct that holds them by reference makes clauses say `.entry.` of each field.
#![tactic(auto)]

ghost use Rattle.std.specs.Prelude.{◌≡◌, ◌++◌, ◌+◌, ◌*◌, ◌≤◌, length};
ghost use Rattle.refusals.specs.Table.{tested, row5, row6, row7};
ghost use Rattle.text.specs.Wrote.{Wrote};
ghost use Rattle.two_files.specs.Rows.{later, row14};
ghost use Rattle.two_files.specs.Joint.{place_of, counted_on, Unlike};

use refusals::{Reason, Refusal};

pub mod admit;

// What a test of the new file answers: a refusal's place counts on from the k records of the old one.
fn counted_on(t: Result<usize, Refusal>, k: usize) -> Result<usize, Refusal>
    requires { (place_of t ≤ 2048) × (k ≤ 2048) }
    ensures { result ≡ counted_on k t }
{
    t.map_err(|r| Refusal {
        place: k as u32 + r.place,
        ..r
    })
}

// 5 of the joined file: no circuit number is 0.
pub fn numbered(old: &[u8], k: usize, new: &[u8], m: usize) -> Result<usize, Refusal>
    requires { (8 * k ≡ length old.now) × (8 * m ≤ length new.now) × (k + m ≤ 2048) }
    ensures { result ≡ tested (row5 (old.now ++ new.now) (k + m)) m }
{
    refusals::numbered(old, k)?;
    counted_on(refusals::numbered(new, m), k)
}

// 6 of the joined file: every circuit lies on the line of n links.
pub fn on_line(old: &[u8], k: usize, new: &[u8], m: usize, n: usize) -> Result<usize, Refusal>
    requires { (8 * k ≡ length old.now) × (8 * m ≤ length new.now) × (k + m ≤ 2048) }
    ensures { result ≡ tested (row6 n (old.now ++ new.now) (k + m)) m }
{
    refusals::on_line(old, k, n)?;
    counted_on(refusals::on_line(new, m, n), k)
}

// 7 in the new file, after k old records: no circuit number stands twice in it.
pub fn unlike_new(new: &[u8], m: usize, k: usize) -> Result<usize, Refusal>
    requires { (8 * m ≤ length new.now) × (k + m ≤ 2048) }
    ensures { result ≡ tested (later k (row7 new.now m)) m }
{
    counted_on(refusals::unlike(new, m), k)
}

// The joined file, at the start of a lent list. What is told: how many bytes.
pub fn join(old: &[u8], new: &[u8], out: &mut [u8]) -> usize
    requires { length old.now + length new.now ≤ length out.old }
    ensures { Wrote (old.now ++ new.now) result out.old out.new }
{
    let a = text::write_words(old, out);
    a + text::write_words(new, &mut out[a..])
}

// 14: no new record has a number of the old file. Where no number stands twice in either file, the first such record is the first to repeat one in the joined file.
pub fn unlike_old(old: &[u8], k: usize, new: &[u8], m: usize) -> Result<usize, Refusal>
    requires k_value { (8 * k ≡ length old.now) × (8 * m ≡ length new.now) × (k + m ≤ 2048) }
    requires unlike { Unlike old.now k new.now m }
    ensures { result ≡ tested (row14 old.now k new.now m) m }
{
    let mut joined: [u8; 16384] = [0; 16384];
    join(old, new, &mut joined);
    refusals::unlike(&joined, k + m).map_err(|r| Refusal::at(Reason::NumberTaken, r.place))?;
    Ok(m)
}
