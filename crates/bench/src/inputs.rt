// Circuit files with faults put in.
// Records stand in lent bytes, so loops go over their places.
ghost use Rattle.std.specs.Prelude.{◌≡◌, ◌*◌, ◌<◌, ◌≤◌, length};

use records::Circuit;
use refusals::Reason;

// Two faults of the refusal table; a file with one has it twice.
#[derive(Clone, Copy, Debug, PartialEq, Eq)]
pub struct Faults {
    pub one: Reason,
    pub other: Reason,
}

impl Faults {
    // Whether a fault is one of the two.
    pub fn has(self, fault: Reason) -> bool {
        self.one == fault || self.other == fault
    }
}

// Whether the file has a fault, if it has any.
pub fn has(faults: Option<Faults>, fault: Reason) -> bool {
    faults.is_some_and(|f| f.has(fault))
}

// The number of record k, counted from 0: record 3 has fault 5, and record 1 has fault 7. So a fault with a lower number stands later.
fn number(k: usize, faults: Option<Faults>) -> u32
    requires { k < 2049 }
{
    match k {
        3 if has(faults, Reason::NumberZero) => 0,
        1 if has(faults, Reason::NumberTwice) => 1,
        _ => (k + 1) as u32,
    }
}

// How many links further than the first record k stands: none, or in a chain two for each two records.
fn along(k: usize, chain: bool) -> u16
    requires { k < 2049 }
    ensures { result ≤ 2048 }
{
    if chain {
        return ((k + 1) / 2 * 2) as u16;
    }
    0
}

// The first link of record k: record 2 has fault 6.
fn first(k: usize, chain: bool, faults: Option<Faults>) -> u16
    requires { k < 2049 }
{
    if k == 2 && has(faults, Reason::WrongEnd) {
        return 600;
    }
    1 + along(k, chain)
}

// Fills the start of a buffer with circuits numbered from 1 and with the given faults. The first runs from link 1 to `last`, and so do the others, or they stand along a chain.
pub fn fill(buf: &mut [u8], many: usize, last: u16, chain: bool, faults: Option<Faults>)
    requires { (many ≤ 2049) × (8 * many ≤ length buf.old) × (last ≤ 512) }
{
    for k in 0..many {
        let c = Circuit {
            number: number(k, faults),
            first: first(k, chain, faults),
            last: last + along(k, chain),
        };
        records::put_record(buf, k, c);
    }
}
